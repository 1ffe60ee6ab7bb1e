//! The line for words that make no command.
ghost use Rattle.std.specs.Prelude.{◌≡◌, ◌||◌, IsTrue, not, flat_map};
ghost use Rattle.std.specs.Io.KnownBytes.{Appends};
ghost use Rattle.uri_commands.specs.Prefixes.{AppendsPrefix};
ghost use Rattle.uri_commands.specs.Refusals.{usage_line};

use crate::sink::Sink;
use crate::table::{LINKS, MEND, NORMALIZE, PARSE, RESOLVE};
use std::io::Write;

/// Writes the usage line of `uritool`. Returns whether it was written whole. If it was not, the
/// writer failed, and got a prefix of the line.
pub fn show_usage<E: Write>(err: &mut Sink<E>) -> bool
    ensures whole { IsTrue result → Appends (E.contents err.old.writer)
        (E.contents err.new.writer) usage_line }
    ensures prefix { AppendsPrefix (E.contents err.old.writer)
        (E.contents err.new.writer) usage_line }
    ensures failed { err.new.has_failed ≡ (not result || err.old.has_failed) }
{
    let texts = [
        "usage: uritool ",
        PARSE.form,
        " | ",
        NORMALIZE.form,
        " | ",
        MEND.form,
        " | ",
        RESOLVE.form,
        " | ",
        LINKS.form,
        "\n",
    ];
    put_all(err, &texts)
}

/// Writes texts, one after the other. Returns whether all were written whole.
fn put_all<E: Write>(err: &mut Sink<E>, texts: &[&str]) -> bool
    ensures whole { IsTrue result → Appends (E.contents err.old.writer)
        (E.contents err.new.writer) (flat_map (λ text. text.now) texts.now) }
    ensures prefix { AppendsPrefix (E.contents err.old.writer)
        (E.contents err.new.writer) (flat_map (λ text. text.now) texts.now) }
    ensures failed { err.new.has_failed ≡ (not result || err.old.has_failed) }
{
    for text in texts {
        if !err.put(text.as_bytes()) {
            return false;
        }
    }
    true
}
