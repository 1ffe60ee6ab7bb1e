//! The pairs of a query, printed.
ghost use Rattle.std.specs.Prelude.{◌≡◌, ◌≢◌, ◌++◌, codes, map, string_bytes, IfErr, IfOk, IsErrOf};
ghost use Rattle.std.specs.Prelude.{OnOk};
ghost use Rattle.std.specs.Io.KnownBytes.{Appends};
ghost use Rattle.fluent_uri.specs.Prelude.{IsValidFor};
ghost use Rattle.fluent_uri.specs.Prelude.{query_set};
ghost use Rattle.uri_query.specs.Pairs.{decode_pairs, pair_texts, query_text};
ghost use Rattle.cookbook.specs.PairLines.{lines_text};

use crate::refusal::Failure;
use fluent_uri::pct_enc::EStr;
use fluent_uri::pct_enc::encoder::Query;
use std::alloc::{AllocError, Global};
use std::io::Write;
use uri_query::{Pair, pairs_of, query_of};

/// Parses a text as a query. Writes each of its decoded pairs as a line `name is value`, and then
/// the query that `query_of` makes of them.
///
/// # Errors
///
/// `Query` exactly if the text is not a query; `OutOfMemory` if allocation fails, and
/// `OutputFailed` if the writer fails.
pub fn print_pairs<O: Write>(alloc: Global, text: &str, out: &mut O) -> Result<(), Failure>
    ensures printed { OnOk result (Appends (O.contents out.old) (O.contents out.new)
        (lines_text (decode_pairs text.now)
        ++ (query_text (decode_pairs text.now) ++ codes "\n"))) }
    ensures no_query { ¬ (IsValidFor query_set text.now) → IsErrOf result Failure.Query }
    ensures refused { IsValidFor query_set text.now → IfErr result (λ e. e ≢ Failure.OutOfMemory
        → e ≡ Failure.OutputFailed) }
{
    let query = EStr::<Query>::new(text).ok_or(Failure::Query)?;
    let pairs = pairs_of(alloc, query)?;
    let lines = lines_of(alloc, pairs.as_slice())?;
    let again = query_of(alloc, pairs.as_slice())?;
    writeln!(out, "{lines}{again}")?;
    Ok(())
}

/// Returns a line for each pair of a query, `name is value`.
fn lines_of(alloc: Global, pairs: &[Pair]) -> Result<String, AllocError>
    ensures { IfOk result (λ lines. string_bytes lines ≡ lines_text (map pair_texts pairs.now)) }
{
    let mut lines = String::new(alloc);
    for pair in pairs {
        lines.push_str(pair.name.as_str())?;
        lines.push_str(" is ")?;
        lines.push_str(pair.value.as_str())?;
        lines.push('\n')?;
    }
    Ok(lines)
}
