//! The lines that `parse` prints: a component of the text each.
ghost use Rattle.std.specs.Prelude.{◌≡◌, ◌||◌, IsTrue, not, option_map};
ghost use Rattle.std.specs.Io.KnownBytes.{Appends};
ghost use Rattle.uri_commands.specs.Lines.{line, optional_line, component_lines};
ghost use Rattle.uri_commands.specs.Texts.{components_in};
ghost use Rattle.fluent_uri.specs.Prelude.{components, iri_ref_text};

use crate::sink::{Sink, put_both};
use fluent_uri::IriRef;
use fluent_uri::component::{Authority, Scheme};
use fluent_uri::pct_enc::EStr;
use std::io::Write;

/// The texts of a reference's components.
#[derive(Clone, Copy)]
pub struct Texts<'a> {
    scheme: Option<&'a str>,
    authority: Option<&'a str>,
    path: &'a str,
    query: Option<&'a str>,
    fragment: Option<&'a str>,
}

impl<'a> From<IriRef<&'a str>> for Texts<'a> {
    ghost use Rattle.uri_commands.specs.Texts.{components_in};

    ghost from_gives = { λ reference texts.
        components_in texts ≡ components (iri_ref_text reference) };

    /// Returns the texts of the components of an IRI reference, of which `parse` prints lines.
    fn from(iri_ref: IriRef<&'a str>) -> Texts<'a> {
        Texts {
            scheme: iri_ref.scheme().map(Scheme::as_str),
            authority: iri_ref.authority().map(Authority::as_str),
            path: iri_ref.path().as_str(),
            query: iri_ref.query().map(EStr::as_str),
            fragment: iri_ref.fragment().map(EStr::as_str),
        }
    }
}

impl Texts<'_> {
    /// Writes a line of `parse` for each component that is present. Returns whether all were
    /// written.
    pub fn write_lines<O: Write>(self, out: &mut Sink<O>) -> bool
        ensures whole { IsTrue result → Appends (O.contents out.old.writer)
            (O.contents out.new.writer) (component_lines (components_in self.entry)) }
        ensures failed { out.new.has_failed ≡ (not result || out.old.has_failed) }
    {
        write_optional(out, "scheme", self.scheme)
            && write_optional(out, "authority", self.authority)
            && write_line(out, "path", self.path)
            && write_optional(out, "query", self.query)
            && write_optional(out, "fragment", self.fragment)
    }
}

/// Writes the line of `parse` for a component: its name, `=` and its text. Returns whether it was
/// written whole.
fn write_line<O: Write>(out: &mut Sink<O>, name: &str, text: &str) -> bool
    ensures whole { IsTrue result → Appends (O.contents out.old.writer)
        (O.contents out.new.writer) (line name.now text.now) }
    ensures failed { out.new.has_failed ≡ (not result || out.old.has_failed) }
{
    put_both(out, name.as_bytes(), b"=") && put_both(out, text.as_bytes(), b"\n")
}

/// Writes the line of `parse` for a component, if it is present. Returns false only if it was not
/// written whole.
fn write_optional<O: Write>(out: &mut Sink<O>, name: &str, text: Option<&str>) -> bool
    ensures whole { IsTrue result → Appends (O.contents out.old.writer)
        (O.contents out.new.writer) (optional_line name.now (option_map (λ t. t.now) text.entry)) }
    ensures failed { out.new.has_failed ≡ (not result || out.old.has_failed) }
{
    match text {
        Some(text) => write_line(out, name, text),
        None => true,
    }
}
