//! Components of which some octets are percent-encoded already, mended (RFC 3986, section 2.4).
ghost use Rattle.std.specs.Prelude.{◌≡◌, ◌++◌, ◌<◌, ◌≤◌, ℕ, IfOk, IsTrue, drop, encode_utf8, length, string_bytes, true, IsCharBoundary};
ghost use Rattle.uri_pct.specs.Prelude.{set_of};
ghost use Rattle.uri_mend.specs.MendedParts.{mended};
ghost use Rattle.fluent_uri_c.specs.Outcomes.{LeavesText};
ghost use Rattle.fluent_uri_c.specs.MendedComponents.{mend_component_result, mended_as_result};
ghost use Rattle.fluent_uri_c.specs.Results.{IsReturnedAs};

use crate::errors::{Error, Rejection};
use crate::outcome::{Outcome, put_or_report};
use crate::texts::utf8_text;
use fluent_uri::pct_enc::encoder::{Data, Encoder, Fragment, Path, Query, RegName, Userinfo};
use std::alloc::{AllocError, Global};
use uri_pct::encode::push_octets;
use uri_pct::table::Table;
use uri_pct::utf8::char_at;

/// Returns the position after the character of a component that begins at this one, or the end of
/// the component.
fn char_end(text: &str, at: usize) -> usize
    requires { IsCharBoundary text.now at }
    ensures from { at ≤ result }
    ensures boundary { IsCharBoundary text.now result }
    ensures goes { at < length text.now → at < result }
    ensures char { at < length text.now
        → (c : ℕ) × (drop at text.now ≡ encode_utf8 c ++ drop result text.now) }
    ensures last { length text.now ≤ at → result ≡ at }
{
    if at >= text.len() {
        return at;
    }
    at + char_at(text, at).len_utf8()
}

/// Returns the text of a component, mended: what the table lacks is percent-encoded, and all else
/// is unchanged, as is each `%XX`.
fn mended_by_table(table: &Table, alloc: Global, text: &str) -> Result<String, AllocError>
    requires { (set_of table.now).pct_encoded ≡ true }
    ensures { IfOk result (λ made. string_bytes made ≡ mended (set_of table.now) text.now) }
{
    let mut made = String::with_capacity(alloc, text.len())?;
    let mut done = 0;
    while done < text.len() {
        let end = table.scan(text, done);
        let next = char_end(text, end);
        made.push_str(&text[done..end])?;
        push_octets(&text.as_bytes()[end..next], &mut made)?;
        done = next;
    }
    Ok(made)
}

/// Mends bytes that C hands over as a component by the encoder's set.
fn mended_as<E: Encoder>(alloc: Global, bytes: &[u8]) -> Result<String, Rejection>
    requires { IsTrue (E.set).pct_encoded }
    ensures { IsReturnedAs string_bytes (mended_as_result E.set bytes.now) result }
{
    let text = utf8_text(bytes)?;
    Ok(mended_by_table(&E::table(), alloc, text)?)
}

/// Mends bytes that C hands over as the component with this number of the header.
fn mended_component(alloc: Global, component: u32, bytes: &[u8]) -> Result<String, Rejection>
    ensures { IsReturnedAs string_bytes (mend_component_result component bytes.now) result }
{
    match component {
        0 => mended_as::<Userinfo>(alloc, bytes),
        1 => mended_as::<RegName>(alloc, bytes),
        2 => mended_as::<Path>(alloc, bytes),
        3 => mended_as::<Query>(alloc, bytes),
        4 => mended_as::<Fragment>(alloc, bytes),
        8 => mended_as::<Data>(alloc, bytes),
        _ => Err(Rejection::of(Error::InvalidArgument)),
    }
}

/// Writes a text as a component: each `%XX` of it stays, and what the component may not have is
/// percent-encoded.
#[unsafe(no_mangle)]
pub extern "C" fn fluent_uri_mend_component(
    alloc: Global,
    component: u32,
    text: &[u8],
    out: &mut [u8],
    outcome: &mut Outcome,
) -> u32
    ensures { LeavesText (mend_component_result component text.now) out.old out.new outcome.new
        result }
{
    put_or_report(mended_component(alloc, component, text), out, outcome)
}
