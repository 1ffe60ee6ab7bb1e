//! Decoding of unreserved octets in components (RFC 3986, sections 6.2.2.1 and 6.2.2.2; RFC 3987,
//! sections 4.1 and 5.3.2.3).
ghost use Rattle.std.specs.Prelude.{◌≡◌, ◌&&◌, OnOk};
ghost use Rattle.uri_pct.specs.Prelude.{IsValidFor, Pushes, decode_tokens, decode_unreserved, print, set_of, text_of, tokens, widest_set};
ghost use Rattle.uri_ops.specs.Models.Decodings.{lowered_if};

use crate::normalize::formatting::encode_formatting;
use crate::normalize::literal_runs::push_literal;
use crate::normalize::octet_runs::push_unreserved_run;
use crate::normalize::octets::{
    are_uppercase_digits, octet_digits, push_decoded_octet, push_octet, push_unreserved,
    unreserved_of_octet,
};
use crate::normalize::short_components::push_short;
use std::alloc::AllocError;
use uri_pct::decode::{Decode, unencoded_len};
use uri_pct::encode::{push_octets, push_text};
use uri_pct::encoder::Encoder;
use uri_pct::lanes::LANES;
use uri_pct::octet::octet_value;
use uri_pct::pct_enc::EStr;
use uri_pct::table::Table;
use uri_pct::utf8_runs::TakeParts;

/// A text to which a component is appended with its decodable octets decoded, and with its letters
/// lowered if `lowers`.
#[derive(Drop)]
struct Decoding<'a> {
    table: Table,
    lowers: bool,
    text: &'a mut String,
}

impl<'a> TakeParts for Decoding<'a> {
    ghost use Rattle.uri_ops.specs.Models.Decodings.{AppendsDecodedParts, took_nothing, took_on};

    ghost took = { AppendsDecodedParts };

    ghost takes_no_parts = { took_nothing };

    ghost takes_appended_parts = { took_on };

    /// Appends literal text to a normal component, with its letters lowered if the decoding lowers
    /// them.
    fn take_unencoded(&mut self, text: &str) -> Result<(), AllocError> {
        push_literal(self.lowers, text, self.text)
    }

    /// Appends characters past ASCII that octets decode to, to a normal component: the decodable
    /// ones as they are, and else as octets.
    fn take_well_formed(&mut self, text: &str) -> Result<(), AllocError> {
        push_text(&self.table.decodable(), text, self.text)
    }

    /// Appends an octet of an ASCII character to a normal component, decoded if the character is
    /// unreserved.
    fn take_ascii(&mut self, byte: u8) -> Result<(), AllocError> {
        push_decoded_octet(self.lowers, byte, self.text)
    }

    /// Appends a maximal ill-formed part of a run of octets to a normal component, as octets.
    fn take_ill_formed(&mut self, bytes: &[u8]) -> Result<(), AllocError> {
        push_octets(bytes, self.text)
    }
}

/// Returns whether a component decoded by the table gets octets for its formatting characters of
/// bidirectional text: the table allows both.
#[tactic(auto, using(crate::proofs::Meanings::WrittenFormatting::set_allows_formatting_by_ucschar))]
fn encodes_formatting(table: &Table) -> bool
    ensures { result ≡ ((set_of table.now).ucschar && (set_of table.now).pct_encoded) }
{
    table.allows_some_past_ascii() && table.allows('\u{200E}') && table.allows_pct_encoded()
}

/// Appends the parts of the text with their decodable octets decoded, and with letters lowered if
/// `lowers`.
///
/// It is a function of its own, since most texts have no part that needs a window.
#[inline(never)]
fn push_decoded_parts(
    table: &Table,
    lowers: bool,
    text: &str,
    out: &mut String,
) -> Result<(), AllocError>
    requires { IsValidFor widest_set text.now }
    ensures { OnOk result (Pushes out.old out.new
        (print (lowered_if lowers (decode_tokens (set_of table.now) (tokens text.now))))) }
{
    let mut decoding = Decoding {
        table: *table,
        lowers,
        text: out,
    };
    Decode::of_text(text).take_parts(&mut decoding)?;
    Ok(())
}

/// Appends the tokens of the text with decodable octets decoded, and with letters lowered if
/// `lowers`. It copies runs that are unchanged, and between them decodes octets one by one. At
/// the first octet past ASCII of an IRI it calls `push_decoded_parts`.
fn push_decoded_runs(
    table: &Table,
    lowers: bool,
    text: &str,
    out: &mut String,
) -> Result<(), AllocError>
    requires { IsValidFor widest_set text.now }
    ensures { OnOk result (Pushes out.old out.new
        (print (lowered_if lowers (decode_tokens (set_of table.now) (tokens text.now))))) }
{
    let alone = !table.allows_some_past_ascii();
    let bytes = text.as_bytes();
    let mut done = 0;
    let mut end = 0;
    while end < bytes.len() {
        if bytes[end] != b'%' {
            end += unencoded_len(&text[end..]);
            continue;
        }
        let (high, low) = octet_digits(text, end);
        if let Some(ch) = unreserved_of_octet(lowers, high, low) {
            push_literal(lowers, &text[done..end], out)?;
            push_unreserved(ch, out)?;
            end = push_unreserved_run(lowers, text, end + 3, out)?;
            done = end;
            continue;
        }
        if high >= b'8' && !alone {
            push_literal(lowers, &text[done..end], out)?;
            return push_decoded_parts(table, lowers, &text[end..], out);
        }
        if !lowers && are_uppercase_digits(high, low) {
            end += 3;
            continue;
        }
        push_literal(lowers, &text[done..end], out)?;
        push_octet(octet_value(high, low), out)?;
        end += 3;
        done = end;
    }
    push_literal(lowers, &text[done..], out)
}

/// Appends the text with its decodable octets decoded, and with its letters lowered if `lowers`. It
/// copies runs, and searches for formatting characters if the table allows them.
#[inline(never)]
fn push_decoded_by_runs(
    table: &Table,
    lowers: bool,
    text: &str,
    out: &mut String,
) -> Result<(), AllocError>
    requires { IsValidFor widest_set text.now }
    ensures { OnOk result (Pushes out.old out.new
        (print (lowered_if lowers (decode_unreserved (set_of table.now) text.now)))) }
{
    let start = out.as_str().len();
    push_decoded_runs(table, lowers, text, out)?;
    if encodes_formatting(table) {
        encode_formatting(start, out)
    } else {
        Ok(())
    }
}

/// Appends the text with its decodable octets decoded, and with its ASCII letters in lower case,
/// also those that were octets, if `lowers`. Every other octet gets upper-case digits, formatting
/// characters of bidirectional text become octets, and all else is unchanged.
///
/// After an error, part of it may have been appended.
///
/// It is inlined, where the table is a constant. Only a copy is passed on, so that no table is
/// written to memory for a short text.
#[inline(always)]
pub(crate) fn push_decoded(
    table: &Table,
    lowers: bool,
    text: &str,
    out: &mut String,
) -> Result<(), AllocError>
    requires { IsValidFor widest_set text.now }
    ensures { OnOk result (Pushes out.old out.new
        (print (lowered_if lowers (decode_unreserved (set_of table.now) text.now)))) }
{
    if text.len() < LANES && push_short(!table.allows_some_past_ascii(), lowers, text, out) {
        return Ok(());
    }
    let table = *table;
    push_decoded_by_runs(&table, lowers, text, out)
}

/// Appends a component with its decodable octets decoded, by the table of its encoder.
///
/// After an error, part of it may have been appended.
#[inline(always)]
pub(crate) fn push_decoded_component<E: Encoder>(
    component: EStr<'_, E>,
    out: &mut String,
) -> Result<(), AllocError>
    ensures { OnOk result (Pushes out.old out.new
        (print (decode_unreserved E.set (text_of component.entry)))) }
{
    push_decoded(&E::table(), false, component.as_str(), out)
}
