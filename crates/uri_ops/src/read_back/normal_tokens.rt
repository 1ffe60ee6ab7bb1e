//! The normal text of the last token of a component (RFC 3986, sections 6.2.2.1 and 6.2.2.2; RFC
//! 3987, sections 4.1 and 5.3.2.3).
ghost use Rattle.std.specs.Prelude.{◌≡◌, ◌<◌, ◌++◌, ◌∷◌, [], length};
ghost use Rattle.uri_pct.specs.Prelude.{Char, IsValidFor, Octet, decode_octet, formatting_as_octets, is_never_literal, print, set_of, widest_set};
ghost use Rattle.uri_ops.specs.Models.Decodings.{lowered_if};
ghost use Rattle.uri_ops.specs.FromEnd.Held.{held_text};
ghost use Rattle.uri_ops.specs.FromEnd.NormalComponents.{normal_component};

use crate::normalize::octets::unreserved;
use crate::read_back::held::Held;
use crate::read_back::last_tokens::{split_last_char, split_last_decodable, split_last_octet};
use uri_pct::table::Table;

/// Returns whether a component of the table has the character as octets alone: it is a formatting
/// character of bidirectional text, and the table allows both.
#[tactic(auto, using(crate::proofs::FromEnd::NormalTokens::never_literals))]
fn is_never_literal(table: &Table, ch: char) -> bool
    ensures { result ≡ is_never_literal (set_of table.now) ch }
{
    table.allows('\u{200E}')
        && table.allows_pct_encoded()
        && matches!(ch as u32, 0x200E | 0x200F | 0x202A..=0x202E)
}

/// Returns the normal text of a character, with a letter in lower case if `lowers`.
fn normal_char(table: &Table, lowers: bool, ch: char) -> Held
    ensures { held_text result
        ≡ print (lowered_if lowers (formatting_as_octets (set_of table.now) (Char ch))) }
{
    if is_never_literal(table, ch) {
        Held::octets(ch)
    } else if lowers {
        Held::character(ch.to_ascii_lowercase())
    } else {
        Held::character(ch)
    }
}

/// Returns the normal text of an octet of ASCII, decoded if its character is unreserved, with a
/// letter in lower case if `lowers`.
fn normal_octet(lowers: bool, value: u8) -> Held
    requires { value < 128 }
    ensures text { held_text result ≡ print (lowered_if lowers (decode_octet (Octet value) ∷ [])) }
    ensures some { 0 < length (held_text result) }
{
    match unreserved(lowers, value) {
        Some(ch) => Held::character(char::from(ch)),
        None => Held::octet(value),
    }
}

/// Returns the normal text of the last token of a component, with a letter in lower case if
/// `lowers`, and the text before the token.
pub(crate) fn split_last_token<'a>(table: &Table, lowers: bool, text: &'a str) -> (&'a str, Held)
    requires valid { IsValidFor widest_set text.now }
    requires some { 0 < length text.now }
    ensures text { normal_component lowers (set_of table.now) text.now
        ≡ normal_component lowers (set_of table.now) result.0.now ++ held_text result.1 }
    ensures valid { IsValidFor widest_set result.0.now }
    ensures some { 0 < length (held_text result.1) }
{
    let Some((before, value)) = split_last_octet(text) else {
        let (before, ch) = split_last_char(text);
        return (before, normal_char(table, lowers, ch));
    };
    if value.is_ascii() {
        return (before, normal_octet(lowers, value));
    }
    if let Some((before, ch)) = split_last_decodable(table, text) {
        return (before, normal_char(table, lowers, ch));
    }
    (before, Held::octet(value))
}
