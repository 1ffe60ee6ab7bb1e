//! Formatting characters of bidirectional text, which an IRI must not contain (RFC 3987, section
//! 4.1).
ghost use Rattle.std.specs.Prelude.{◌≡◌, ◌++◌, OnOk, string_bytes, take, drop, IsCharBoundary, chars};
ghost use Rattle.std.specs.List.{list_any};
ghost use Rattle.uri_pct.specs.Prelude.{encoded_formatting_char, encoded_formatting_text, is_bidi_formatting};

use std::alloc::AllocError;
use uri_pct::encode::push_octets;

/// Returns whether the character is LRM, RLM, LRE, RLE, PDF, LRO or RLO.
#[tactic(auto, using(std::proofs::lemmas::Bool::Decides::nat_tests), unfolding(uri_pct::specs::DecodeUnreserved::is_bidi_formatting))]
fn is_bidi_formatting(ch: char) -> bool
    ensures { result ≡ is_bidi_formatting ch }
{
    matches!(ch as u32, 0x200E | 0x200F | 0x202A..=0x202E)
}

/// Returns whether one of the text's characters is a formatting character.
fn has_formatting_char(text: &str) -> bool
    ensures { result ≡ list_any is_bidi_formatting (chars text.now) }
{
    for ch in text.chars() {
        if is_bidi_formatting(ch) {
            return true;
        }
    }
    false
}

/// Returns whether a formatting character is in the text. All begin with the byte E2, which most
/// texts have not.
fn has_formatting(text: &str) -> bool
    ensures { result ≡ list_any is_bidi_formatting (chars text.now) }
{
    text.as_bytes().contains(&0xE2) && has_formatting_char(text)
}

/// Appends the character, a formatting character as octets.
fn push_char_formatting_encoded(ch: char, out: &mut String) -> Result<(), AllocError>
    ensures { OnOk result (string_bytes out.new
        ≡ string_bytes out.old ++ encoded_formatting_char ch) }
{
    if is_bidi_formatting(ch) {
        push_octets(ch.encode_utf8(&mut [0; 4]).as_bytes(), out)
    } else {
        out.push(ch)
    }
}

/// Appends the text, with its formatting characters as octets.
fn push_with_formatting_encoded(text: &str, out: &mut String) -> Result<(), AllocError>
    ensures { OnOk result (string_bytes out.new
        ≡ string_bytes out.old ++ encoded_formatting_text text.now) }
{
    for ch in text.chars() {
        push_char_formatting_encoded(ch, out)?;
    }
    Ok(())
}

/// Writes the formatting characters from `start` on as octets. If there is none, nothing is
/// written.
///
/// After an error, what was in `out` from `start` on may be gone, wholly or in part.
#[doc(hidden)]
pub fn encode_formatting(start: usize, out: &mut String) -> Result<(), AllocError>
    requires { IsCharBoundary (string_bytes out.old) start }
    ensures { OnOk result (string_bytes out.new
        ≡ take start (string_bytes out.old) ++ encoded_formatting_text
        (drop start (string_bytes out.old))) }
{
    if !has_formatting(&out.as_str()[start..]) {
        return Ok(());
    }
    let text = out.split_off(start)?;
    push_with_formatting_encoded(&text, out)
}
