//! Runs without octets, appended as they are or with their letters lowered (RFC 3986, section
//! 6.2.2.1).
ghost use Rattle.std.specs.Prelude.{◌≡◌, OnOk};
ghost use Rattle.std.specs.Char.{to_ascii_lowercase};
ghost use Rattle.std.specs.Str.{str_to_ascii_lowercase};
ghost use Rattle.uri_pct.specs.Prelude.{Pushes};
ghost use Rattle.uri_ops.specs.Models.Decodings.{lowered_code_if, lowered_text_if};

use crate::normalize::room::{put_bytes, take_bytes};
use std::alloc::AllocError;

/// Appends a run without octets to a normal text. An empty one and one of a byte cost no call.
#[inline(always)]
pub(crate) fn push_short_str(text: &str, out: &mut String) -> Result<(), AllocError>
    ensures { OnOk result (Pushes out.old out.new text.now) }
{
    let bytes = text.as_bytes();
    if bytes.is_empty() {
        return Ok(());
    }
    if bytes.len() == 1 && bytes[0].is_ascii() {
        return out.push(char::from(bytes[0]));
    }
    out.push_str(text)
}

/// Each byte, an upper-case ASCII letter in lower case.
const LOWERED: &[u8; 256] = &[
    0, 1, 2, 3, 4, 5, 6, 7, 8, 9, 10, 11, 12, 13, 14, 15, // 00
    16, 17, 18, 19, 20, 21, 22, 23, 24, 25, 26, 27, 28, 29, 30, 31, // 10
    32, 33, 34, 35, 36, 37, 38, 39, 40, 41, 42, 43, 44, 45, 46, 47, // 20
    48, 49, 50, 51, 52, 53, 54, 55, 56, 57, 58, 59, 60, 61, 62, 63, // 30
    64, 97, 98, 99, 100, 101, 102, 103, 104, 105, 106, 107, 108, 109, 110, 111, // 40
    112, 113, 114, 115, 116, 117, 118, 119, 120, 121, 122, 91, 92, 93, 94, 95, // 50
    96, 97, 98, 99, 100, 101, 102, 103, 104, 105, 106, 107, 108, 109, 110, 111, // 60
    112, 113, 114, 115, 116, 117, 118, 119, 120, 121, 122, 123, 124, 125, 126, 127, // 70
    128, 129, 130, 131, 132, 133, 134, 135, 136, 137, 138, 139, 140, 141, 142, 143, // 80
    144, 145, 146, 147, 148, 149, 150, 151, 152, 153, 154, 155, 156, 157, 158, 159, // 90
    160, 161, 162, 163, 164, 165, 166, 167, 168, 169, 170, 171, 172, 173, 174, 175, // A0
    176, 177, 178, 179, 180, 181, 182, 183, 184, 185, 186, 187, 188, 189, 190, 191, // B0
    192, 193, 194, 195, 196, 197, 198, 199, 200, 201, 202, 203, 204, 205, 206, 207, // C0
    208, 209, 210, 211, 212, 213, 214, 215, 216, 217, 218, 219, 220, 221, 222, 223, // D0
    224, 225, 226, 227, 228, 229, 230, 231, 232, 233, 234, 235, 236, 237, 238, 239, // E0
    240, 241, 242, 243, 244, 245, 246, 247, 248, 249, 250, 251, 252, 253, 254, 255, // F0
];

/// Returns the byte, an upper-case ASCII letter in lower case.
#[inline(always)]
fn lowered(byte: u8) -> u8
    ensures { result ≡ to_ascii_lowercase byte }
{
    LOWERED[usize::from(byte)]
}

/// Returns the byte, an upper-case ASCII letter in lower case if `lowers`.
#[inline(always)]
pub(crate) fn lowered_code_if(lowers: bool, byte: u8) -> u8
    ensures { result ≡ lowered_code_if lowers byte }
{
    if lowers { lowered(byte) } else { byte }
}

/// Appends the text with its ASCII letters in lower case.
pub(crate) fn push_lower(text: &str, out: &mut String) -> Result<(), AllocError>
    ensures { OnOk result (Pushes out.old out.new (str_to_ascii_lowercase text.now)) }
{
    out.reserve(text.len())?;
    let mut bytes = take_bytes(out);
    for &byte in text.as_bytes() {
        bytes.push_reserved(lowered(byte));
    }
    put_bytes(bytes, out);
    Ok(())
}

/// Appends a run without octets, with its letters lowered if `lowers`. An empty one costs no call.
#[inline(always)]
pub(crate) fn push_literal(lowers: bool, text: &str, out: &mut String) -> Result<(), AllocError>
    ensures { OnOk result (Pushes out.old out.new (lowered_text_if lowers text.now)) }
{
    if text.is_empty() {
        return Ok(());
    }
    if lowers {
        push_lower(text, out)
    } else {
        push_short_str(text, out)
    }
}
