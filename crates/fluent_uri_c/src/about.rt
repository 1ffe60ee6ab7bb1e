//! The versions of the library and of its normal forms, and the names and messages of its errors.
ghost use Rattle.std.specs.Prelude.{◌≡◌, Ok, option_copied};
ghost use Rattle.fluent_uri_c.specs.Names.{error_message, error_name, error_name_result, normal_version, version};
ghost use Rattle.fluent_uri_c.specs.Outcomes.{LeavesText};

use crate::errors::{Error, Rejection};
use crate::outcome::{Outcome, put, report};

/// Returns the version of the library.
#[unsafe(no_mangle)]
pub extern "C" fn fluent_uri_version() -> u32
    ensures { result ≡ version }
{
    0x000100
}

/// Returns the version of normal forms, which changes where any of them does. Forms of two versions
/// are not keys of one table.
#[unsafe(no_mangle)]
pub extern "C" fn fluent_uri_normal_version() -> u32
    ensures { result ≡ normal_version }
{
    2
}

/// Returns the name, in the header, of the error with this number, if there is one.
fn name_of(error: u32) -> Option<&'static str>
    ensures { option_copied result ≡ error_name error }
{
    match error {
        0 => Some("FLUENT_URI_OK"),
        1 => Some("FLUENT_URI_INVALID_PCT_ENCODED_OCTET"),
        2 => Some("FLUENT_URI_UNEXPECTED_CHAR"),
        3 => Some("FLUENT_URI_INVALID_IPV6_ADDR"),
        4 => Some("FLUENT_URI_NOT_UTF8"),
        5 => Some("FLUENT_URI_BASE_WITH_FRAGMENT"),
        6 => Some("FLUENT_URI_INVALID_REFERENCE_AGAINST_OPAQUE_BASE"),
        7 => Some("FLUENT_URI_PATH_UNDERFLOW"),
        8 => Some("FLUENT_URI_OUT_OF_MEMORY"),
        9 => Some("FLUENT_URI_INVALID_ARGUMENT"),
        10 => Some("FLUENT_URI_FULL"),
        11 => Some("FLUENT_URI_NONEMPTY_ROOTLESS_PATH"),
        12 => Some("FLUENT_URI_PATH_STARTS_WITH_DOUBLE_SLASH"),
        13 => Some("FLUENT_URI_FIRST_PATH_SEGMENT_CONTAINS_COLON"),
        14 => Some("FLUENT_URI_MISSING_COMPONENT"),
        15 => Some("FLUENT_URI_NAME_NOT_UTF8"),
        16 => Some("FLUENT_URI_INVALID_NAME"),
        _ => None,
    }
}

/// Writes the name, in the header, of the error with this number.
#[unsafe(no_mangle)]
pub extern "C" fn fluent_uri_error_name(error: u32, out: &mut [u8], outcome: &mut Outcome) -> u32
    ensures { LeavesText (error_name_result error) out.old out.new outcome.new result }
{
    match name_of(error) {
        Some(name) => {
            put(name.as_bytes(), out, outcome);
            0
        }
        None => report(Rejection::of(Error::InvalidArgument), outcome),
    }
}

/// Returns the message of the error with this number, or that it is unknown.
fn message_of(error: u32) -> &'static str
    ensures { result.now ≡ error_message error }
{
    match error {
        0 => "no error",
        1 => "invalid percent-encoded octet",
        2 => "unexpected character",
        3 => "invalid IPv6 address",
        4 => "not UTF-8",
        5 => "base should not have fragment",
        6 => {
            "when base has a rootless path and no authority, reference should either have scheme, \
            be empty or start with '#'"
        }
        7 => "underflow occurred in path resolution",
        8 => "out of memory",
        9 => "invalid argument",
        10 => "output too small",
        11 => "when authority is present, path should either be empty or start with '/'",
        12 => "when authority is not present, path should not start with \"//\"",
        13 => {
            "when neither scheme nor authority is present, first path segment should not \
            contain ':'"
        }
        14 => "missing component",
        15 => "registered name does not decode to valid UTF-8",
        16 => "invalid domain name",
        _ => "unknown error",
    }
}

/// Writes what is wrong, by the number of an error: the message of the crate's error, without an
/// index. Of a number that no error has it writes that the error is unknown.
#[unsafe(no_mangle)]
pub extern "C" fn fluent_uri_error_message(error: u32, out: &mut [u8], outcome: &mut Outcome) -> u32
    ensures { LeavesText (Ok (error_message error)) out.old out.new outcome.new result }
{
    put(message_of(error).as_bytes(), out, outcome);
    0
}
