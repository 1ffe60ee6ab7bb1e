//! What ends a line, and a line with its text.
ghost use Rattle.std.specs.Prelude.{◌≡◌, ◌&&◌, IsTrue, not, IsAscii};
ghost use Rattle.std.specs.Io.BufRead.{ends_with_byte, strip_last};
ghost use Rattle.uri_streams.specs.Lines.{end_byte, has_return};
ghost use Rattle.uri_streams.specs.Models.{IsCutLine};
ghost use Rattle.uri_streams.specs.Outputs as outputs;

/// Returns the byte that ends a line: NUL if `is_null`, and otherwise a newline.
#[inline(always)]
pub(crate) fn line_ending(is_null: bool) -> u8
    ensures { result ≡ end_byte is_null }
{
    if is_null { 0 } else { b'\n' }
}

/// Returns what ends the output of a line: NUL if `is_null`, `\r` and a newline if only
/// `is_return`, and otherwise a newline.
#[inline(always)]
pub(crate) fn line_end(is_null: bool, is_return: bool) -> &'static [u8]
    ensures { result.now ≡ outputs.line_ending is_null (not is_null && is_return) }
{
    if is_null {
        b"\0"
    } else if is_return {
        b"\r\n"
    } else {
        b"\n"
    }
}

/// A line of an input, with its text and what ends its output.
#[derive(Clone, Copy)]
pub(crate) struct Line<'a> {
    /// The bytes of the line, with what ends it.
    pub bytes: &'a [u8],
    /// The text of the line, without what ends it.
    pub text: &'a [u8],
    /// Whether the text is known to be ASCII.
    pub is_ascii: bool,
    /// What ends the output of the line.
    pub end: &'a [u8],
}

impl<'a> Line<'a> {
    /// Returns the line of these bytes, of which the last ends it: NUL if `is_null`, and otherwise
    /// a newline, which may have `\r` before it. What ended the line ends its output.
    #[inline(always)]
    pub(crate) fn ended(is_null: bool, is_ascii: bool, bytes: &'a [u8]) -> Line<'a>
        requires ended { IsTrue (ends_with_byte (end_byte is_null) bytes.now) }
        requires ascii { IsTrue is_ascii → IsAscii bytes.now }
        ensures bytes { result.bytes.now ≡ bytes.now }
        ensures cut { IsCutLine is_null result }
        ensures end { result.end.now ≡ outputs.line_ending is_null (has_return is_null bytes.now) }
    {
        let last = bytes.len() - 1;
        // Where nothing is before the end, the end is tested itself.
        let is_return = !is_null & (bytes[last.saturating_sub(1)] == b'\r');
        let length = last - is_return as usize;
        Line {
            bytes,
            text: &bytes[..length],
            is_ascii,
            end: &bytes[length..],
        }
    }

    /// Returns the line of these bytes. NUL ends it if `is_null`, and otherwise a newline, or `\r`
    /// and a newline. What ends its output is what ended it, or would have ended the last one.
    pub(crate) fn new(is_null: bool, is_ascii: bool, bytes: &'a [u8]) -> Line<'a>
        requires { IsTrue is_ascii → IsAscii bytes.now }
        ensures bytes { result.bytes.now ≡ bytes.now }
        ensures cut { IsCutLine is_null result }
        ensures end { result.end.now ≡ outputs.line_ending is_null (has_return is_null bytes.now) }
    {
        let text = strip_last_byte(line_ending(is_null), bytes);
        let is_return = !is_null && ends_with(b'\n', bytes) && ends_with(b'\r', text);
        Line {
            bytes,
            text: if is_return {
                strip_last_byte(b'\r', text)
            } else {
                text
            },
            is_ascii,
            end: line_end(is_null, is_return),
        }
    }
}

/// Returns whether `byte` is the last of the bytes.
#[inline(always)]
pub(crate) fn ends_with(byte: u8, bytes: &[u8]) -> bool
    ensures { result ≡ ends_with_byte byte bytes.now }
{
    !bytes.is_empty() && bytes[bytes.len() - 1] == byte
}

/// Returns the bytes without their last one, if it is `byte`.
#[inline(always)]
pub(crate) fn strip_last_byte(byte: u8, bytes: &[u8]) -> &[u8]
    ensures { result.now ≡ strip_last byte bytes.now }
{
    if ends_with(byte, bytes) {
        &bytes[..bytes.len() - 1]
    } else {
        bytes
    }
}
