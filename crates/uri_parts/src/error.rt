//! Why the parser rejects a text.
ghost use Rattle.std.specs.Prelude.{◌≡◌, Some};
ghost use Rattle.uri_parts.specs.Printing.{error_kind_text};

use crate::printing::is_plain;
use std::error::Error;
use std::fmt;

/// What is wrong with a text that is no URI or IRI.
///
/// The kind is `UnexpectedChar` for `http://a b`, `InvalidPctEncodedOctet` for `%2`, and
/// `InvalidIpv6Addr` for `//[::1::]`.
#[derive(Clone, Copy, PartialEq, Eq)]
pub enum ParseErrorKind {
    /// A `%` that two hexadecimal digits do not follow.
    ///
    /// The index points to the `%`.
    InvalidPctEncodedOctet,
    /// A character that is not allowed there, or the end of the text where more must follow.
    ///
    /// The index points to the character, or to the end.
    UnexpectedChar,
    /// An IPv6 address in brackets that is none.
    ///
    /// The index points to the byte after the `[`.
    InvalidIpv6Addr,
}

/// Why a text is not a URI or IRI, and where. `docs/PARSE_ERRORS.md` says which of the three errors
/// a text gets, and at which index.
///
/// `http://a b` is rejected at index 8; the error prints `unexpected character at index 8`.
#[derive(Clone, Copy, PartialEq, Eq)]
pub struct ParseError {
    index: usize,
    kind: ParseErrorKind,
}

/// A byte of what a function returns, at which an error in its place has its kind. LLVM would split
/// a position that is there in two.
#[derive(Clone, Copy)]
pub(crate) struct Padding(bool);

impl Padding {
    /// The byte, which means nothing.
    pub(crate) const BYTE: Self = Padding(false);
}

/// Returns the message of a kind of parse error, such as `unexpected character`.
fn kind_text(kind: ParseErrorKind) -> &'static str
    ensures { result.now ≡ error_kind_text kind }
{
    match kind {
        ParseErrorKind::InvalidPctEncodedOctet => "invalid percent-encoded octet",
        ParseErrorKind::UnexpectedChar => "unexpected character",
        ParseErrorKind::InvalidIpv6Addr => "invalid IPv6 address",
    }
}

impl ParseError {
    ghost use Rattle.uri_parts.specs.Errors.{error_index, error_kind_of};

    /// Returns the error of this kind at a byte offset.
    #[doc(hidden)]
    pub fn new(index: usize, kind: ParseErrorKind) -> Self
        ensures index { error_index result ≡ index }
        ensures kind { error_kind_of result ≡ kind }
        ensures both { result ≡ record { index = index; kind = kind } }
    {
        ParseError { index, kind }
    }

    /// Returns where the parser rejects the text. It is a byte offset, at most the length of the
    /// text and on a character boundary.
    ///
    /// For `http://a b` it is 8, where the space is.
    pub fn index(&self) -> usize
        ensures { result ≡ error_index self.now }
    {
        self.index
    }

    /// Returns what is wrong at the index of the error.
    ///
    /// For `http://a b` it is `UnexpectedChar`.
    pub fn kind(&self) -> ParseErrorKind
        ensures { result ≡ error_kind_of self.now }
    {
        self.kind
    }
}

impl Error for ParseError {}

impl fmt::Display for ParseError {
    ghost use Rattle.uri_parts.specs.Printing.{error_text};

    ghost output = { λ error. Some (error_text error) };

    /// Prints what is wrong, and at which index.
    fn fmt<W: fmt::Write>(&self, f: &mut fmt::Formatter<W>) -> fmt::Result {
        let ParseError { index, kind } = *self;
        write!(f, "{} at index {index}", kind_text(kind))
    }
}

impl fmt::Debug for ParseErrorKind {
    ghost use Rattle.uri_parts.specs.Printing.{debug_error_kind};

    ghost debug_output = { λ kind. Some (debug_error_kind kind) };

    /// Prints the name of the kind.
    fn fmt<W: fmt::Write>(&self, f: &mut fmt::Formatter<W>) -> fmt::Result {
        f.write_str(match self {
            ParseErrorKind::InvalidPctEncodedOctet => "InvalidPctEncodedOctet",
            ParseErrorKind::UnexpectedChar => "UnexpectedChar",
            ParseErrorKind::InvalidIpv6Addr => "InvalidIpv6Addr",
        })
    }
}

impl fmt::Debug for ParseError {
    ghost use Rattle.uri_parts.specs.Printing.{debug_error};

    ghost debug_output = { λ error. Some (debug_error error) };

    /// Prints the index and the kind by name.
    fn fmt<W: fmt::Write>(&self, f: &mut fmt::Formatter<W>) -> fmt::Result {
        let ParseError { index, kind } = self;
        if is_plain(f) {
            return write!(f, "ParseError {{ index: {index:?}, kind: {kind:?} }}");
        }
        f.debug_struct("ParseError")
            .field("index", index)
            .field("kind", kind)
            .finish()
    }
}
