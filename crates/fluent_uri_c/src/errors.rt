//! Why a call rejects its arguments.
ghost use Rattle.std.specs.Prelude.{◌≡◌, ◌≢◌, ◌≤◌};
ghost use Rattle.fluent_uri_c.specs.Errors.{in_component, in_reference, number_of, rejected, rejected_at};

use fluent_uri::resolve::ResolveError;
use fluent_uri::{ParseError, ParseErrorKind};
use std::alloc::AllocError;
use uri_basic::BasicResolveError;
use uri_mend::MendError;

/// What is wrong: the errors of the header.
#[derive(Clone, Copy)]
pub enum Error {
    InvalidPctEncodedOctet,
    UnexpectedChar,
    InvalidIpv6Addr,
    NotUtf8,
    BaseWithFragment,
    InvalidReferenceAgainstOpaqueBase,
    PathUnderflow,
    OutOfMemory,
    InvalidArgument,
    Full,
    NonemptyRootlessPath,
    PathStartsWithDoubleSlash,
    FirstPathSegmentContainsColon,
    MissingComponent,
    NameNotUtf8,
    InvalidName,
}

impl Error {
    /// Returns the number of the error in the header, from 1 to 16.
    pub fn number(self) -> u32
        ensures number { result ≡ number_of self }
        ensures error { result ≢ 0 }
        ensures small { result ≤ 16 }
    {
        match self {
            Error::InvalidPctEncodedOctet => 1,
            Error::UnexpectedChar => 2,
            Error::InvalidIpv6Addr => 3,
            Error::NotUtf8 => 4,
            Error::BaseWithFragment => 5,
            Error::InvalidReferenceAgainstOpaqueBase => 6,
            Error::PathUnderflow => 7,
            Error::OutOfMemory => 8,
            Error::InvalidArgument => 9,
            Error::Full => 10,
            Error::NonemptyRootlessPath => 11,
            Error::PathStartsWithDoubleSlash => 12,
            Error::FirstPathSegmentContainsColon => 13,
            Error::MissingComponent => 14,
            Error::NameNotUtf8 => 15,
            Error::InvalidName => 16,
        }
    }
}

/// Why a call rejects its arguments: what is wrong, in which of its texts, and where in that text.
#[derive(Clone, Copy)]
pub struct Rejection {
    pub error: Error,
    pub which: u32,
    pub index: usize,
}

impl Rejection {
    /// Returns the rejection for an error that is at no index of a text.
    pub fn of(error: Error) -> Rejection
        ensures { result ≡ rejected error }
    {
        Rejection::at(error, 0)
    }

    /// Returns the rejection for an error at an index of the first text.
    pub fn at(error: Error, index: usize) -> Rejection
        ensures { result ≡ rejected_at error index }
    {
        Rejection {
            error,
            which: 0,
            index,
        }
    }

    /// Returns the rejection, said of the component with this number of the header.
    pub fn in_component(self, which: u32) -> Rejection
        ensures { result ≡ in_component which self }
    {
        Rejection {
            error: self.error,
            which,
            index: self.index,
        }
    }

    /// Returns the rejection, said of the reference, which is the second text of its call.
    pub fn in_reference(self) -> Rejection
        ensures { result ≡ in_reference self }
    {
        Rejection {
            error: self.error,
            which: 1,
            index: self.index,
        }
    }
}

impl From<ParseError> for Rejection {
    ghost use Rattle.fluent_uri_c.specs.Errors.{parse_rejection};

    ghost from_gives = { λ error why. why ≡ parse_rejection error };

    /// Returns the rejection, by a number of the header, for a parse error.
    fn from(error: ParseError) -> Rejection {
        let number = match error.kind() {
            ParseErrorKind::InvalidPctEncodedOctet => Error::InvalidPctEncodedOctet,
            ParseErrorKind::UnexpectedChar => Error::UnexpectedChar,
            ParseErrorKind::InvalidIpv6Addr => Error::InvalidIpv6Addr,
        };
        Rejection {
            error: number,
            which: 0,
            index: error.index(),
        }
    }
}

impl From<ResolveError> for Rejection {
    ghost use Rattle.fluent_uri_c.specs.Errors.{resolve_rejection};

    ghost from_gives = { λ error why. why ≡ resolve_rejection error };

    /// Returns the rejection, by a number of the header, for an error of resolving.
    fn from(error: ResolveError) -> Rejection {
        Rejection::of(match error {
            ResolveError::BaseWithFragment => Error::BaseWithFragment,
            ResolveError::InvalidReferenceAgainstOpaqueBase => {
                Error::InvalidReferenceAgainstOpaqueBase
            }
            ResolveError::PathUnderflow => Error::PathUnderflow,
            ResolveError::OutOfMemory => Error::OutOfMemory,
        })
    }
}

impl From<BasicResolveError> for Rejection {
    ghost use Rattle.fluent_uri_c.specs.Errors.{basic_resolve_rejection};

    ghost from_gives = { λ error why. why ≡ basic_resolve_rejection error };

    /// Returns the rejection, by a number of the header, for an error of the basic algorithm.
    fn from(error: BasicResolveError) -> Rejection {
        Rejection::of(match error {
            BasicResolveError::PathStartsWithDoubleSlash => Error::PathStartsWithDoubleSlash,
            BasicResolveError::OutOfMemory => Error::OutOfMemory,
        })
    }
}

impl From<MendError> for Rejection {
    ghost use Rattle.fluent_uri_c.specs.Errors.{mend_rejection};

    ghost from_gives = { λ error why. why ≡ mend_rejection error };

    /// Returns the rejection, by a number of the header, for an error of mending.
    fn from(error: MendError) -> Rejection {
        match error {
            MendError::Unmendable(error) => Rejection::from(error),
            MendError::OutOfMemory => Rejection::of(Error::OutOfMemory),
        }
    }
}

impl From<AllocError> for Rejection {
    ghost use Rattle.fluent_uri_c.specs.declared.errors.Error.TheVariants.{OutOfMemory};

    ghost from_gives = { λ _ why. why ≡ rejected OutOfMemory };

    /// Returns the rejection, by a number of the header, for a failed allocation.
    fn from(_: AllocError) -> Rejection {
        Rejection::of(Error::OutOfMemory)
    }
}
