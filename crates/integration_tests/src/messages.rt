//! The messages of errors. The expected texts are those of `docs/PARSE_ERRORS.md`.
use crate::comparison::prints;
use fluent_uri::build::BuildError;
use fluent_uri::component::SocketError;
use fluent_uri::normalize::NormalizeError;
use fluent_uri::pct_enc::DecodeError;
use fluent_uri::resolve::ResolveError;
use fluent_uri::{ConvertError, UriRef};
use std::alloc::Global;
use std::fmt::Display;
use std::process::Abort;
use uri_basic::BasicResolveError;
use uri_idna::AsciiHostError;
use uri_mend::MendError;

/// Checks in a test that each error prints its message.
fn print<R: Abort, E: Display>(rt: &R, alloc: Global, messages: &[(E, &str)]) {
    for (error, message) in messages {
        prints(alloc, error, message).expect(rt, message);
    }
}

/// Gives a table of errors and their messages.
macro_rules! messages {
    ($($error:expr => $message:literal;)+) => {
        &[$(($error, $message)),+]
    };
}

const BUILD: &[(BuildError, &str)] = messages! {
    BuildError::OutOfMemory => "out of memory";
    BuildError::NonemptyRootlessPath =>
        "when authority is present, path should either be empty or start with '/'";
    BuildError::PathStartsWithDoubleSlash =>
        "when authority is not present, path should not start with \"//\"";
    BuildError::FirstPathSegmentContainsColon =>
        "when neither scheme nor authority is present, first path segment should not contain ':'";
};

const SOCKET: &[(SocketError, &str)] = messages! {
    SocketError::InvalidPort => "invalid port value";
    SocketError::UnsupportedMechanism => "address mechanism not supported";
    SocketError::NameNotUtf8 => "registered name does not decode to valid UTF-8";
    SocketError::OutOfMemory => "out of memory";
};

const CONVERT: &[(ConvertError, &str)] = messages! {
    ConvertError::NoScheme => "scheme not present";
    ConvertError::NotAscii { index: 7 } => "non-ASCII character at index 7";
};

const NORMALIZE: &[(NormalizeError, &str)] = messages! {
    NormalizeError::PathUnderflow => "underflow occurred in path resolution";
    NormalizeError::OutOfMemory => "out of memory";
};

const RESOLVE: &[(ResolveError, &str)] = messages! {
    ResolveError::BaseWithFragment => "base should not have fragment";
    ResolveError::InvalidReferenceAgainstOpaqueBase =>
        "when base has a rootless path and no authority, reference should either have scheme, be \
         empty or start with '#'";
    ResolveError::PathUnderflow => "underflow occurred in path resolution";
    ResolveError::OutOfMemory => "out of memory";
};

const ASCII_HOST: &[(AsciiHostError, &str)] = messages! {
    AsciiHostError::NameNotUtf8 => "registered name does not decode to valid UTF-8";
    AsciiHostError::InvalidName => "invalid domain name";
    AsciiHostError::OutOfMemory => "out of memory";
};

const BASIC_RESOLVE: &[(BasicResolveError, &str)] = messages! {
    BasicResolveError::PathStartsWithDoubleSlash =>
        "target has no authority, and its path would start with '//'";
    BasicResolveError::OutOfMemory => "out of memory";
};

#[test]
fn errors_print_their_messages(rt: HostRuntime) {
    let (rt, alloc) = (&rt, rt.alloc());
    print(rt, alloc, BUILD);
    print(rt, alloc, SOCKET);
    print(rt, alloc, CONVERT);
    print(rt, alloc, NORMALIZE);
    print(rt, alloc, RESOLVE);
    let bytes = Vec::from_array(alloc, [0xFFu8]).expect(rt, "memory");
    let not_utf8 = DecodeError::NotUtf8(bytes);
    prints(alloc, &not_utf8, "decoded bytes are not valid UTF-8").expect(rt, "NotUtf8");
    prints(alloc, &DecodeError::OutOfMemory, "out of memory").expect(rt, "OutOfMemory");
    print(rt, alloc, ASCII_HOST);
    print(rt, alloc, BASIC_RESOLVE);
    let rejected = UriRef::<&str>::parse("a b").err().expect(rt, "a b");
    let unmendable = MendError::Unmendable(rejected);
    prints(alloc, &unmendable, "unexpected character at index 1").expect(rt, "Unmendable");
    prints(alloc, &MendError::OutOfMemory, "out of memory").expect(rt, "OutOfMemory");
}
