//! The ASCII characters of the rules (RFC 3986, appendix A), each by the alternatives of its rule.
//!
//! Bit n of a number is for the character n, and `|` is the `/` of a rule.

/// The letters.
pub const ALPHA: u128 = ((1 << 0x5B) - (1 << 0x41)) | ((1 << 0x7B) - (1 << 0x61));

/// The decimal digits.
pub const DIGIT: u128 = (1 << 0x3A) - (1 << 0x30);

/// The hexadecimal digits, in either case.
pub const HEXDIG: u128 = DIGIT | ((1 << 0x47) - (1 << 0x41)) | ((1 << 0x67) - (1 << 0x61));

/// The word of `HEXDIG` for the characters below 64.
pub const HEXDIG_LOW: u64 = (HEXDIG & 0xFFFF_FFFF_FFFF_FFFF) as u64;

/// The word of `HEXDIG` for the characters from 64 on.
pub const HEXDIG_HIGH: u64 = (HEXDIG >> 64) as u64;

/// The characters of `scheme`, of which only a letter may be the first.
pub const SCHEME: u128 = ALPHA | DIGIT | 1 << b'+' | 1 << b'-' | 1 << b'.';

/// The characters of `unreserved`.
pub const UNRESERVED: u128 = ALPHA | DIGIT | 1 << b'-' | 1 << b'.' | 1 << b'_' | 1 << b'~';

/// The characters of `gen-delims`.
pub const GEN_DELIMS: u128 = 1 << b':'
    | 1 << b'/'
    | 1 << b'?'
    | 1 << b'#'
    | 1 << b'['
    | 1 << b']'
    | 1 << b'@';

/// The characters of `sub-delims`.
pub const SUB_DELIMS: u128 = 1 << b'!'
    | 1 << b'$'
    | 1 << b'&'
    | 1 << b'\''
    | 1 << b'('
    | 1 << b')'
    | 1 << b'*'
    | 1 << b'+'
    | 1 << b','
    | 1 << b';'
    | 1 << b'=';

/// The characters of `reserved`.
pub const RESERVED: u128 = GEN_DELIMS | SUB_DELIMS;

/// The characters of `userinfo`.
pub const USERINFO: u128 = UNRESERVED | SUB_DELIMS | 1 << b':';

/// The characters after the dot of `IPvFuture`.
pub const IPV_FUTURE: u128 = UNRESERVED | SUB_DELIMS | 1 << b':';

/// The characters of `reg-name`.
pub const REG_NAME: u128 = UNRESERVED | SUB_DELIMS;

/// The characters of `segment-nz-nc`.
pub const SEGMENT_NZ_NC: u128 = UNRESERVED | SUB_DELIMS | 1 << b'@';

/// The characters of `pchar`.
pub const PCHAR: u128 = UNRESERVED | SUB_DELIMS | 1 << b':' | 1 << b'@';

/// The characters of a path.
pub const PATH: u128 = PCHAR | 1 << b'/';

/// The characters of `query`.
pub const QUERY: u128 = PCHAR | 1 << b'/' | 1 << b'?';

/// The characters of `fragment`.
pub const FRAGMENT: u128 = PCHAR | 1 << b'/' | 1 << b'?';
