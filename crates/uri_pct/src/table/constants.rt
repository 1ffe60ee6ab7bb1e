//! The constants: each is the set of the rule that it is named after (RFC 3986, appendix A; RFC
//! 3987, section 2.2).
use crate::table::{Table, characters};

/// Gives the table of the ASCII characters of a rule, and of what follows them with `/`.
macro_rules! table {
    ($rule:ident) => {
        table!($rule, false, false, false)
    };
    ($rule:ident / pct_encoded) => {
        table!($rule, true, false, false)
    };
    ($rule:ident / pct_encoded / ucschar) => {
        table!($rule, true, true, false)
    };
    ($rule:ident / pct_encoded / ucschar / iprivate) => {
        table!($rule, true, true, true)
    };
    ($rule:ident, $pct_encoded:literal, $ucschar:literal, $iprivate:literal) => {
        Table {
            low: (characters::$rule & 0xFFFF_FFFF_FFFF_FFFF) as u64,
            high: (characters::$rule >> 64) as u64,
            pct_encoded: $pct_encoded,
            ucschar: $ucschar,
            iprivate: $iprivate,
        }
    };
}

/// `ALPHA = %x41-5A / %x61-7A`: the letters (RFC 3986, appendix A).
///
/// It allows `'a'`, and not `'1'`.
pub const ALPHA: Table = table!(ALPHA);

/// `DIGIT = %x30-39`: the decimal digits (RFC 3986, appendix A).
///
/// It allows `'7'`, and not `'a'`.
pub const DIGIT: Table = table!(DIGIT);

/// `HEXDIG = DIGIT / "A" / "B" / "C" / "D" / "E" / "F"`, the letters in either case (RFC 3986,
/// appendix A).
///
/// It allows `'f'`, and not `'g'`.
pub const HEXDIG: Table = table!(HEXDIG);

/// The characters of `scheme = ALPHA *( ALPHA / DIGIT / "+" / "-" / "." )` (RFC 3986, section 3.1).
///
/// It allows `'+'`, and not `'_'`.
pub const SCHEME: Table = table!(SCHEME);

/// What `userinfo = *( unreserved / pct-encoded / sub-delims / ":" )` consists of (RFC 3986,
/// section 3.2.1).
///
/// It allows `':'`, and not `'@'`.
pub const USERINFO: Table = table!(USERINFO / pct_encoded);

/// The characters after the dot of `IPvFuture = "v" 1*HEXDIG "." 1*( unreserved / sub-delims / ":"
/// )` (RFC 3986, section 3.2.2).
///
/// It allows `':'`, and not `'/'`.
pub const IPV_FUTURE: Table = table!(IPV_FUTURE);

/// What `reg-name = *( unreserved / pct-encoded / sub-delims )` consists of (RFC 3986, section
/// 3.2.2).
///
/// It allows `'!'`, and not `':'`.
pub const REG_NAME: Table = table!(REG_NAME / pct_encoded);

/// What a path consists of: `pchar / "/"` (RFC 3986, section 3.3).
///
/// It allows `'/'`, and not `'?'`.
pub const PATH: Table = table!(PATH / pct_encoded);

/// What `segment-nz-nc = 1*( unreserved / pct-encoded / sub-delims / "@" )` consists of (RFC 3986,
/// section 3.3).
///
/// It allows `'@'`, and not `':'`.
pub const SEGMENT_NZ_NC: Table = table!(SEGMENT_NZ_NC / pct_encoded);

/// `pchar = unreserved / pct-encoded / sub-delims / ":" / "@"` (RFC 3986, section 3.3).
///
/// It allows `':'`, and not `'/'`.
pub const PCHAR: Table = table!(PCHAR / pct_encoded);

/// What `query = *( pchar / "/" / "?" )` consists of (RFC 3986, section 3.4).
///
/// It allows `'?'`, and not `'#'`.
pub const QUERY: Table = table!(QUERY / pct_encoded);

/// What `fragment = *( pchar / "/" / "?" )` consists of (RFC 3986, section 3.5).
///
/// It allows `'?'`, and not `'#'`.
pub const FRAGMENT: Table = table!(FRAGMENT / pct_encoded);

/// `unreserved = ALPHA / DIGIT / "-" / "." / "_" / "~"` (RFC 3986, section 2.3).
///
/// It allows `'~'`, and not `'/'`.
pub const UNRESERVED: Table = table!(UNRESERVED);

/// `reserved = gen-delims / sub-delims` (RFC 3986, section 2.2).
///
/// It allows `'/'`, and not `'a'`.
pub const RESERVED: Table = table!(RESERVED);

/// `gen-delims = ":" / "/" / "?" / "#" / "[" / "]" / "@"` (RFC 3986, section 2.2).
///
/// It allows `'/'`, and not `'!'`.
pub const GEN_DELIMS: Table = table!(GEN_DELIMS);

/// `sub-delims = "!" / "$" / "&" / "'" / "(" / ")" / "*" / "+" / "," / ";" / "="` (RFC 3986,
/// section 2.2).
///
/// It allows `'!'`, and not `'/'`.
pub const SUB_DELIMS: Table = table!(SUB_DELIMS);

/// What `iuserinfo = *( iunreserved / pct-encoded / sub-delims / ":" )` consists of (RFC 3987,
/// section 2.2).
///
/// It allows `'é'`, and not `'@'`.
pub const IUSERINFO: Table = table!(USERINFO / pct_encoded / ucschar);

/// What `ireg-name = *( iunreserved / pct-encoded / sub-delims )` consists of (RFC 3987, section
/// 2.2).
///
/// It allows `'é'`, and not `':'`.
pub const IREG_NAME: Table = table!(REG_NAME / pct_encoded / ucschar);

/// What a path of an IRI consists of: `ipchar / "/"` (RFC 3987, section 2.2).
///
/// It allows `'é'`, and not `'?'`.
pub const IPATH: Table = table!(PATH / pct_encoded / ucschar);

/// What `isegment-nz-nc = 1*( iunreserved / pct-encoded / sub-delims / "@" )` consists of (RFC
/// 3987, section 2.2).
///
/// It allows `'é'`, and not `':'`.
pub const ISEGMENT_NZ_NC: Table = table!(SEGMENT_NZ_NC / pct_encoded / ucschar);

/// What `iquery = *( ipchar / iprivate / "/" / "?" )` consists of (RFC 3987, section 2.2).
///
/// It allows `'\u{E000}'`, and not `'#'`.
pub const IQUERY: Table = table!(QUERY / pct_encoded / ucschar / iprivate);

/// What `ifragment = *( ipchar / "/" / "?" )` consists of (RFC 3987, section 2.2).
///
/// It allows `'é'`, and not `'\u{E000}'`.
pub const IFRAGMENT: Table = table!(FRAGMENT / pct_encoded / ucschar);
