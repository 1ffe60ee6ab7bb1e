//! The authority of a normal text, read from its end (RFC 3986, sections 6.2.2 and 6.2.3; RFC 3987,
//! section 5.3.2).
ghost use Rattle.std.specs.Prelude.{◌≡◌, ◌≤◌, [], codes, option_map, take, true};
ghost use Rattle.uri_pct.specs.Prelude.{text_of};
ghost use Rattle.uri_parts.specs.Prelude.{Kind, authority_parts, authority_text, host_kind, marked, scheme_text};
ghost use Rattle.uri_ops.specs.Meaning.{host_meaning, port_meaning};
ghost use Rattle.uri_ops.specs.Normal.{default_port_of, host_text, normal_part, normal_authority_with_delimiter};
ghost use Rattle.uri_ops.specs.FromEnd.Addresses.{ipv6_host_of, ipv6_host_text};

use crate::normalize::normal_authority::{is_bracketed, port_unless_default};
use crate::read_back::literal_back::LiteralBack;
use crate::read_back::octets_back::OctetsBack;
use crate::read_back::{Joined, ReadBack, join};
use crate::scheme_rules::SchemeRules;
use uri_parts::address_text::ipv6_host;
use uri_parts::component::{Authority, HostOf, Scheme};
use uri_pct::encoder::Encoder;
use uri_pct::pct_enc::EStr;

/// A component with what delimits it, or nothing.
pub type PartBack<'a> = Joined<Joined<LiteralBack<'a>, OctetsBack<'a>>, LiteralBack<'a>>;

/// A name, and an address in brackets, of which one is empty.
type HostBack<'a> = Joined<OctetsBack<'a>, LiteralBack<'a>>;

/// An authority with what delimits it, or nothing.
pub type AuthorityBack<'a> = Joined<
    LiteralBack<'a>,
    Joined<PartBack<'a>, Joined<HostBack<'a>, Joined<LiteralBack<'a>, LiteralBack<'a>>>>,
>;

/// Returns a component, decoded, with its delimiters, or nothing if it is absent.
pub(crate) fn part_back<'a, E: Encoder>(
    before: &'a [u8],
    part: Option<EStr<'a, E>>,
    after: &'a [u8],
) -> PartBack<'a>
    ensures { ⟦<PartBack<'a> as ReadBack>⟧.unread result
        ≡ marked before.now (normal_part E.set (option_map text_of part.entry)) after.now }
{
    match part {
        Some(part) => join(
            join(
                LiteralBack::copied(before),
                OctetsBack::new(&E::table(), false, part.as_str()),
            ),
            LiteralBack::copied(after),
        ),
        None => join(
            join(
                LiteralBack::copied(b""),
                OctetsBack::new(&E::table(), false, ""),
            ),
            LiteralBack::copied(b""),
        ),
    }
}

/// Returns the normal text of an authority's host in an array, and where it ends, if it is an IPv6
/// address. Else it returns an empty text.
pub fn ipv6_host_of<U: Encoder, R: Encoder>(
    authority: Option<Authority<'_, U, R>>,
) -> ([u8; 44], usize)
    ensures text { take result.1 result.0
        ≡ ipv6_host_of (option_map authority_text authority.entry) }
    ensures end { result.1 ≤ 44 }
{
    let Some(authority) = authority else {
        return ([0; 44], 0);
    };
    if !is_bracketed(authority.host()) {
        return ([0; 44], 0);
    }
    match authority.host_parsed() {
        HostOf::Ipv6(address) => ipv6_host(&address),
        _ => ([0; 44], 0),
    }
}

/// Returns the host. `address` is its text if it is an IPv6 address, and else empty.
fn host_back<'a, U: Encoder, R: Encoder>(
    authority: Authority<'a, U, R>,
    address: &'a [u8],
) -> HostBack<'a>
    requires { address.now
        ≡ ipv6_host_text (host_kind (authority_parts (authority_text authority)).host) }
    ensures { let host = (authority_parts (authority_text authority.entry)).host in
        ⟦<HostBack<'a> as ReadBack>⟧.unread result
        ≡ host_text (host_meaning R.set host (host_kind host)) }
{
    let host = authority.host();
    if !is_bracketed(host) {
        return join(
            OctetsBack::new(&R::table(), true, host),
            LiteralBack::copied(b""),
        );
    }
    if address.is_empty() {
        return join(
            OctetsBack::new(&R::table(), true, ""),
            LiteralBack::lowered(host.as_bytes()),
        );
    }
    join(
        OctetsBack::new(&R::table(), true, ""),
        LiteralBack::copied(address),
    )
}

/// Returns the port with its `:`, or nothing if it is absent, empty or the scheme's default.
fn port_back<'a, U: Encoder, R: Encoder, S: SchemeRules>(
    authority: Authority<'a, U, R>,
    scheme: Option<Scheme<'_>>,
    rules: &S,
) -> Joined<LiteralBack<'a>, LiteralBack<'a>>
    ensures { let p = authority_parts (authority_text authority.entry) in
        let default = default_port_of (S.rules_of rules.now).ports
        (option_map scheme_text scheme.entry) in
        ⟦<Joined<LiteralBack<'a>, LiteralBack<'a>> as ReadBack>⟧.unread result
        ≡ marked (codes ":") (port_meaning default p.port) [] }
{
    match port_unless_default(authority, scheme, rules) {
        Some(digits) => join(
            LiteralBack::copied(b":"),
            LiteralBack::copied(digits.as_bytes()),
        ),
        None => join(LiteralBack::copied(b""), LiteralBack::copied(b"")),
    }
}

/// Returns the authority after its `//`, or nothing if it is absent. `address` is the host's text
/// if it is an IPv6 address, and else empty.
pub(crate) fn authority_back<'a, U: Encoder, R: Encoder, S: SchemeRules>(
    authority: Option<Authority<'a, U, R>>,
    scheme: Option<Scheme<'_>>,
    rules: &S,
    address: &'a [u8],
) -> AuthorityBack<'a>
    requires { address.now ≡ ipv6_host_of (option_map authority_text authority) }
    ensures { let default = default_port_of (S.rules_of rules.now).ports
        (option_map scheme_text scheme.entry) in
        (kind : Kind) → kind.userinfo ≡ U.set → kind.reg_name ≡ R.set
        → ⟦<AuthorityBack<'a> as ReadBack>⟧.unread result
        ≡ normal_authority_with_delimiter kind default
        (option_map authority_text authority.entry) }
{
    match authority {
        Some(authority) => join(
            LiteralBack::copied(b"//"),
            join(
                part_back(b"", authority.userinfo(), b"@"),
                join(
                    host_back(authority, address),
                    port_back(authority, scheme, rules),
                ),
            ),
        ),
        None => join(
            LiteralBack::copied(b""),
            join(
                part_back::<U>(b"", None, b""),
                join(
                    join(
                        OctetsBack::new(&R::table(), true, ""),
                        LiteralBack::copied(b""),
                    ),
                    join(LiteralBack::copied(b""), LiteralBack::copied(b"")),
                ),
            ),
        ),
    }
}
