//! The normal text of a value, put into a block from its end (RFC 3986, section 6.2.2; RFC 3987,
//! section 5.3.2).
//!
//! Each call returns where what it puts begins, or 0 if there is no room for it and one byte more.
ghost use Rattle.std.specs.Prelude.{◌≡◌, ◌≤◌, ◌<◌, ℕ, List, Option, [], codes, drop, is_some, option_map};
ghost use Rattle.uri_pct.specs.Prelude.{text_of};
ghost use Rattle.uri_parts.specs.Prelude.{Kind, authority_parts, authority_text, core_text, host_kind, marked, scheme_text};
ghost use Rattle.uri_ops.specs.ComponentSets.{IsComponentSet};
ghost use Rattle.uri_ops.specs.FromEnd.Blocks.{IsPut};
ghost use Rattle.uri_ops.specs.FromEnd.Literals.{cased};
ghost use Rattle.uri_ops.specs.Meaning.{host_meaning, port_meaning};
ghost use Rattle.uri_ops.specs.Normal.{default_port_of, host_text, normal_authority_with_delimiter, normal_part, normal_path_text, normal_scheme, normal_text};
ghost use Rattle.uri_ops.specs.SchemeRules.{meaning_under};

use crate::normalize::normal_authority::{is_bracketed, port_unless_default};
use crate::normalize::ruled_parts::{ruled_authority, ruled_path};
use crate::path::slashes::begins_with_two_slashes;
use crate::read_back::BLOCK;
use crate::read_back::literal_back::put_back;
use crate::read_back::normal_authority::ipv6_host_of;
use crate::read_back::octets_back::put_component;
use crate::read_back::path_back::put_decoded_path;
use crate::scheme_rules::SchemeRules;
use uri_parts::component::{Authority, Scheme};
use uri_parts::core_text::Core;
use uri_parts::kind::Kind;
use uri_pct::encoder::{Encoder, PathEncoder};
use uri_pct::pct_enc::EStr;

/// Puts a text into the block before `end`, with its ASCII letters in lower case if `lowers`.
#[inline(always)]
fn put_text(lowers: bool, text: &[u8], block: &mut [u8; BLOCK], end: usize) -> usize
    requires { end ≤ 1024 }
    ensures text { IsPut (cased lowers text.now) end block.old result block.new }
    ensures within { result ≤ end }
{
    if end < text.len() {
        return 0;
    }
    put_back(lowers, text, block, end)
}

/// Puts a scheme in lower case with its `:` into the block, or nothing if it is absent.
#[inline(always)]
fn put_scheme(scheme: Option<Scheme<'_>>, block: &mut [u8; BLOCK], end: usize) -> usize
    requires { end ≤ 1024 }
    ensures text { IsPut
        (marked [] (normal_scheme (option_map scheme_text scheme.entry)) (codes ":"))
        end block.old result block.new }
    ensures within { result ≤ end }
{
    let Some(scheme) = scheme else {
        return end;
    };
    let end = put_text(false, b":", block, end);
    put_text(true, scheme.as_str().as_bytes(), block, end)
}

/// Puts a component with its delimiters into the block, decoded, or nothing if it is absent.
#[inline(always)]
fn put_part<E: Encoder>(
    before: &[u8],
    part: Option<EStr<'_, E>>,
    after: &[u8],
    block: &mut [u8; BLOCK],
    end: usize,
) -> usize
    requires { end ≤ 1024 }
    ensures text { IsPut
        (marked before.now (normal_part E.set (option_map text_of part.entry)) after.now)
        end block.old result block.new }
    ensures within { result ≤ end }
{
    let Some(part) = part else {
        return end;
    };
    let end = put_text(false, after, block, end);
    let end = put_component(&E::table(), false, part.as_str(), block, end);
    put_text(false, before, block, end)
}

/// Puts the host of a normal authority into the block. An IPv6 address is written by its numbers
/// (RFC 5952).
#[inline(always)]
fn put_host<U: Encoder, R: Encoder>(
    authority: Authority<'_, U, R>,
    block: &mut [u8; BLOCK],
    end: usize,
) -> usize
    requires { end ≤ 1024 }
    ensures text { let host = (authority_parts (authority_text authority.entry)).host in
        IsPut (host_text (host_meaning R.set host (host_kind host)))
        end block.old result block.new }
    ensures within { result ≤ end }
{
    let host = authority.host();
    if !is_bracketed(host) {
        return put_component(&R::table(), true, host, block, end);
    }
    let (address, len) = ipv6_host_of(Some(authority));
    if len == 0 {
        return put_text(true, host.as_bytes(), block, end);
    }
    put_text(false, &address[..len], block, end)
}

/// Puts the port of a normal authority with its `:` into the block, or nothing.
#[inline(always)]
fn put_port<U: Encoder, R: Encoder, S: SchemeRules>(
    authority: Authority<'_, U, R>,
    scheme: Option<Scheme<'_>>,
    rules: &S,
    block: &mut [u8; BLOCK],
    end: usize,
) -> usize
    requires { end ≤ 1024 }
    ensures text { let p = authority_parts (authority_text authority.entry) in
        let default = default_port_of (S.rules_of rules.now).ports
        (option_map scheme_text scheme.entry) in
        IsPut (marked (codes ":") (port_meaning default p.port) []) end block.old result block.new }
    ensures within { result ≤ end }
{
    let Some(digits) = port_unless_default(authority, scheme, rules) else {
        return end;
    };
    let end = put_text(false, digits.as_bytes(), block, end);
    put_text(false, b":", block, end)
}

/// Puts `//` and the normal form of an authority into the block, or nothing if it is absent.
#[inline(always)]
fn put_authority<U: Encoder, R: Encoder, S: SchemeRules>(
    authority: Option<Authority<'_, U, R>>,
    scheme: Option<Scheme<'_>>,
    rules: &S,
    block: &mut [u8; BLOCK],
    end: usize,
) -> usize
    requires { end ≤ 1024 }
    ensures text { let default = default_port_of (S.rules_of rules.now).ports
        (option_map scheme_text scheme.entry) in
        (kind : Kind) → kind.userinfo ≡ U.set → kind.reg_name ≡ R.set
        → IsPut (normal_authority_with_delimiter kind default
        (option_map authority_text authority.entry)) end block.old result block.new }
    ensures within { result ≤ end }
{
    let Some(authority) = authority else {
        return end;
    };
    let end = put_port(authority, scheme, rules, block, end);
    let end = put_host(authority, block, end);
    let end = put_part(b"", authority.userinfo(), b"@", block, end);
    put_text(false, b"//", block, end)
}

/// Puts the path of a normal text into the block. Under a scheme a path that begins with `/` is
/// without its dot segments, and after `/.` if it would be parsed as an authority.
#[inline(always)]
fn put_path<E: PathEncoder>(
    has_scheme: bool,
    has_authority: bool,
    path: EStr<'_, E>,
    block: &mut [u8; BLOCK],
    end: usize,
) -> usize
    requires set { IsComponentSet (codes "?#[]") E.set }
    requires end { end ≤ 1024 }
    ensures text { (scheme authority : Option (List ℕ)) → is_some scheme ≡ has_scheme
        → is_some authority ≡ has_authority
        → IsPut (normal_path_text E.set scheme authority (text_of path.entry))
        end block.old result block.new }
    ensures within { result ≤ end }
{
    let removes_dots = has_scheme && path.is_absolute();
    let start = put_decoded_path(&E::table(), path.as_str(), removes_dots, block, end);
    if !removes_dots || has_authority {
        return start;
    }
    if begins_with_two_slashes(&block[start..end]) {
        return put_text(false, b"/.", block, start);
    }
    start
}

/// Puts the normal text of a value at the end of the block. Returns where it begins, or 0 if it is
/// as long as the block or longer. If the value's own text is, this is not tried.
pub fn put_normal_text<K: Kind, S: SchemeRules>(
    core: Core<K, &str>,
    rules: &S,
    block: &mut [u8; BLOCK],
) -> usize
    ensures text { 0 < result → drop result block.new
        ≡ normal_text (meaning_under K.kind (S.rules_of rules.now) (core_text core.entry)) }
    ensures within { result ≤ 1024 }
{
    if core.as_str().len() >= BLOCK {
        return 0;
    }
    let scheme = core.scheme();
    let authority = ruled_authority(core, rules);
    let path = ruled_path(core, rules);
    let end = put_part(b"#", core.fragment(), b"", block, BLOCK);
    let end = put_part(b"?", core.query(), b"", block, end);
    let end = put_path(core.has_scheme(), authority.is_some(), path, block, end);
    let end = put_authority(authority, scheme, rules, block, end);
    put_scheme(scheme, block, end)
}
