//! Whether a value is its own normal text (RFC 3986, sections 6.2.2 and 6.2.3).
ghost use Rattle.std.specs.Prelude.{◌≡◌, ◌↔◌, ◌≤◌, ◌<◌, ℕ, codes, false, length, slice_index, take, true, IfSome};
ghost use Rattle.std.specs.Char.{is_ascii_uppercase};
ghost use Rattle.std.specs.List.{list_all};
ghost use Rattle.std.specs.Str.{str_to_ascii_lowercase};
ghost use Rattle.uri_pct.specs.Prelude.{TableSet, is_one_of, left_bracket};
ghost use Rattle.uri_parts.specs.Prelude.{core_text, host_kind, is_host, starts};
ghost use Rattle.uri_ops.specs.Models.Unchanged.{IsUnchangedHost, IsUnchangedPrefix, KindLacksPastAscii, is_literal_byte, is_unchanged_host_byte};
ghost use Rattle.uri_ops.specs.Meaning.{host_meaning, meaning_of};
ghost use Rattle.uri_ops.specs.Normal.{host_text, normal_text};
ghost use Rattle.uri_ops.specs.Normalizers.{HasNormalText, text_underflows};
ghost use Rattle.uri_ops.specs.SchemeRules.{meaning_under};

use crate::normalize::normal_authority::{is_bracketed, is_port_unchanged};
use crate::normalize::ruled_parts::{has_default_host, has_root_path};
use crate::normalize::unchanged_octets::is_unchanged_from;
use crate::read_back::ruled_back::has_normal_text;
use crate::scheme_rules::SchemeRules;
use uri_parts::core_text::Core;
use uri_parts::kind::Kind;
use uri_parts::packed_positions::PackedPositions;
use uri_pct::encoder::Encoder;
use uri_pct::lanes::{LANES, SWIZZLES, run_end};

/// Returns whether no component of the kind may have characters past ASCII, as of URIs.
#[inline(always)]
fn lacks_past_ascii<K: Kind>() -> bool
    ensures { result ≡ true → KindLacksPastAscii K.kind }
{
    !K::QueryE::table().allows_some_past_ascii()
}

/// Returns whether normalising leaves each byte of a scheme or of a host that is a name: none is a
/// letter in upper case, a `%` or a `[`.
#[inline(never)]
fn is_name_unchanged(text: &str) -> bool
    ensures lower { result ≡ true → str_to_ascii_lowercase text.now ≡ text.now }
    ensures host { result ≡ true → IsUnchangedHost text.now }
{
    let bytes = text.as_bytes();
    bytes.iter().all(|byte| !byte.is_ascii_uppercase() && *byte != b'%' && *byte != b'[')
}

/// Returns whether a byte of an IPv6 address other than `:` may be written otherwise in a normal
/// form: it is a `.`, a letter in upper case, or a `0` that begins a group.
#[inline(always)]
fn is_unusual_digit(previous: u8, byte: u8) -> bool
    ensures dot { result ≡ false → is_one_of (codes ".") byte ≡ false }
    ensures lower { result ≡ false → is_ascii_uppercase byte ≡ false }
    ensures zero { result ≡ false → byte ≡ 48 → is_one_of (codes ":[") previous ≡ false }
{
    if byte >= b'a' {
        return false;
    }
    if byte == b'0' {
        return previous == b':' || previous == b'[';
    }
    byte == b'.' || byte.is_ascii_uppercase()
}

/// Returns `true` only if normalising keeps the address in brackets: its digits are in lower case,
/// no group begins with a `0`, and `::` replaces two groups or more.
#[cold]
#[inline(never)]
fn is_address_unchanged(host: &str) -> bool
    requires { starts left_bracket host.now ≡ true }
    ensures { result ≡ true → (names : TableSet) → is_host names host.now ≡ true
        → host_text (host_meaning names host.now (host_kind host.now)) ≡ host.now }
{
    let bytes = host.as_bytes();
    let mut previous = b'[';
    let mut colons: usize = 0;
    let mut i = 0;
    while i < bytes.len() {
        let byte = bytes[i];
        if byte == b':' {
            if previous == b'[' {
                return false;
            }
            colons += 1;
        } else if is_unusual_digit(previous, byte) {
            return false;
        }
        previous = byte;
        i += 1;
    }
    colons <= 6
}

/// The ASCII characters but `%`, `[` and the letters in upper case.
const UNCHANGED: u128 = !(1 << b'%' | 1 << b'[' | ((1 << 0x5B) - (1 << 0x41)));

/// The word of `UNCHANGED` for the characters below 64.
const UNCHANGED_LOW: u64 = (UNCHANGED & 0xFFFF_FFFF_FFFF_FFFF) as u64;

/// The word of `UNCHANGED` for the characters from 64 on.
const UNCHANGED_HIGH: u64 = (UNCHANGED >> 64) as u64;

/// Returns the end of the host if no byte before it is a letter in upper case, a `%` or a `[`, and 0
/// if the first of these is in the scheme or in a host that is a name. It is `None` if neither is
/// found, and for a text that is shorter than a block or has no authority.
#[inline(always)]
fn unchanged_host_end(bytes: &[u8], places: PackedPositions) -> Option<usize>
    requires { places.host_end ≤ length bytes.now }
    ensures end { IfSome result (λ end. 0 < end → end ≡ places.host_end) }
    ensures unchanged { IfSome result (λ end. 0 < end
        → list_all is_unchanged_host_byte (take end bytes.now) ≡ true) }
    ensures literal { IfSome result (λ end. (k : ℕ) → k < end
        → is_literal_byte (slice_index bytes.now k) ≡ true) }
{
    let end = places.host_end;
    if end == 0 || bytes.len() < LANES || !SWIZZLES {
        return None;
    }
    let window = &bytes[..end.max(LANES)];
    let run = run_end(UNCHANGED_LOW, UNCHANGED_HIGH, window, 0);
    if run == window.len() || end <= run {
        return Some(end);
    }
    if run < places.scheme_end || places.host_start <= run && bytes[run] != b'[' {
        return Some(0);
    }
    None
}

/// Returns the length of a prefix of the text in which normalising leaves each octet and each
/// character, if it also leaves the scheme and the host: up to the end of the host, if each byte
/// there is unchanged, or else one byte. If it may change one of them, the result is 0.
#[inline(always)]
fn unchanged_prefix_len<K: Kind>(core: Core<K, &str>) -> usize
    ensures { 0 < result → IsUnchangedPrefix (core_text core.entry) result }
{
    let bytes = core.as_str().as_bytes();
    if let Some(end) = unchanged_host_end(bytes, core.packed_positions()) {
        return end;
    }
    if let Some(scheme) = core.scheme() {
        if !is_name_unchanged(scheme.as_str()) {
            return 0;
        }
    }
    if let Some(authority) = core.authority() {
        let host = authority.host();
        if is_bracketed(host) {
            if !is_address_unchanged(host) {
                return 0;
            }
        } else if !is_name_unchanged(host) {
            return 0;
        }
    }
    if !bytes.is_empty() && bytes[0] != b'%' && bytes[0] != 0xE2 {
        return 1;
    }
    0
}

/// Returns `true` only if the normal text of a value under the default ports of the rules alone is
/// its own. It misses a few such values.
#[inline(always)]
pub(crate) fn is_found_normal_by_ports<K: Kind, S: SchemeRules>(
    core: Core<K, &str>,
    rules: &S,
) -> bool
    ensures text { result ≡ true → core_text core.entry
        ≡ normal_text (meaning_of K.kind (S.rules_of rules.now).ports (core_text core.entry)) }
    ensures underflow { result ≡ true → text_underflows (core_text core.entry) ≡ false }
{
    let start = unchanged_prefix_len(core);
    let bytes = core.as_str().as_bytes();
    if start == 0 {
        return false;
    }
    let limit = if core.has_scheme() {
        core.packed_positions().path_end
    } else {
        0
    };
    is_unchanged_from(lacks_past_ascii::<K>(), bytes, start, limit)
        && is_port_unchanged(core.authority(), core.scheme(), rules)
}

/// Returns `true` only if the normal text of a value is its own. It misses a few such values. It
/// takes less than writing the normal text, and so normalising asks no more than this.
#[doc(hidden)]
#[inline(always)]
pub fn is_found_normal<K: Kind, S: SchemeRules>(core: Core<K, &str>, rules: &S) -> bool
    ensures text { result ≡ true → HasNormalText K.kind (S.rules_of rules.now)
        (core_text core.entry) (core_text core.entry) }
    ensures underflow { result ≡ true → text_underflows (core_text core.entry) ≡ false }
{
    // What `as_str` promises of the text is used by the proof.
    let _text = core.as_str();
    if !is_found_normal_by_ports(core, rules) {
        return false;
    }
    !has_root_path(core, rules) && !has_default_host(core, rules)
}

/// Returns whether the normal text of a value is its own. Takes no memory.
#[doc(hidden)]
pub fn is_normal<K: Kind, S: SchemeRules>(core: Core<K, &str>, rules: &S) -> bool
    ensures { (result ≡ true) ↔ (normal_text (meaning_under K.kind (S.rules_of rules.now)
        (core_text core.entry)) ≡ core_text core.entry) }
{
    is_found_normal(core, rules) || has_normal_text(core, rules, core.as_str().as_bytes())
}
