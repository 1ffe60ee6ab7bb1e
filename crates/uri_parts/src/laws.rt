//! Laws of the definitions that contracts cite, each the contract of a function that does nothing.
ghost use Rattle.std.specs.Prelude.{◌≡◌, ◌↔◌, ℕ, List, [], ◌∷◌, true, map, None, IsUtf8};
ghost use Rattle.std.specs.Cmp.Lexicographic.{slice_cmp};
ghost use Rattle.std.specs.Ordering.{nat_cmp};
ghost use Rattle.std.specs.declared.cmp.Ordering.TheVariants.{Less, Greater};
ghost use Rattle.std.specs.Net.Text.{ipv4_text, ipv6_text};
ghost use Rattle.uri_pct.specs.Prelude.{TableSet, reg_name_set, userinfo_set};
ghost use Rattle.uri_parts.specs.Addresses.{ipv4_octets, ipv6_segments};
ghost use Rattle.uri_parts.specs.Authority.{AuthorityParts, IsAuthorityFor, LackAuthorityDelimiters, authority_parts, is_authority_for};
ghost use Rattle.uri_parts.specs.Components.{Components, IsSplitOf, components, recompose};
ghost use Rattle.uri_parts.specs.Hosts.{HostKind, IsHost, IsIpv4Text, IsIpv6Text, host_kind, is_host};
ghost use Rattle.uri_parts.specs.Grammar.{uri, uri_ref, IsOfKind};
ghost use Rattle.uri_parts.specs.declared.net.Ipv4Addr.{Ipv4Addr};
ghost use Rattle.uri_parts.specs.declared.net.Ipv6Addr.{Ipv6Addr};
ghost use Rattle.uri_parts.specs.declared.net.IpAddr.TheVariants.{V4, V6};
ghost use Rattle.uri_parts.specs.RefusalRows.{uri_ref_rows, uri_rows};
ghost use Rattle.uri_parts.specs.Refusals.{refusal};

use crate::kind::Kind;
use crate::net::{IpAddr, Ipv4Addr, Ipv6Addr};
use crate::parse::parse;

/// The components of a text are a split of it by RFC 3986, appendix B.
///
/// `a:b` is split into the scheme `a` and the path `b`.
pub fn components_are_a_split()
    ensures { (text : List ℕ) → IsSplitOf text (components text) }
{}

/// The components of a text are its only split by RFC 3986, appendix B.
///
/// `a:b` is not split into the path `a:b` alone.
pub fn components_are_the_only_split()
    ensures { (text : List ℕ) (p : Components) → IsSplitOf text p → components text ≡ p }
{}

/// The components of a text are together the text, by RFC 3986, section 5.3.
///
/// The scheme `a` and the path `b` are together `a:b`.
pub fn components_recompose()
    ensures { (text : List ℕ) → recompose (components text) ≡ text }
{}

/// The grammar parses the text of an IPv4 address back as the same four octets.
///
/// `127.0.0.1` is parsed as 127, 0, 0 and 1.
pub fn ipv4_text_parses_to_its_octets(address: &Ipv4Addr)
    ensures { IsIpv4Text (ipv4_text (ipv4_octets address.now)) (ipv4_octets address.now) }
{
    let _octets = address.octets();
}

/// The grammar parses the text of an IPv6 address back as the same eight segments.
///
/// `::1` is parsed as seven times 0, and 1.
pub fn ipv6_text_parses_to_its_segments(address: &Ipv6Addr)
    ensures { IsIpv6Text (ipv6_text (ipv6_segments address.now)) (ipv6_segments address.now) }
{
    let _segments = address.segments();
}

/// The constants of IPv4 addresses are those of RFC 1122, section 3.2.1.3.
#[doc(hidden)]
pub fn ipv4_constants_are_their_addresses()
    ensures localhost { ipv4_octets Ipv4Addr.LOCALHOST ≡ 127 ∷ 0 ∷ 0 ∷ 1 ∷ [] }
    ensures unspecified { ipv4_octets Ipv4Addr.UNSPECIFIED ≡ 0 ∷ 0 ∷ 0 ∷ 0 ∷ [] }
{}

/// The constants of IPv6 addresses are those of RFC 4291, sections 2.5.2 and 2.5.3.
#[doc(hidden)]
pub fn ipv6_constants_are_their_addresses()
    ensures localhost { ipv6_segments Ipv6Addr.LOCALHOST ≡ 0 ∷ 0 ∷ 0 ∷ 0 ∷ 0 ∷ 0 ∷ 0 ∷ 1 ∷ [] }
    ensures unspecified { ipv6_segments Ipv6Addr.UNSPECIFIED ≡ 0 ∷ 0 ∷ 0 ∷ 0 ∷ 0 ∷ 0 ∷ 0 ∷ 0 ∷ [] }
{}

/// IPv4 addresses are compared by their octets, first to last.
///
/// `9.255.255.255` is less than `10.0.0.0`.
pub fn ipv4_addresses_compare_by_octets()
    ensures { (a b : Ipv4Addr) → ⟦<Ipv4Addr as Ord>⟧.cmp a b
        ≡ slice_cmp nat_cmp (ipv4_octets a) (ipv4_octets b) }
{}

/// IPv6 addresses are compared by their segments, first to last.
///
/// `0:ffff::` is less than `1::`.
pub fn ipv6_addresses_compare_by_segments()
    ensures { (a b : Ipv6Addr) → ⟦<Ipv6Addr as Ord>⟧.cmp a b
        ≡ slice_cmp nat_cmp (ipv6_segments a) (ipv6_segments b) }
{}

/// IP addresses are compared by their versions, and then by their octets or segments.
///
/// `255.255.255.255` is less than `::`.
pub fn ip_addresses_compare_by_version_first()
    ensures ipv4 { (a b : Ipv4Addr) → ⟦<IpAddr as Ord>⟧.cmp (V4 a) (V4 b)
        ≡ slice_cmp nat_cmp (ipv4_octets a) (ipv4_octets b) }
    ensures ipv6 { (a b : Ipv6Addr) → ⟦<IpAddr as Ord>⟧.cmp (V6 a) (V6 b)
        ≡ slice_cmp nat_cmp (ipv6_segments a) (ipv6_segments b) }
    ensures less { (a : Ipv4Addr) (b : Ipv6Addr) → ⟦<IpAddr as Ord>⟧.cmp (V4 a) (V6 b) ≡ Less }
    ensures greater { (a : Ipv6Addr) (b : Ipv4Addr)
        → ⟦<IpAddr as Ord>⟧.cmp (V6 a) (V4 b) ≡ Greater }
{}

/// The characters of userinfo and of registered names keep the components of an authority apart.
#[doc(hidden)]
#[tactic(auto, unfolding(uri_pct::specs::Sets::is_userinfo_char, uri_pct::specs::Sets::is_reg_name_char, uri_pct::specs::Sets::is_unreserved, uri_pct::specs::Sets::is_sub_delim))]
pub fn uri_sets_lack_authority_delimiters()
    ensures { LackAuthorityDelimiters userinfo_set reg_name_set }
{}

/// A text is a host of one kind: RFC 3986, section 3.2.2.
#[doc(hidden)]
pub fn a_host_is_of_one_kind()
    ensures { (users names : TableSet) (text : List ℕ) (host : HostKind)
        → LackAuthorityDelimiters users names → IsUtf8 text
        → IsHost names text host → host_kind text ≡ host }
{}

/// The test of a host allows exactly the texts of its grammar (RFC 3986, section 3.2.2).
#[doc(hidden)]
pub fn host_test_is_the_grammar()
    ensures { (users names : TableSet) (text : List ℕ)
        → LackAuthorityDelimiters users names → IsUtf8 text
        → (is_host names text ≡ true ↔ ((host : HostKind) × IsHost names text host)) }
{}

/// An authority has one cut into userinfo, host and port: RFC 3986, section 3.2.
#[doc(hidden)]
pub fn an_authority_has_one_cut()
    ensures { (users names : TableSet) (text : List ℕ) (p : AuthorityParts)
        → LackAuthorityDelimiters users names → IsUtf8 text
        → IsAuthorityFor users names text p → authority_parts text ≡ p }
{}

/// The test of an authority allows exactly the texts of its grammar (RFC 3986, section 3.2).
#[doc(hidden)]
pub fn authority_test_is_the_grammar()
    ensures { (users names : TableSet) (text : List ℕ)
        → LackAuthorityDelimiters users names → IsUtf8 text
        → (is_authority_for users names text ≡ true
        ↔ IsAuthorityFor users names text (authority_parts text)) }
{}

/// The example texts of `docs/PARSE_ERRORS.md` have the parse errors that their rows give.
#[doc(hidden)]
pub fn example_texts_have_their_errors()
    ensures references { map (λ row. refusal uri_ref row.0) uri_ref_rows
        ≡ map (λ row. row.1) uri_ref_rows }
    ensures uris { map (λ row. refusal uri row.0) uri_rows ≡ map (λ row. row.1) uri_rows }
{}

/// `refusal` gives no error exactly for the texts of the kind.
///
/// `a:b` has none as a URI, and `a` has one at its end.
pub fn accepted_exactly_if_no_error<K: Kind>(text: &str)
    ensures { refusal K.kind text.now ≡ None ↔ IsOfKind K.kind text.now }
{
    let _parsed = parse::<K>(text);
}
