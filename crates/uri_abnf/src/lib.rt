//! The grammar of the kinds is the ABNF of RFC 3986, appendix A, and RFC 3987, section 2.2.
//!
//! The rules are data (`specs/Rfc3986.antt`, `specs/Rfc3987.antt` and `specs/Rfc5234.antt`), and
//! `specs/Abnf.antt` defines which texts a rule has, by RFC 5234. Each law is the contract of a
//! function that does nothing: code whose proof needs it calls the function.
#![tactic(auto)]

ghost use Rattle.std.specs.Prelude.{◌≡◌, ◌↔◌, ℕ, List, [], ◌∷◌, None, true, false, map, IsUtf8};
ghost use Rattle.uri_pct.specs.Prelude.{IsValidFor, TableSet, digit_set, is_decodable, is_unreserved};
ghost use Rattle.uri_parts.specs.Prelude.{AuthorityParts, Components, Ipv4, Ipv6, IpvFuture, IsHost, IsOfKind, IsTextOf, Kind, RegName, authority_parts, bracketed, components, iri, iri_ref, is_authority, is_scheme, uri, uri_ref};
ghost use Rattle.uri_abnf.specs.Abnf.{Has, IsOf};
ghost use Rattle.uri_abnf.specs.Derivations.{IsAuthorityDerived, IsDerived, start_rule, uri_rules, iri_rules};
ghost use Rattle.uri_abnf.specs.Printed as Printed;
ghost use Rattle.uri_abnf.specs.Printing.{line};
ghost use Rattle.uri_abnf.specs.Rfc3986 as Rfc3986;
ghost use Rattle.uri_abnf.specs.Rfc3987 as Rfc3987;
ghost use Rattle.uri_abnf.specs.Rfc5234 as Rfc5234;

use uri_parts::kind;

/// A text is of a kind exactly if it is of the rule that the RFCs print for the kind: `URI`,
/// `URI-reference`, `IRI` or `IRI-reference`.
///
/// The characters of a URI or a URI reference are its bytes. Those of an IRI are its characters in
/// UTF-8.
pub fn kinds_are_the_languages_of_their_rules()
    ensures uri { (text : List ℕ) → (IsTextOf uri text ↔ Has Rfc3986.URI text) }
    ensures uri_ref { (text : List ℕ) → (IsTextOf uri_ref text ↔ Has Rfc3986.URI-reference text) }
    ensures iri { (text : List ℕ) → (IsTextOf iri text ↔ IsOf Rfc3987.IRI text) }
    ensures iri_ref { (text : List ℕ) → (IsTextOf iri_ref text ↔ IsOf Rfc3987.IRI-reference text) }
{}

/// What `parse` accepts for the kind `K` is of the rule that the RFCs print for it: `IsOfKind` is
/// what `Reference::parse` accepts.
///
/// As a URI, `a:b` is of the rule `URI`; as a URI reference, it is of the rule `URI-reference`.
pub fn of_the_printed_grammar<K: kind::Kind>()
    ensures { (text : List ℕ) → IsUtf8 text
        → (IsOfKind K.kind text ↔ IsOf (start_rule K.kind) text) }
{}

/// The components of a reference are derived by the rules that their places ask for (RFC 3986,
/// section 3), and the reference is derived with no others: a scheme by `scheme`, an authority by
/// `authority`, a query by `query`, a fragment by `fragment`, and a path by `path-abempty` after an
/// authority. Without an authority the path is derived by `path-absolute`, `path-empty` or, after a
/// scheme, `path-rootless`, or else `path-noscheme`.
///
/// In `a:b/c` the scheme `a` and the path `b/c`, which is of `path-rootless`, are derived.
pub fn components_are_derived_in_one_way()
    ensures uri { (text : List ℕ)
        → (IsOf Rfc3986.URI-reference text ↔ IsDerived uri_rules text (components text)) }
    ensures iri { (text : List ℕ)
        → (IsOf Rfc3987.IRI-reference text ↔ IsDerived iri_rules text (components text)) }
    ensures uri_components { (text : List ℕ) (p : Components) → IsDerived uri_rules text p
        → components text ≡ p }
    ensures iri_components { (text : List ℕ) (p : Components) → IsDerived iri_rules text p
        → components text ≡ p }
{}

/// The components of an authority are derived by the rules `userinfo`, `host` and `port` (RFC 3986,
/// section 3.2), and the authority is derived with no others.
///
/// In `u@a:1` the userinfo `u`, the host `a` and the port `1` are derived.
pub fn authorities_are_derived_in_one_way()
    ensures uri { (text : List ℕ)
        → (IsOf Rfc3986.authority text ↔ IsAuthorityDerived uri_rules text (authority_parts text)) }
    ensures iri { (text : List ℕ)
        → (IsOf Rfc3987.iauthority text ↔ IsAuthorityDerived iri_rules text
        (authority_parts text)) }
    ensures uri_components { (text : List ℕ) (p : AuthorityParts) → IsUtf8 text
        → IsAuthorityDerived uri_rules text p → authority_parts text ≡ p }
    ensures iri_components { (text : List ℕ) (p : AuthorityParts) → IsUtf8 text
        → IsAuthorityDerived iri_rules text p → authority_parts text ≡ p }
{}

/// A host is of the first of the rules `IP-literal`, `IPv4address` and `reg-name` that has it
/// (RFC 3986, section 3.2.2).
///
/// `127.0.0.1` is of `IPv4address` and of `reg-name`, so its kind is `Ipv4`.
pub fn hosts_are_of_the_first_rule_that_has_them()
    ensures ipv6 { (names : TableSet) (text : List ℕ)
        → (((segments : List ℕ) × IsHost names text (Ipv6 segments))
        ↔ ((address : List ℕ) × (text ≡ bracketed address) × IsOf Rfc3986.IPv6address address)) }
    ensures ipv_future { (names : TableSet) (text : List ℕ)
        → ((IsUtf8 text × IsHost names text IpvFuture)
        ↔ ((address : List ℕ) × (text ≡ bracketed address) × IsOf Rfc3986.IPvFuture address)) }
    ensures ipv4 { (names : TableSet) (text : List ℕ)
        → (((octets : List ℕ) × IsHost names text (Ipv4 octets)) ↔ IsOf Rfc3986.IPv4address text) }
    ensures reg_name { (text : List ℕ) → ((IsUtf8 text × IsHost uri.reg_name text RegName)
        ↔ (IsOf Rfc3986.reg-name text × ¬ (IsOf Rfc3986.IPv4address text))) }
    ensures ireg_name { (text : List ℕ) → ((IsUtf8 text × IsHost iri.reg_name text RegName)
        ↔ (IsOf Rfc3987.ireg-name text × ¬ (IsOf Rfc3986.IPv4address text))) }
{}

/// What `Scheme::new`, `Authority::new` and `EStr::new` take for a component is of the component's
/// rule: for `Path` of the rule `path`, which has the texts of all five rules on paths.
///
/// `a%20b` is of `path`, and `a b` is not. `café` is of `ipath`.
pub fn components_are_of_their_rules()
    ensures scheme { (text : List ℕ)
        → (IsOf Rfc3986.scheme text ↔ (IsUtf8 text × (is_scheme text ≡ true))) }
    ensures authority { (text : List ℕ)
        → (IsOf Rfc3986.authority text ↔ (IsUtf8 text × (is_authority uri text ≡ true))) }
    ensures iauthority { (text : List ℕ)
        → (IsOf Rfc3987.iauthority text ↔ (IsUtf8 text × (is_authority iri text ≡ true))) }
    ensures port { (text : List ℕ)
        → (IsOf Rfc3986.port text ↔ (IsUtf8 text × IsValidFor digit_set text)) }
    ensures userinfo { (text : List ℕ)
        → (IsOf Rfc3986.userinfo text ↔ (IsUtf8 text × IsValidFor uri.userinfo text)) }
    ensures reg_name { (text : List ℕ)
        → (IsOf Rfc3986.reg-name text ↔ (IsUtf8 text × IsValidFor uri.reg_name text)) }
    ensures path { (text : List ℕ)
        → (IsOf Rfc3986.path text ↔ (IsUtf8 text × IsValidFor uri.path text)) }
    ensures query { (text : List ℕ)
        → (IsOf Rfc3986.query text ↔ (IsUtf8 text × IsValidFor uri.query text)) }
    ensures fragment { (text : List ℕ)
        → (IsOf Rfc3986.fragment text ↔ (IsUtf8 text × IsValidFor uri.fragment text)) }
    ensures iuserinfo { (text : List ℕ)
        → (IsOf Rfc3987.iuserinfo text ↔ (IsUtf8 text × IsValidFor iri.userinfo text)) }
    ensures ireg_name { (text : List ℕ)
        → (IsOf Rfc3987.ireg-name text ↔ (IsUtf8 text × IsValidFor iri.reg_name text)) }
    ensures ipath { (text : List ℕ)
        → (IsOf Rfc3987.ipath text ↔ (IsUtf8 text × IsValidFor iri.path text)) }
    ensures iquery { (text : List ℕ)
        → (IsOf Rfc3987.iquery text ↔ (IsUtf8 text × IsValidFor iri.query text)) }
    ensures ifragment { (text : List ℕ)
        → (IsOf Rfc3987.ifragment text ↔ (IsUtf8 text × IsValidFor iri.fragment text)) }
{}

/// The rules `absolute-URI` and `absolute-IRI` have the URIs and IRIs without a fragment (RFC 3986,
/// section 4.3), such as `strip_fragment` returns.
///
/// `a:b` is of `absolute-URI`, and `a:b#c` is not.
pub fn absolute_rules_have_no_fragment()
    ensures uri { (text : List ℕ)
        → (IsOf Rfc3986.absolute-URI text
        ↔ (IsTextOf uri text × ((components text).fragment ≡ None))) }
    ensures iri { (text : List ℕ)
        → (IsOf Rfc3987.absolute-IRI text
        ↔ (IsTextOf iri text × ((components text).fragment ≡ None))) }
{}

/// Normalising decodes octets of characters of the rule `unreserved`, and in no component one of
/// `reserved` (RFC 3986, sections 2.2 and 2.3).
///
/// `%41` is decoded to `A`; `%2F`, which is an octet of `/`, stays.
pub fn reserved_octets_stay()
    ensures unreserved { (c : ℕ) → (Has Rfc3986.unreserved (c ∷ []) ↔ (is_unreserved c ≡ true)) }
    ensures reserved { (set : TableSet) (c : ℕ) → Has Rfc3986.reserved (c ∷ [])
        → is_decodable set c ≡ false }
{}

/// The rules, printed a line each, are the lines that the RFCs print (`printed/`).
pub fn rules_are_those_that_the_rfcs_print()
    ensures rfc5234 { map line Rfc5234.rules ≡ Printed.rfc5234 }
    ensures rfc3986 { map line Rfc3986.rules ≡ Printed.rfc3986 }
    ensures rfc3987 { map line Rfc3987.rules ≡ Printed.rfc3987 }
{}
