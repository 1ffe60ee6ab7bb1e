//! The rules that the RFCs print (RFC 3986, appendix A; RFC 3987, section 2.2), and what callers
//! read by them.
ghost use Rattle.std.specs.Prelude.{◌≡◌, ◌↔◌, ◌∷◌, ℕ, List, [], false, map, true};
ghost use Rattle.fluent_uri.specs.Prelude.{Ipv4, IsHost, authority_parts, components, iri_text, is_decodable, path_set, uri, uri_text};
ghost use Rattle.uri_abnf.specs.Abnf.{Has, IsOf};
ghost use Rattle.uri_abnf.specs.Derivations.{IsAuthorityDerived, IsDerived, uri_rules};
ghost use Rattle.uri_abnf.specs.Printed as Printed;
ghost use Rattle.uri_abnf.specs.Printing.{line};
ghost use Rattle.uri_abnf.specs.Rfc3986 as Rfc3986;
ghost use Rattle.uri_abnf.specs.Rfc3987 as Rfc3987;

use fluent_uri::component::Scheme;
use fluent_uri::{Iri, Uri};

/// A caller that hands an IRI to a reader of the printed rules proves that the reader takes it.
pub fn of_the_rule_iri(value: Iri<&str>)
    ensures { IsOf Rfc3987.IRI (iri_text value.entry) }
{
    let _text = value.as_str();
    uri_abnf::kinds_are_the_languages_of_their_rules();
}

/// A caller proves that a reader of the printed rules which takes a reference derives the components
/// that this library returns.
pub fn derived_components(text: &str)
    ensures { IsOf Rfc3986.URI-reference text.now
        ↔ IsDerived uri_rules text.now (components text.now) }
{
    uri_abnf::components_are_derived_in_one_way();
}

/// A caller proves that the hosts which this library has as IPv4 addresses are those of the printed
/// rule.
pub fn host_of_the_rule_ipv4(host: &str)
    ensures { ((octets : List ℕ) × IsHost uri.reg_name host.now (Ipv4 octets))
        ↔ IsOf Rfc3986.IPv4address host.now }
{
    uri_abnf::hosts_are_of_the_first_rule_that_has_them();
}

/// A caller proves that a reader of the printed rules which takes an authority derives the parts
/// that this library returns.
pub fn derived_components_of_an_authority(text: &str)
    requires { IsOf Rfc3986.authority text.now }
    ensures { IsAuthorityDerived uri_rules text.now (authority_parts text.now) }
{
    uri_abnf::authorities_are_derived_in_one_way();
}

/// A caller tests whether a text is of the printed rule for schemes.
pub fn is_of_the_rule_scheme(text: &str) -> bool
    ensures { (result ≡ true) ↔ IsOf Rfc3986.scheme text.now }
{
    uri_abnf::components_are_of_their_rules();
    Scheme::new(text).is_some()
}

/// A caller that hands a URI without its fragment to a reader of `absolute-URI` proves that the
/// reader takes it.
pub fn without_its_fragment(value: Uri<&str>) -> Uri<&str>
    ensures { IsOf Rfc3986.absolute-URI (uri_text result) }
{
    uri_abnf::absolute_rules_have_no_fragment();
    let stripped = value.strip_fragment();
    let _text = stripped.as_str();
    stripped
}

/// A caller that writes a delimiter as an octet proves that normalising leaves it.
pub fn delimiter_stays_encoded(delimiter: char)
    requires { Has Rfc3986.reserved (delimiter ∷ []) }
    ensures { is_decodable path_set delimiter ≡ false }
{
    uri_abnf::reserved_octets_stay();
}

/// A caller that reads the rules in this repository proves that they are the printed ones.
pub fn rules_as_printed()
    ensures { map line Rfc3986.rules ≡ Printed.rfc3986 }
{
    uri_abnf::rules_are_those_that_the_rfcs_print();
}
