//! Texts that mean the same, and what is resolved against them (RFC 3986, sections 5.2 and 6.2.2).
ghost use Rattle.std.specs.Prelude.{◌≡◌, Ok};
ghost use Rattle.fluent_uri.specs.Prelude.{IsTextOf, Rules, bare_meaning_of, default_rules, encode_past_ascii, iri, iri_ref_text, iri_text, meaning_under, resolution_of_texts, resolved_meaning, uri, uri_ref_text, uri_text};

use fluent_uri::{Iri, IriRef, Uri, UriRef, laws};

/// A caller that compares without rules of schemes, as keys of a cache, proves that equal keys are
/// equivalent under any rules.
pub fn equal_keys_are_equivalent(one: Uri<&str>, other: Uri<&str>)
    requires { bare_meaning_of uri (uri_text one) ≡ bare_meaning_of uri (uri_text other) }
    ensures { (rules : Rules) → meaning_under uri rules (uri_text one.entry)
        ≡ meaning_under uri rules (uri_text other.entry) }
{
    laws::bare_meanings_determine_meanings();
}

/// A caller that moves a site to an equivalent base proves that its links lead to equivalent
/// targets.
pub fn same_links_after_a_move(old: Uri<&str>, new: Uri<&str>, link: UriRef<&str>)
    requires { meaning_under uri default_rules (uri_text old)
        ≡ meaning_under uri default_rules (uri_text new) }
    ensures { resolved_meaning uri default_rules (uri_text old.entry) (uri_ref_text link.entry)
        ≡ resolved_meaning uri default_rules (uri_text new.entry) (uri_ref_text link.entry) }
{
    let _old = old.as_str();
    let _new = new.as_str();
    let _link = link.as_str();
    laws::four_kinds_have_component_sets();
    laws::resolving_and_normalising_swap();
}

/// A caller that resolves texts by the definition proves that the target parses as a URI.
pub fn target_is_a_uri(base: Uri<&str>, reference: UriRef<&str>, target: &str)
    requires { resolution_of_texts (uri_text base) (uri_ref_text reference) ≡ Ok target.now }
    ensures { IsTextOf uri target.now }
{
    let _base = base.as_str();
    let _reference = reference.as_str();
    laws::four_kinds_have_component_sets();
    laws::targets_are_of_the_kind_of_their_base();
}

/// A caller that sends an IRI as a URI proves that it means the same to who gets it.
pub fn sent_as_a_uri(address: Iri<&str>)
    ensures { meaning_under iri default_rules (encode_past_ascii (iri_text address.entry))
        ≡ meaning_under iri default_rules (iri_text address.entry) }
{
    let _text = address.as_str();
    laws::four_kinds_have_component_sets();
    laws::encoding_past_ascii_keeps_meaning();
}

/// A caller that stores pages as URIs proves that a link of IRIs that leads to a page leads there
/// as URIs.
pub fn leads_to_the_stored_page(base: Iri<&str>, link: IriRef<&str>, page: &str)
    requires { resolution_of_texts (iri_text base) (iri_ref_text link) ≡ Ok page.now }
    ensures { resolution_of_texts (encode_past_ascii (iri_text base.entry))
        (encode_past_ascii (iri_ref_text link.entry)) ≡ Ok (encode_past_ascii page.now) }
{
    let _base = base.as_str();
    let _link = link.as_str();
    laws::encoding_past_ascii_and_resolving_swap();
}
