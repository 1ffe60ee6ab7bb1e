//! Laws of texts whose characters past ASCII are replaced by their octets, each the contract of a
//! function that does nothing.
ghost use Rattle.std.specs.Prelude.{◌≡◌, ℕ, List, IsUtf8};
ghost use Rattle.std.specs.Result.{result_map_both};
ghost use Rattle.uri_parts.specs.Prelude.{IsTextOf, Kind, components, iri, iri_ref, uri, uri_ref};
ghost use Rattle.uri_ops.specs.ComponentSets.{HasComponentSets, IsWithin};
ghost use Rattle.uri_ops.specs.Encoded.{ascii_kind, encode_past_ascii};
ghost use Rattle.uri_ops.specs.Meaning.{bare_meaning_of};
ghost use Rattle.uri_ops.specs.SchemeRules.{Rules, meaning_under};
ghost use Rattle.uri_ops.specs.Target.{resolution_of_texts, target_underflows};

/// A text of a kind is of each kind with wider sets that needs no scheme where the one does not, as
/// each URI is an IRI and a URI reference.
///
/// `http://a` is a URI, and so a URI reference and an IRI.
pub fn texts_are_of_wider_kinds_too()
    ensures wider { (kind wide : Kind) (text : List ℕ) → HasComponentSets wide → IsWithin kind wide
        → IsTextOf kind text → IsTextOf wide text }
    ensures uri { (kind : Kind) → IsWithin (ascii_kind kind) kind }
    ensures reference { IsWithin uri uri_ref × IsWithin iri iri_ref }
{}

/// `encode_past_ascii` turns a text of a kind of IRIs into one of the kind of URIs that goes with
/// it (RFC 3987, section 3.1). Its characters past ASCII become octets. As an IRI it is equivalent
/// to the text under any rules of schemes.
///
/// `http://a/é` and `http://a/%C3%A9` are equivalent as IRIs.
pub fn encoding_past_ascii_keeps_meaning()
    ensures uri { ascii_kind iri ≡ uri }
    ensures uri_ref { ascii_kind iri_ref ≡ uri_ref }
    ensures text { (kind : Kind) (text : List ℕ) → HasComponentSets kind → IsTextOf kind text
        → IsTextOf (ascii_kind kind) (encode_past_ascii text) }
    ensures bare { (kind : Kind) (text : List ℕ) → HasComponentSets kind → IsTextOf kind text
        → bare_meaning_of kind (encode_past_ascii text) ≡ bare_meaning_of kind text }
    ensures meaning { (kind : Kind) (rules : Rules) (text : List ℕ) → HasComponentSets kind
        → IsTextOf kind text
        → meaning_under kind rules (encode_past_ascii text) ≡ meaning_under kind rules text }
{}

/// If `encode_past_ascii` turns the characters past ASCII of a base and a reference into octets,
/// the target changes in the same way. An error stays the same error. The target underflows in the
/// same cases.
///
/// `é` against `http://a` is `http://a/é`, and `%C3%A9` against it `http://a/%C3%A9`.
pub fn encoding_past_ascii_and_resolving_swap()
    ensures resolution { (base reference : List ℕ) → IsUtf8 base → IsUtf8 reference
        → resolution_of_texts (encode_past_ascii base) (encode_past_ascii reference)
        ≡ result_map_both encode_past_ascii (λ refusal. refusal)
        (resolution_of_texts base reference) }
    ensures underflow { (base reference target : List ℕ) → IsUtf8 base → IsUtf8 reference
        → resolution_of_texts base reference ≡ Ok target
        → target_underflows (components (encode_past_ascii base))
        (components (encode_past_ascii reference))
        ≡ target_underflows (components base) (components reference) }
{}
