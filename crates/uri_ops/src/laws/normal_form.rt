//! Laws of meanings and normal texts, each the contract of a function that does nothing.
ghost use Rattle.std.specs.Prelude.{◌≡◌, ◌↔◌, ℕ, List, true};
ghost use Rattle.uri_parts.specs.Prelude.{IsTextOf, Kind, PortFunction, iri, iri_ref, uri, uri_ref};
ghost use Rattle.uri_ops.specs.ComponentSets.{HasComponentSets};
ghost use Rattle.uri_ops.specs.Meaning.{Meaning, bare_meaning_of, meaning_of, under};
ghost use Rattle.uri_ops.specs.Normal.{normal_text};
ghost use Rattle.uri_ops.specs.SameMeanings.{same_meaning};
ghost use Rattle.uri_ops.specs.SchemeRules.{Rules, meaning_under, only_ports, under_rules};

/// The sets of the four kinds have what the laws of normal forms ask of a kind's (RFC 3986,
/// sections 2.2, 2.3 and 3, and RFC 3987, section 2.2).
///
/// No set of a component of `uri` has `?`, but those of its query and its fragment.
#[tactic(auto, using(crate::proofs::Theorems::four_sets))]
pub fn four_kinds_have_component_sets()
    ensures uri { HasComponentSets uri }
    ensures uri_ref { HasComponentSets uri_ref }
    ensures iri { HasComponentSets iri }
    ensures iri_ref { HasComponentSets iri_ref }
{}

/// The meaning under default ports, or under rules of schemes, is a function of the bare meaning
/// (RFC 3986, section 6.2.3).
///
/// `http://a:80` and `http://a` are equivalent if 80 is the default port of `http`, and not if it
/// has none.
#[tactic(auto, using(crate::proofs::Theorems::canonical))]
pub fn bare_meanings_determine_meanings()
    ensures ports { (kind : Kind) (ports : PortFunction) (text : List ℕ)
        → meaning_of kind ports text ≡ under ports (bare_meaning_of kind text) }
    ensures rules { (kind : Kind) (rules : Rules) (text : List ℕ)
        → meaning_under kind rules text
        ≡ under_rules rules (under rules.ports (bare_meaning_of kind text)) }
{}

/// Under rules that are default ports alone, a text means what it means under these ports.
///
/// With default ports alone, `http://a:80` and `http://a` are equivalent, and `http://a/` is not
/// equivalent to them.
#[tactic(auto, using(crate::proofs::Theorems::canonical))]
pub fn default_ports_are_rules()
    ensures { (kind : Kind) (ports : PortFunction) (text : List ℕ)
        → meaning_under kind (only_ports ports) text ≡ meaning_of kind ports text }
{}

/// What is equivalent under default ports is equivalent under any rules that have them.
///
/// `HTTP://a` and `http://a` are equivalent, and so they are under `StandardRules`.
pub fn rules_keep_equivalence()
    ensures { (kind : Kind) (rules : Rules) (t u : List ℕ)
        → meaning_of kind rules.ports t ≡ meaning_of kind rules.ports u
        → meaning_under kind rules t ≡ meaning_under kind rules u }
{}

/// Two meanings are equal exactly if each of their parts is, which `same_meaning` computes (RFC
/// 3986, section 6.2.2).
///
/// The meanings of `HTTP://a` and `http://a` have equal parts, and those of `http://a` and
/// `http://a/` differ in their paths.
#[tactic(auto, using(crate::proofs::Theorems::comparing))]
pub fn meanings_are_equal_if_their_parts_are()
    ensures { (m n : Meaning) → (same_meaning m n ≡ true ↔ m ≡ n) }
{}

/// Under any rules, the normal text of a text's meaning is a text of the kind and has that meaning,
/// so texts have equal normal texts exactly if they have equal meanings, and the normal text of a
/// normal text is itself (RFC 3986, sections 6.2.2 and 6.2.3).
///
/// `HTTP://a` and `http://a` are equivalent, and both have the normal text `http://a`. Under
/// `StandardRules` both have the normal text `http://a/`.
#[tactic(auto, using(crate::proofs::Theorems::canonical))]
pub fn normal_texts_are_canonical()
    ensures text { (kind : Kind) (rules : Rules) (text : List ℕ) → HasComponentSets kind
        → IsTextOf kind text → IsTextOf kind (normal_text (meaning_under kind rules text)) }
    ensures meaning { (kind : Kind) (rules : Rules) (text : List ℕ) → HasComponentSets kind
        → IsTextOf kind text
        → meaning_under kind rules (normal_text (meaning_under kind rules text))
        ≡ meaning_under kind rules text }
    ensures twice { (kind : Kind) (rules : Rules) (text : List ℕ) → HasComponentSets kind
        → IsTextOf kind text
        → normal_text (meaning_under kind rules (normal_text (meaning_under kind rules text)))
        ≡ normal_text (meaning_under kind rules text) }
    ensures same { (kind : Kind) (rules : Rules) (t u : List ℕ) → HasComponentSets kind
        → IsTextOf kind t → IsTextOf kind u
        → (normal_text (meaning_under kind rules t) ≡ normal_text (meaning_under kind rules u)
        ↔ meaning_under kind rules t ≡ meaning_under kind rules u) }
{}
