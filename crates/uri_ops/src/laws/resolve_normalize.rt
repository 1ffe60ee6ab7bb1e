//! Laws of targets and their meanings, each the contract of a function that does nothing.
ghost use Rattle.std.specs.Prelude.{◌≡◌, ℕ, List, true};
ghost use Rattle.uri_parts.specs.Prelude.{IsTextOf, Kind};
ghost use Rattle.uri_ops.specs.ComponentSets.{HasComponentSets};
ghost use Rattle.uri_ops.specs.Normal.{normal_text};
ghost use Rattle.uri_ops.specs.NormalTargets.{reference_kind, resolved_meaning};
ghost use Rattle.uri_ops.specs.SchemeRules.{Rules, meaning_under};
ghost use Rattle.uri_ops.specs.Target.{resolution_of_texts};

/// The target of a reference against a base of a kind is a text of that kind (RFC 3986, section
/// 5.2).
///
/// `../g` against the URI `http://a/b/c` is `http://a/g`, a URI.
pub fn targets_are_of_the_kind_of_their_base()
    ensures { (kind : Kind) (base reference target : List ℕ) → HasComponentSets kind
        → kind.needs_scheme ≡ true → IsTextOf kind base → IsTextOf (reference_kind kind) reference
        → resolution_of_texts base reference ≡ Ok target → IsTextOf kind target }
{}

/// Resolution respects equivalence under any rules: an equivalent base and reference give an
/// equivalent target, or the same error. The normal texts give these too.
///
/// `%67` against `HTTP://a/b` is equivalent to `g` against `http://a/b`: `http://a/g`. Under
/// `StandardRules`, `?q` against `http://a` is equivalent to `?q` against `http://a/`.
pub fn resolving_and_normalising_swap()
    ensures alike { (kind : Kind) (rules : Rules) (b c r s : List ℕ) → HasComponentSets kind
        → kind.needs_scheme ≡ true → IsTextOf kind b → IsTextOf kind c
        → IsTextOf (reference_kind kind) r → IsTextOf (reference_kind kind) s
        → meaning_under kind rules b ≡ meaning_under kind rules c
        → meaning_under (reference_kind kind) rules r ≡ meaning_under (reference_kind kind) rules s
        → resolved_meaning kind rules b r ≡ resolved_meaning kind rules c s }
    ensures normal_texts { (kind : Kind) (rules : Rules) (base reference : List ℕ)
        → HasComponentSets kind → kind.needs_scheme ≡ true → IsTextOf kind base
        → IsTextOf (reference_kind kind) reference
        → resolved_meaning kind rules (normal_text (meaning_under kind rules base))
        (normal_text (meaning_under (reference_kind kind) rules reference))
        ≡ resolved_meaning kind rules base reference }
{}
