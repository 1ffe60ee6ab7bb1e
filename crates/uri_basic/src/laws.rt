//! Laws of the basic algorithm: a call does nothing, and its contract is the law.
ghost use Rattle.std.specs.Prelude.{◌≡◌, ◌↔◌, ℕ, Bool, List, Err, Ok, is_some, false, true};
ghost use Rattle.uri_parts.specs.Prelude.{components, recompose};
ghost use Rattle.uri_ops.specs.Prelude.{lacks_dot_segments, resolution_of_texts};
ghost use Rattle.uri_basic.specs.Deviations.{NothingDeviates, has_literal_dot_segment, takes_base_path};
ghost use Rattle.uri_basic.specs.Target.{PathStartsWithDoubleSlash, basic_resolution_of_texts, target};
ghost use Rattle.uri_relative.specs.Leading.{LeadsTo, settled, without_fragment};
ghost use Rattle.uri_relative.specs.Rule.{reference_to};

/// Where none of the differences concerns a base and a reference, the basic algorithm and
/// `Resolver` return the same target (RFC 3986, section 5.2).
///
/// Against `http://a/b/c/d;p?q`, `../g` resolves to `http://a/b/g` by both.
pub fn targets_are_the_same_where_nothing_deviates()
    ensures resolver { (base reference : List ℕ)
        → NothingDeviates (components base) (components reference)
        → resolution_of_texts base reference
        ≡ Ok (recompose (target (components base) (components reference))) }
    ensures basic { (base reference : List ℕ)
        → NothingDeviates (components base) (components reference)
        → basic_resolution_of_texts base reference
        ≡ Ok (recompose (target (components base) (components reference))) }
{}

/// The basic algorithm rejects a reference exactly if the target's text would have other components
/// than the target (RFC 3986, sections 3.3 and 5.3).
///
/// Against `foo:/a`, `.//b` has a target with the path `//b`, and `foo://b` has an authority.
#[tactic(auto, using(crate::proofs::Targets::rejection_is_of_other_components))]
pub fn rejected_targets_have_no_text()
    ensures { (base reference : List ℕ) → is_some (components base).scheme ≡ true
        → ((basic_resolution_of_texts base reference ≡ Err PathStartsWithDoubleSlash)
        ↔ ((components (recompose (target (components base) (components reference)))
        ≡ target (components base) (components reference)) → ⊥)) }
{}

/// A reference that leads from a base to a target, such as the one that `relativize` makes, leads
/// there by the basic algorithm too, if none of the differences concerns it (RFC 3986, section
/// 5.2).
///
/// From `http://a/b/c` to `http://a/b/x`, `x` leads by both. From `y:` to `x:.` and to `x:/.//`,
/// the references that `relativize` makes are these targets themselves: by the basic algorithm the
/// one resolves to `x:`, and the other is rejected.
pub fn references_lead_to_targets_where_nothing_deviates()
    ensures { (base target reference : List ℕ) → LeadsTo base target reference
        → NothingDeviates (without_fragment (components base)) (components reference)
        → basic_resolution_of_texts base reference ≡ Ok (recompose (settled target)) }
{}

/// By the basic algorithm the reference that `relativize` makes leads from any base to its target,
/// if the target's path has no dot segment, and none with a percent-encoded dot (RFC 3986, sections
/// 3.3 and 5.2).
///
/// The settled target, without the dot segments that `Resolver` removes, may still have `.` or
/// `..`: if its path doesn't begin with `/`, or begins with the guard `/.` before `//`. The
/// reference leads to every settled target that has neither.
///
/// From `http://a/./b` it leads to `http://a/c`, and for `http://a/%2E/d` to `http://a/d`. From
/// `y:` the references to `x:.` and `x:/.//` are these targets themselves. The one resolves to
/// `x:`, and the other is rejected.
pub fn relativized_references_lead_to_targets()
    ensures target { (prefers : Bool) (base target : List ℕ)
        → is_some (components target).scheme ≡ true
        → lacks_dot_segments (components target).path ≡ true
        → basic_resolution_of_texts base (reference_to prefers base target) ≡ Ok target }
    ensures settled { (prefers : Bool) (base target : List ℕ)
        → is_some (components target).scheme ≡ true
        → has_literal_dot_segment (settled target).path ≡ false
        → basic_resolution_of_texts base (reference_to prefers base target)
        ≡ Ok (recompose (settled target)) }
{}

/// By the basic algorithm only a reference that takes the base's path leads to a target with a
/// segment `.` or `..` (RFC 3986, sections 5.2.2 and 5.2.4). So no other reference leads where one
/// that `relativize` makes fails to.
///
/// Against `http://a/./b`, `?q` resolves to `http://a/./b?q`. Against `http://a/c` no reference
/// does.
pub fn targets_with_dot_segments_have_the_path_of_their_base()
    ensures takes { (base target reference : List ℕ) → is_some (components base).scheme ≡ true
        → basic_resolution_of_texts base reference ≡ Ok target
        → has_literal_dot_segment (components target).path ≡ true
        → takes_base_path (components reference) ≡ true }
    ensures path { (base target reference : List ℕ) → is_some (components base).scheme ≡ true
        → basic_resolution_of_texts base reference ≡ Ok target
        → has_literal_dot_segment (components target).path ≡ true
        → (components target).path ≡ (components base).path }
{}
