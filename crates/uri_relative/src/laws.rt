//! Laws of the definitions that contracts cite: a call does nothing, and its contract is the law.
ghost use Rattle.std.specs.Prelude.{◌≡◌, ℕ, List, Ok, false, is_some, true};
ghost use Rattle.uri_parts.specs.Prelude.{components, recompose};
ghost use Rattle.uri_ops.specs.Prelude.{is_opaque, resolution_of_texts};
ghost use Rattle.uri_relative.specs.Leading.{LeadsTo, NeedsSchemeOrAuthority, needs_authority, settled};

/// If a target was resolved against a base, every reference that leads from the base to it resolves
/// to it again (RFC 3986, section 5.2).
///
/// Against `http://a/b/c`, `./d/../e` resolves to `http://a/b/e`. From there `e` leads to it, and
/// resolves to it too.
#[tactic(auto, using(crate::proofs::Returning::coming_back))]
pub fn references_lead_back_to_targets()
    ensures back { (base reference target short : List ℕ)
        → is_some (components base).scheme ≡ true
        → resolution_of_texts base reference ≡ Ok target → LeadsTo base target short
        → resolution_of_texts base short ≡ Ok target }
    ensures settled { (base reference target : List ℕ) → is_some (components base).scheme ≡ true
        → resolution_of_texts base reference ≡ Ok target → recompose (settled target) ≡ target }
{}

/// The exceptions for which `relativize` writes a scheme or an authority that the base has too
/// cannot be avoided: no reference with neither resolves to such a target.
///
/// From `http://a?q` only references with an authority lead to `http://a`. An empty path would take
/// the base's query, and any other path begins with `/` in the target.
#[tactic(auto, using(crate::proofs::Exceptions::target_reference_needs_scheme_or_authority))]
pub fn exceptions_need_a_scheme_or_an_authority()
    ensures { (base target : List ℕ) → is_some (components base).scheme ≡ true
        → is_some (components target).scheme ≡ true → is_opaque (components base) ≡ false
        → needs_authority (components base) (settled target) ≡ true
        → NeedsSchemeOrAuthority base target }
{}
