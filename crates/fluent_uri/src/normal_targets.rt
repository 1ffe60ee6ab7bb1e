//! The law of targets of normal forms.
ghost use Rattle.std.specs.Prelude.{◌≡◌, ◌↔◌, ℕ, List, Some};
ghost use Rattle.uri_parts.specs.Prelude.{components};
ghost use Rattle.uri_ops.specs.Prelude.{IsErrorWithUnderflowAllowed, IsNormalForm, resolved_meaning, scheme_rules_of};
ghost use Rattle.uri_ops.specs.declared.resolve.error.ResolveError.{ResolveError};
ghost use Rattle.fluent_uri.specs.References.{reference_text};
ghost use Rattle.fluent_uri.specs.Targets.{target_of_texts};

use crate::reference::Reference;
use crate::roles::RefKind;
use std::convert::AsStr;
use uri_ops::normalize::Normalizer;
use uri_ops::scheme_rules::SchemeRules;
use uri_ops::traits::RiMaybeRef;

/// It makes no difference whether a base and a reference are normalised before they are resolved:
/// the targets of both have the same normal form, or both have none, for the same reason (RFC 3986,
/// sections 5.2, 6.2.2 and 6.2.3).
///
/// `%67` against `HTTP://a:80/b` and `g` against `http://a/b` have targets with the normal form
/// `http://a/g`. By `StandardRules`, `?q` against `http://a` and against `http://a/` have targets
/// with the normal form `http://a/?q`.
///
/// # Conditions
///
/// The last two arguments are what the normaliser's `normalize` returns for the two before them.
pub fn normal_forms_have_equivalent_targets<K: RefKind, B: AsStr, T: AsStr, S: SchemeRules>(
    normalizer: &Normalizer<S>,
    base: &Reference<K::Base, B>,
    reference: &Reference<K, T>,
    normal_base: &Reference<K::Base, String>,
    normal_reference: &Reference<K, String>,
)
    requires base { IsNormalForm K.Base.kind (S.rules_of (scheme_rules_of normalizer.now))
        (reference_text base.now) (reference_text normal_base.now) }
    requires reference { IsNormalForm K.kind (S.rules_of (scheme_rules_of normalizer.now))
        (reference_text reference.now) (reference_text normal_reference.now) }
    ensures meanings { let rules = S.rules_of (scheme_rules_of normalizer.now) in
        resolved_meaning K.Base.kind rules
        (reference_text normal_base.now) (reference_text normal_reference.now)
        ≡ resolved_meaning K.Base.kind rules
        (reference_text base.now) (reference_text reference.now) }
    ensures targets { let rules = S.rules_of (scheme_rules_of normalizer.now) in
        (target other normal other_normal : List ℕ)
        → target_of_texts (reference_text base.now) (reference_text reference.now) ≡ Some target
        → target_of_texts (reference_text normal_base.now) (reference_text normal_reference.now)
        ≡ Some other
        → IsNormalForm K.Base.kind rules target normal
        → IsNormalForm K.Base.kind rules other other_normal
        → other_normal ≡ normal }
    ensures refusals { (error : ResolveError)
        → (IsErrorWithUnderflowAllowed (components (reference_text normal_base.now))
        (components (reference_text normal_reference.now)) error
        ↔ IsErrorWithUnderflowAllowed (components (reference_text base.now))
        (components (reference_text reference.now)) error) }
{
    let _base = base.core().as_str();
    let _reference = reference.core().as_str();
}
