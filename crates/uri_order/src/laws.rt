//! A law of the order of normal forms: the contract of a function that does nothing.
ghost use Rattle.std.specs.Prelude.{◌≡◌, ◌↔◌, ℕ, List};
ghost use Rattle.std.specs.declared.cmp.Ordering.TheVariants.{Equal};
ghost use Rattle.uri_parts.specs.Prelude.{IsTextOf, Kind};
ghost use Rattle.uri_ops.specs.Prelude.{HasComponentSets, Rules};
ghost use Rattle.uri_order.specs.NormalForms.{AreEquivalent, normal_form};
ghost use Rattle.uri_order.specs.TotalOrders.{IsTotalOrderBy, order_by};

/// The order of `NormalOrder` is total: each text is `Equal` to itself, two texts are in one order
/// or in the other, and the order is transitive. Two texts of a kind are `Equal` exactly if they
/// are equivalent under the rules (RFC 3986, sections 6.2.2 and 6.2.3).
///
/// Under `DefaultPorts`, `http://a:80` comes before `http://a/`, which comes before `HTTP://b`. So
/// `http://a:80` comes before `HTTP://b`. Under `StandardRules`, `http://a:80` and `http://a/` are
/// `Equal`.
pub fn normal_forms_are_in_a_total_order()
    ensures order { (kind : Kind) (rules : Rules) → IsTotalOrderBy (normal_form kind rules) }
    ensures equal { (kind : Kind) (rules : Rules) (one other : List ℕ)
        → HasComponentSets kind → IsTextOf kind one → IsTextOf kind other
        → (order_by (normal_form kind rules) one other ≡ Equal
        ↔ AreEquivalent kind rules one other) }
{}
