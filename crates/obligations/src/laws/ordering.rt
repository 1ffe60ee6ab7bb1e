//! The order of normal forms (RFC 3986, sections 6.2.2 and 6.2.3).
ghost use Rattle.std.specs.Prelude.{◌≡◌, ◌↔◌, true};
ghost use Rattle.fluent_uri.specs.Prelude.{standard_rules, uri, uri_text};
ghost use Rattle.uri_order.specs.NormalForms.{AreEquivalent, normal_form};
ghost use Rattle.uri_order.specs.TotalOrders.{IsTotalOrderBy};

use fluent_uri::Uri;
use fluent_uri::normalize::StandardRules;
use uri_order::{NormalOrder, laws as order_laws};

/// A caller proves that a link is equivalent by rules to another exactly if the order has the other
/// as equal.
pub fn is_same_link(one: Uri<&str>, other: Uri<&str>) -> bool
    ensures { (result ≡ true) ↔ AreEquivalent uri standard_rules
        (uri_text one.entry) (uri_text other.entry) }
{
    let order = NormalOrder::new().scheme_rules_with(StandardRules);
    order.cmp(&one, &other).is_eq()
}

/// A caller that sorts links by this order proves that the order is total.
pub fn links_are_in_a_total_order()
    ensures { IsTotalOrderBy (normal_form uri standard_rules) }
{
    order_laws::normal_forms_are_in_a_total_order();
}
