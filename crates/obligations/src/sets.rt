//! Sets of characters, combined and compared (RFC 3986, appendix A).
#![tactic(auto)]

ghost use Rattle.std.specs.Prelude.{◌≡◌, ◌↔◌, IsTrue};
ghost use Rattle.fluent_uri.specs.Prelude.{IsSubset, difference, set_of, union};

use fluent_uri::pct_enc::{Table, table};

/// A caller gets the set of the characters of either of two sets, but for those of a third.
pub fn of_two_but_of_a_third(one: Table, other: Table, third: Table) -> Table
    ensures { set_of result ≡ difference (union (set_of one) (set_of other)) (set_of third) }
{
    one.or(&other).sub(&third)
}

/// A caller gets the set for an IRI: with percent-encoded octets and characters past ASCII.
pub fn for_iris(table: Table) -> Table {
    table.or_pct_encoded().or_ucschar().or_iprivate()
}

/// A caller learns whether each text that is valid for one set is valid for another.
pub fn is_narrower(one: &Table, other: &Table) -> bool
    ensures { IsTrue result ↔ IsSubset (set_of one.now) (set_of other.now) }
{
    one.is_subset(other)
}

/// A caller names the constants for components of IRIs.
pub fn constants_for_iris() -> [Table; 6] {
    [
        table::IUSERINFO,
        table::IREG_NAME,
        table::ISEGMENT_NZ_NC,
        table::IPATH,
        table::IQUERY,
        table::IFRAGMENT,
    ]
}
