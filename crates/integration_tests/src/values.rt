//! Constants of empty texts, which have no contract, and a capacity that no memory has.
use crate::comparison::equal;
use fluent_uri::component::Authority;
use fluent_uri::pct_enc::encoder::{Path, RegName, Userinfo};
use fluent_uri::pct_enc::{EStr, EString};

/// Tests the constants of the empty authority and of the empty percent-encoded text.
#[test]
fn empty_constants(rt: HostRuntime) {
    equal(Authority::<Userinfo, RegName>::EMPTY.as_str(), "").expect(&rt, "Authority");
    equal(EStr::<Path>::EMPTY.as_str(), "").expect(&rt, "EStr");
}

/// Tests that an `EString` with a capacity that cannot be allocated is an error.
#[test]
fn capacity_that_cannot_be_allocated(rt: HostRuntime) {
    let text = EString::<Path>::with_capacity(rt.alloc(), usize::MAX);
    equal(text.is_err(), true).expect(&rt, "capacity");
}
