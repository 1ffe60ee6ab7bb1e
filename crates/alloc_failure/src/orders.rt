//! The order of normal forms.
use crate::requests::{end, tried};
use crate::values::{holds, parsed};
use fluent_uri::Uri;
use integration_tests::comparison::equal;
use std::hash::{DefaultHasher, Hasher};
use uri_order::NormalOrder;
use uri_parts::kind::UriKind;

/// Tests that a text which is owned is compared and hashed by its normal form without a request for
/// memory.
#[test]
fn owned_text_in_order(rt: HostRuntime) {
    let text = tried!(&rt; "String::from_str", String::from_str(rt.alloc(), "HTTP://a:80/./%7e"));
    let one = Uri::<String>::parse(text).expect(&rt, "a URI");
    let other = parsed::<_, UriKind>(&rt, "http://a/~");
    let order = NormalOrder::new();
    holds(&rt, order.is_equivalent(&one, &other), "equivalent");
    holds(&rt, order.cmp(&one, &other).is_eq(), "equal");
    holds(&rt, !order.is_normal(&one), "normal");
    let (mut state, mut same) = (DefaultHasher::new(), DefaultHasher::new());
    order.hash(&one, &mut state);
    order.hash(&other, &mut same);
    equal(state.finish(), same.finish()).expect(&rt, "hash");
    end(&rt, rt.alloc());
}
