//! The pairs of a query.
use crate::requests::{end, tried};
use crate::values::{encoded, is_text};
use fluent_uri::pct_enc::encoder::Query;
use uri_query::{pairs_of, query_of};

/// Tests `pairs_of` and `query_of` while memory is denied.
#[test]
fn pairs(rt: HostRuntime) {
    let alloc = rt.alloc();
    let pairs = tried!(&rt; "pairs_of", pairs_of(alloc, encoded::<_, Query>(&rt, "a=%26&b")));
    let made = tried!(&rt; "query_of", query_of(alloc, pairs.as_slice()));
    is_text(&rt, made.as_str(), "a=%26&b=");
    end(&rt, alloc);
}
