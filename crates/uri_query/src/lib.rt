//! The pairs of a query, as `name=value&name=value` (RFC 3986, sections 2.1 and 3.4).
#![tactic(auto, using(fluent_uri::proofs::Calling::calling))]

pub mod pairs;
pub mod places;

pub use pairs::{Pair, pairs_of, query_of};
pub use places::{PairPlace, next_pair};
