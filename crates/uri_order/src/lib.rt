//! The order of normal forms, without making them (RFC 3986, section 6.2).
#![tactic(auto)]

#[doc(hidden)]
pub mod hashing;
mod in_step;
pub mod laws;
pub mod normal_order;
mod normal_texts;

pub use normal_order::NormalOrder;
