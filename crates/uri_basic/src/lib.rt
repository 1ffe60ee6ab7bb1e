//! Resolving by the basic algorithm of RFC 3986, section 5.2, as it is printed.
#![tactic(auto)]

mod dots;
pub mod error;
pub mod laws;
pub mod resolver;
mod target_text;

pub use error::BasicResolveError;
pub use resolver::BasicResolver;
