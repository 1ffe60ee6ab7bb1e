//! Sets of characters, and texts that are percent-encoded over them.
#![tactic(auto)]

#[doc(hidden)]
pub mod cow;
#[doc(hidden)]
pub mod decode;
mod decode_text;
#[doc(hidden)]
pub mod encode;
mod encoded_runs;
pub mod encoder;
mod estring;
#[doc(hidden)]
pub mod lanes;
#[doc(hidden)]
pub mod laws;
mod masks;
#[doc(hidden)]
pub mod octet;
pub mod pct_enc;
#[doc(hidden)]
pub mod scan;
#[doc(hidden)]
pub mod search;
#[doc(hidden)]
pub mod split;
pub mod table;
#[doc(hidden)]
pub mod utf8;
#[doc(hidden)]
pub mod utf8_runs;
mod window;
