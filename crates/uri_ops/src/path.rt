//! Paths: the segments that they begin with, and the removal of dot segments (RFC 3986, sections
//! 3.3 and 5.2.4).

#[doc(hidden)]
pub mod dot_segments;
pub(crate) mod leading_segment;
pub(crate) mod segment_mode;
#[doc(hidden)]
pub mod slashes;
