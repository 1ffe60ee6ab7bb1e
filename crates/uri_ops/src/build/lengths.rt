//! The lengths of the parts that a builder has written.

/// The length of each part that is present, in bytes.
#[derive(Clone, Copy)]
pub struct Lengths {
    pub scheme: Option<usize>,
    pub authority: Option<usize>,
    pub path: Option<usize>,
    pub query: Option<usize>,
    pub fragment: Option<usize>,
}
