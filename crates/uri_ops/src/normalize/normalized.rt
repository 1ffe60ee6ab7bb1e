//! What normalising writes.
use uri_parts::packed_positions::PackedPositions;

/// A normal text with the positions of its components, and whether the removal of its dot segments
/// underflows.
#[derive(Drop)]
pub(crate) struct Normalized {
    pub(crate) text: String,
    pub(crate) positions: PackedPositions,
    pub(crate) underflows: bool,
}
