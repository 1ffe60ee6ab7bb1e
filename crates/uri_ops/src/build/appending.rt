//! The steps of a builder, each of which lengthens its text.
ghost use Rattle.std.specs.Prelude.{◌≡◌, ◌+◌, ◌-◌, ◌≤◌, IfSome, false, option_map, true, string_bytes};
ghost use Rattle.uri_pct.specs.Prelude.{Pushes, digit_set};
ghost use Rattle.uri_ops.specs.BuilderParts.{is_text_for};
ghost use Rattle.uri_ops.specs.HostParts.{IsHostText};

use crate::build::host_port::{AsPort, WithEncoder};
use crate::build::lengths::Lengths;
use uri_pct::encoder::Encoder;

/// The capacity that a builder's text gets at first, so that most builders allocate once.
const FIRST_CAPACITY: usize = 120;

/// Reserves `additional` bytes in a builder's text, and at least `FIRST_CAPACITY`. Returns whether
/// the allocation failed.
#[inline(never)]
fn reserve_fails(text: &mut String, additional: usize) -> bool
    ensures { string_bytes text.new ≡ string_bytes text.old }
{
    text.reserve(additional.max(FIRST_CAPACITY)).is_err()
}

/// Appends a piece to a builder's text, unless the builder has failed. Returns whether it has
/// failed now.
///
/// An empty text has no capacity, and gets some before the first piece that isn't empty.
#[inline(always)]
pub(crate) fn append_unless_failed(text: &mut String, failed: bool, piece: &str) -> bool
    ensures kept { result ≡ false → failed ≡ false }
    ensures text { result ≡ false → Pushes text.old text.new piece.now }
{
    let len = piece.len();
    failed || text.capacity() < len && reserve_fails(text, len) || text.push_str(piece).is_err()
}

/// Appends a host to a builder's text, unless the builder has failed. Returns whether it has failed
/// now.
pub(crate) fn append_host<E: Encoder, H: WithEncoder<E>>(
    text: &mut String,
    failed: bool,
    host: &H,
) -> bool
    ensures kept { result ≡ false → failed ≡ false }
    ensures text { result ≡ false → Pushes text.old text.new (H.host_text host.now) }
    ensures host { result ≡ false → IsHostText E.set (H.host_text host.now) }
{
    failed || host.push_host(text).is_err()
}

/// Appends the digits of a port to a builder's text, unless the builder has failed. Returns whether
/// it has failed now.
pub(crate) fn append_port<P: AsPort>(text: &mut String, failed: bool, port: &P) -> bool
    ensures kept { result ≡ false → failed ≡ false }
    ensures text { result ≡ false → Pushes text.old text.new (P.port_digits port.now) }
    ensures digits { result ≡ false → is_text_for digit_set (P.port_digits port.now) ≡ true }
{
    failed || port.push_digits(text).is_err()
}

/// Returns the lengths of a builder's parts after its text got longer, from `old` to `new`
/// bytes, if all that was appended belongs to the authority. If the builder has failed, they say
/// nothing.
pub(crate) fn lengths_with_longer_authority(
    lengths: Lengths,
    failed: bool,
    old: usize,
    new: usize,
) -> Lengths
    requires inside { failed ≡ false → IfSome lengths.authority (λ len. len ≤ old) }
    requires longer { failed ≡ false → old ≤ new }
    ensures { failed ≡ false → result
        ≡ record lengths { authority = option_map (λ len. len + (new - old)) lengths.authority } }
{
    match lengths.authority {
        Some(len) if !failed => Lengths {
            authority: Some(new - (old - len)),
            ..lengths
        },
        _ => lengths,
    }
}
