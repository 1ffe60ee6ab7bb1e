//! The same text with another fragment (RFC 3986, section 3.5).
ghost use Rattle.std.specs.Prelude.{◌≡◌, ◌≤◌, ◌<◌, ◌+◌, ◌++◌, ◌∷◌, IfOk, IsOk, OnErr, OnOk, None, length, take, option_map, string_bytes, IsCharBoundary, string_capacity};
ghost use Rattle.uri_pct.specs.Prelude.{Pushes, number_sign, text_of};
ghost use Rattle.uri_parts.specs.Fragments.{IsWithFragment, StaysOfKind};
ghost use Rattle.uri_parts.specs.Positions.{ArePositionsOf};

use crate::positions::Positions;
use std::alloc::{AllocError, Global};
use uri_pct::encoder::Encoder;
use uri_pct::pct_enc::EStr;

/// Appends a `#` and the fragment that the text is given.
fn push_fragment(text: &mut String, fragment: &str) -> Result<(), AllocError>
    ensures text { OnOk result (Pushes text.old text.new (number_sign ∷ fragment.now)) }
    ensures full { OnErr result
        (string_capacity text.old < length (string_bytes text.old) + (length fragment.now + 1)) }
{
    text.push('#')?;
    text.push_str(fragment)
}

/// Makes room for a `#` and a fragment of this length after the text up to a position. The text is
/// as it was.
fn reserve_for_fragment(text: &mut String, place: usize, len: usize) -> Result<(), AllocError>
    requires { IsCharBoundary (string_bytes text.old) place }
    ensures same { string_bytes text.new ≡ string_bytes text.old }
    ensures room { OnOk result (place + (len + 1) ≤ string_capacity text.new) }
{
    let Some(added) = len.checked_add(1) else {
        return Err(AllocError);
    };
    text.reserve(added.saturating_sub(text.len() - place))
}

/// Replaces what is after a position by a `#` and the fragment, for which there is room.
fn replace_end_by_fragment(text: &mut String, place: usize, fragment: &str)
    requires boundary { IsCharBoundary (string_bytes text.old) place }
    requires room { place + (length fragment.now + 1) ≤ string_capacity text.old }
    ensures { string_bytes text.new
        ≡ take place (string_bytes text.old) ++ (number_sign ∷ fragment.now) }
{
    text.truncate(place);
    let Ok(()) = push_fragment(text, fragment) else {
        unreachable!();
    };
}

/// Returns a copy of the text with this fragment instead of its own, or with none.
#[doc(hidden)]
pub fn with_fragment<E: Encoder>(
    alloc: Global,
    text: &str,
    positions: &Positions,
    fragment: Option<EStr<'_, E>>,
) -> Result<String, AllocError>
    requires { ArePositionsOf text.now positions.now }
    ensures fragment { IfOk result (λ made.
        IsWithFragment text.now (option_map text_of fragment.entry) (string_bytes made)) }
    ensures of_kind { IfOk result (λ made. StaysOfKind E.set text.now (string_bytes made)) }
    ensures at { IfOk result (λ made. ArePositionsOf (string_bytes made) positions.now) }
{
    let kept = positions.without_fragment(text);
    let mut made = String::new(alloc);
    let Some(fragment) = fragment else {
        made.push_str(kept)?;
        return Ok(made);
    };
    made.reserve(kept.len().saturating_add(fragment.len()).saturating_add(1))?;
    made.push_str(kept)?;
    push_fragment(&mut made, fragment.as_str())?;
    Ok(made)
}

/// Replaces the text's fragment by this one, or removes it. If an allocation fails, the text is as
/// it was. Removing the fragment allocates nothing.
#[doc(hidden)]
pub fn set_fragment<E: Encoder>(
    text: &mut String,
    positions: &Positions,
    fragment: Option<EStr<'_, E>>,
) -> Result<(), AllocError>
    requires { ArePositionsOf (string_bytes text.old) positions.now }
    ensures fragment { OnOk result
        (IsWithFragment (string_bytes text.old) (option_map text_of fragment.entry)
        (string_bytes text.new)) }
    ensures kept { OnErr result (string_bytes text.new ≡ string_bytes text.old) }
    ensures none { fragment.entry ≡ None → IsOk result }
    ensures of_kind { StaysOfKind E.set (string_bytes text.old) (string_bytes text.new) }
    ensures at { ArePositionsOf (string_bytes text.new) positions.now }
{
    let kept = positions.before_fragment();
    let Some(fragment) = fragment else {
        text.truncate(kept);
        return Ok(());
    };
    // Memory is asked for first: if that fails, the old fragment is still there.
    reserve_for_fragment(text, kept, fragment.len())?;
    replace_end_by_fragment(text, kept, fragment.as_str());
    Ok(())
}
