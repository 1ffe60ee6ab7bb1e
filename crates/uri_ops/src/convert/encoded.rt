//! Texts whose characters past ASCII are replaced by their octets (RFC 3987, section 3.1).
ghost use Rattle.std.specs.Prelude.{◌≡◌, ◌≤◌, ◌<◌, ◌+◌, ◌*◌, ◌++◌, [], IfOk, OnOk, length, take, option_map, slice_index, string_bytes, IsUtf8};
ghost use Rattle.uri_parts.specs.Prelude.{ArePackedPositionsOf, IsOfKind};
ghost use Rattle.uri_ops.specs.Encoded.{encode_past_ascii};
ghost use Rattle.uri_ops.specs.Models.EncodedPlaces.{ArePositionsOrdered, AreAuthorityPositionsOrdered, authority_positions_in_encoded, position_in_encoded, positions_in_encoded};

use crate::traits::RiMaybeRef;
use std::alloc::{AllocError, Global};
use uri_parts::packed_positions::PackedPositions;
use uri_parts::positions::{AuthorityPositions, Positions};
use uri_pct::lanes::{LANES, SWIZZLES, ascii_end};
use uri_pct::octet::pct_encoded;

/// Returns how many bytes of an IRI are before its first one past ASCII, or before its end.
#[tactic(auto, using(crate::proofs::AsciiForms::EncodedRuns::encoded_runs))]
fn ascii_prefix_len(bytes: &[u8]) -> usize
    ensures inside { result ≤ length bytes.now }
    ensures unchanged { encode_past_ascii (take result bytes.now) ≡ take result bytes.now }
    ensures stops { result < length bytes.now → 128 ≤ slice_index bytes.now result }
{
    if bytes.len() >= LANES && SWIZZLES {
        return ascii_end(bytes, 0);
    }
    let mut i = 0;
    while i < bytes.len() && bytes[i] < 128 {
        i += 1;
    }
    i
}

/// Counts the bytes past ASCII of an IRI: for each its URI has two bytes more.
fn count_past_ascii(bytes: &[u8]) -> usize
    ensures { length (encode_past_ascii bytes.now) ≡ length bytes.now + 2 * result }
{
    let mut count = 0;
    for &byte in bytes {
        if byte >= 128 {
            count += 1;
        }
    }
    count
}

/// Appends bytes to the URI of an IRI as they are, one by one if they are few.
#[inline(always)]
fn push_run(bytes: &[u8], out: &mut Vec<u8>) -> Result<(), AllocError>
    ensures { OnOk result (out.new.items ≡ out.old.items ++ bytes.now) }
{
    if bytes.len() > 3 {
        return out.extend_from_slice(bytes);
    }
    for &byte in bytes {
        out.push(byte)?;
    }
    Ok(())
}

/// Appends the first bytes of an IRI's text that are past ASCII to its URI as octets, sixteen at
/// most. Returns how many these are.
///
/// The octets are appended together, since each append costs as much as several octets.
#[tactic(auto, using(crate::proofs::AsciiForms::EncodedRuns::encoded_runs))]
fn push_leading_octets(bytes: &[u8], out: &mut Vec<u8>) -> Result<usize, AllocError>
    requires some { 0 < length bytes.now }
    requires first { 128 ≤ slice_index bytes.now 0 }
    ensures some { IfOk result (λ count. 0 < count) }
    ensures inside { IfOk result (λ count. count ≤ length bytes.now) }
    ensures text { IfOk result (λ count.
        out.new.items ≡ out.old.items ++ encode_past_ascii (take count bytes.now)) }
{
    let mut octets = [0; 3 * LANES];
    let mut count = 0;
    while count < LANES && count < bytes.len() && bytes[count] >= 128 {
        let octet = pct_encoded(bytes[count]).as_bytes();
        octets[3 * count] = octet[0];
        octets[3 * count + 1] = octet[1];
        octets[3 * count + 2] = octet[2];
        count += 1;
    }
    out.extend_from_slice(&octets[..3 * count])?;
    Ok(count)
}

/// Appends bytes of an IRI to its URI, each one past ASCII as an octet.
#[tactic(auto, using(crate::proofs::AsciiForms::EncodedRuns::encoded_runs))]
fn push_past_ascii_encoded(bytes: &[u8], out: &mut Vec<u8>) -> Result<(), AllocError>
    ensures { OnOk result (out.new.items ≡ out.old.items ++ encode_past_ascii bytes.now) }
{
    let mut done = 0;
    while done < bytes.len() {
        if bytes[done] >= 128 {
            done += push_leading_octets(&bytes[done..], out)?;
        } else {
            let end = done + ascii_prefix_len(&bytes[done..]);
            push_run(&bytes[done..end], out)?;
            done = end;
        }
    }
    Ok(())
}

/// Appends an IRI's bytes between two positions, each one past ASCII as an octet. `out` has those
/// before the first position. Returns the position of the end in `out`.
fn push_encoded_between(
    bytes: &[u8],
    start: usize,
    end: usize,
    out: &mut Vec<u8>,
) -> Result<usize, AllocError>
    requires ordered { start ≤ end }
    requires inside { end ≤ length bytes.now }
    requires before { out.now.items ≡ encode_past_ascii (take start bytes.now) }
    ensures text { OnOk result (out.new.items ≡ encode_past_ascii (take end bytes.now)) }
    ensures place { IfOk result (λ place. place ≡ position_in_encoded bytes.now end) }
{
    push_past_ascii_encoded(&bytes[start..end], out)?;
    Ok(out.len())
}

/// Appends an IRI's bytes up to the end of this authority, each one past ASCII as an octet. Returns
/// the positions of the authority in `out`.
fn push_encoded_to_authority_end(
    bytes: &[u8],
    authority: AuthorityPositions,
    out: &mut Vec<u8>,
) -> Result<AuthorityPositions, AllocError>
    requires ordered { AreAuthorityPositionsOrdered authority.end authority }
    requires inside { authority.end ≤ length bytes.now }
    requires before { out.now.items ≡ [] }
    ensures text { OnOk result (out.new.items ≡ encode_past_ascii (take authority.end bytes.now)) }
    ensures places { IfOk result (λ places. places
        ≡ authority_positions_in_encoded bytes.now authority) }
{
    let start = push_encoded_between(bytes, 0, authority.start, out)?;
    let host_start = push_encoded_between(bytes, authority.start, authority.host_start, out)?;
    let host_end = push_encoded_between(bytes, authority.host_start, authority.host_end, out)?;
    let end = push_encoded_between(bytes, authority.host_end, authority.end, out)?;
    Ok(AuthorityPositions {
        start,
        host_start,
        host_end,
        end,
    })
}

/// Appends an IRI's bytes before the path, each one past ASCII as an octet. Returns the positions
/// of the authority in `out`, if there is one.
fn push_encoded_to_path(
    bytes: &[u8],
    positions: &Positions,
    out: &mut Vec<u8>,
) -> Result<Option<AuthorityPositions>, AllocError>
    requires ordered { ArePositionsOrdered (length bytes.now) positions.now }
    requires before { out.now.items ≡ [] }
    ensures text { OnOk result
        (out.new.items ≡ encode_past_ascii (take positions.now.path_start bytes.now)) }
    ensures places { IfOk result (λ places.
        places ≡ option_map (authority_positions_in_encoded bytes.now) positions.now.authority) }
{
    match positions.authority {
        Some(authority) => Ok(Some(push_encoded_to_authority_end(bytes, authority, out)?)),
        None => {
            push_encoded_between(bytes, 0, positions.path_start, out)?;
            Ok(None)
        }
    }
}

/// Appends an IRI with these components, each byte past ASCII as an octet. Returns the positions of
/// the components in `out`.
fn push_encoded_components(
    bytes: &[u8],
    positions: &Positions,
    out: &mut Vec<u8>,
) -> Result<Positions, AllocError>
    requires ordered { ArePositionsOrdered (length bytes.now) positions.now }
    requires before { out.now.items ≡ [] }
    ensures text { OnOk result (out.new.items ≡ encode_past_ascii bytes.now) }
    ensures places { IfOk result (λ places. places ≡ positions_in_encoded bytes.now positions.now) }
{
    let authority = push_encoded_to_path(bytes, positions, out)?;
    let path_start = out.len();
    let path_end = push_encoded_between(bytes, positions.path_start, positions.path_end, out)?;
    let before_fragment = positions.before_fragment();
    let fragment_start = push_encoded_between(bytes, positions.path_end, before_fragment, out)?;
    push_encoded_between(bytes, before_fragment, bytes.len(), out)?;
    Ok(Positions {
        scheme_end: positions.scheme_end,
        authority,
        path_start,
        path_end,
        query_end: match positions.query_end {
            Some(_) => Some(fragment_start),
            None => None,
        },
    })
}

/// Returns the text of a value with each character past ASCII as the octets of its UTF-8, and where
/// its components are.
///
/// It allocates once, for as many bytes as it has. If all characters are ASCII, the text is copied,
/// with its positions.
#[doc(hidden)]
pub fn encoded<R: RiMaybeRef>(
    alloc: Global,
    value: &R,
) -> Result<(String, PackedPositions), AllocError>
    ensures text { IfOk result
        (λ made. string_bytes made.0 ≡ encode_past_ascii (R.text value.now)) }
    ensures at { IfOk result (λ made. ArePackedPositionsOf (string_bytes made.0) made.1) }
    ensures utf8 { IsUtf8 (R.text value.now) }
    ensures of_kind { IsOfKind R.kind (R.text value.now) }
{
    let core = value.core();
    let text = core.as_str();
    let bytes = text.as_bytes();
    let ascii = ascii_prefix_len(bytes);
    if ascii == bytes.len() {
        let copy = String::from_str(alloc, text)?;
        return Ok((copy, core.packed_positions()));
    }
    let past = count_past_ascii(bytes);
    let len = bytes.len().saturating_add(past.saturating_mul(2));
    let mut out = Vec::with_capacity(alloc, len)?;
    let positions = push_encoded_components(bytes, &core.positions(), &mut out)?;
    match String::from_utf8(out) {
        Ok(text) => Ok((text, PackedPositions::of(&positions))),
        Err(_) => unreachable!(),
    }
}
