//! Octets that are decoded as UTF-8.
ghost use Rattle.std.specs.Prelude.{◌≡◌, ◌<◌, IfOk, OnOk, IsTrue, List, [], ◌∷◌, ◌++◌, length, map, IsUtf8};
ghost use Rattle.uri_pct.specs.Chunks.{Chunk, Byte};
ghost use Rattle.uri_pct.specs.Decodes.{chunk_of, undecoded};
ghost use Rattle.uri_pct.specs.Models.Windows.{window_bytes};
ghost use Rattle.uri_pct.specs.Parts.{Part, Literal, Decoded, parts, parts_from, ill_formed_piece_if_any, ArePastAscii};
ghost use Rattle.uri_pct.specs.Pieces.{IllFormed, utf8_pieces};

use crate::decode::{Decode, DecodedChunk};
use crate::window::{Window, unfinished_len};
use std::alloc::AllocError;

/// Receives the parts of a text as it is decoded, one after the other.
#[doc(hidden)]
pub trait TakeParts {
    /// These parts were taken between the first value and the second.
    ghost took: { Self → List Part → Self → Type 0 };

    /// Takes literal text.
    fn take_unencoded(&mut self, text: &str) -> Result<(), AllocError>
        ensures { OnOk result (took self.old (Literal text.now ∷ []) self.new) };

    /// Takes characters past ASCII that octets decode to.
    fn take_well_formed(&mut self, text: &str) -> Result<(), AllocError>
        requires { ArePastAscii text.now }
        ensures { OnOk result (took self.old (map Decoded (utf8_pieces text.now)) self.new) };

    /// Takes an ASCII character that an octet decodes to.
    fn take_ascii(&mut self, byte: u8) -> Result<(), AllocError>
        requires { byte < 128 }
        ensures { OnOk result (took self.old (map Decoded (utf8_pieces (byte ∷ []))) self.new) };

    /// Takes a maximal ill-formed part of a run of octets.
    fn take_ill_formed(&mut self, bytes: &[u8]) -> Result<(), AllocError>
        ensures { OnOk result (took self.old (Decoded (IllFormed bytes.now) ∷ []) self.new) };

    ghost takes_no_parts: { (s : Self) → took s [] s };

    ghost takes_appended_parts: { (s t u : Self) (ps qs : List Part)
        → took s ps t → took t qs u → took s (ps ++ qs) u };
}

/// Passes characters past ASCII of a run of octets to the taker, if there are any.
fn take_text<T: TakeParts>(text: &str, taker: &mut T) -> Result<(), AllocError>
    requires { ArePastAscii text.now }
    ensures { OnOk result (T.took taker.old (map Decoded (utf8_pieces text.now)) taker.new) }
{
    if text.is_empty() {
        return Ok(());
    }
    taker.take_well_formed(text)
}

/// Passes a chunk of a run of octets to the taker: the pieces of a text,
/// and the ill-formed part after it, if there is one.
fn take_chunk<T: TakeParts>(text: &str, fault: &[u8], taker: &mut T) -> Result<(), AllocError>
    requires { ArePastAscii text.now }
    ensures { OnOk result
        (T.took taker.old (map Decoded (utf8_pieces text.now ++ ill_formed_piece_if_any fault.now))
        taker.new) }
{
    take_text(text, taker)?;
    if fault.is_empty() {
        return Ok(());
    }
    taker.take_ill_formed(fault)
}

/// Passes the pieces of a run of octets to the taker: each text, and each ill-formed part.
fn take_chunks<T: TakeParts>(run: &[u8], taker: &mut T) -> Result<(), AllocError>
    requires { ArePastAscii run.now }
    ensures { OnOk result (T.took taker.old (map Decoded (utf8_pieces run.now)) taker.new) }
{
    for chunk in run.utf8_chunks() {
        take_chunk(chunk.valid(), chunk.invalid(), taker)?;
    }
    Ok(())
}

/// Passes the bytes that a run begins with to the taker, as long as the byte after one begins a
/// piece, or none is after it: then the one is ill-formed by itself. Returns the rest of the run.
///
/// Std's chunks would be searched for UTF-8 after each of these bytes.
fn take_lone_bytes<'a, T: TakeParts>(run: &'a [u8], taker: &mut T) -> Result<&'a [u8], AllocError>
    requires { ArePastAscii run.now }
    ensures past_ascii { IfOk result (λ left. ArePastAscii left.now) }
    ensures taken { IfOk result (λ left. (u : _)
        → T.took taker.new (map Decoded (utf8_pieces left.now)) u
        → T.took taker.old (map Decoded (utf8_pieces run.now)) u) }
{
    let mut left = run;
    while left.len() > 1 && left[1] >= 0xC0 {
        taker.take_ill_formed(&left[..1])?;
        left = &left[1..];
    }
    if left.len() != 1 {
        return Ok(left);
    }
    taker.take_ill_formed(left)?;
    Ok(&left[1..])
}

/// Passes the pieces of a run of octets that is not UTF-8 to the taker.
fn take_mixed_run<T: TakeParts>(run: &[u8], taker: &mut T) -> Result<(), AllocError>
    requires { ArePastAscii run.now }
    ensures { OnOk result (T.took taker.old (map Decoded (utf8_pieces run.now)) taker.new) }
{
    let left = take_lone_bytes(run, taker)?;
    take_chunks(left, taker)
}

/// Returns whether a run of octets is UTF-8 of characters of two bytes each.
///
/// Such a run is known to be UTF-8 in a third of the instructions that std takes.
fn are_chars_of_two_bytes(run: &[u8]) -> bool
    requires { ArePastAscii run.now }
    ensures { IsTrue result → IsUtf8 run.now }
{
    let mut end = 0;
    while end + 1 < run.len() {
        if !matches!(run[end], 0xC2..=0xDF) || run[end + 1] >= 0xC0 {
            return false;
        }
        end += 2;
    }
    end == run.len()
}

/// Passes the pieces of a run of octets to the taker, in one call if the run is UTF-8.
fn take_run<T: TakeParts>(run: &[u8], taker: &mut T) -> Result<(), AllocError>
    requires { ArePastAscii run.now }
    ensures { OnOk result (T.took taker.old (map Decoded (utf8_pieces run.now)) taker.new) }
{
    if are_chars_of_two_bytes(run) {
        return taker.take_well_formed(unsafe { str::from_utf8_unchecked(run) });
    }
    match str::from_utf8(run) {
        Ok(text) => taker.take_well_formed(text),
        Err(_) => take_mixed_run(run, taker),
    }
}

/// Passes what a full window holds to the taker, but for an unfinished character at its end. That
/// stays in the window, since what follows decides whether it is a character.
///
/// A function of its own, so that an octet which has room is put into the window without a call.
#[inline(never)]
fn take_full_window<T: TakeParts>(window: &mut Window, taker: &mut T) -> Result<(), AllocError>
    requires { length (window_bytes window.old) ≡ 32 }
    ensures room { OnOk result (length (window_bytes window.new) < 32) }
    ensures taken { OnOk result ((u : _) (suffix : List Chunk)
        → T.took taker.new (parts_from (window_bytes window.new) suffix) u
        → T.took taker.old (parts_from (window_bytes window.old) suffix) u) }
{
    let bytes = window.as_slice();
    let kept = unfinished_len(bytes);
    take_run(&bytes[..bytes.len() - kept], taker)?;
    window.keep_last(kept);
    Ok(())
}

/// Passes what the window holds to the taker, and empties the window.
fn take_window<T: TakeParts>(window: &mut Window, taker: &mut T) -> Result<(), AllocError>
    ensures emptied { OnOk result (window_bytes window.new ≡ []) }
    ensures taken { OnOk result
        (T.took taker.old (map Decoded (utf8_pieces (window_bytes window.old))) taker.new) }
{
    if window.is_empty() {
        return Ok(());
    }
    take_run(window.as_slice(), taker)?;
    window.clear();
    Ok(())
}

/// Takes an octet: an ASCII one ends the run, since it is a character by itself, and any other goes
/// to the window.
fn take_octet<T: TakeParts>(byte: u8, window: &mut Window, taker: &mut T) -> Result<(), AllocError>
    ensures { OnOk result ((u : _) (suffix : List Chunk)
        → T.took taker.new (parts_from (window_bytes window.new) suffix) u
        → T.took taker.old (parts_from (window_bytes window.old) (Byte byte ∷ suffix)) u) }
{
    if byte.is_ascii() {
        take_window(window, taker)?;
        return taker.take_ascii(byte);
    }
    if window.is_full() {
        take_full_window(window, taker)?;
    }
    window.push(byte);
    Ok(())
}

/// Takes a chunk: an octet, or text, which ends the run.
///
/// If a taker then takes the remaining parts, it has taken those of the chunk too.
fn take_decoded_chunk<T: TakeParts>(
    chunk: DecodedChunk<'_>,
    window: &mut Window,
    taker: &mut T,
) -> Result<(), AllocError>
    ensures { OnOk result ((u : _) (suffix : List Chunk)
        → T.took taker.new (parts_from (window_bytes window.new) suffix) u
        → T.took taker.old (parts_from (window_bytes window.old) (chunk_of chunk.entry
        ∷ suffix)) u) }
{
    match chunk {
        DecodedChunk::Unencoded(text) => {
            take_window(window, taker)?;
            taker.take_unencoded(text)
        }
        DecodedChunk::PctDecoded(byte) => take_octet(byte, window, taker),
    }
}

impl<'a> Decode<'a> {
    /// Passes the remaining parts of the text to the taker, in order. Only the taker causes errors.
    #[doc(hidden)]
    pub fn take_parts<T: TakeParts>(self, taker: &mut T) -> Result<(), AllocError>
        ensures { OnOk result (T.took taker.old (parts (undecoded self.entry)) taker.new) }
    {
        let mut window = Window::new();
        for chunk in self {
            take_decoded_chunk(chunk, &mut window, taker)?;
        }
        take_window(&mut window, taker)
    }
}
