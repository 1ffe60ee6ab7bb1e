//! Percent-encoded octets, and the bytes that they are (RFC 3986, section 2.1; Unicode, 3.9).
ghost use Rattle.std.specs.Prelude.{◌≡◌, ◌∷◌, ◌/◌, ◌%◌, IfOk, false, true};
ghost use Rattle.std.specs.Fmt.{digit_glyph};
ghost use Rattle.std.specs.Str.Lossy.{utf8_lossy};
ghost use Rattle.fluent_uri.specs.Prelude.{bytes_of_pieces, cow_text, decoded, print, text_of, tokens, utf8_pieces};

use fluent_uri::laws;
use fluent_uri::pct_enc::encoder::Path;
use fluent_uri::pct_enc::{CowStr, Decode, EStr};
use std::alloc::{AllocError, Global};

/// A caller that signs texts by their tokens proves that a proxy may write an octet's digits in
/// either case.
pub fn same_in_either_case(value: u8, rest: &str)
    ensures { tokens (37 ∷ digit_glyph false (value / 16)
        ∷ digit_glyph false (value % 16) ∷ rest.now)
        ≡ tokens (37 ∷ digit_glyph true (value / 16)
        ∷ digit_glyph true (value % 16) ∷ rest.now) }
{
    laws::octets_decode_in_either_case();
}

/// A caller that keeps a path as its tokens proves that these are read back from what it prints.
pub fn kept_as_tokens(path: EStr<'_, Path>)
    ensures { tokens (print (tokens (text_of path.entry))) ≡ tokens (text_of path.entry) }
{
    let _text = path.as_str();
    laws::four_kinds_have_component_sets();
    laws::printed_tokens_are_parsed_back();
}

/// A caller that shows what decodes to no text proves that it shows what std's
/// `String::from_utf8_lossy` does.
pub fn shown_as_by_std<'a>(alloc: Global, text: Decode<'a>) -> Result<CowStr<'a>, AllocError>
    ensures { IfOk result (λ shown. cow_text shown ≡ utf8_lossy (decoded text.entry)) }
{
    laws::lossy_texts_are_those_of_std();
    text.to_string_lossy(alloc)
}

/// A caller that writes ill-formed bytes as numbers, piece by piece, proves that no byte is lost.
pub fn shown_piece_by_piece(bytes: &[u8])
    ensures { bytes_of_pieces (utf8_pieces bytes.now) ≡ bytes.now }
{
    laws::utf8_pieces_join_to_the_bytes();
}
