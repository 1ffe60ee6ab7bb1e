//! Laws of the definitions: each is the contract of a function that does nothing.
#![tactic(auto, using(crate::proofs::Theorems::decoding_laws))]

#[doc(hidden)]
pub mod tables;

ghost use Rattle.std.specs.Prelude.{◌≡◌, ◌↔◌, ◌<◌, ◌/◌, ◌%◌, ◌&&◌, ℕ, Bool, true, false, List, ◌∷◌, ◌++◌, ◌≤◌, map, take, All, IsUtf8, IsCharBoundary};
ghost use Rattle.std.specs.Char.{IsScalar, encode_utf8};
ghost use Rattle.std.specs.Fmt.{digit_glyph};
ghost use Rattle.std.specs.List.{list_all, list_any};
ghost use Rattle.std.specs.Str.Lossy.{utf8_lossy};
ghost use Rattle.uri_pct.specs.Delimiters.{percent_sign};
ghost use Rattle.uri_pct.specs.Encoding.{encode_text, encode_bytes};
ghost use Rattle.uri_pct.specs.Sets.{TableSet, LacksPercent, IsSubset, unreserved_set};
ghost use Rattle.uri_pct.specs.Representation.{Represents, RepresentsWithin};
ghost use Rattle.uri_pct.specs.Tokens.{Token, Char, Octet, tokens, bytes_decoded_from, print, allows_token, IsValidFor};
ghost use Rattle.uri_pct.specs.Pieces.{WellFormed, IsOfCharacter, is_well_formed, begins_with_continuation, bytes_of_pieces, utf8_pieces, lossy_text};
ghost use Rattle.uri_pct.specs.Prefixes.{valid_prefix};
ghost use Rattle.uri_pct.specs.DecodeUnreserved.{LacksPastAscii, is_literal_formatting, is_printable, is_decodable, lower_token, decode_octet, decode_tokens, decode_unreserved};

/// Printable tokens are the tokens of their printed text. If a text is valid for a set, its tokens
/// are printable (RFC 3986, sections 2.1 and 6.2.2.1).
///
/// The tokens `a` and the octet 41 (hexadecimal) are printed as `a%41`, whose tokens are the same
/// two.
pub fn printed_tokens_are_parsed_back()
    ensures tokens { (ts : List Token) → list_all is_printable ts ≡ true → tokens (print ts) ≡ ts }
    ensures valid { (set : TableSet) (ts : List Token) → list_all is_printable ts ≡ true
        → list_all (allows_token set) ts ≡ true → IsValidFor set (print ts) }
    ensures printable { (set : TableSet) (text : List ℕ) → LacksPercent set → IsValidFor set text
        → list_all is_printable (tokens text) ≡ true }
{}

/// An octet has the same value with digits in upper or in lower case (RFC 3986, section 2.1).
///
/// `%3a` and `%3A` are the octet 3A.
#[tactic(auto, using(crate::proofs::Decodings::OctetDigits::printed_octet_is_first_token))]
pub fn octets_decode_in_either_case()
    ensures { (upper : Bool) (value : ℕ) (rest : List ℕ) → value < 256
        → tokens (percent_sign ∷ digit_glyph upper (value / 16)
        ∷ digit_glyph upper (value % 16) ∷ rest) ≡ Octet value ∷ tokens rest }
{}

/// A text represents at most one list of characters and percent-encoded octets, whatever the case
/// of the digits: its tokens. So a text is valid for a set exactly if it represents characters and
/// octets that the set allows (RFC 3986, section 2.1).
///
/// Both `a%3a` and `a%3A` are the character `a` and the octet 3A.
#[tactic(auto, using(crate::proofs::Theorems::representation_laws))]
pub fn texts_represent_only_their_tokens()
    ensures one { (text : List ℕ) (ts : List Token) → Represents text ts → tokens text ≡ ts }
    ensures own { (text : List ℕ) → IsUtf8 text → list_all is_printable (tokens text) ≡ true
        → Represents text (tokens text) }
    ensures valid { (set : TableSet) (text : List ℕ) → LacksPercent set → IsUtf8 text
        → IsValidFor set text ↔ RepresentsWithin set text }
{}

/// `valid_prefix` is the longest prefix of a text that is valid for a set: it is valid, it ends at
/// a character boundary, and no longer one is both (RFC 3986, section 2.1).
///
/// For the set of a path, it is 5 of `a%20b%2` and 2 of `é` in an IRI.
#[tactic(auto, using(crate::proofs::ValidTexts::LongestPrefixes::longest_prefix))]
pub fn valid_prefixes_are_longest()
    ensures boundary { (set : TableSet) (text : List ℕ) → LacksPercent set → IsUtf8 text
        → IsCharBoundary text (valid_prefix set text) }
    ensures valid { (set : TableSet) (text : List ℕ) → LacksPercent set → IsUtf8 text
        → IsValidFor set (take (valid_prefix set text) text) }
    ensures longest { (set : TableSet) (text : List ℕ) (n : ℕ) → LacksPercent set → IsUtf8 text
        → IsCharBoundary text n → IsValidFor set (take n text) → n ≤ valid_prefix set text }
{}

/// The printed form of encoded text has the tokens that were encoded. These decode to the given
/// text or bytes. Concatenated tokens decode to the concatenated bytes. A text is encoded as its
/// bytes are (RFC 3986, section 2.1).
///
/// `a b` is encoded as `a%20b`, whose bytes are those of `a b`.
#[tactic(auto, using(crate::proofs::Theorems::encoding_laws))]
pub fn decoding_inverts_encoding()
    ensures text { (set : TableSet) (text : List ℕ) → IsUtf8 text
        → bytes_decoded_from (encode_text set text) ≡ text }
    ensures bytes { (set : TableSet) (bytes : List ℕ) → bytes_decoded_from (encode_bytes set bytes)
        ≡ bytes }
    ensures suffix { (before suffix : List Token) → bytes_decoded_from (before ++ suffix)
        ≡ bytes_decoded_from before ++ bytes_decoded_from suffix }
    ensures tokens { (set : TableSet) (text : List ℕ) → LacksPercent set → IsUtf8 text
        → tokens (print (encode_text set text)) ≡ encode_text set text }
    ensures same { (set : TableSet) (text : List ℕ) → IsUtf8 text → encode_bytes set text
        ≡ encode_text set text }
{}

/// The pieces of bytes join to the bytes. Each well-formed piece is a character. The bytes are cut
/// around each character, and before every byte but 80 to BF (Unicode, section 3.9).
///
/// The bytes 61 and E9 are the character `a` and an ill-formed piece.
pub fn utf8_pieces_join_to_the_bytes()
    ensures bytes { (bytes : List ℕ) → bytes_of_pieces (utf8_pieces bytes) ≡ bytes }
    ensures characters { (bytes : List ℕ) → All IsOfCharacter (utf8_pieces bytes) }
    ensures around_char { (before : List ℕ) (c : ℕ) (suffix : List ℕ) → IsScalar c
        → utf8_pieces (before ++ (encode_utf8 c ++ suffix)) ≡ utf8_pieces before
        ++ WellFormed (encode_utf8 c) ∷ utf8_pieces suffix }
    ensures between { (before suffix : List ℕ) → begins_with_continuation suffix ≡ false
        → utf8_pieces (before ++ suffix) ≡ utf8_pieces before ++ utf8_pieces suffix }
{}

/// Bytes are UTF-8 exactly where no piece is ill-formed, and the lossy text is that of std's
/// `String::from_utf8_lossy`.
///
/// Of the bytes 61 and E9 it is `a` and U+FFFD.
pub fn lossy_texts_are_those_of_std()
    ensures whole { (bytes : List ℕ) → (list_all is_well_formed (utf8_pieces bytes) ≡ true)
        ↔ IsUtf8 bytes }
    ensures text { (bytes : List ℕ) → lossy_text bytes ≡ utf8_lossy bytes }
{}

/// Decoding unreserved octets keeps the bytes, and keeps a text valid for its set. A literal
/// character separates the decoding before it from that after it. The octets of a decodable
/// character decode to it, in any context. If a set holds `ucschar` and octets, the decoded text
/// has no literal formatting characters of bidirectional text: they are octets (RFC 3987, section
/// 4.1).
#[doc(hidden)]
pub fn decoding_unreserved_keeps_bytes()
    ensures bytes { (set : TableSet) (text : List ℕ)
        → bytes_decoded_from (decode_unreserved set text)
        ≡ bytes_decoded_from (tokens text) }
    ensures allowed { (set : TableSet) (text : List ℕ) → IsSubset unreserved_set set
        → IsValidFor set text → list_all (allows_token set) (decode_unreserved set text) ≡ true }
    ensures valid { (set : TableSet) (text : List ℕ) → LacksPercent set
        → IsSubset unreserved_set set → IsValidFor set text
        → IsValidFor set (print (decode_unreserved set text)) }
    ensures printable { (set : TableSet) (ts : List Token) → list_all is_printable ts ≡ true
        → list_all is_printable (decode_tokens set ts) ≡ true }
    ensures around_char { (set : TableSet) (before : List Token) (c : ℕ) (suffix : List Token)
        → decode_tokens set (before ++ Char c ∷ suffix) ≡ decode_tokens set before ++ Char c
        ∷ decode_tokens set suffix }
    ensures encoded { (set : TableSet) (before : List Token) (c : ℕ) (suffix : List Token)
        → IsScalar c → is_decodable set c ≡ true → decode_tokens set
        (before ++ (map Octet (encode_utf8 c) ++ suffix))
        ≡ decode_tokens set (before ++ Char c ∷ suffix) }
    ensures printed { (set : TableSet) (before : List Token) (c : ℕ) (suffix : List Token)
        → IsScalar c → is_decodable set c ≡ true
        → list_all is_printable (before ++ Char c ∷ suffix) ≡ true
        → decode_unreserved set (print (before ++ (map Octet (encode_utf8 c) ++ suffix)))
        ≡ decode_unreserved set (print (before ++ Char c ∷ suffix)) }
    ensures formatting { (set : TableSet) (text : List ℕ)
        → (set.ucschar && set.pct_encoded) ≡ true
        → list_any is_literal_formatting (decode_unreserved set text) ≡ false }
{}

/// In a URI each octet is decoded by itself (RFC 3986, section 6.2.2.2). This is the decoding of an
/// IRI (RFC 3987, section 5.3.2.3) for a set with no character past ASCII.
///
/// In a URI `%41%C3%A9` decodes to `A` and the octets C3 and A9, and in an IRI to `A` and `é`.
pub fn uri_octets_are_decoded_one_by_one()
    ensures { (set : TableSet) (text : List ℕ) → LacksPastAscii set → decode_unreserved set text
        ≡ map decode_octet (tokens text) }
{}

/// Decoding the unreserved octets of a text twice equals decoding them once.
#[doc(hidden)]
pub fn decoding_unreserved_is_idempotent()
    ensures tokens { (set : TableSet) (ts : List Token) → decode_tokens set (decode_tokens set ts)
        ≡ decode_tokens set ts }
    ensures text { (set : TableSet) (text : List ℕ) → list_all is_printable (tokens text) ≡ true
        → decode_unreserved set (print (decode_unreserved set text)) ≡ decode_unreserved set text }
{}

/// The decoded text with its letters lowered decodes to itself. A set that has the unreserved
/// characters, and allows a text, allows it with its letters lowered.
#[doc(hidden)]
pub fn lowered_decoded_text_decodes_to_itself()
    ensures tokens { (set : TableSet) (ts : List Token)
        → decode_tokens set (map lower_token (decode_tokens set ts))
        ≡ map lower_token (decode_tokens set ts) }
    ensures text { (set : TableSet) (text : List ℕ) → list_all is_printable (tokens text) ≡ true
        → decode_unreserved set (print (map lower_token (decode_unreserved set text)))
        ≡ map lower_token (decode_unreserved set text) }
    ensures twice { (ts : List Token) → map lower_token (map lower_token ts) ≡ map lower_token ts }
    ensures printable { (ts : List Token) → list_all is_printable ts ≡ true
        → list_all is_printable (map lower_token ts) ≡ true }
    ensures allowed { (set : TableSet) (ts : List Token) → IsSubset unreserved_set set
        → list_all (allows_token set) ts ≡ true → list_all (allows_token set) (map lower_token ts)
        ≡ true }
{}
