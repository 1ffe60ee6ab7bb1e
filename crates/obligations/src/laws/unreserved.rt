//! Percent-encoded texts, and their unreserved decoding (RFC 3986, sections 2.1 and 6.2.2.2).
ghost use Rattle.std.specs.Prelude.{◌≡◌, ◌∷◌, [], List, codes, map};
ghost use Rattle.fluent_uri.specs.Prelude.{Char, Octet, Represents, RepresentsWithin, Token, decode_octet, decode_unreserved, path_set, text_of, tokens};

use fluent_uri::laws;
use fluent_uri::pct_enc::EStr;
use fluent_uri::pct_enc::encoder::Path;

/// A caller proves that in the path of a URI each octet is decoded by itself.
pub fn decoded_octet_by_octet(path: EStr<'_, Path>)
    ensures { decode_unreserved path_set (text_of path.entry)
        ≡ map decode_octet (tokens (text_of path.entry)) }
{
    laws::uri_octets_are_decoded_one_by_one();
}

/// A caller proves that the text of a path consists of characters and octets of the set.
pub fn text_valid_for_the_set(path: EStr<'_, Path>) -> &str
    ensures { RepresentsWithin path_set result.now }
{
    laws::texts_represent_only_their_tokens();
    path.as_str()
}

/// A caller proves that both `a%3a` and `a%3A` represent the character `a` and the octet 3A.
pub fn digits_of_either_case()
    ensures lower { Represents (codes "a%3a") (Char 97 ∷ Octet 58 ∷ []) }
    ensures upper { Represents (codes "a%3A") (Char 97 ∷ Octet 58 ∷ []) }
{}

/// A caller proves that texts of the same characters and octets, with digits of either case, have
/// the same tokens.
pub fn same_tokens(text: &str, other: &str)
    ensures { (ts : List Token) → Represents text.now ts → Represents other.now ts
        → tokens text.now ≡ tokens other.now }
{
    laws::texts_represent_only_their_tokens();
}
