//! Laws of the definitions. A law is a function that does nothing, and its contract states the law.
ghost use Rattle.std.specs.Prelude.{◌≡◌, List, false, option_map, ℕ, flat_map, IsUtf8};
ghost use Rattle.uri_pct.specs.Prelude.{LacksPercent, TableSet, tokens};
ghost use Rattle.uri_parts.specs.Prelude.{IsOfKind, Kind, components};
ghost use Rattle.uri_ops.specs.Prelude.{ascii_kind, encode_past_ascii};
ghost use Rattle.uri_mend.specs.MendedParts.{mend_token, mended};
ghost use Rattle.uri_mend.specs.Mending.{can_be_mended, link_components, mended_text};

/// A text that cannot be mended has a scheme and an authority that no text of the kind has.
#[tactic(auto, using(crate::proofs::Unchanged::no_text_of_kind_has_rejected_scheme_and_authority))]
pub fn no_text_of_the_kind_has_a_rejected_scheme_and_authority()
    ensures { (kind : Kind) (text other : List ℕ) → can_be_mended kind text ≡ false
        → IsOfKind kind other
        → (components other).scheme ≡ (link_components text).scheme
        → (components other).authority ≡ (link_components text).authority → ⊥ }
{}

/// The tokens of a mended component are those of the component, and the octets of what its set
/// lacks.
pub fn mended_tokens_are_the_tokens_or_their_octets()
    ensures { (set : TableSet) (text : List ℕ) → LacksPercent set → IsUtf8 text
        → tokens (mended set text) ≡ flat_map (mend_token set) (tokens text) }
{}

/// A text whose authority is ASCII is mended to a URI as to an IRI of which the characters past
/// ASCII are then percent-encoded (RFC 3987, section 3.1).
pub fn mending_and_encoding_past_ascii_swap()
    ensures { (kind : Kind) (text : List ℕ) → IsUtf8 text
        → option_map encode_past_ascii (link_components text).authority
        ≡ (link_components text).authority
        → encode_past_ascii (mended_text kind text) ≡ mended_text (ascii_kind kind) text }
{}
