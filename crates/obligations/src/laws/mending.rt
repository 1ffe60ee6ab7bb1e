//! Texts that are mended (RFC 3986, sections 2.1 and 4.2).
ghost use Rattle.std.specs.Prelude.{◌≡◌, ℕ, List, option_map, true, flat_map};
ghost use Rattle.fluent_uri.specs.Prelude.{IsOfKind, ascii_kind, components, encode_past_ascii, iri_ref, path_set, tokens, uri_ref, uri_ref_text};
ghost use Rattle.uri_mend.specs.MendedParts.{mend_token, mended};
ghost use Rattle.uri_mend.specs.Mending.{link_components, mended_text};

use fluent_uri::UriRef;
use std::alloc::Global;
use uri_mend::{Mend, MendError, laws as mend_laws};

/// A caller that drops the links that cannot be mended proves that no URI reference has the scheme
/// and the authority of one.
pub fn is_lost(alloc: Global, link: &str) -> bool
    ensures { result ≡ true → (other : List ℕ) → IsOfKind uri_ref other
        → (components other).scheme ≡ (link_components link.now).scheme
        → (components other).authority ≡ (link_components link.now).authority → ⊥ }
{
    mend_laws::no_text_of_the_kind_has_a_rejected_scheme_and_authority();
    matches!(
        UriRef::<String>::mend(alloc, link),
        Err(MendError::Unmendable(_))
    )
}

/// A caller that signs a path by its tokens proves what mending makes of them.
pub fn tokens_of_a_mended_path(path: &str)
    ensures { tokens (mended path_set path.now)
        ≡ flat_map (mend_token path_set) (tokens path.now) }
{
    mend_laws::mended_tokens_are_the_tokens_or_their_octets();
}

/// A caller that mends links to IRIs and sends them as URIs proves that it sends what it would mend
/// them to as URIs.
pub fn sent_as_mended(link: &str)
    requires { option_map encode_past_ascii (link_components link.now).authority
        ≡ (link_components link.now).authority }
    ensures { encode_past_ascii (mended_text iri_ref link.now)
        ≡ mended_text (ascii_kind iri_ref) link.now }
{
    mend_laws::mending_and_encoding_past_ascii_swap();
}

/// A caller proves that mending an owned text that is parsed as a URI reference never fails, and
/// returns it.
pub fn kept(alloc: Global, text: UriRef<String>) -> UriRef<String>
    ensures { uri_ref_text result ≡ uri_ref_text text }
{
    match UriRef::<String>::mend_owned(alloc, text.into_string()) {
        Ok(same) => same,
        Err(_) => unreachable!(),
    }
}
