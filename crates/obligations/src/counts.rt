//! Numbers of substrings, segments and chunks.
#![tactic(auto)]

ghost use Rattle.std.specs.Prelude.{◌≡◌, ◌==◌, length};
ghost use Rattle.std.specs.List.{slice_split};
ghost use Rattle.fluent_uri.specs.Prelude.{chunks, text_of};

use fluent_uri::pct_enc::EStr;
use fluent_uri::pct_enc::encoder::{Path, Query};

/// A caller counts the substrings between the `&` of a query.
pub fn pair_count(query: EStr<'_, Query>) -> usize
    ensures { result ≡ length (slice_split (λ b. b == 38) (text_of query.entry)) }
{
    query.split('&').count()
}

/// A caller counts the chunks that a path decodes to.
pub fn decoded_chunk_count(path: EStr<'_, Path>) -> usize
    ensures { result ≡ length (chunks (text_of path.entry)) }
{
    path.decode().count()
}
