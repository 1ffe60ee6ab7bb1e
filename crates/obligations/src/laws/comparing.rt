//! References as keys: sorting and maps are by their texts.
ghost use Rattle.std.specs.Prelude.{◌≡◌, IfOk, IsSortedByKey};
ghost use Rattle.std.specs.BTreeMap.{get_by};
ghost use Rattle.std.specs.Cmp.Lexicographic.{slice_cmp};
ghost use Rattle.std.specs.Ordering.{nat_cmp};
ghost use Rattle.fluent_uri.specs.Prelude.{uri_text};

use fluent_uri::Uri;
use std::alloc::AllocError;
use std::collections::BTreeMap;

/// A caller that sorts URIs proves that their texts are in the order of their bytes.
///
/// # Errors
///
/// Only if allocation fails.
pub fn sorted(mut uris: Vec<Uri<String>>) -> Result<Vec<Uri<String>>, AllocError>
    ensures { IfOk result (λ made. IsSortedByKey (λ u. uri_text u) (slice_cmp nat_cmp) made.items) }
{
    uris.sort()?;
    Ok(uris)
}

/// A caller with a map whose keys are URIs proves that a value is found by the text of a key.
pub fn count_of(counts: &BTreeMap<Uri<String>, u32>, uri: &Uri<String>) -> Option<u32>
    ensures { result ≡ get_by
        (λ key. slice_cmp nat_cmp (uri_text uri.now) (uri_text key)) counts.now }
{
    counts.get(uri).copied()
}
