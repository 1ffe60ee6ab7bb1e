//! References that are built of empty parts (RFC 3986, section 5.3).
ghost use Rattle.std.specs.Prelude.{◌≡◌, IfOk, codes};
ghost use Rattle.fluent_uri.specs.Prelude.{uri_ref_text};

use fluent_uri::UriRef;
use fluent_uri::build::BuildError;
use fluent_uri::component::Authority;
use fluent_uri::pct_enc::EStr;
use std::alloc::Global;

/// A caller proves that a reference built of an empty authority, path, query and fragment is
/// `//?#`.
///
/// # Errors
///
/// Only if allocation fails.
pub fn reference_of_empty_components(alloc: Global) -> Result<UriRef<String>, BuildError>
    ensures { IfOk result (λ built. uri_ref_text built ≡ codes "//?#") }
{
    let built = UriRef::<String>::builder(alloc)
        .authority(Authority::new_empty())
        .path(EStr::default())
        .query(EStr::default())
        .fragment(EStr::default())
        .build()?;
    Ok(built)
}
