//! References that lead from a base to a target.

use crate::basic;
use crate::fields::{RowError, Words};
use crate::references::{self, parsed};
use fluent_uri::kind::{BaseKind, RefKind};
use std::alloc::Global;
use uri_relative::Relativizer;

/// Returns the reference that leads from a base to a target, where a relative path is preferred or
/// not.
fn reference<B: BaseKind>(
    alloc: Global,
    prefers: bool,
    base: &str,
    target: &str,
) -> Result<String, RowError> {
    let (base, target) = (parsed::<B>(base)?, parsed::<B>(target)?);
    let relativizer = Relativizer::with_base(base).prefer_relative_path(prefers);
    Ok(relativizer.relativize(alloc, &target)?.into_string())
}

/// Appends to a row's result the reference that leads from a base to a target.
pub(crate) fn relativize<B: BaseKind>(
    alloc: Global,
    prefers: bool,
    base: &str,
    target: &str,
    words: &mut Words,
) -> Result<(), RowError> {
    Ok(words.text(reference::<B>(alloc, prefers, base, target)?.as_str())?)
}

/// Appends to a row's result the reference that leads from a base to a target. If it does not lead
/// back to it, `not back` follows; if it does not by the basic algorithm, `lost`.
pub(crate) fn relativize_back<B: BaseKind, K: RefKind>(
    alloc: Global,
    base: &str,
    target: &str,
    words: &mut Words,
) -> Result<(), RowError> {
    let reference = reference::<B>(alloc, false, base, target)?;
    words.text(reference.as_str())?;
    let mut back = Words::new(alloc);
    references::resolve::<K>(alloc, true, base, reference.as_str(), &mut back)?;
    words.unless(back.is_text(target)?, "not back")?;
    let basic = basic::target_words::<K>(alloc, base, reference.as_str())?;
    Ok(words.unless(basic.is_text(target)?, "lost")?)
}
