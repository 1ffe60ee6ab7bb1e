//! Targets by the basic algorithm (RFC 3986, section 5.2).

use crate::fields::{RowError, Words};
use crate::references::{self, parsed, say_error};
use fluent_uri::RiMaybeRef;
use fluent_uri::kind::RefKind;
use std::alloc::Global;
use uri_basic::{BasicResolveError, BasicResolver};

/// Appends to a row's result the target by the basic algorithm, or the error.
pub(crate) fn resolve<K: RefKind>(
    alloc: Global,
    base: &str,
    reference: &str,
    words: &mut Words,
) -> Result<(), RowError> {
    let (base, reference) = (parsed::<K::Base>(base)?, parsed::<K>(reference)?);
    match BasicResolver::with_base(base).resolve(alloc, &reference) {
        Ok(target) => Ok(words.text(target.as_str())?),
        Err(BasicResolveError::OutOfMemory) => Err(RowError::OutOfMemory),
        Err(error) => say_error(alloc, &error, words),
    }
}

/// Returns the words of the target by the basic algorithm, or of the error.
pub(crate) fn target_words<K: RefKind>(
    alloc: Global,
    base: &str,
    reference: &str,
) -> Result<Words, RowError> {
    let mut words = Words::new(alloc);
    resolve::<K>(alloc, base, reference, &mut words)?;
    Ok(words)
}

/// Appends to a row's result the target or the error, and that the basic algorithm finds another if
/// it does.
pub(crate) fn resolve_both<K: RefKind>(
    alloc: Global,
    base: &str,
    reference: &str,
    words: &mut Words,
) -> Result<(), RowError> {
    references::resolve::<K>(alloc, true, base, reference, words)?;
    let basic = target_words::<K>(alloc, base, reference)?;
    let is_same = basic.as_str() == words.as_str();
    Ok(words.unless(is_same, "and another by the basic algorithm")?)
}
