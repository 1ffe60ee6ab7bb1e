//! The reference that a text is mended to (RFC 3986, sections 4.2 and 5.3).
ghost use Rattle.std.specs.Prelude.{◌≡◌, ◌↔◌, ◌≤◌, ◌+◌, IfErr, IfOk, IfSome, IsOk, IsOkAnd, Some, codes, drop, is_some, length, string_bytes, take, true, IsCharBoundary, IsUtf8};
ghost use Rattle.uri_parts.specs.Prelude.{ArePackedPositionsOf, IsErrorIn, IsOfKind, core_text, from_any, is_of_kind, refusal};
ghost use Rattle.fluent_uri.specs.Prelude.{held_text, reference_text};
ghost use Rattle.uri_mend.specs.declared.error.MendError.TheVariants.{OutOfMemory};
ghost use Rattle.uri_mend.specs.Links.{IsLink};
ghost use Rattle.uri_mend.specs.Mended.{IsMended};
ghost use Rattle.uri_mend.specs.Mending.{can_be_mended, mended_text};
ghost use Rattle.uri_mend.specs.Progress.{IsProgress, mended_so_far};
ghost use Rattle.uri_mend.specs.Refusing.{IsLinkErrorOf, IsMendErrorOf};
ghost use Rattle.uri_mend.specs.Tails.{dot_segment_if, mended_path, mended_query};
ghost use Rattle.uri_mend.specs.Trimming.{trimmed_link};

use crate::component::{Progress, write_run};
use crate::error::MendError;
use crate::link::{Link, cut_link, has_mark, link_of_prefix};
use crate::tail::mend_tail;
use crate::trimming::trim_link;
use fluent_uri::{ParseError, Reference};
use std::alloc::{AllocError, Global};
use uri_parts::core_text::Core;
use uri_parts::kind::Kind;
use uri_parts::packed_positions::PackedPositions;
use uri_pct::lanes::LANES;

/// Parses a text by the parser that callers use too: where there is only one, LLVM inlines more of
/// it.
#[inline(always)]
fn parsed<K: Kind>(text: &str) -> Result<Core<K, &str>, ParseError>
    ensures accepts { IsOk result ↔ IsOfKind K.kind text.now }
    ensures text { IfOk result (λ core. core_text core ≡ text.now) }
    ensures refused { IfErr result (λ error. refusal K.kind text.now ≡ Some error) }
    ensures error { IfErr result (IsErrorIn text.now) }
{
    match Reference::<K, &str>::parse(text) {
        Ok(value) => Ok(value.into_core()),
        Err(error) => Err(error),
    }
}

/// Returns a buffer of so many bytes that begins with `./` if the test is true, and the position
/// after it.
#[inline(always)]
fn new_buffer(alloc: Global, test: bool, len: usize) -> Result<(Vec<u8>, usize), AllocError>
    ensures inside { IfOk result (λ made. made.1 ≤ length made.0.items) }
    ensures text { IfOk result (λ made. take made.1 made.0.items ≡ dot_segment_if test) }
{
    let mut out = Vec::with_capacity(alloc, len)?;
    if test {
        out.extend_from_slice(b"./")?;
    }
    let at = out.len();
    out.resize(at.max(len), 0)?;
    Ok((out, at))
}

/// Copies the run of a text that is yet to be copied, and returns the text that is made of what is
/// written.
#[inline(always)]
fn finished(text: &str, p: Progress, mut out: Vec<u8>) -> Result<String, AllocError>
    requires progress { IsProgress text.now out.items p }
    requires utf8 { IsUtf8 (mended_so_far text.now out.items p) }
    ensures { IfOk result (λ made. string_bytes made ≡ mended_so_far text.now out.items p) }
{
    let end = write_run(text, p, &mut out)?;
    out.truncate(end);
    Ok(unsafe { String::from_utf8_unchecked(out) })
}

/// The text that a text is mended to, and where its path and its query end.
#[derive(Drop)]
struct MendedText {
    text: String,
    path_end: usize,
    query_end: usize,
}

/// Returns the text that a text is mended to.
#[inline(always)]
fn mended_text_of<K: Kind>(alloc: Global, text: &str, link: Link) -> Result<MendedText, AllocError>
    requires link { IsLink text.now link }
    requires mendable { can_be_mended K.kind text.now ≡ true }
    ensures text { IfOk result (λ made. string_bytes made.text ≡ mended_text K.kind text.now) }
    ensures path_end { IfOk result (λ made. made.path_end
        ≡ link.path_start + length (dot_segment_if link.has_false_scheme)
        + length (mended_path K.kind (drop link.path_start text.now))) }
    ensures query_end { IfOk result (λ made. made.query_end ≡ made.path_end
        + length (mended_query K.kind.query (from_any (codes "?#")
        (drop link.path_start text.now)))) }
{
    // Room for the text and some octets: most texts are mended in a few places.
    let len = text
        .len()
        .saturating_add(text.len() / 4)
        .saturating_add(2 * LANES);
    let (mut out, at) = new_buffer(alloc, link.has_false_scheme, len)?;
    let from = Progress {
        end: link.path_start,
        run_start: 0,
        at,
    };
    let tail = mend_tail::<K>(text, from, &mut out)?;
    Ok(MendedText {
        text: finished(text, tail.progress, out)?,
        path_end: tail.path_end,
        query_end: tail.query_end,
    })
}

/// Returns the positions of what is before a path, with the ends of a path and a query.
fn with_ends(before: PackedPositions, path_end: usize, query_end: usize) -> PackedPositions
    ensures { result ≡ record before { path_end = path_end; query_end = query_end } }
{
    PackedPositions {
        scheme_end: before.scheme_end,
        host_start: before.host_start,
        host_end: before.host_end,
        path_start: before.path_start,
        path_end,
        query_end,
    }
}

/// Returns the reference that a text which can be mended is mended to.
#[inline(always)]
fn mended_link_of<K: Kind>(
    alloc: Global,
    text: &str,
    link: Link,
) -> Result<Reference<K, String>, MendError>
    requires link { IsLink text.now link }
    requires mendable { can_be_mended K.kind text.now ≡ true }
    ensures mended { IfOk result (λ made. IsMended K.kind text.now (reference_text made)) }
    ensures memory { IfErr result (λ error. error ≡ OutOfMemory) }
{
    match mended_text_of::<K>(alloc, text, link) {
        Ok(made) => {
            let positions = with_ends(link.before, made.path_end, made.query_end);
            Ok(Reference::of_core(Core::new(made.text, positions)))
        }
        Err(_) => Err(MendError::OutOfMemory),
    }
}

/// Returns the positions of what is before the path of a text, or `None` if it is not of the kind.
#[inline(always)]
fn positions_of_prefix<K: Kind>(prefix: &str) -> Option<PackedPositions>
    ensures some { is_some result ≡ is_of_kind K.kind prefix.now }
    ensures positions { IfSome result (ArePackedPositionsOf prefix.now) }
{
    // Most such prefixes are empty.
    if prefix.is_empty() && !K::tables().needs_scheme {
        return Some(Core::<K, &str>::empty().packed_positions());
    }
    match parsed::<K>(prefix) {
        Ok(core) => Some(core.packed_positions()),
        Err(_) => None,
    }
}

/// Returns where the path of a text begins, by a cut before it, or `None` if the text cannot be
/// mended.
#[inline(never)]
fn link_of_cut<K: Kind>(text: &str) -> Option<Link>
    ensures link { IfSome result (IsLink text.now) }
    ensures mendable { is_some result ≡ can_be_mended K.kind text.now }
{
    let cut = cut_link(text);
    match positions_of_prefix::<K>(cut.prefix) {
        Some(before) => Some(Link {
            path_start: cut.prefix.len(),
            has_false_scheme: cut.has_false_scheme,
            before,
        }),
        None => None,
    }
}

/// Returns where the path of a text begins, or `None` if the text cannot be mended. What is before
/// the index of its parse error is tried first, unless it is short and shows no path.
#[inline(always)]
fn link_of<K: Kind>(text: &str, index: usize) -> Option<Link>
    requires { IsCharBoundary text.now index }
    ensures link { IfSome result (IsLink text.now) }
    ensures mendable { is_some result ≡ can_be_mended K.kind text.now }
{
    let prefix = &text[..index];
    if index >= LANES || has_mark(prefix) {
        if let Ok(prefix) = parsed::<K>(prefix) {
            let link = link_of_prefix(text, index, prefix.packed_positions());
            if link.is_some() {
                return link;
            }
        }
    }
    link_of_cut::<K>(text)
}

/// Returns the reference that a text which the parser rejects is mended to.
#[inline(never)]
fn mend_invalid<K: Kind>(
    alloc: Global,
    text: &str,
    error: ParseError,
) -> Result<Reference<K, String>, MendError>
    requires error { refusal K.kind text.now ≡ Some error }
    requires index { IsCharBoundary text.now error.index }
    ensures mended { IfOk result (λ made. IsMended K.kind text.now (reference_text made)) }
    ensures refused { IfErr result (IsMendErrorOf K.kind text.now) }
{
    match link_of::<K>(text, error.index()) {
        Some(link) => mended_link_of(alloc, text, link),
        None => Err(MendError::Unmendable(error)),
    }
}

/// Returns the reference that a text is mended to, or the text itself if it is one.
///
/// Each `?` returns its error at once. Without them the two results are one value, which LLVM
/// copies twice more.
fn mended_reference<K: Kind>(alloc: Global, text: &str) -> Result<Reference<K, String>, MendError>
    ensures mended { IfOk result (λ made. IsMended K.kind text.now (reference_text made)) }
    ensures refused { IfErr result (IsMendErrorOf K.kind text.now) }
{
    match Reference::<K, &str>::parse(text) {
        Ok(value) => Ok(value.to_owned(alloc)?),
        Err(error) => Ok(mend_invalid(alloc, text, error)?),
    }
}

/// Returns the reference that an owned text is mended to, or the text itself if it is one.
fn mended_string<K: Kind>(
    alloc: Global,
    text: String,
) -> Result<Reference<K, String>, (MendError, String)>
    ensures mended { IfOk result (λ made. IsMended K.kind (string_bytes text)
        (reference_text made)) }
    ensures refused { IfErr result (λ rejected.
        IsMendErrorOf K.kind (string_bytes text) rejected.0) }
    ensures back { IfErr result (λ rejected. rejected.1 ≡ text) }
    ensures unchanged { IsOfKind K.kind (string_bytes text)
        → IsOkAnd result (λ made. held_text made ≡ text) }
{
    let error = match parsed::<K>(text.as_str()) {
        Ok(core) => {
            let positions = core.packed_positions();
            return Ok(Reference::of_core(Core::new(text, positions)));
        }
        Err(error) => error,
    };
    match mend_invalid(alloc, text.as_str(), error) {
        Ok(made) => Ok(made),
        Err(error) => Err((error, text)),
    }
}

/// Returns the reference that a link of a page is mended to.
fn mended_link<K: Kind>(alloc: Global, text: &str) -> Result<Reference<K, String>, MendError>
    ensures mended { IfOk result (λ made.
        IsMended K.kind (trimmed_link text.now) (reference_text made)) }
    ensures refused { IfErr result (IsLinkErrorOf K.kind text.now) }
{
    match trim_link(alloc, text) {
        Ok(link) => mended_reference(alloc, link.as_str()),
        Err(_) => Err(MendError::OutOfMemory),
    }
}

/// Kinds of references that a text may be mended to: the least change that makes it one.
///
/// It is implemented for `Uri`, `UriRef`, `Iri` and `IriRef` over `String`. With it,
/// `UriRef::<String>::mend(alloc, text)` may be called.
pub trait Mend<K: Kind> {
    /// Returns the reference that a text is mended to: what its path, its query or its fragment
    /// must not have is percent-encoded (RFC 3986, sections 2.1 and 2.4), and all else is
    /// unchanged.
    ///
    /// A text of the kind is unchanged. So are the scheme and the authority of a text, unless what
    /// is before its first `:` is no scheme: then `./` is put before the text, which is a path
    /// (section 4.2). No reference of the kind is made of this text by percent-encoding fewer
    /// characters.
    ///
    /// `http://h/a b?x=[1]` is mended to `http://h/a%20b?x=%5B1%5D`, `/50%` to `/50%25`, and
    /// `1a://h/x` to `./1a://h/x`.
    ///
    /// # Errors
    ///
    /// `Unmendable` exactly if the authority is not one of the kind, or if there is no scheme where
    /// one is needed; `OutOfMemory` if memory is denied.
    fn mend(alloc: Global, text: &str) -> Result<Reference<K, String>, MendError>
        ensures mended { IfOk result (λ made.
            IsMended K.kind text.now (reference_text made)) }
        ensures refused { IfErr result (IsMendErrorOf K.kind text.now) };

    /// Returns the reference that an owned text is mended to, as `mend` does. That of a text of the
    /// kind holds the same `String`, whatever memory there is.
    ///
    /// # Errors
    ///
    /// Those of `mend`, each with the `String` that was given, and none for a text of the kind.
    fn mend_owned(alloc: Global, text: String) -> Result<Reference<K, String>, (MendError, String)>
        ensures mended { IfOk result (λ made.
            IsMended K.kind (string_bytes text) (reference_text made)) }
        ensures refused { IfErr result (λ rejected.
            IsMendErrorOf K.kind (string_bytes text) rejected.0) }
        ensures back { IfErr result (λ rejected. rejected.1 ≡ text) }
        ensures unchanged { IsOfKind K.kind (string_bytes text)
            → IsOkAnd result (λ made. held_text made ≡ text) };

    /// Returns the reference that a link of a page is mended to: `mend` of what `trim_link` leaves.
    ///
    /// ` http://h/a\n b ` is mended to `http://h/a%20b`.
    ///
    /// # Errors
    ///
    /// Those of `mend`, for what `trim_link` leaves.
    fn mend_link(alloc: Global, text: &str) -> Result<Reference<K, String>, MendError>
        ensures mended { IfOk result (λ made.
            IsMended K.kind (trimmed_link text.now) (reference_text made)) }
        ensures refused { IfErr result (IsLinkErrorOf K.kind text.now) };
}

impl<K: Kind> Mend<K> for Reference<K, String> {
    /// Returns the reference that a text is mended to.
    fn mend(alloc: Global, text: &str) -> Result<Reference<K, String>, MendError> {
        mended_reference(alloc, text)
    }

    /// Returns the reference that an owned text is mended to.
    fn mend_owned(
        alloc: Global,
        text: String,
    ) -> Result<Reference<K, String>, (MendError, String)> {
        mended_string(alloc, text)
    }

    /// Returns the reference that a link of a page is mended to.
    fn mend_link(alloc: Global, text: &str) -> Result<Reference<K, String>, MendError> {
        mended_link(alloc, text)
    }
}
