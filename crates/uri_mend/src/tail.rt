//! The path, the query and the fragment of a text, mended.
ghost use Rattle.std.specs.Prelude.{◌≡◌, ◌+◌, ◌-◌, ◌<◌, ◌≤◌, ◌++◌, ◌∷◌, [], IfOk, IfSome, List, codes, drop, false, is_some, length, true, ℕ, IsCharBoundary};
ghost use Rattle.uri_pct.specs.Prelude.{has_bit, set_of};
ghost use Rattle.uri_parts.specs.Prelude.{from_any, starts};
ghost use Rattle.uri_mend.specs.Progress.{IsProgress, are_marks, mended_so_far};
ghost use Rattle.uri_mend.specs.Tails.{after_marked, mended_marked, mended_path, mended_query, mended_tail};
ghost use Rattle.uri_mend.specs.declared.component.TheConstants.{NEVER_HIGH, NEVER_LOW};

use crate::component::{Progress, mend_component};
use std::alloc::AllocError;
use uri_parts::kind::Kind;
use uri_pct::table::Table;

/// Returns how long is what a text is mended to so far.
fn mended_len(p: Progress) -> Result<usize, AllocError>
    requires { p.run_start ≤ p.end }
    ensures { IfOk result (λ len. len ≡ p.at + (p.end - p.run_start)) }
{
    match p.at.checked_add(p.end - p.run_start) {
        Some(len) => Ok(len),
        None => Err(AllocError),
    }
}

/// Passes this ASCII character, which is unchanged, if it is next.
#[inline(always)]
fn pass_mark(text: &str, mark: u8, from: Progress) -> Option<Progress>
    requires ascii { mark < 128 }
    requires boundary { IsCharBoundary text.now from.end }
    requires ordered { from.run_start ≤ from.end }
    ensures next { is_some result ≡ starts mark (drop from.end text.now) }
    ensures rest { IfSome result (λ p. drop p.end text.now ≡ drop 1 (drop from.end text.now)) }
    ensures progress { (out : List ℕ) → IsProgress text.now out from
        → IfSome result (IsProgress text.now out) }
    ensures text { (out : List ℕ) → IfSome result (λ p. mended_so_far text.now out p
        ≡ mended_so_far text.now out from ++ mark ∷ []) }
{
    let bytes = text.as_bytes();
    if from.end < bytes.len() && bytes[from.end] == mark {
        Some(Progress {
            end: from.end + 1,
            run_start: from.run_start,
            at: from.at,
        })
    } else {
        None
    }
}

/// Mends the component that begins with this mark, and ends before the first of these marks, with
/// its mark, if it is next.
#[inline(always)]
fn mend_marked(
    table: &Table,
    mark: u8,
    marks: &[u8],
    text: &str,
    from: Progress,
    out: &mut Vec<u8>,
) -> Result<Progress, AllocError>
    requires ascii { mark < 128 }
    requires octets { (set_of table.now).pct_encoded ≡ true }
    requires never { (b : ℕ) → has_bit NEVER_LOW NEVER_HIGH b ≡ true
        → (set_of table.now).ascii b ≡ false }
    requires marks { are_marks (set_of table.now) marks.now ≡ true }
    requires progress { IsProgress text.now out.old.items from }
    ensures progress { IfOk result (IsProgress text.now out.new.items) }
    ensures text { IfOk result (λ p. mended_so_far text.now out.new.items p
        ≡ mended_so_far text.now out.old.items from
        ++ mended_marked mark marks.now (set_of table.now) (drop from.end text.now)) }
    ensures rest { IfOk result (λ p. drop p.end text.now
        ≡ after_marked mark marks.now (drop from.end text.now)) }
{
    match pass_mark(text, mark, from) {
        Some(p) => mend_component(table, marks, text, p, out),
        None => Ok(from),
    }
}

/// A text that was mended to its end, and where its path and its query end in what it was mended
/// to, or the path alone if there is no query.
#[derive(Clone, Copy)]
pub(crate) struct MendedTail {
    pub(crate) progress: Progress,
    pub(crate) path_end: usize,
    pub(crate) query_end: usize,
}

/// Mends the path, the query and the fragment, which are next.
#[inline(always)]
pub(crate) fn mend_tail<K: Kind>(
    text: &str,
    from: Progress,
    out: &mut Vec<u8>,
) -> Result<MendedTail, AllocError>
    requires { IsProgress text.now out.old.items from }
    ensures progress { IfOk result (λ made. IsProgress text.now out.new.items made.progress) }
    ensures text { IfOk result (λ made. mended_so_far text.now out.new.items made.progress
        ≡ mended_so_far text.now out.old.items from
        ++ mended_tail K.kind (drop from.end text.now)) }
    ensures path_end { IfOk result (λ made. made.path_end
        ≡ length (mended_so_far text.now out.old.items from)
        + length (mended_path K.kind (drop from.end text.now))) }
    ensures query_end { IfOk result (λ made. made.query_end ≡ made.path_end
        + length (mended_query K.kind.query (from_any (codes "?#") (drop from.end text.now)))) }
{
    let tables = K::tables();
    let path = mend_component(&tables.path, b"?#", text, from, out)?;
    let path_end = mended_len(path)?;
    let query = mend_marked(&tables.query, b'?', b"#", text, path, out)?;
    let query_end = mended_len(query)?;
    let progress = mend_marked(&tables.fragment, b'#', b"", text, query, out)?;
    Ok(MendedTail {
        progress,
        path_end,
        query_end,
    })
}
