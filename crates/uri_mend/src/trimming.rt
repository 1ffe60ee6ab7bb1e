//! The white space around and within the links of pages, dropped as the HTML standard has it.
ghost use Rattle.std.specs.Prelude.{◌≡◌, IfOk, IsOk, OnOk, false};
ghost use Rattle.std.specs.List.{list_any};
ghost use Rattle.uri_pct.specs.Prelude.{IsBorrowedText, Pushes, cow_text, is_one_of};
ghost use Rattle.uri_mend.specs.Trimming.{tab_and_newlines, trimmed_link, without_any, without_outer_space};

use fluent_uri::pct_enc::CowStr;
use std::alloc::{AllocError, Global};
use uri_parts::slicing::cut_before;

/// Returns whether a text has a tab, LF or CR.
fn has_tab_or_newline(text: &str) -> bool
    ensures { result ≡ list_any (is_one_of tab_and_newlines) text.now }
{
    text.as_bytes()
        .iter()
        .any(|byte| matches!(*byte, b'\t' | b'\n' | b'\r'))
}

/// Appends a text without its tabs, LF and CR, in runs.
fn push_without_newlines(text: &str, out: &mut String) -> Result<(), AllocError>
    ensures { OnOk result (Pushes out.old out.new (without_any tab_and_newlines text.now)) }
{
    let mut rest = text;
    while !rest.is_empty() {
        let (run, from) = cut_before(rest, b"\t\n\r");
        out.push_str(run)?;
        if from.is_empty() {
            return Ok(());
        }
        rest = &from[1..];
    }
    Ok(())
}

/// Returns the link that a page's text is: without the ASCII white space at both ends (tab, LF, FF,
/// CR and space), and without tabs, LF and CR. It drops nothing else, and borrows the text where
/// nothing within it is dropped. This is how HTML reads the attribute `href`.
///
/// ` http://h/a\n b` becomes `http://h/a b`, which `Mend::mend` makes a reference of.
///
/// # Errors
///
/// Only if memory is denied, which is requested only if there is a tab, LF or CR between other
/// characters.
pub fn trim_link(alloc: Global, text: &str) -> Result<CowStr<'_>, AllocError>
    ensures text { IfOk result (λ link. cow_text link ≡ trimmed_link text.now) }
    ensures borrowed { list_any (is_one_of tab_and_newlines) (without_outer_space text.now) ≡ false
        → IfOk result IsBorrowedText }
    ensures unrequested { list_any (is_one_of tab_and_newlines)
        (without_outer_space text.now) ≡ false → IsOk result }
{
    let link = text.trim_ascii();
    if !has_tab_or_newline(link) {
        return Ok(CowStr::Borrowed(link));
    }
    let mut made = String::with_capacity(alloc, link.len())?;
    push_without_newlines(link, &mut made)?;
    Ok(CowStr::Owned(made))
}
