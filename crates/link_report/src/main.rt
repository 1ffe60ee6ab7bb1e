//! Reads links of a page, one a line, and prints for each where it leads: the target in normal
//! form, and a short link to it.
#![tactic(auto, using(fluent_uri::proofs::Calling::calling))]

ghost use Rattle.std.specs.Prelude.{IfOk};
ghost use Rattle.fluent_uri.specs.Prelude.{IsNormalForm, default_rules, uri, uri_text};

use fluent_uri::resolve::ResolveError;
use fluent_uri::{ParseError, Uri, UriRef};
use std::alloc::{AllocError, Global};
use std::io;
use thiserror::Error;
use uri_relative::Relativize;

/// Why a link has no target.
#[derive(Clone, Copy, Debug, PartialEq, Eq, Error)]
pub enum Failure {
    /// It is not a URI reference.
    #[error("{0}")]
    Text(ParseError),
    /// The page's URI cannot be its base.
    #[error("{0}")]
    Target(ResolveError),
    /// An allocation failed.
    #[error("out of memory")]
    OutOfMemory,
}

/// Returns the target of a link of a page (RFC 3986, section 5.2).
fn target(alloc: Global, page: &Uri<&str>, link: &str) -> Result<Uri<String>, Failure> {
    let link = UriRef::<&str>::parse(link).map_err(Failure::Text)?;
    link.resolve_against(alloc, page).map_err(Failure::Target)
}

/// Returns the normal form of a target (RFC 3986, section 6.2.2).
fn normal_form(alloc: Global, target: &Uri<String>) -> Result<Uri<String>, AllocError>
    ensures { IfOk result (λ normal.
        IsNormalForm uri default_rules (uri_text target.now) (uri_text normal)) }
{
    target.normalize(alloc)
}

/// Returns a line for the target of a link of a page: its normal form, and the short link to it.
fn line(alloc: Global, page: &Uri<&str>, link: &str) -> Result<String, Failure> {
    let target = target(alloc, page, link)?;
    let normal = normal_form(alloc, &target).map_err(|_| Failure::OutOfMemory)?;
    let short = page
        .relativize(alloc, &target)
        .map_err(|_| Failure::OutOfMemory)?;
    format!(in alloc; "{normal} {short}").map_err(|_| Failure::OutOfMemory)
}

/// Prints a line for each link of the input.
fn main(rt: HostRuntime) -> io::Result<()> {
    let page = match Uri::<&str>::parse("http://example.com/a/b?c") {
        Ok(page) => page,
        Err(error) => return eprintln!(rt; "{error}"),
    };
    for link in rt.lines(rt.alloc()) {
        match line(rt.alloc(), &page, link?.as_str()) {
            Ok(line) => println!(rt; "{line}")?,
            Err(error) => println!(rt; "error: {error}")?,
        }
    }
    Ok(())
}
