//! The link of a page, mended for a kind.
ghost use Rattle.std.specs.Prelude.{◌≡◌, IfErr, IfOk, false, string_bytes, true};
ghost use Rattle.uri_commands.specs.Commands.{Mend};
ghost use Rattle.uri_commands.specs.Kinds.{kind_named};
ghost use Rattle.uri_commands.specs.Ends.{has_output_failed};
ghost use Rattle.uri_commands.specs.Refusals.{IsErrorOfCommand, IsErrorOfLink};
ghost use Rattle.uri_mend.specs.Mended.{IsMended};
ghost use Rattle.uri_mend.specs.Mending.{can_be_mended, mended_text};
ghost use Rattle.uri_mend.specs.Trimming.{trimmed_link};

use crate::for_kind;
use crate::kinds::KindName;
use crate::refusal::CommandError;
use fluent_uri::Reference;
use fluent_uri::kind::Kind;
use std::alloc::Global;
use uri_mend::{Mend, MendError};

/// Returns the text of the kind that a link of a page is mended to, as `Mend::mend_link` does.
///
/// ` http://h/a b` is mended to `http://h/a%20b`.
///
/// # Errors
///
/// Returns `Text` if the link cannot be mended, and `OutOfMemory` if allocation fails.
#[tactic(auto, using(crate::proofs::MendedLinks::of_each_kind))]
pub fn mended(alloc: Global, kind: KindName, text: &str) -> Result<String, CommandError>
    ensures mendable { IfOk result (λ _.
        can_be_mended (kind_named kind) (trimmed_link text.now) ≡ true) }
    ensures refused { IfErr result (IsErrorOfCommand (Mend kind text.now)) }
    ensures text { IfOk result (λ link. string_bytes link
        ≡ mended_text (kind_named kind) (trimmed_link text.now)) }
    ensures unwritten { has_output_failed result ≡ false }
{
    for_kind!(kind, mended_link_text(alloc, text))
}

/// Returns the text of the kind `K` that a link of a page is mended to.
fn mended_link_text<K: Kind>(alloc: Global, text: &str) -> Result<String, CommandError>
    ensures mended { IfOk result (λ link.
        IsMended K.kind (trimmed_link text.now) (string_bytes link)) }
    ensures refused { IfErr result (IsErrorOfLink K.kind text.now) }
    ensures unwritten { has_output_failed result ≡ false }
{
    match Reference::<K, String>::mend_link(alloc, text) {
        Ok(link) => Ok(link.into_string()),
        Err(MendError::Unmendable(error)) => Err(CommandError::Text(error)),
        Err(MendError::OutOfMemory) => Err(CommandError::OutOfMemory),
    }
}
