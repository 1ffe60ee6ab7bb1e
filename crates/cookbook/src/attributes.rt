//! The links that a page has in its attributes, such as `href`.
ghost use Rattle.std.specs.Prelude.{◌≡◌, IfOk, IsErrOf, IsOk, OnErr};
ghost use Rattle.fluent_uri.specs.Prelude.{uri_ref, uri_text};
ghost use Rattle.uri_links.specs.Outcomes.{outcome_of};
ghost use Rattle.uri_links.specs.OutcomesInWords.{IsOutcome};
ghost use Rattle.uri_links.specs.Registers.{target_rules, texts_of};
ghost use Rattle.uri_mend.specs.Mended.{IsMended};
ghost use Rattle.uri_mend.specs.Refusing.{IsLinkErrorOf};
ghost use Rattle.uri_mend.specs.Trimming.{trimmed_link};
ghost use Rattle.cookbook.specs.Attributes.{link_of};

use fluent_uri::normalize::SchemeRules;
use fluent_uri::{Uri, UriRef};
use std::alloc::Global;
use uri_links::links::{Outcome, Register};
use uri_mend::{Mend, MendError};

/// Notes the link of an attribute of a page: drops the white space that HTML drops, mends the rest,
/// resolves it against the page's base, and registers the normal form of its target if no
/// equivalent one was noted before (RFC 3986, sections 2.1, 5.2 and 6.2).
///
/// # Errors
///
/// `Unmendable` only if no URI reference has the scheme and the authority of the link;
/// `OutOfMemory` if allocation fails. The register is then unchanged.
///
/// # Examples
///
/// On `http://example.com/a/`, ` b c\n` is new, with the target `http://example.com/a/b%20c`. Then
/// `/a/%62 c` is known.
pub fn note_attribute<S: SchemeRules>(
    alloc: Global,
    register: &mut Register<S>,
    base: &Uri<&str>,
    attribute: &str,
) -> Result<Outcome, MendError>
    ensures noted { IfOk result (λ outcome.
        outcome_of (target_rules register.old) (uri_text base.now) (texts_of register.old)
        (link_of attribute.now) ≡ (outcome, texts_of register.new)) }
    ensures meant { IfOk result
        (IsOutcome (target_rules register.old) (uri_text base.now) (texts_of register.old)
        (link_of attribute.now)) }
    ensures mended { IsOk result →
        IsMended uri_ref (trimmed_link attribute.now) (link_of attribute.now) }
    ensures unmendable { (error : _) → IsErrOf result (MendError.Unmendable error)
        → IsLinkErrorOf uri_ref attribute.now (MendError.Unmendable error) }
    ensures kept { OnErr result (texts_of register.new ≡ texts_of register.old) }
    ensures rules { target_rules register.new ≡ target_rules register.old }
{
    let link = UriRef::<String>::mend_link(alloc, attribute)?;
    Ok(register.note(base, &link.borrow())?)
}
