//! The four kinds by their names on a command line.
ghost use Rattle.std.specs.Prelude.{◌≡◌, ◌↔◌, ◌≢◌, IfErr, IfOk, IsOk, MatchOption};
ghost use Rattle.fluent_uri.specs.Prelude.{IsOfKind, iri_ref_text};
ghost use Rattle.uri_commands.specs.Kinds as spec;
ghost use Rattle.uri_commands.specs.Kinds.{word_of_kind};
ghost use Rattle.uri_commands.specs.Refusals.{IsErrorOf};

use fluent_uri::{Iri, IriRef, ParseError, Uri, UriRef};

/// One of the four kinds, by its name on a command line.
#[derive(Clone, Copy)]
pub enum KindName {
    /// `uri`: a URI (RFC 3986, section 3).
    Uri,
    /// `uri-ref`: a URI reference (RFC 3986, section 4.1).
    UriRef,
    /// `iri`: an IRI (RFC 3987, section 2.2).
    Iri,
    /// `iri-ref`: an IRI reference (RFC 3987, section 2.2).
    IriRef,
}

/// Calls a generic function at the kind that a `KindName` names: `for_kind!(kind, f(a))`.
#[macro_export]
macro_rules! for_kind {
    ($kind:expr, $function:ident($($argument:expr),*)) => {
        match $kind {
            $crate::kinds::KindName::Uri => $function::<fluent_uri::kind::UriKind>($($argument),*),
            $crate::kinds::KindName::UriRef => {
                $function::<fluent_uri::kind::UriRefKind>($($argument),*)
            }
            $crate::kinds::KindName::Iri => $function::<fluent_uri::kind::IriKind>($($argument),*),
            $crate::kinds::KindName::IriRef => {
                $function::<fluent_uri::kind::IriRefKind>($($argument),*)
            }
        }
    };
}

/// Returns the kind of this name, if there is one.
pub fn kind_named(word: &str) -> Option<KindName>
    ensures { MatchOption result ((kind : _) → word.now ≢ word_of_kind kind)
        (λ kind. word.now ≡ word_of_kind kind) }
{
    match word {
        "uri" => Some(KindName::Uri),
        "uri-ref" => Some(KindName::UriRef),
        "iri" => Some(KindName::Iri),
        "iri-ref" => Some(KindName::IriRef),
        _ => None,
    }
}

/// Parses the text as the kind, and returns it as an IRI reference, which a text of each kind is.
///
/// # Errors
///
/// Returns the parse error exactly if the text is not of the kind.
pub fn parse_as_iri_ref(kind: KindName, text: &str) -> Result<IriRef<&str>, ParseError>
    ensures accepts { IsOk result ↔ IsOfKind (spec.kind_named kind) text.now }
    ensures text { IfOk result (λ reference. iri_ref_text reference ≡ text.now) }
    ensures refused { IfErr result (IsErrorOf (spec.kind_named kind) text.now) }
{
    match kind {
        KindName::Uri => match Uri::<&str>::parse(text) {
            Ok(uri) => Ok(IriRef::from(uri)),
            Err(error) => Err(error),
        },
        KindName::UriRef => match UriRef::<&str>::parse(text) {
            Ok(uri_ref) => Ok(IriRef::from(uri_ref)),
            Err(error) => Err(error),
        },
        KindName::Iri => match Iri::<&str>::parse(text) {
            Ok(iri) => Ok(IriRef::from(iri)),
            Err(error) => Err(error),
        },
        KindName::IriRef => IriRef::<&str>::parse(text),
    }
}
