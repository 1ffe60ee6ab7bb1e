//! The texts of the kinds, in the words of the RFCs (RFC 3986, section 3; RFC 3987, section 2.2).
ghost use Rattle.std.specs.Prelude.{◌↔◌, IfOk, IsOk};
ghost use Rattle.fluent_uri.specs.Prelude.{IsInGrammar, IsTextOf, IsWithin, Kind, iri, iri_ref};
ghost use Rattle.uri_abnf.specs.Abnf.{IsOf};
ghost use Rattle.uri_abnf.specs.Derivations.{start_rule};

use fluent_uri::{Iri, ParseError, Reference, kind, laws};

/// A caller proves that a text follows the grammar in the words of the RFC if it is parsed as an
/// IRI.
///
/// # Errors
///
/// Those of `Iri::parse`.
pub fn follows_grammar(text: &str) -> Result<&str, ParseError>
    ensures { IfOk result (λ same. IsInGrammar iri same.now) }
{
    laws::kinds_match_the_rfc_grammars();
    Ok(Iri::<&str>::parse(text)?.as_str())
}

/// A caller proves that `parse` accepts exactly the texts of the rule that the RFCs print for its
/// kind.
///
/// # Errors
///
/// Those of `Reference::parse`.
pub fn parsed_by_printed_rule<K: kind::Kind>(text: &str) -> Result<Reference<K, &str>, ParseError>
    ensures { IsOk result ↔ IsOf (start_rule K.kind) text.now }
{
    uri_abnf::of_the_printed_grammar::<K>();
    Reference::<K, &str>::parse(text)
}

/// A caller proves that a text of any kind whose texts are IRI references is an IRI reference.
pub fn widened(text: &str)
    ensures { (kind : Kind) → IsWithin kind iri_ref → IsTextOf kind text.now
        → IsTextOf iri_ref text.now }
{
    laws::four_kinds_have_component_sets();
    laws::texts_are_of_wider_kinds_too();
}
