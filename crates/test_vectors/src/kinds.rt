//! The four kinds, as a row names them.

use crate::fields::RowError;

/// A kind that a text is parsed as.
#[derive(Clone, Copy)]
pub(crate) enum Kind {
    Uri,
    UriRef,
    Iri,
    IriRef,
}

impl Kind {
    /// Returns the kind that a row names by this word.
    pub(crate) fn named(word: &str) -> Result<Kind, RowError> {
        match word {
            "uri" => Ok(Kind::Uri),
            "uri-ref" => Ok(Kind::UriRef),
            "iri" => Ok(Kind::Iri),
            "iri-ref" => Ok(Kind::IriRef),
            _ => Err(RowError::Malformed("no such kind")),
        }
    }
}
