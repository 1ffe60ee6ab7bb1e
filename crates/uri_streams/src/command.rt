//! What is done with the text of a line.

use fluent_uri::normalize::RuleSet;
use fluent_uri::{Iri, Uri};
use std::hash::RandomState;
pub use uri_commands::kinds::KindName;

/// A base that lines are resolved against or relativized to: a URI or an IRI without a fragment.
/// Its references are URI references or IRI references.
#[derive(Clone, Copy)]
pub enum Base<'a> {
    /// A URI, the base of URI references.
    Uri(Uri<&'a str>),
    /// An IRI, the base of IRI references.
    Iri(Iri<&'a str>),
}

/// A command of `urilines` that does the same with the text of each line, whatever the other lines
/// are.
#[derive(Clone, Copy)]
pub enum LineCommand<'a> {
    /// `normalize KIND`: the normal form of the text, by these rules of schemes (`--scheme-rules`),
    /// takes its place.
    Normalize(KindName, RuleSet),
    /// `resolve uri|iri BASE`: the target of the text against the base takes its place. If the
    /// `bool` is true (`--basic`), it is by the basic algorithm of RFC 3986, section 5.2.
    Resolve(Base<'a>, bool),
    /// `relativize uri|iri BASE`: a reference that leads to the text from the base takes its place.
    /// If the `bool` is true (`--prefer-relative`), its path is relative even if the path from the
    /// root is shorter.
    Relativize(Base<'a>, bool),
    /// `check KIND`: the text is passed on, unchanged, if it is of the kind. If the `bool` is true
    /// (`--invert`), it is passed on if it is not.
    Check(KindName, bool),
    /// `mend KIND`: the text of the kind that the text is mended to, as the link of a page, takes
    /// its place.
    Mend(KindName),
    /// `parse KIND`: a line of JSON that has the components of the text takes its place.
    Parse(KindName),
    /// `query KIND`: a line of JSON that has the pairs of the text's query takes its place.
    Query(KindName),
}

/// A command of `urilines`: what is done with the lines of an input.
#[derive(Clone, Copy)]
pub enum Command<'a> {
    /// A command that does the same with each line.
    Each(LineCommand<'a>),
    /// `unique KIND`: the normal form of a line's text, by these rules of schemes
    /// (`--scheme-rules`), takes its place the first time that its meaning comes. The normal forms
    /// that were met are kept, hashed with these keys.
    Unique(KindName, RuleSet, RandomState),
    /// `links BASE`: whether the target of a line's text against the base is new, the target's id
    /// and the target take the text's place. Targets are normalised by these rules of schemes
    /// (`--scheme-rules`). The targets that were met are kept.
    Links(Uri<&'a str>, RuleSet),
}
