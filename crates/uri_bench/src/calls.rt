//! The calls that are counted: none is inlined, and each returns its whole result.
//!
//! Each kind is parsed in one of them, which the others call. So LLVM inlines the parsers of URIs
//! and of IRIs there; references are parsed by `uri_mend` too.
use fluent_uri::normalize::{DefaultPorts, Normalizer, RuleSet};
use fluent_uri::pct_enc::encoder::{Data, IPath, Path};
use fluent_uri::pct_enc::{CowStr, EStr, EString};
use fluent_uri::resolve::Resolver;
use fluent_uri::{Iri, IriRef, ParseError, Uri, UriRef};
use std::alloc::Global;
use uri_basic::BasicResolver;
use uri_links::links::{Outcome, Register};
use uri_mend::{Mend, MendError};

/// A counted call: parses a text as a URI.
#[inline(never)]
pub fn parse_uri(text: &str) -> Result<Uri<&str>, ParseError> {
    Uri::<&str>::parse(text)
}

/// A counted call: parses a text as a URI, and normalises it by these rules of schemes. `None` if
/// either fails.
#[inline(never)]
pub fn normalize_by_rules(alloc: Global, text: &str, rules: RuleSet) -> Option<Uri<String>> {
    let normalizer = Normalizer::new().scheme_rules_with(rules);
    normalizer.normalize(alloc, &parse_uri(text).ok()?).ok()
}

/// A counted call: parses a text as a URI reference.
#[inline(never)]
pub fn parse_uri_ref(text: &str) -> Result<UriRef<&str>, ParseError> {
    UriRef::<&str>::parse(text)
}

/// A counted call: parses a text as an IRI.
#[inline(never)]
pub fn parse_iri(text: &str) -> Result<Iri<&str>, ParseError> {
    Iri::<&str>::parse(text)
}

/// A counted call: parses a text as an IRI reference.
#[inline(never)]
pub fn parse_iri_ref(text: &str) -> Result<IriRef<&str>, ParseError> {
    IriRef::<&str>::parse(text)
}

/// A counted call: parses a text as a URI and normalises it. `None` if either fails.
#[inline(never)]
pub fn normalize_uri(alloc: Global, text: &str) -> Option<Uri<String>> {
    parse_uri(text).ok()?.normalize(alloc).ok()
}

/// A counted call: parses a text as a URI reference and normalises it. `None` if either fails.
#[inline(never)]
pub fn normalize_uri_ref(alloc: Global, text: &str) -> Option<UriRef<String>> {
    parse_uri_ref(text).ok()?.normalize(alloc).ok()
}

/// A counted call: parses a text as an IRI and normalises it. `None` if either fails.
#[inline(never)]
pub fn normalize_iri(alloc: Global, text: &str) -> Option<Iri<String>> {
    parse_iri(text).ok()?.normalize(alloc).ok()
}

/// A counted call: parses a text as an IRI reference and normalises it. `None` if either fails.
#[inline(never)]
pub fn normalize_iri_ref(alloc: Global, text: &str) -> Option<IriRef<String>> {
    parse_iri_ref(text).ok()?.normalize(alloc).ok()
}

/// A counted call: parses a URI and a URI reference, and resolves the second against the first.
/// `None` if one of these fails.
#[inline(never)]
pub fn resolve_uri(alloc: Global, base: &str, reference: &str) -> Option<Uri<String>> {
    let base = parse_uri(base).ok()?;
    let reference = parse_uri_ref(reference).ok()?;
    reference.resolve_against(alloc, &base).ok()
}

/// A counted call: parses an IRI and an IRI reference, and resolves the second against the first.
/// `None` if one of these fails.
#[inline(never)]
pub fn resolve_iri(alloc: Global, base: &str, reference: &str) -> Option<Iri<String>> {
    let base = parse_iri(base).ok()?;
    let reference = parse_iri_ref(reference).ok()?;
    reference.resolve_against(alloc, &base).ok()
}

/// A counted call: resolves a URI reference against a URI, both parsed. `None` if that fails.
#[inline(never)]
pub fn resolve_values(
    alloc: Global,
    base: Uri<&str>,
    reference: UriRef<&str>,
) -> Option<Uri<String>> {
    reference.resolve_against(alloc, &base).ok()
}

/// A counted call: resolves a URI reference by a resolver. `None` if that fails.
#[inline(never)]
pub fn resolve(
    alloc: Global,
    resolver: &Resolver<Uri<&str>>,
    reference: UriRef<&str>,
) -> Option<Uri<String>> {
    resolver.resolve(alloc, &reference).ok()
}

/// A counted call: resolves a URI reference by the basic algorithm. `None` if that fails.
#[inline(never)]
pub fn resolve_basic(
    alloc: Global,
    resolver: &BasicResolver<Uri<&str>>,
    reference: UriRef<&str>,
) -> Option<Uri<String>> {
    resolver.resolve(alloc, &reference).ok()
}

/// A counted call: parses a URI and a URI reference, and returns the normal form of the target.
/// `None` if one of them fails.
#[inline(never)]
pub fn resolve_normalized(alloc: Global, base: &str, reference: &str) -> Option<Uri<String>> {
    let base = parse_uri(base).ok()?;
    let reference = parse_uri_ref(reference).ok()?;
    let resolver = Resolver::with_base(base);
    resolver
        .resolve_normalized(alloc, &reference, &Normalizer::new())
        .ok()
}

/// A counted call: decodes the path of an IRI to a text. `None` if its bytes are not UTF-8 or an
/// allocation fails.
#[inline(never)]
pub fn decode<'a>(alloc: Global, path: EStr<'a, IPath>) -> Option<CowStr<'a>> {
    path.decode().to_string(alloc).ok()
}

/// A counted call: percent-encodes a text as data of a path. `None` if an allocation fails.
#[inline(never)]
pub fn encode(alloc: Global, text: &str) -> Option<EString<Path>> {
    let mut path = EString::<Path>::new(alloc);
    path.encode_str::<Data>(text).ok()?;
    Some(path)
}

/// A counted call: parses a text as an IRI and converts it to a URI. `None` if either fails.
#[inline(never)]
pub fn to_uri(alloc: Global, text: &str) -> Option<Uri<String>> {
    parse_iri(text).ok()?.to_uri(alloc).ok()
}

/// A counted call: builds a URI of the components of another. `None` if that lacks an authority, a
/// query or a fragment.
#[inline(never)]
pub fn build(alloc: Global, parts: Uri<&str>) -> Option<Uri<String>> {
    Uri::<String>::builder(alloc)
        .scheme(parts.scheme())
        .authority(parts.authority()?)
        .path(parts.path())
        .query(parts.query()?)
        .fragment(parts.fragment()?)
        .build()
        .ok()
}

/// A counted call: parses a URI reference, and notes it against the base in a register of links.
/// `None` if either fails.
#[inline(never)]
pub fn note(
    register: &mut Register<DefaultPorts>,
    base: &Uri<&str>,
    reference: &str,
) -> Option<Outcome> {
    let reference = parse_uri_ref(reference).ok()?;
    register.note(base, &reference).ok()
}

/// A counted call: copies a text. `None` if that fails.
#[inline(never)]
pub fn copy(alloc: Global, text: &str) -> Option<String> {
    String::from_str(alloc, text).ok()
}

/// A counted call: parses a text as a URI reference and copies it. `None` if either fails.
#[inline(never)]
pub fn copy_uri_ref(alloc: Global, text: &str) -> Option<UriRef<String>> {
    parse_uri_ref(text).ok()?.to_owned(alloc).ok()
}

/// A counted call: mends a text to a URI reference.
#[inline(never)]
pub fn mend_uri_ref(alloc: Global, text: &str) -> Result<UriRef<String>, MendError> {
    UriRef::<String>::mend(alloc, text)
}

/// A counted call: mends a text to an IRI reference.
#[inline(never)]
pub fn mend_iri_ref(alloc: Global, text: &str) -> Result<IriRef<String>, MendError> {
    IriRef::<String>::mend(alloc, text)
}

/// A counted call: copies a text, and mends the copy to a URI reference. `None` if either fails.
#[inline(never)]
pub fn mend_copy(alloc: Global, text: &str) -> Option<UriRef<String>> {
    UriRef::<String>::mend_owned(alloc, String::from_str(alloc, text).ok()?).ok()
}
