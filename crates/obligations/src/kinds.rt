//! Calls of `Uri`, `UriRef`, `Iri` and `IriRef`, each with what a caller may say of the text.
#![tactic(auto)]

ghost use Rattle.std.specs.Prelude.{◌≡◌, ◌↔◌, ◌∷◌, IfErr, IfOk, IsOk, Ok, Some, [], option_map, string_bytes};
ghost use Rattle.std.specs.Result.{result_err};
ghost use Rattle.fluent_uri.specs.Prelude.{IsOfKind, components, iri, iri_ref, iri_ref_text, iri_text, reference_text, refusal, resolution_of_texts, scheme_text, uri, uri_ref, uri_ref_text, uri_text};

use fluent_uri::build::BuildError;
use fluent_uri::component::{Authority, Host, HostOf, IAuthority, IHost, Scheme};
use fluent_uri::kind::{IriKind, IriRefKind, Kind, RefKind, UriKind, UriRefKind};
use fluent_uri::pct_enc::EStr;
use fluent_uri::pct_enc::encoder::{IFragment, IPath, IRegName, Path, Query, RegName};
use fluent_uri::resolve::ResolveError;
use fluent_uri::{ConvertError, Iri, IriRef, ParseError, Reference, Uri, UriRef};
use std::alloc::{AllocError, Global};
use std::convert::{TryFrom, TryInto};

/// A caller gets the text of a reference, by `String::from`.
pub fn string_of<K: Kind>(value: Reference<K, String>) -> String
    ensures { string_bytes result ≡ reference_text value }
{
    String::from(value)
}

/// A caller gets the empty reference, by `default`.
pub fn empty<'a, K: RefKind>() -> Reference<K, &'a str>
    ensures { reference_text result ≡ [] }
{
    Reference::<K, &str>::default()
}

/// A caller parses a `String` as an IRI reference over the text itself, by `try_from`.
pub fn iri_ref_of_string(text: String) -> Result<IriRef<String>, (ParseError, String)>
    ensures accepts { IsOk result ↔ IsOfKind iri_ref (string_bytes text) }
    ensures back { IfErr result (λ rejected. string_bytes rejected.1 ≡ string_bytes text) }
{
    IriRef::try_from(text)
}

/// A caller calls `scheme` of an IRI, which has one.
pub fn scheme_of_iri<'a>(value: Iri<&'a str>) -> Scheme<'a>
    ensures { Some (scheme_text result) ≡ (components (iri_text value.entry)).scheme }
{
    value.scheme()
}

/// A caller calls `scheme` of an IRI reference, which may have one.
pub fn scheme_of_iri_ref(value: &IriRef<String>) -> Option<Scheme<'_>>
    ensures { option_map scheme_text result ≡ (components (iri_ref_text value.now)).scheme }
{
    value.scheme()
}

/// A caller asks whether an IRI reference has a scheme, and gets it.
pub fn scheme_if_any<'a>(value: IriRef<&'a str>) -> (bool, Option<Scheme<'a>>) {
    (value.has_scheme(), value.scheme())
}

/// A caller asks whether a URI reference has no scheme, by `has_scheme`.
pub fn is_relative(value: &UriRef<String>) -> bool {
    !value.has_scheme()
}

/// A caller asks whether a URI has an authority, a query and a fragment.
pub fn has_all_parts(value: &Uri<String>) -> bool {
    value.has_authority() && value.has_query() && value.has_fragment()
}

/// A caller calls `authority` of a URI, and of an IRI that owns its text.
pub fn authorities<'a>(
    value: Uri<&'a str>,
    other: &'a Iri<String>,
) -> (Option<Authority<'a>>, Option<IAuthority<'a>>) {
    (value.authority(), other.authority())
}

/// A caller names the encoder of registered names in a host of a URI, and of an IRI.
pub fn hosts<'a>(
    host: Host<'a>,
    other: IHost<'a>,
) -> (HostOf<EStr<'a, RegName>>, HostOf<EStr<'a, IRegName>>) {
    (host, other)
}

/// A caller calls `path` and `query` of a URI reference.
pub fn path_and_query(value: &UriRef<String>) -> (EStr<'_, Path>, Option<EStr<'_, Query>>) {
    (value.path(), value.query())
}

/// A caller calls `path` and `fragment` of an IRI reference, whose results outlive it.
pub fn path_and_fragment<'a>(
    value: IriRef<&'a str>,
) -> (EStr<'a, IPath>, Option<EStr<'a, IFragment>>) {
    (value.path(), value.fragment())
}

/// A caller converts an IRI to a URI, by `to_uri`.
pub fn encoded(alloc: Global, value: &Iri<String>) -> Result<Uri<String>, AllocError> {
    value.to_uri(alloc)
}

/// A caller gets the target of an IRI reference against an IRI, the kind of its base, by
/// `resolve_against`.
pub fn target_of(
    alloc: Global,
    value: &IriRef<String>,
    base: &Iri<&str>,
) -> Result<Iri<String>, ResolveError>
    ensures { IfOk result (λ target.
        resolution_of_texts (iri_text base.now) (iri_ref_text value.now) ≡ Ok (iri_text target)) }
{
    value.resolve_against(alloc, base)
}

/// A caller gets a URI as each wider kind, by `From`.
pub fn wider<'a>(value: Uri<&'a str>) -> (UriRef<&'a str>, Iri<&'a str>, IriRef<&'a str>)
    ensures uri_ref { uri_ref_text result.0 ≡ uri_text value.entry }
    ensures iri { iri_text result.1 ≡ uri_text value.entry }
    ensures iri_ref { iri_ref_text result.2 ≡ uri_text value.entry }
{
    (UriRef::from(value), Iri::from(value), IriRef::from(value))
}

/// A caller gets a URI reference, and an IRI, as the widest kind, by `From`.
pub fn widest(value: UriRef<String>, other: Iri<String>) -> (IriRef<String>, IriRef<String>)
    ensures uri_ref { iri_ref_text result.0 ≡ uri_ref_text value }
    ensures iri { iri_ref_text result.1 ≡ iri_text other }
{
    (value.into(), other.into())
}

/// A caller gets an IRI as a URI, the narrower kind, by `TryFrom`.
pub fn narrower(value: Iri<&str>) -> Result<Uri<&str>, ConvertError>
    ensures accepts { IsOk result ↔ IsOfKind uri (iri_text value.entry) }
    ensures text { IfOk result (λ made. uri_text made ≡ iri_text value.entry) }
{
    Uri::try_from(value)
}

/// A caller converts an IRI reference, the widest kind, to a URI, the narrowest, by `try_into`; an
/// error gives the value back.
pub fn narrowest(value: IriRef<String>) -> Result<Uri<String>, (ConvertError, IriRef<String>)>
    ensures { IsOk result ↔ IsOfKind uri (iri_ref_text value) }
{
    value.try_into()
}

/// A caller builds an IRI, beginning with its scheme.
pub fn built_iri(
    alloc: Global,
    scheme: Scheme<'_>,
    path: EStr<'_, IPath>,
) -> Result<Iri<String>, BuildError> {
    Iri::<String>::builder(alloc)
        .scheme(scheme)
        .path(path)
        .build()
}

/// A caller builds an IRI reference, beginning with its path.
pub fn built_iri_ref(alloc: Global, path: EStr<'_, IPath>) -> Result<IriRef<String>, BuildError> {
    IriRef::<String>::builder(alloc).path(path).build()
}

/// A caller parses a text as any of the four kinds, by one function.
pub fn parsed<K: Kind>(text: &str) -> Result<Reference<K, &str>, ParseError>
    ensures { result_err result ≡ refusal K.kind text.now }
{
    Reference::<K, &str>::parse(text)
}

/// A caller returns the error of a text as a URI, as a URI reference, as an IRI and as an IRI
/// reference.
pub fn errors_by_kind(text: &str) -> [Option<ParseError>; 4]
    ensures { result ≡ refusal uri text.now ∷ refusal uri_ref text.now ∷ refusal iri text.now
        ∷ refusal iri_ref text.now ∷ [] }
{
    [
        parsed::<UriKind>(text).err(),
        parsed::<UriRefKind>(text).err(),
        parsed::<IriKind>(text).err(),
        parsed::<IriRefKind>(text).err(),
    ]
}
