//! Texts and characters written out: texts for each encoder, with octets and letters, and schemes.

use fluent_uri::Uri;
use fluent_uri::build::BuildError;
use fluent_uri::component::Scheme;
use fluent_uri::pct_enc::encoder::{
    Data, Fragment, IData, IFragment, IPath, IQuery, IRegName, IUserinfo, Path, Port, Query,
    RegName, Userinfo,
};
use fluent_uri::pct_enc::{EStr, EString};
use std::alloc::{AllocError, Global};

/// A caller makes a literal text for each encoder of a part of an authority, which needs no test.
pub fn of_an_authority() -> (
    EStr<'static, Userinfo>,
    EStr<'static, RegName>,
    EStr<'static, Port>,
) {
    (
        EStr::new_or_panic("user:password"),
        EStr::new_or_panic("example.com"),
        EStr::new_or_panic("8080"),
    )
}

/// A caller makes literal texts for encoders of components of URIs.
pub fn of_a_uri() -> (
    EStr<'static, Path>,
    EStr<'static, Query>,
    EStr<'static, Fragment>,
) {
    (
        EStr::new_or_panic("/a"),
        EStr::new_or_panic("name=ferret&page=2"),
        EStr::new_or_panic("nose"),
    )
}

/// A caller makes literal texts for encoders of parts of the authority of an IRI.
pub fn of_an_iauthority() -> (EStr<'static, IUserinfo>, EStr<'static, IRegName>) {
    (
        EStr::new_or_panic("user"),
        EStr::new_or_panic("example.com"),
    )
}

/// A caller makes literal texts for encoders of components of IRIs.
pub fn of_an_iri() -> (
    EStr<'static, IPath>,
    EStr<'static, IQuery>,
    EStr<'static, IFragment>,
) {
    (
        EStr::new_or_panic("/rosé/张三"),
        EStr::new_or_panic("a?b/c"),
        EStr::new_or_panic("section-2.1"),
    )
}

/// A caller makes literal texts for the encoders of data.
pub fn of_data() -> (EStr<'static, Data>, EStr<'static, IData>) {
    (EStr::new_or_panic("A-Z_0.9~"), EStr::new_or_panic("data"))
}

/// A caller makes the literal scheme `http`, which needs no test.
pub fn http() -> Scheme<'static> {
    Scheme::new_or_panic("http")
}

/// A caller makes a literal scheme that has a `+`, which needs no test.
pub fn scheme_with_plus() -> Scheme<'static> {
    Scheme::new_or_panic("coap+tcp")
}

/// A caller makes a literal path that has percent-encoded octets, which needs no test.
pub fn path_with_octets() -> EStr<'static, Path> {
    EStr::new_or_panic("/a%20b/%C3%A9")
}

/// A caller appends a literal character past ASCII to the query of an IRI.
pub fn push_a_letter(query: &mut EString<IQuery>) -> Result<(), AllocError> {
    query.push('é')
}

/// A caller builds a URI of literals: a scheme, userinfo, a host, a port, a path, a query and a
/// fragment.
pub fn built(alloc: Global) -> Result<Uri<String>, BuildError> {
    Uri::<String>::builder(alloc)
        .scheme(Scheme::new_or_panic("foo"))
        .authority_with(|authority| {
            authority
                .userinfo(EStr::new_or_panic("user"))
                .host(EStr::new_or_panic("example.com"))
                .port(8042)
        })
        .path(EStr::new_or_panic("/over/there"))
        .query(EStr::new_or_panic("name=ferret"))
        .fragment(EStr::new_or_panic("nose"))
        .build()
}
