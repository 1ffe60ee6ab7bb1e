//! URIs (RFC 3986), IRIs (RFC 3987) and references to them: parsing, components, building,
//! resolving, normalising and converting. Every function is proved.
//!
//! `Uri`, `UriRef`, `Iri` and `IriRef` are one type, `Reference`, at four kinds.
#![tactic(auto)]

mod building;
mod convert;
mod normal_targets;
pub mod reference;
mod resolving;
#[doc(hidden)]
pub mod roles;
mod schemes;

pub use reference::Reference;
pub use uri_ops::convert::ConvertError;
pub use uri_ops::traits::{RefOf, Ri, RiMaybeRef, WithOwned};
pub use uri_parts::error::{ParseError, ParseErrorKind};
use uri_parts::kind::{IriKind, IriRefKind, UriKind, UriRefKind};

/// A URI: a text that begins with a scheme (RFC 3986, section 3), held as a `&str` or a `String`.
///
/// `Uri::<&str>::parse("foo://example.com/over/there?name=ferret#nose")` has the scheme `foo`,
/// the authority `example.com`, the path `/over/there`, the query `name=ferret` and the fragment
/// `nose`. `Uri::<&str>::parse("foo")` returns an error with index 3, where a `:` is missing.
///
/// # Examples
///
/// ```
/// Ok(Uri::<&str>::parse(text)?.normalize(alloc)?)
/// ```
pub type Uri<T> = Reference<UriKind, T>;

/// A URI reference: a URI, or a relative reference (RFC 3986, section 4.1), held as a `&str` or a
/// `String`.
///
/// `UriRef::<&str>::parse("foo://example.com/over/there?name=ferret#nose")` has the scheme `foo`,
/// the authority `example.com`, the path `/over/there`, the query `name=ferret` and the fragment
/// `nose`. `UriRef::<&str>::parse("../there")` has a path alone.
///
/// # Examples
///
/// ```
/// let mut target = UriRef::<&str>::parse(link)?.resolve_against(alloc, base)?;
/// target.set_fragment(None)?;
/// Ok(target)
/// ```
pub type UriRef<T> = Reference<UriRefKind, T>;

/// An IRI: a URI that may have characters past ASCII (RFC 3987, section 2.2), held as a `&str` or a
/// `String`.
///
/// `Iri::<&str>::parse("http://résumé.example.org/?café")` has the scheme `http`, the authority
/// `résumé.example.org`, the path `/` and the query `café`. `Iri::<&str>::parse("café")` returns an
/// error with index 3, after `caf`, where a `:` is missing.
///
/// # Examples
///
/// ```
/// value.to_uri(alloc)
/// ```
pub type Iri<T> = Reference<IriKind, T>;

/// An IRI reference: an IRI, or a relative reference that may have characters past ASCII (RFC 3987,
/// section 2.2), held as a `&str` or a `String`.
///
/// `IriRef::<&str>::parse("//résumé.example.org/?café")` has the authority `résumé.example.org`,
/// the path `/` and the query `café`. `IriRef::<&str>::parse("café")` has a path alone.
///
/// # Examples
///
/// ```
/// value.resolve_against(alloc, base)
/// ```
pub type IriRef<T> = Reference<IriRefKind, T>;

/// Building references (RFC 3986, section 5.3).
pub mod build {
    pub use uri_ops::build::host_port::{AsHost, AsPort, WithEncoder};
    pub use uri_ops::build::state::{AdvanceTo, To};
    pub use uri_ops::build::{BuildError, Builder, state};
}

/// Schemes, authorities and hosts. The other components are percent-encoded texts (`pct_enc`).
pub mod component {
    pub use uri_parts::component::{Authority, Host, HostOf, Scheme, SocketError, SocketTarget};
    use uri_pct::encoder::{IRegName, IUserinfo};

    /// An authority of an IRI (RFC 3987, section 2.2).
    pub type IAuthority<'a> = Authority<'a, IUserinfo, IRegName>;

    /// A host of an IRI (RFC 3987, section 2.2).
    pub type IHost<'a> = Host<'a, IRegName>;
}

/// The four kinds as types. A generic function over `Reference<K, T>` names the trait `Kind`, or
/// `BaseKind` for bases, and `RefKind` for the references that are resolved against them.
pub mod kind {
    pub use crate::roles::{BaseKind, RefKind};
    pub use uri_parts::kind::{IriKind, IriRefKind, Kind, UriKind, UriRefKind};
}

/// Laws of the definitions that contracts cite. A law is a function that does nothing, and its
/// contract states the law. Code whose proof needs the law calls the function.
pub mod laws {
    pub use crate::normal_targets::normal_forms_have_equivalent_targets;
    pub use error_laws::{
        what_is_before_a_late_error_begins_no_text, what_is_before_an_error_begins_a_text,
    };
    pub use uri_ops::laws::iri_uri::{
        encoding_past_ascii_and_resolving_swap, encoding_past_ascii_keeps_meaning,
        texts_are_of_wider_kinds_too,
    };
    pub use uri_ops::laws::normal_form::{
        bare_meanings_determine_meanings, default_ports_are_rules, four_kinds_have_component_sets,
        meanings_are_equal_if_their_parts_are, normal_texts_are_canonical, rules_keep_equivalence,
    };
    pub use uri_ops::laws::resolve_normalize::{
        resolving_and_normalising_swap, targets_are_of_the_kind_of_their_base,
    };
    pub use uri_ops::laws::{
        authorities_split_in_one_way, base_dots_may_be_removed_before_merging,
        kinds_match_the_rfc_grammars, leading_dots_may_be_removed_first, no_dot_segment_is_left,
        paths_without_dot_segments_are_left_as_they_are, removing_dot_segments_is_idempotent,
        removing_dot_segments_reads_the_whole_path, removing_dots_and_decoding_swap,
        taking_directories_and_removing_dots_swap,
    };
    pub use uri_parts::laws::{
        accepted_exactly_if_no_error, components_are_a_split, components_are_the_only_split,
        components_recompose, ip_addresses_compare_by_version_first,
        ipv4_addresses_compare_by_octets, ipv4_text_parses_to_its_octets,
        ipv6_addresses_compare_by_segments, ipv6_text_parses_to_its_segments,
    };
    pub use uri_pct::laws::{
        decoding_inverts_encoding, lossy_texts_are_those_of_std, octets_decode_in_either_case,
        printed_tokens_are_parsed_back, texts_represent_only_their_tokens,
        uri_octets_are_decoded_one_by_one, utf8_pieces_join_to_the_bytes,
        valid_prefixes_are_longest,
    };
}

/// IP addresses (RFC 3986, section 3.2.2), and their canonical texts (RFC 5952).
pub mod net {
    pub use uri_parts::net::{IpAddr, Ipv4Addr, Ipv6Addr};
}

/// Normalising references (RFC 3986, sections 6.2.2 and 6.2.3).
pub mod normalize {
    pub use uri_ops::normalize::{NormalizeError, Normalizer};
    pub use uri_ops::scheme_rules::{DefaultPorts, RuleSet, SchemeRules, StandardRules, WithPorts};
}

/// Percent-encoded texts, each of them valid for the set of an encoder.
pub mod pct_enc {
    pub use uri_pct::encoder::Encoder;
    pub use uri_pct::pct_enc::{
        CowSlice, CowStr, Decode, DecodeError, DecodedChunk, EStr, EString, Split,
    };
    pub use uri_pct::table::Table;

    /// The encoders: for each component, the set of characters that it may have.
    pub mod encoder {
        pub use uri_pct::encoder::{
            Data, Encoder, Fragment, IData, IFragment, IPath, IQuery, IRegName, IUserinfo, Path,
            PathEncoder, Port, Query, RegName, Userinfo,
        };
    }

    /// Sets of characters, and the rules of RFC 3986, appendix A, and RFC 3987, section 2.2.
    pub mod table {
        pub use uri_pct::table::{
            ALPHA, DIGIT, FRAGMENT, GEN_DELIMS, HEXDIG, IFRAGMENT, IPATH, IPV_FUTURE, IQUERY,
            IREG_NAME, ISEGMENT_NZ_NC, IUSERINFO, PATH, PCHAR, QUERY, REG_NAME, RESERVED, SCHEME,
            SEGMENT_NZ_NC, SUB_DELIMS, Table, UNRESERVED, USERINFO,
        };
    }
}

/// Resolving references against a base (RFC 3986, section 5).
pub mod resolve {
    pub use uri_ops::resolve::{ResolveError, Resolver};
}
