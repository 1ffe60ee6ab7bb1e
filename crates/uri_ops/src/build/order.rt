//! The order of a builder's steps: which state follows which (RFC 3986, section 3).
ghost use Rattle.uri_ops.specs.BuilderOrder.{before_authority_is_before_path, before_fragment_is_at_end, fresh_reference_is_before_authority, fresh_reference_is_before_path, fresh_reference_is_fresh, in_authority_is_before_path, before_port_is_in_authority, before_port_is_before_path, before_query_is_at_end, before_query_is_before_fragment, before_userinfo_is_before_host};

use crate::build::state::{
    AdvanceTo, AuthorityEnd, AuthorityStart, BeginsAuthority, End, FragmentEnd, HostEnd,
    NonRefStart, PathEnd, PortEnd, QueryEnd, SchemeEnd, Start, To, UserinfoEnd,
};

impl To<SchemeEnd> for Start {
    ghost passes = { fresh_reference_is_fresh };
}

impl To<AuthorityStart> for Start {
    ghost passes = { fresh_reference_is_before_authority };
}

impl To<AuthorityEnd> for Start {
    ghost passes = { fresh_reference_is_before_path };
}

impl To<PathEnd> for Start {
    ghost passes = { fresh_reference_is_before_path };
}

impl To<SchemeEnd> for NonRefStart {
    ghost passes = { λ _ _ here. here };
}

impl To<AuthorityStart> for SchemeEnd {
    ghost passes = { λ _ _ here. here };
}

impl To<AuthorityEnd> for SchemeEnd {
    ghost passes = { before_authority_is_before_path };
}

impl To<PathEnd> for SchemeEnd {
    ghost passes = { before_authority_is_before_path };
}

impl To<UserinfoEnd> for AuthorityStart {
    ghost passes = { λ _ _ here. here };
}

impl To<HostEnd> for AuthorityStart {
    ghost passes = { before_userinfo_is_before_host };
}

impl To<HostEnd> for UserinfoEnd {
    ghost passes = { λ _ _ here. here };
}

impl To<PortEnd> for HostEnd {
    ghost passes = { λ _ _ here. here };
}

impl To<AuthorityEnd> for HostEnd {
    ghost passes = { before_port_is_before_path };
}

impl To<AuthorityEnd> for PortEnd {
    ghost passes = { in_authority_is_before_path };
}

impl To<PathEnd> for AuthorityEnd {
    ghost passes = { λ _ _ here. here };
}

impl To<QueryEnd> for PathEnd {
    ghost passes = { λ _ _ here. here };
}

impl To<FragmentEnd> for PathEnd {
    ghost passes = { before_query_is_before_fragment };
}

impl To<End> for PathEnd {
    ghost passes = { before_query_is_at_end };
}

impl To<FragmentEnd> for QueryEnd {
    ghost passes = { λ _ _ here. here };
}

impl To<End> for QueryEnd {
    ghost passes = { before_fragment_is_at_end };
}

impl To<End> for FragmentEnd {
    ghost passes = { λ _ _ here. here };
}

impl AdvanceTo<SchemeEnd> for Start {
    ghost passes = { fresh_reference_is_before_authority };
}

impl AdvanceTo<AuthorityEnd> for Start {
    ghost passes = { fresh_reference_is_before_path };
}

impl AdvanceTo<AuthorityEnd> for SchemeEnd {
    ghost passes = { before_authority_is_before_path };
}

impl AdvanceTo<UserinfoEnd> for AuthorityStart {
    ghost passes = { before_userinfo_is_before_host };
}

impl AdvanceTo<PortEnd> for HostEnd {
    ghost passes = { before_port_is_in_authority };
}

impl AdvanceTo<QueryEnd> for PathEnd {
    ghost passes = { before_query_is_before_fragment };
}

impl AdvanceTo<FragmentEnd> for PathEnd {
    ghost passes = { before_query_is_at_end };
}

impl AdvanceTo<FragmentEnd> for QueryEnd {
    ghost passes = { before_fragment_is_at_end };
}

impl BeginsAuthority for Start {
    type Begun = AuthorityStart;

    ghost begun = { λ _ _ here. here };
}

impl BeginsAuthority for SchemeEnd {
    type Begun = AuthorityStart;

    ghost begun = { λ _ _ here. here };
}
