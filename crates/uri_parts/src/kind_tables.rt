//! The tables of a kind.
ghost use Rattle.std.specs.Prelude.{◌≡◌};
ghost use Rattle.uri_pct.specs.Prelude.{isegment_nz_nc_set, segment_nz_nc_set, set_of};
ghost use Rattle.uri_parts.specs.Grammar.{uri_ref, iri_ref};
ghost use Rattle.uri_parts.specs.KindTables.{kind_of};

use uri_pct::encoder::{
    Encoder, Fragment, IFragment, IPath, IQuery, IRegName, IUserinfo, Path, Query, RegName,
    Userinfo,
};
use uri_pct::table::{ISEGMENT_NZ_NC, SEGMENT_NZ_NC, Table};

/// The tables that distinguish the kinds, and whether a scheme is needed.
#[derive(Clone, Copy)]
pub struct KindTables {
    pub userinfo: Table,
    pub reg_name: Table,
    pub path: Table,
    /// The path's table without `:` and `/`.
    pub segment_nz_nc: Table,
    pub query: Table,
    pub fragment: Table,
    pub needs_scheme: bool,
}

/// Returns the tables of URIs, where a scheme is needed (RFC 3986, section 3), and else of URI
/// references (section 4.1).
#[tactic(auto, using(crate::proofs::Steps::segments))]
pub(crate) fn uri_tables(needs_scheme: bool) -> KindTables
    ensures kind { kind_of result ≡ record uri_ref { needs_scheme = needs_scheme } }
    ensures segment { set_of result.segment_nz_nc ≡ segment_nz_nc_set }
{
    KindTables {
        userinfo: Userinfo::table(),
        reg_name: RegName::table(),
        path: Path::table(),
        segment_nz_nc: SEGMENT_NZ_NC,
        query: Query::table(),
        fragment: Fragment::table(),
        needs_scheme,
    }
}

/// Returns the tables of IRIs, where a scheme is needed, and else of IRI references (RFC 3987,
/// section 2.2).
#[tactic(auto, using(crate::proofs::Steps::segments))]
pub(crate) fn iri_tables(needs_scheme: bool) -> KindTables
    ensures kind { kind_of result ≡ record iri_ref { needs_scheme = needs_scheme } }
    ensures segment { set_of result.segment_nz_nc ≡ isegment_nz_nc_set }
{
    KindTables {
        userinfo: IUserinfo::table(),
        reg_name: IRegName::table(),
        path: IPath::table(),
        segment_nz_nc: ISEGMENT_NZ_NC,
        query: IQuery::table(),
        fragment: IFragment::table(),
        needs_scheme,
    }
}
