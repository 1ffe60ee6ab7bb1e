//! Laws of the constants: a contract names such a value only where a function returns it.
ghost use Rattle.std.specs.Prelude.{◌≡◌};
ghost use Rattle.uri_pct.specs.Sets.{alpha_set, digit_set, hexdig_set, scheme_set, userinfo_set, ipv_future_set, reg_name_set, path_set, segment_nz_nc_set, pchar_set, query_set, fragment_set, unreserved_set, reserved_set, gen_delims_set, sub_delims_set, iuserinfo_set, ireg_name_set, ipath_set, isegment_nz_nc_set, iquery_set, ifragment_set};
ghost use Rattle.uri_pct.specs.Tables.{set_of};

use crate::table::{
    ALPHA, DIGIT, FRAGMENT, GEN_DELIMS, HEXDIG, IFRAGMENT, IPATH, IPV_FUTURE, IQUERY, IREG_NAME,
    ISEGMENT_NZ_NC, IUSERINFO, PATH, PCHAR, QUERY, REG_NAME, RESERVED, SCHEME, SEGMENT_NZ_NC,
    SUB_DELIMS, Table, UNRESERVED, USERINFO,
};

/// A table for each rule that has one.
pub struct Rules {
    pub alpha: Table,
    pub digit: Table,
    pub hexdig: Table,
    pub scheme: Table,
    pub userinfo: Table,
    pub ipv_future: Table,
    pub reg_name: Table,
    pub path: Table,
    pub segment_nz_nc: Table,
    pub pchar: Table,
    pub query: Table,
    pub fragment: Table,
    pub unreserved: Table,
    pub reserved: Table,
    pub gen_delims: Table,
    pub sub_delims: Table,
    pub iuserinfo: Table,
    pub ireg_name: Table,
    pub ipath: Table,
    pub isegment_nz_nc: Table,
    pub iquery: Table,
    pub ifragment: Table,
}

/// States that each constant is the set of its rule, under whose name it is returned.
#[tactic(auto, using(crate::proofs::TableSets::Constants::constant_tables))]
pub fn constants() -> Rules
    ensures alpha { set_of result.alpha ≡ alpha_set }
    ensures digit { set_of result.digit ≡ digit_set }
    ensures hexdig { set_of result.hexdig ≡ hexdig_set }
    ensures scheme { set_of result.scheme ≡ scheme_set }
    ensures userinfo { set_of result.userinfo ≡ userinfo_set }
    ensures ipv_future { set_of result.ipv_future ≡ ipv_future_set }
    ensures reg_name { set_of result.reg_name ≡ reg_name_set }
    ensures path { set_of result.path ≡ path_set }
    ensures segment_nz_nc { set_of result.segment_nz_nc ≡ segment_nz_nc_set }
    ensures pchar { set_of result.pchar ≡ pchar_set }
    ensures query { set_of result.query ≡ query_set }
    ensures fragment { set_of result.fragment ≡ fragment_set }
    ensures unreserved { set_of result.unreserved ≡ unreserved_set }
    ensures reserved { set_of result.reserved ≡ reserved_set }
    ensures gen_delims { set_of result.gen_delims ≡ gen_delims_set }
    ensures sub_delims { set_of result.sub_delims ≡ sub_delims_set }
    ensures iuserinfo { set_of result.iuserinfo ≡ iuserinfo_set }
    ensures ireg_name { set_of result.ireg_name ≡ ireg_name_set }
    ensures ipath { set_of result.ipath ≡ ipath_set }
    ensures isegment_nz_nc { set_of result.isegment_nz_nc ≡ isegment_nz_nc_set }
    ensures iquery { set_of result.iquery ≡ iquery_set }
    ensures ifragment { set_of result.ifragment ≡ ifragment_set }
{
    Rules {
        alpha: ALPHA,
        digit: DIGIT,
        hexdig: HEXDIG,
        scheme: SCHEME,
        userinfo: USERINFO,
        ipv_future: IPV_FUTURE,
        reg_name: REG_NAME,
        path: PATH,
        segment_nz_nc: SEGMENT_NZ_NC,
        pchar: PCHAR,
        query: QUERY,
        fragment: FRAGMENT,
        unreserved: UNRESERVED,
        reserved: RESERVED,
        gen_delims: GEN_DELIMS,
        sub_delims: SUB_DELIMS,
        iuserinfo: IUSERINFO,
        ireg_name: IREG_NAME,
        ipath: IPATH,
        isegment_nz_nc: ISEGMENT_NZ_NC,
        iquery: IQUERY,
        ifragment: IFRAGMENT,
    }
}
