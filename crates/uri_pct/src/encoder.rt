//! The encoders of the components of URIs and IRIs: which characters and octets each consists of.
ghost use Rattle.std.specs.Prelude.{◌≡◌, refl};
ghost use Rattle.uri_pct.specs.Sets.{LacksPercent, TableSet, userinfo_set, reg_name_set, digit_set, path_set, query_set, fragment_set, iuserinfo_set, ireg_name_set, ipath_set, iquery_set, ifragment_set, data_set, idata_set};
ghost use Rattle.uri_pct.specs.Tables.{set_of};

use crate::table::{self, Table};

/// An encoder: which characters may be literal, and whether percent-encoded octets are allowed.
///
/// `set` names the set; the implementor of the trait chooses it, and `table` returns it. It lacks
/// `%`, as `lacks_percent` says: a `%` only ever begins an octet (RFC 3986, section 2.1). If the
/// set is written out, `refl` proves `lacks_percent`.
///
/// `Query::table()` allows `a` and `?`, and not `#`.
pub trait Encoder {
    ghost set: { TableSet };

    /// Returns the table of the characters and octets that the encoder allows.
    fn table() -> Table
        ensures { set_of result ≡ set };

    ghost lacks_percent: { LacksPercent set };
}

/// An encoder of paths.
///
/// `Path` and `IPath` are such encoders: `segments_if_absolute` may be called on their texts.
pub trait PathEncoder: Encoder {}

/// The encoder of a URI's userinfo (RFC 3986, section 3.2.1).
///
/// `user:pass` is valid for it, and `a@b` is not.
#[derive(Clone, Copy)]
pub struct Userinfo;

impl Encoder for Userinfo {
    ghost set = { userinfo_set };

    /// Returns the table of the encoder `Userinfo`.
    #[tactic(auto, using(crate::proofs::TableSets::Constants::userinfo_masks_are_userinfo_set))]
    fn table() -> Table {
        table::USERINFO
    }

    ghost lacks_percent = { refl };
}

/// The encoder of a URI's registered name (RFC 3986, section 3.2.2).
///
/// `example.com` is valid for it, and `a:b` is not.
#[derive(Clone, Copy)]
pub struct RegName;

impl Encoder for RegName {
    ghost set = { reg_name_set };

    /// Returns the table of the encoder `RegName`.
    #[tactic(auto, using(crate::proofs::TableSets::Constants::reg_name_masks_are_reg_name_set))]
    fn table() -> Table {
        table::REG_NAME
    }

    ghost lacks_percent = { refl };
}

/// The encoder of a port (RFC 3986, section 3.2.3): decimal digits alone.
///
/// `8080` is valid for it, and `80a` is not.
#[derive(Clone, Copy)]
pub struct Port;

impl Encoder for Port {
    ghost set = { digit_set };

    /// Returns the table of the encoder `Port`.
    #[tactic(auto, using(crate::proofs::TableSets::Constants::digit_masks_are_digit_set))]
    fn table() -> Table {
        table::DIGIT
    }

    ghost lacks_percent = { refl };
}

/// The encoder of a URI's path (RFC 3986, section 3.3).
///
/// `/a/b;c=%20` is valid for it, and `a?b` is not.
#[derive(Clone, Copy)]
pub struct Path;

impl Encoder for Path {
    ghost set = { path_set };

    /// Returns the table of the encoder `Path`.
    #[tactic(auto, using(crate::proofs::TableSets::Constants::path_masks_are_path_set))]
    fn table() -> Table {
        table::PATH
    }

    ghost lacks_percent = { refl };
}

impl PathEncoder for Path {}

/// The encoder of a URI's query (RFC 3986, section 3.4).
///
/// `a=b&c/?` is valid for it, and `a#b` is not.
#[derive(Clone, Copy)]
pub struct Query;

impl Encoder for Query {
    ghost set = { query_set };

    /// Returns the table of the encoder `Query`.
    #[tactic(auto, using(crate::proofs::TableSets::Constants::query_masks_are_query_set))]
    fn table() -> Table {
        table::QUERY
    }

    ghost lacks_percent = { refl };
}

/// The encoder of a URI's fragment (RFC 3986, section 3.5).
///
/// `a/b?c` is valid for it, and `a#b` is not.
#[derive(Clone, Copy)]
pub struct Fragment;

impl Encoder for Fragment {
    ghost set = { fragment_set };

    /// Returns the table of the encoder `Fragment`.
    #[tactic(auto, using(crate::proofs::TableSets::Constants::fragment_masks_are_fragment_set))]
    fn table() -> Table {
        table::FRAGMENT
    }

    ghost lacks_percent = { refl };
}

/// The encoder of an IRI's userinfo (RFC 3987, section 2.2).
///
/// `użytkownik:a` is valid for it, and `a@b` is not.
#[derive(Clone, Copy)]
pub struct IUserinfo;

impl Encoder for IUserinfo {
    ghost set = { iuserinfo_set };

    /// Returns the table of the encoder `IUserinfo`.
    #[tactic(auto, using(crate::proofs::TableSets::Constants::iuserinfo_masks_are_iuserinfo_set))]
    fn table() -> Table {
        table::IUSERINFO
    }

    ghost lacks_percent = { refl };
}

/// The encoder of an IRI's registered name (RFC 3987, section 2.2).
///
/// `例え.jp` is valid for it, and `a:b` is not.
#[derive(Clone, Copy)]
pub struct IRegName;

impl Encoder for IRegName {
    ghost set = { ireg_name_set };

    /// Returns the table of the encoder `IRegName`.
    #[tactic(auto, using(crate::proofs::TableSets::Constants::ireg_name_masks_are_ireg_name_set))]
    fn table() -> Table {
        table::IREG_NAME
    }

    ghost lacks_percent = { refl };
}

/// The encoder of an IRI's path (RFC 3987, section 2.2).
///
/// `/déjà/vu` is valid for it, and `a?b` is not.
#[derive(Clone, Copy)]
pub struct IPath;

impl Encoder for IPath {
    ghost set = { ipath_set };

    /// Returns the table of the encoder `IPath`.
    #[tactic(auto, using(crate::proofs::TableSets::Constants::ipath_masks_are_ipath_set))]
    fn table() -> Table {
        table::IPATH
    }

    ghost lacks_percent = { refl };
}

impl PathEncoder for IPath {}

/// The encoder of an IRI's query (RFC 3987, section 2.2).
///
/// `où=là` is valid for it, and `a#b` is not.
#[derive(Clone, Copy)]
pub struct IQuery;

impl Encoder for IQuery {
    ghost set = { iquery_set };

    /// Returns the table of the encoder `IQuery`.
    #[tactic(auto, using(crate::proofs::TableSets::Constants::iquery_masks_are_iquery_set))]
    fn table() -> Table {
        table::IQUERY
    }

    ghost lacks_percent = { refl };
}

/// The encoder of an IRI's fragment (RFC 3987, section 2.2).
///
/// `forêt` is valid for it, and `a#b` is not.
#[derive(Clone, Copy)]
pub struct IFragment;

impl Encoder for IFragment {
    ghost set = { ifragment_set };

    /// Returns the table of the encoder `IFragment`.
    #[tactic(auto, using(crate::proofs::TableSets::Constants::ifragment_masks_are_ifragment_set))]
    fn table() -> Table {
        table::IFRAGMENT
    }

    ghost lacks_percent = { refl };
}

/// The encoder of data that goes into a URI (RFC 3986, section 2.4): unreserved characters and
/// percent-encoded octets, so that no delimiter is left.
///
/// `a%26b` is valid for it, and `a&b` is not.
#[derive(Clone, Copy)]
pub struct Data;

impl Encoder for Data {
    ghost set = { data_set };

    /// Returns the table of the encoder `Data`.
    #[tactic(auto, using(crate::proofs::TableSets::Constants::unreserved_masks_are_unreserved_set))]
    fn table() -> Table {
        table::UNRESERVED.or_pct_encoded()
    }

    ghost lacks_percent = { refl };
}

/// The encoder of data that goes into an IRI (RFC 3987, section 2.2): as `Data`, with the
/// characters of `ucschar`.
///
/// `é%26b` is valid for it, and `é&b` is not.
#[derive(Clone, Copy)]
pub struct IData;

impl Encoder for IData {
    ghost set = { idata_set };

    /// Returns the table of the encoder `IData`.
    fn table() -> Table {
        Data::table().or_ucschar()
    }

    ghost lacks_percent = { refl };
}
