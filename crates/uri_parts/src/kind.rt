//! The kinds of references, as types.
ghost use Rattle.std.specs.Prelude.{◌≡◌, refl};
ghost use Rattle.uri_parts.specs.KindTables.{kind_of, segment_nz_nc_of};
ghost use Rattle.uri_parts.specs.Grammar.{first_segment_set, kind_by_flags, uri, uri_ref, iri, iri_ref};

use crate::kind_tables::{KindTables, iri_tables, uri_tables};
use uri_pct::encoder::{
    Encoder, Fragment, IFragment, IPath, IQuery, IRegName, IUserinfo, Path, PathEncoder, Query,
    RegName, Userinfo,
};

/// A kind of references: its grammar, with the encoders of its components (RFC 3986, sections 3
/// and 4.1; RFC 3987, section 2.2).
///
/// It is implemented for four types alone: `UriKind`, `UriRefKind`, `IriKind` and `IriRefKind`.
///
/// # Examples
///
/// A function `parsed<K: Kind>` over `Reference<K, &str>` parses a text as each of the four kinds:
///
/// ```
/// parsed::<UriKind>(text).err(),
/// parsed::<UriRefKind>(text).err(),
/// parsed::<IriKind>(text).err(),
/// parsed::<IriRefKind>(text).err(),
/// ```
pub trait Kind {
    ghost use Rattle.uri_parts.specs.Grammar as grammar;
    /// The encoder of userinfo.
    type UserinfoE: Encoder;

    /// The encoder of registered names.
    type RegNameE: Encoder;

    /// The encoder of paths.
    type PathE: PathEncoder;

    /// The encoder of queries.
    type QueryE: Encoder;

    /// The encoder of fragments.
    type FragmentE: Encoder;

    ghost kind: { grammar.Kind };

    /// Returns the tables of the kind's components, and whether it needs a scheme.
    #[doc(hidden)]
    fn tables() -> KindTables
        ensures kind { kind_of result ≡ kind }
        ensures first_segment { segment_nz_nc_of result ≡ first_segment_set kind };

    ghost known: { kind ≡ kind_by_flags kind.path.ucschar kind.needs_scheme };

    ghost userinfo_set: { Self.UserinfoE.set ≡ Self.kind.userinfo };

    ghost reg_name_set: { Self.RegNameE.set ≡ Self.kind.reg_name };

    ghost path_set: { Self.PathE.set ≡ Self.kind.path };

    ghost query_set: { Self.QueryE.set ≡ Self.kind.query };

    ghost fragment_set: { Self.FragmentE.set ≡ Self.kind.fragment };
}

/// The kind of URIs (RFC 3986, section 3).
///
/// `Uri<T>` is `Reference<UriKind, T>`.
#[derive(Clone, Copy)]
pub struct UriKind;

impl Kind for UriKind {
    type UserinfoE = Userinfo;

    type RegNameE = RegName;

    type PathE = Path;

    type QueryE = Query;

    type FragmentE = Fragment;

    ghost kind = { uri };

    /// Returns the tables of URIs, which need a scheme.
    fn tables() -> KindTables {
        uri_tables(true)
    }

    ghost known = { refl };

    ghost userinfo_set = { refl };

    ghost reg_name_set = { refl };

    ghost path_set = { refl };

    ghost query_set = { refl };

    ghost fragment_set = { refl };
}

/// The kind of URI references (RFC 3986, section 4.1).
///
/// `UriRef<T>` is `Reference<UriRefKind, T>`.
#[derive(Clone, Copy)]
pub struct UriRefKind;

impl Kind for UriRefKind {
    type UserinfoE = Userinfo;

    type RegNameE = RegName;

    type PathE = Path;

    type QueryE = Query;

    type FragmentE = Fragment;

    ghost kind = { uri_ref };

    /// Returns the tables of URI references.
    fn tables() -> KindTables {
        uri_tables(false)
    }

    ghost known = { refl };

    ghost userinfo_set = { refl };

    ghost reg_name_set = { refl };

    ghost path_set = { refl };

    ghost query_set = { refl };

    ghost fragment_set = { refl };
}

/// The kind of IRIs (RFC 3987, section 2.2).
///
/// `Iri<T>` is `Reference<IriKind, T>`.
#[derive(Clone, Copy)]
pub struct IriKind;

impl Kind for IriKind {
    type UserinfoE = IUserinfo;

    type RegNameE = IRegName;

    type PathE = IPath;

    type QueryE = IQuery;

    type FragmentE = IFragment;

    ghost kind = { iri };

    /// Returns the tables of IRIs, which need a scheme.
    fn tables() -> KindTables {
        iri_tables(true)
    }

    ghost known = { refl };

    ghost userinfo_set = { refl };

    ghost reg_name_set = { refl };

    ghost path_set = { refl };

    ghost query_set = { refl };

    ghost fragment_set = { refl };
}

/// The kind of IRI references (RFC 3987, section 2.2).
///
/// `IriRef<T>` is `Reference<IriRefKind, T>`.
#[derive(Clone, Copy)]
pub struct IriRefKind;

impl Kind for IriRefKind {
    type UserinfoE = IUserinfo;

    type RegNameE = IRegName;

    type PathE = IPath;

    type QueryE = IQuery;

    type FragmentE = IFragment;

    ghost kind = { iri_ref };

    /// Returns the tables of IRI references.
    fn tables() -> KindTables {
        iri_tables(false)
    }

    ghost known = { refl };

    ghost userinfo_set = { refl };

    ghost reg_name_set = { refl };

    ghost path_set = { refl };

    ghost query_set = { refl };

    ghost fragment_set = { refl };
}
