//! The kinds of the calls that only parse a text.
use std::marker::PhantomData;
use uri_parts::kind::Kind;
use uri_parts::kind_tables::KindTables;

/// The kind `K`, of which one function parses texts.
///
/// LLVM inlines a parser that has one caller. That of `K` itself has many here, so a part of it is
/// a function that writes its result to memory.
#[derive(Clone, Copy)]
pub struct CallKind<K> {
    kind: PhantomData<K>,
}

impl<K: Kind> Kind for CallKind<K> {
    type UserinfoE = K::UserinfoE;

    type RegNameE = K::RegNameE;

    type PathE = K::PathE;

    type QueryE = K::QueryE;

    type FragmentE = K::FragmentE;

    ghost kind = { K.kind };

    /// Returns the tables of `K`.
    fn tables() -> KindTables {
        K::tables()
    }

    ghost known = { K.known };

    ghost userinfo_set = { K.userinfo_set };

    ghost reg_name_set = { K.reg_name_set };

    ghost path_set = { K.path_set };

    ghost query_set = { K.query_set };

    ghost fragment_set = { K.fragment_set };
}
