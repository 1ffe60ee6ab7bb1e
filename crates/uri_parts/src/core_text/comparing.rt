//! Comparing and hashing, by the text alone, and printing by components.
ghost use Rattle.std.specs.Prelude.{◌==◌};
ghost use Rattle.std.specs.Cmp.{partial_order_from_own_ties};
ghost use Rattle.std.specs.Cmp.Lexicographic.{pointwise, slice_cmp};
ghost use Rattle.std.specs.Cmp.Rules.{comparing, hashing};
ghost use Rattle.std.specs.Fmt.{DisplaysOnOk};
ghost use Rattle.std.specs.Hash as fed;
ghost use Rattle.std.specs.Ordering.{as_partial_cmp, nat_cmp, on};
ghost use Rattle.uri_parts.specs.CoreTexts.{core_text};
ghost use Rattle.uri_parts.specs.Printing.{debug_reference};
ghost use Rattle.std.proofs.Common.{rules};

use crate::core_text::Core;
use crate::kind::Kind;
use crate::printing::is_plain;
use std::cmp::Ordering;
use std::convert::AsStr;
use std::fmt;
use std::hash::{Hash, Hasher};

impl<K: Kind, T: AsStr> PartialEq for Core<K, T> {
    ghost eq = { on core_text (pointwise ◌==◌) };

    ghost laws = { Prim.search (comparing, rules) };

    /// Returns whether the texts are equal, byte by byte.
    fn eq(&self, other: &Self) -> bool {
        self.text.as_str() == other.text.as_str()
    }
}

impl<K: Kind, T: AsStr> Eq for Core<K, T> {
    ghost laws = { Prim.search (comparing, rules) };
}

impl<K: Kind, T: AsStr> Ord for Core<K, T> {
    ghost cmp = { on core_text (slice_cmp nat_cmp) };

    ghost total = { Prim.search (comparing, rules) };

    ghost matches_partial_cmp = { Prim.search (comparing, rules) };

    ghost matches_eq = { Prim.search (comparing, rules) };

    /// Compares the texts byte by byte.
    fn cmp(&self, other: &Self) -> Ordering {
        self.text.as_str().cmp(other.text.as_str())
    }
}

impl<K: Kind, T: AsStr> PartialOrd for Core<K, T> {
    ghost partial_cmp = { as_partial_cmp (on core_text (slice_cmp nat_cmp)) };

    ghost laws = { partial_order_from_own_ties (Prim.search (comparing, rules))
        (Prim.search (comparing, rules)) };

    /// Compares the texts as `cmp` does.
    fn partial_cmp(&self, other: &Self) -> Option<Ordering> {
        Some(self.cmp(other))
    }
}

impl<K: Kind, T: AsStr> Hash for Core<K, T> {
    ghost hash_input = { λ core. fed.str (core_text core) };

    ghost respects_eq = { Prim.search (hashing, rules) };

    /// Hashes the text.
    fn hash<H: Hasher>(&self, state: &mut H) {
        self.text.as_str().hash(state);
    }
}

impl<'a, K: Kind> Core<K, &'a str> {
    /// Prints the components by name, under the name of a kind.
    pub fn debug<S: fmt::Debug + Drop, W: fmt::Write>(
        self,
        name: &str,
        scheme: S,
        f: &mut fmt::Formatter<W>,
    ) -> fmt::Result
        ensures { DisplaysOnOk W.write_str_gives f.old result
            (debug_reference name.now (S.debug_output scheme) (core_text self.entry)) f.new }
    {
        let (authority, path) = (self.authority(), self.path());
        let (query, fragment) = (self.query(), self.fragment());
        if is_plain(f) {
            return write!(
                f,
                "{name} {{ scheme: {scheme:?}, authority: {authority:?}, path: {path:?}, \
                 query: {query:?}, fragment: {fragment:?} }}"
            );
        }
        f.debug_struct(name)
            .field("scheme", &scheme)
            .field("authority", &authority)
            .field("path", &path)
            .field("query", &query)
            .field("fragment", &fragment)
            .finish()
    }
}
