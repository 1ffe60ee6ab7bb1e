//! Tables of the characters of a list.
#![tactic(auto)]

ghost use Rattle.std.specs.Prelude.{◌≡◌, ◌↔◌, IfSome, IsSome, IsTrue};
ghost use Rattle.std.specs.List.{list_all};
ghost use Rattle.fluent_uri.specs.Prelude.{characters_only, is_one_of, is_unencoded_ascii, set_of};

use fluent_uri::pct_enc::Table;

/// A caller makes a table of some letters, which are a literal list.
pub fn vowels() -> Table {
    Table::new(b"aeiouAEIOU")
}

/// A caller makes a table of no character, which is a literal list.
pub fn none() -> Table {
    Table::new(b"")
}

/// A caller makes a table of a list of characters by `new`, after testing the list by `try_new`.
pub fn table_if_unencoded(bytes: &[u8]) -> Option<Table> {
    if Table::try_new(bytes).is_some() {
        Some(Table::new(bytes))
    } else {
        None
    }
}

/// A caller makes a table of exactly these characters by `try_new`, if each is ASCII and not `%`.
pub fn table_of(bytes: &[u8]) -> Option<Table>
    ensures some { IsSome result ↔ IsTrue (list_all is_unencoded_ascii bytes.now) }
    ensures table { IfSome result (λ table. set_of table ≡ characters_only (is_one_of bytes.now)) }
{
    Table::try_new(bytes)
}
