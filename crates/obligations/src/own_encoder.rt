//! An encoder of a caller.
#![tactic(auto)]

ghost use Rattle.std.specs.Prelude.{◌∷◌, [], refl};
ghost use Rattle.fluent_uri.specs.Prelude.{characters_only, difference, is_one_of, path_set};

use fluent_uri::pct_enc::Table;
use fluent_uri::pct_enc::encoder::{Encoder, Path};

/// A path without `/`.
pub struct Segment;

impl Encoder for Segment {
    ghost set = { difference path_set (characters_only (is_one_of (47 ∷ []))) };

    /// Returns the table of a caller's encoder, which allows what a path does, but not `/`.
    fn table() -> Table {
        Path::table().sub(&Table::new(b"/"))
    }

    ghost lacks_percent = { refl };
}
