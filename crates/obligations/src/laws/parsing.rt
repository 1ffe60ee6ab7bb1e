//! Parsing (RFC 3986, section 4.1), and the errors of texts (`docs/PARSE_ERRORS.md`).
ghost use Rattle.std.specs.Prelude.{◌≡◌, ◌≤◌, ℕ, is_none, take, IsCharBoundary};
ghost use Rattle.fluent_uri.specs.Prelude.{IsValidFor, path_set, refusal, valid_prefix};

use fluent_uri::kind::Kind;
use fluent_uri::{Reference, laws};

/// A caller proves that a text is accepted exactly if its defined error is none.
pub fn accepts_without_error<K: Kind>(text: &str) -> bool
    ensures { result ≡ is_none (refusal K.kind text.now) }
{
    laws::accepted_exactly_if_no_error::<K>(text);
    Reference::<K, &str>::parse(text).is_ok()
}

/// A caller proves that no prefix that is valid for a path is longer than the one that a scan
/// passes.
pub fn scan_passes_the_longest(text: &str)
    ensures { (n : ℕ) → IsCharBoundary text.now n → IsValidFor path_set (take n text.now)
        → n ≤ valid_prefix path_set text.now }
{
    laws::valid_prefixes_are_longest();
}
