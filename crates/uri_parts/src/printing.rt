//! Printing values for programmers, by `{:?}`.
ghost use Rattle.std.specs.Prelude.{◌≡◌, true};
ghost use Rattle.std.specs.Fmt.{IsPlainFormatter};

use std::fmt;

/// Returns whether a value is printed without options. If it is not, the fields of a struct are
/// printed by std's builders, which pass the options on.
pub(crate) fn is_plain<W: fmt::Write>(f: &fmt::Formatter<W>) -> bool
    ensures { IsPlainFormatter f.now → result ≡ true }
{
    !f.alternate() && !f.sign_plus() && f.width().is_none() && f.precision().is_none()
}
