//! The slashes that a path begins with (RFC 3986, section 3.3).
ghost use Rattle.std.specs.Prelude.{◌≡◌, ◌++◌, None, OnOk, drop, string_bytes, take, IsCharBoundary};
ghost use Rattle.uri_pct.specs.Prelude.{slash};
ghost use Rattle.uri_parts.specs.Prelude.{has_authority, starts};
ghost use Rattle.uri_ops.specs.Target.{guarded};

use std::alloc::AllocError;

/// Returns whether a path begins with `/`.
pub fn begins_with_slash(path: &[u8]) -> bool
    ensures { result ≡ starts slash path.now }
{
    path.first() == Some(&b'/')
}

/// Returns whether a path would be parsed as an authority, if none is before it.
pub fn begins_with_two_slashes(path: &[u8]) -> bool
    ensures { result ≡ has_authority path.now }
{
    matches!(path, [b'/', b'/', ..])
}

/// Inserts `/.` before the path that is in `out` from `start` on, if it would be parsed as an
/// authority. No authority is before it.
pub(crate) fn guard_path(start: usize, out: &mut String) -> Result<(), AllocError>
    requires { IsCharBoundary (string_bytes out.old) start }
    ensures { OnOk result (string_bytes out.new
        ≡ take start (string_bytes out.old) ++ guarded None (drop start (string_bytes out.old))) }
{
    if begins_with_two_slashes(&out.as_bytes()[start..]) {
        return out.insert_str(start, "/.");
    }
    Ok(())
}
