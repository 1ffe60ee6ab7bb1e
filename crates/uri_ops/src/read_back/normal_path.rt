//! The path of a normal text, read from its end (RFC 3986, section 6.2.2.3).
ghost use Rattle.std.specs.Prelude.{◌≡◌, ◌++◌, ℕ, List, Option, codes, is_some};
ghost use Rattle.uri_pct.specs.Prelude.{text_of};
ghost use Rattle.uri_parts.specs.Prelude.{has_authority};
ghost use Rattle.uri_ops.specs.ComponentSets.{IsComponentSet};
ghost use Rattle.uri_ops.specs.Normal.{normal_path_text};
ghost use Rattle.uri_ops.specs.Target.{guarded};
ghost use Rattle.uri_ops.specs.FromEnd.PathBack.{path_unread};

use crate::path::slashes::begins_with_two_slashes;
use crate::read_back::literal_back::LiteralBack;
use crate::read_back::path_back::PathBack;
use crate::read_back::{BLOCK, Joined, ReadBack, join};
use uri_pct::encoder::PathEncoder;
use uri_pct::pct_enc::EStr;

/// The path after the guard `/.`, or after nothing.
pub type NormalPathBack<'a> = Joined<LiteralBack<'a>, PathBack<'a>>;

/// Returns whether a text begins with `//`. It is read to its start. The first two bytes of a full
/// block stay in it, since the text may begin there.
fn is_read_with_two_slashes<A: ReadBack>(text: A) -> bool
    ensures { result ≡ has_authority (A.unread text) }
{
    let mut text = text;
    let mut block = [0; BLOCK];
    let mut start = text.read_back(&mut block, BLOCK);
    while start == 0 {
        block.copy_within(..2, BLOCK - 2);
        start = text.read_back(&mut block, BLOCK - 2);
    }
    begins_with_two_slashes(&block[start..])
}

/// Returns what a normal text has before a path under a scheme: `/.` if the path would otherwise be
/// parsed as an authority, and else nothing.
fn guard_before(has_authority: bool, path: PathBack<'_>) -> &'static [u8]
    ensures { (authority : Option (List ℕ)) → is_some authority ≡ has_authority
        → result.now ++ path_unread path.entry ≡ guarded authority (path_unread path.entry) }
{
    if !has_authority && is_read_with_two_slashes(path) {
        b"/."
    } else {
        b""
    }
}

/// Returns the normal path. Under a scheme a path that begins with `/` is without its dot segments,
/// and after `/.` if it would be parsed as an authority.
pub(crate) fn normal_path_back<'a, E: PathEncoder>(
    has_scheme: bool,
    has_authority: bool,
    path: EStr<'a, E>,
) -> NormalPathBack<'a>
    requires { IsComponentSet (codes "?#[]") E.set }
    ensures { (scheme authority : Option (List ℕ)) → is_some scheme ≡ has_scheme
        → is_some authority ≡ has_authority
        → ⟦<NormalPathBack<'a> as ReadBack>⟧.unread result
        ≡ normal_path_text E.set scheme authority (text_of path.entry) }
{
    if has_scheme && path.is_absolute() {
        let text = PathBack::new(&E::table(), path.as_str(), true);
        return join(LiteralBack::copied(guard_before(has_authority, text)), text);
    }
    let text = PathBack::new(&E::table(), path.as_str(), false);
    join(LiteralBack::copied(b""), text)
}
