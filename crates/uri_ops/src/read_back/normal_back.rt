//! The normal text of a value, read from its end (RFC 3986, section 6.2.2; RFC 3987, section
//! 5.3.2).
ghost use Rattle.std.specs.Prelude.{◌≡◌, [], codes, option_map};
ghost use Rattle.uri_pct.specs.Prelude.{text_of};
ghost use Rattle.uri_parts.specs.Prelude.{authority_text, components, core_text, marked, scheme_text};
ghost use Rattle.uri_ops.specs.ComponentSets.{HasComponentSets};
ghost use Rattle.uri_ops.specs.Meaning.{components_meaning};
ghost use Rattle.uri_ops.specs.Normal.{normal_scheme, normal_text};
ghost use Rattle.uri_ops.specs.FromEnd.Addresses.{ipv6_host_of};

use crate::read_back::literal_back::LiteralBack;
use crate::read_back::normal_authority::{AuthorityBack, PartBack, authority_back, part_back};
use crate::read_back::normal_path::{NormalPathBack, normal_path_back};
use crate::read_back::{Joined, ReadBack, join};
use crate::scheme_rules::SchemeRules;
use uri_parts::component::{Authority, Scheme};
use uri_parts::core_text::Core;
use uri_parts::kind::Kind;
use uri_pct::pct_enc::EStr;

/// A scheme and its `:`, or nothing.
type SchemeBack<'a> = Joined<LiteralBack<'a>, LiteralBack<'a>>;

/// A normal text: scheme, authority, path, query and fragment, with their delimiters.
pub type NormalBack<'a> = Joined<
    SchemeBack<'a>,
    Joined<AuthorityBack<'a>, Joined<NormalPathBack<'a>, Joined<PartBack<'a>, PartBack<'a>>>>,
>;

/// Returns the scheme, in lower case, and its `:`, or nothing if it is absent.
fn scheme_back<'a>(scheme: Option<Scheme<'a>>) -> SchemeBack<'a>
    ensures { ⟦<SchemeBack<'a> as ReadBack>⟧.unread result
        ≡ marked [] (normal_scheme (option_map scheme_text scheme.entry)) (codes ":") }
{
    match scheme {
        Some(scheme) => join(
            LiteralBack::lowered(scheme.as_str().as_bytes()),
            LiteralBack::copied(b":"),
        ),
        None => join(LiteralBack::copied(b""), LiteralBack::copied(b"")),
    }
}

/// Returns the normal text of a value with this authority and this path in place of its own.
/// `address` is the host's normal text if it is an IPv6 address, and else empty.
pub(crate) fn normal_back<'a, K: Kind, S: SchemeRules>(
    core: Core<K, &'a str>,
    authority: Option<Authority<'a, K::UserinfoE, K::RegNameE>>,
    path: EStr<'a, K::PathE>,
    rules: &S,
    address: &'a [u8],
) -> NormalBack<'a>
    requires sets { HasComponentSets K.kind }
    requires address { address.now ≡ ipv6_host_of (option_map authority_text authority) }
    ensures { ⟦<NormalBack<'a> as ReadBack>⟧.unread result
        ≡ normal_text (components_meaning K.kind (S.rules_of rules.now).ports
        (record (components (core_text core.entry)) {
          authority = option_map authority_text authority.entry;
          path = text_of path.entry;
        })) }
{
    let scheme = core.scheme();
    join(
        scheme_back(scheme),
        join(
            authority_back(authority, scheme, rules, address),
            join(
                normal_path_back(core.has_scheme(), authority.is_some(), path),
                join(
                    part_back(b"?", core.query(), b""),
                    part_back(b"#", core.fragment(), b""),
                ),
            ),
        ),
    )
}
