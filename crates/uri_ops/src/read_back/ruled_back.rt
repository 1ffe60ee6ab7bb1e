//! The normal text of a value under the rules of its scheme, read from its end (RFC 3986, section
//! 6.2.3).
ghost use Rattle.std.specs.Prelude.{◌≡◌, ◌↔◌, ◌<◌, ◌≤◌, drop, option_map, true};
ghost use Rattle.uri_parts.specs.Prelude.{authority_text, components, core_text};
ghost use Rattle.uri_ops.specs.FromEnd.Addresses.{ipv6_host_of};
ghost use Rattle.uri_ops.specs.Models.RuledComponents.{ruled_components};
ghost use Rattle.uri_ops.specs.Normal.{normal_text};
ghost use Rattle.uri_ops.specs.SchemeRules.{meaning_under};

use crate::normalize::ruled_parts::{ruled_authority, ruled_path};
use crate::read_back::normal_authority::ipv6_host_of;
use crate::read_back::normal_back::{NormalBack, normal_back};
use crate::read_back::normal_block::put_normal_text;
use crate::read_back::{BLOCK, ReadBack, is_read_as};
use crate::scheme_rules::SchemeRules;
use uri_parts::component::Authority;
use uri_parts::core_text::Core;
use uri_parts::kind::Kind;

/// Returns the normal text of a value under the rules of its scheme. `authority` is what
/// `ruled_authority` returns for it, and `address` is the normal text of its host if that is an
/// IPv6 address, and else empty.
pub fn ruled_back<'a, K: Kind, S: SchemeRules>(
    core: Core<K, &'a str>,
    authority: Option<Authority<'a, K::UserinfoE, K::RegNameE>>,
    rules: &S,
    address: &'a [u8],
) -> NormalBack<'a>
    requires authority { option_map authority_text authority
        ≡ (ruled_components K.kind (S.rules_of rules.now) (components (core_text core))).authority }
    requires address { address.now ≡ ipv6_host_of (option_map authority_text authority) }
    ensures { ⟦<NormalBack<'a> as ReadBack>⟧.unread result
        ≡ normal_text (meaning_under K.kind (S.rules_of rules.now) (core_text core.entry)) }
{
    // What `as_str` promises of the text is used by the proof.
    let _text = core.as_str();
    normal_back(core, authority, ruled_path(core, rules), rules, address)
}

/// Returns whether the normal text of a value is this one. Takes no memory.
pub fn has_normal_text<K: Kind, S: SchemeRules>(core: Core<K, &str>, rules: &S, text: &[u8]) -> bool
    ensures { (result ≡ true) ↔ (normal_text (meaning_under K.kind (S.rules_of rules.now)
        (core_text core.entry)) ≡ text.now) }
{
    let mut block = [0; BLOCK];
    let start = put_normal_text(core, rules, &mut block);
    if start == 0 {
        let authority = ruled_authority(core, rules);
        let (host, end) = ipv6_host_of(authority);
        let mut back = ruled_back(core, authority, rules, &host[..end]);
        return is_read_as(&mut back, text);
    }
    &block[start..] == text
}
