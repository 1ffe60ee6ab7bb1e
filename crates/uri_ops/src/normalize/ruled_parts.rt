//! The authority and the path of a value, as the rules of its scheme have them (RFC 3986, section
//! 6.2.3).
ghost use Rattle.std.specs.Prelude.{◌≡◌, ◌&&◌, option_map};
ghost use Rattle.uri_pct.specs.Prelude.{text_of};
ghost use Rattle.uri_parts.specs.Prelude.{Kind, authority_text, components, core_text, scheme_text};
ghost use Rattle.uri_ops.specs.ComponentSets.{HasComponentSets};
ghost use Rattle.uri_ops.specs.Meaning.{authority_meaning};
ghost use Rattle.uri_ops.specs.Models.RuledComponents.{has_default_host, has_root_path, ruled_components};
ghost use Rattle.uri_ops.specs.Normal.{default_port_of, normal_scheme};
ghost use Rattle.uri_ops.specs.SchemeRules.{is_localhost, is_scheme_of};

use crate::read_back::is_read_as;
use crate::read_back::normal_authority::{authority_back, ipv6_host_of};
use crate::scheme_rules::SchemeRules;
use uri_parts::component::{Authority, Scheme};
use uri_parts::core_text::Core;
use uri_parts::kind::Kind;
use uri_pct::encoder::Encoder;
use uri_pct::pct_enc::EStr;

/// Returns whether `localhost` is the default host of a scheme.
#[inline(always)]
fn is_local<S: SchemeRules>(scheme: Option<Scheme<'_>>, rules: &S) -> bool
    ensures { result ≡ is_scheme_of (S.rules_of rules.now).locals
        (normal_scheme (option_map scheme_text scheme.entry)) }
{
    match scheme {
        Some(scheme) => rules.default_host_is_localhost(scheme),
        None => false,
    }
}

/// Returns whether an empty path after an authority is `/` under a scheme.
#[inline(always)]
fn is_rooted<S: SchemeRules>(scheme: Option<Scheme<'_>>, rules: &S) -> bool
    ensures { result ≡ is_scheme_of (S.rules_of rules.now).roots
        (normal_scheme (option_map scheme_text scheme.entry)) }
{
    match scheme {
        Some(scheme) => rules.empty_path_is_root(scheme),
        None => false,
    }
}

/// Returns whether the normal form of an authority is `localhost`.
#[inline(never)]
fn is_localhost<U: Encoder, R: Encoder, S: SchemeRules>(
    authority: Authority<'_, U, R>,
    scheme: Option<Scheme<'_>>,
    rules: &S,
) -> bool
    ensures { let default = default_port_of (S.rules_of rules.now).ports
        (option_map scheme_text scheme.entry) in
        (kind : Kind) → kind.userinfo ≡ U.set → kind.reg_name ≡ R.set
        → result ≡ is_localhost (authority_meaning kind default (authority_text authority.entry)) }
{
    let authority = Some(authority);
    let (host, end) = ipv6_host_of(authority);
    let mut text = authority_back(authority, scheme, rules, &host[..end]);
    is_read_as(&mut text, b"//localhost")
}

/// Returns whether the rules of a scheme leave out the host of an authority.
#[inline(always)]
fn drops_host<U: Encoder, R: Encoder, S: SchemeRules>(
    authority: Authority<'_, U, R>,
    scheme: Option<Scheme<'_>>,
    rules: &S,
) -> bool
    ensures { let default = default_port_of (S.rules_of rules.now).ports
        (option_map scheme_text scheme.entry) in
        let local = is_scheme_of (S.rules_of rules.now).locals
        (normal_scheme (option_map scheme_text scheme.entry)) in
        (kind : Kind) → kind.userinfo ≡ U.set → kind.reg_name ≡ R.set
        → result ≡ (local
        && is_localhost (authority_meaning kind default (authority_text authority.entry))) }
{
    if !is_local(scheme, rules) {
        return false;
    }
    is_localhost(authority, scheme, rules)
}

/// Returns the authority of a value as the rules of its scheme have it: empty if its normal form is
/// `localhost`, and that is the default host.
#[doc(hidden)]
#[inline(always)]
pub fn ruled_authority<'a, K: Kind, S: SchemeRules>(
    core: Core<K, &'a str>,
    rules: &S,
) -> Option<Authority<'a, K::UserinfoE, K::RegNameE>>
    ensures { option_map authority_text result
        ≡ (ruled_components K.kind (S.rules_of rules.now)
        (components (core_text core.entry))).authority }
{
    let Some(authority) = core.authority() else {
        return None;
    };
    if drops_host(authority, core.scheme(), rules) {
        return Some(Authority::new_empty());
    }
    Some(authority)
}

/// Returns whether the path of a value is empty after an authority, and `/` under its scheme.
#[inline(always)]
pub(crate) fn has_root_path<K: Kind, S: SchemeRules>(core: Core<K, &str>, rules: &S) -> bool
    ensures { result ≡ has_root_path (S.rules_of rules.now).roots
        (components (core_text core.entry)) }
{
    core.has_authority() && core.path().is_empty() && is_rooted(core.scheme(), rules)
}

/// Returns the path of a value as the rules of its scheme have it: `/` for an empty one, if that is
/// equivalent.
#[inline(always)]
pub(crate) fn ruled_path<'a, K: Kind, S: SchemeRules>(
    core: Core<K, &'a str>,
    rules: &S,
) -> EStr<'a, K::PathE>
    requires { HasComponentSets K.kind }
    ensures { text_of result ≡ (ruled_components K.kind (S.rules_of rules.now)
        (components (core_text core.entry))).path }
{
    if has_root_path(core, rules) {
        return EStr::new_or_panic("/");
    }
    core.path()
}

/// Returns whether the authority of a value is `localhost`, the default host of its scheme. Only of
/// a value with that authority are the rules asked.
#[inline(always)]
#[tactic(auto, using(std::proofs::lemmas::Bool::Decides::nat_tests))]
pub(crate) fn has_default_host<K: Kind, S: SchemeRules>(core: Core<K, &str>, rules: &S) -> bool
    ensures { result ≡ has_default_host (S.rules_of rules.now).locals
        (components (core_text core.entry)) }
{
    let Some(authority) = core.authority() else {
        return false;
    };
    authority.as_str() == "localhost" && is_local(core.scheme(), rules)
}
