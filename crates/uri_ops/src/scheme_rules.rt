//! The rules of schemes, for a normaliser (RFC 3986, section 6.2.3).
ghost use Rattle.std.specs.Prelude.{◌≡◌};
ghost use Rattle.std.specs.List.{list_any};
ghost use Rattle.std.specs.Str.{str_eq_ignore_ascii_case};
ghost use Rattle.uri_parts.specs.Prelude.{lowered_scheme};
ghost use Rattle.uri_ops.specs.SchemeRules.{Rules, default_rules};
ghost use Rattle.uri_ops.specs.StandardRules.{standard_rules};

use uri_parts::component::Scheme;

/// The rules of schemes (RFC 3986, section 6.2.3): their default ports, the schemes under which an
/// empty path is `/`, and those whose default host is `localhost`.
///
/// What each call returns depends on this value and on the scheme's text in lower case alone. So it
/// is the same for equal schemes.
///
/// With `DefaultPorts`, `http://a:80` is normalised to `http://a`. With `StandardRules` it is
/// normalised to `http://a/`, and `file://localhost/a` to `file:///a`.
pub trait SchemeRules: Drop {
    ghost rules_of: { Self → Rules };

    /// Returns the default port of the scheme, if it has one.
    ///
    /// With `DefaultPorts` it is 80 for `http`, and none for `foo`.
    fn default_port(&self, scheme: Scheme<'_>) -> Option<u16>
        ensures { result ≡ (rules_of self.now).ports (lowered_scheme scheme.entry) };

    /// Returns whether an empty path after an authority is equivalent to `/` under the scheme.
    ///
    /// With `StandardRules` it is under `http`, and not under `foo`.
    fn empty_path_is_root(&self, scheme: Scheme<'_>) -> bool
        ensures { result ≡ (rules_of self.now).roots (lowered_scheme scheme.entry) };

    /// Returns whether the default host of the scheme is `localhost`: an authority that is
    /// `localhost` alone is equivalent to an empty one.
    ///
    /// With `StandardRules` it is under `file`, and not under `http`.
    fn default_host_is_localhost(&self, scheme: Scheme<'_>) -> bool
        ensures { result ≡ (rules_of self.now).locals (lowered_scheme scheme.entry) };
}

/// The default ports that `Scheme::default_port` returns, and no other rules.
///
/// The default port of `http` is 80, and `foo` has none. Under no scheme is an empty path `/`.
#[derive(Clone, Copy, Debug, PartialEq, Eq)]
pub struct DefaultPorts;

impl SchemeRules for DefaultPorts {
    ghost rules_of = { λ _. default_rules };

    /// Returns the port that `Scheme::default_port` returns.
    fn default_port(&self, scheme: Scheme<'_>) -> Option<u16> {
        scheme.default_port()
    }

    /// Returns `false`: an empty path is empty under each scheme.
    #[inline(always)]
    fn empty_path_is_root(&self, _scheme: Scheme<'_>) -> bool {
        false
    }

    /// Returns `false`: `localhost` is a host like others under each scheme.
    #[inline(always)]
    fn default_host_is_localhost(&self, _scheme: Scheme<'_>) -> bool {
        false
    }
}

/// The rules that the registered documents of schemes give, and the default ports that
/// `Scheme::default_port` returns.
///
/// | Schemes | Rule | Document |
/// |---|---|---|
/// | `http`, `https` | an empty path after an authority is `/` | RFC 9110, section 4.2.3 |
/// | `ws`, `wss` | the same | RFC 6455, section 3 |
/// | `coap`, `coaps` | the same | RFC 7252, section 6.3 |
/// | `coap+tcp`, `coaps+tcp`, `coap+ws`, `coaps+ws` | the same | RFC 8323, section 8.6 |
/// | `ftp` | the same | RFC 1738, section 3.2.2 |
/// | `gopher` | the same | RFC 4266, section 2.1 |
/// | `imap` | the same | RFC 5092, section 4 |
/// | `ipp` | the same | RFC 3510, section 4.7 |
/// | `ipps` | the same | RFC 7472, section 4.6 |
/// | `ldap` | the same | RFC 4516, section 4 |
/// | `nfs` | the same | RFC 2224, section 1 |
/// | `snmp` | the same | RFC 4088, section 3 |
/// | `telnet` | the same | RFC 4248, section 2 |
/// | `tn3270` | the same | RFC 6270, section 2.1 |
/// | `file` | the host `localhost` is left out | RFC 8089, section 2 |
///
/// No document gives another scheme with a default port such a rule. Rules on the text of a path or
/// a query are not applied: `mailto:Joe@Example.COM` is unchanged, though it is equivalent to
/// `mailto:Joe@example.com` by RFC 3986, section 6.2.3.
///
/// The target of an `OPTIONS` request must not be normalised by them: there an empty path is not
/// `/` (RFC 9110, section 4.2.3).
#[derive(Clone, Copy, Debug, PartialEq, Eq)]
pub struct StandardRules;

/// Returns whether the text is one of the list, ASCII case apart.
fn is_one_of(text: &str, list: &[&str]) -> bool
    ensures { result
        ≡ list_any (λ name. str_eq_ignore_ascii_case text.now name.now) list.entry.now }
{
    list.iter().any(|name| text.eq_ignore_ascii_case(name))
}

impl SchemeRules for StandardRules {
    ghost rules_of = { λ _. standard_rules };

    /// Returns the port that `Scheme::default_port` returns.
    fn default_port(&self, scheme: Scheme<'_>) -> Option<u16> {
        DefaultPorts.default_port(scheme)
    }

    /// Returns whether the scheme is one of those whose empty path is `/`.
    fn empty_path_is_root(&self, scheme: Scheme<'_>) -> bool {
        is_one_of(
            scheme.as_str(),
            // The order is that of the specification, but for the two that are asked for most.
            &[
                "http",
                "https",
                "coap",
                "coap+tcp",
                "coap+ws",
                "coaps",
                "coaps+tcp",
                "coaps+ws",
                "ftp",
                "gopher",
                "imap",
                "ipp",
                "ipps",
                "ldap",
                "nfs",
                "snmp",
                "telnet",
                "tn3270",
                "ws",
                "wss",
            ],
        )
    }

    /// Returns whether the scheme is `file`.
    fn default_host_is_localhost(&self, scheme: Scheme<'_>) -> bool {
        is_one_of(scheme.as_str(), &["file"])
    }
}

/// One of the sets of rules above, which a program chooses by a flag.
///
/// With `RuleSet::DefaultPorts`, `http://a` is its own normal form. With `RuleSet::StandardRules`
/// the normal form is `http://a/`.
#[derive(Clone, Copy, Debug, PartialEq, Eq)]
pub enum RuleSet {
    /// Default ports alone: the rules of `DefaultPorts`.
    DefaultPorts,
    /// The rules of `StandardRules`.
    StandardRules,
}

impl SchemeRules for RuleSet {
    ghost use Rattle.uri_ops.specs.RuleSets.{rules_of_set};

    ghost rules_of = { rules_of_set };

    /// Returns the port that `Scheme::default_port` returns.
    fn default_port(&self, scheme: Scheme<'_>) -> Option<u16> {
        StandardRules.default_port(scheme)
    }

    /// Returns whether the rules of the set have `/` for an empty path under the scheme.
    fn empty_path_is_root(&self, scheme: Scheme<'_>) -> bool {
        match self {
            RuleSet::DefaultPorts => false,
            RuleSet::StandardRules => StandardRules.empty_path_is_root(scheme),
        }
    }

    /// Returns whether by the rules of the set `localhost` is the default host of the scheme.
    fn default_host_is_localhost(&self, scheme: Scheme<'_>) -> bool {
        match self {
            RuleSet::DefaultPorts => false,
            RuleSet::StandardRules => StandardRules.default_host_is_localhost(scheme),
        }
    }
}

/// The default ports of one value, and the other rules of another.
///
/// It is what `Normalizer::default_port_with` makes of a normaliser's rules.
#[derive(Clone, Copy, Drop)]
pub struct WithPorts<P, S> {
    /// The value whose default ports these are.
    pub ports: P,
    /// The value whose other rules these are.
    pub rules: S,
}

impl<P: SchemeRules, S: SchemeRules> SchemeRules for WithPorts<P, S> {
    ghost rules_of = { λ both.
        record (S.rules_of both.rules) { ports = (P.rules_of both.ports).ports } };

    /// Returns the default port that the first value has for the scheme.
    #[inline(always)]
    fn default_port(&self, scheme: Scheme<'_>) -> Option<u16> {
        self.ports.default_port(scheme)
    }

    /// Returns whether by the rules of the second value an empty path is `/` under the scheme.
    #[inline(always)]
    fn empty_path_is_root(&self, scheme: Scheme<'_>) -> bool {
        self.rules.empty_path_is_root(scheme)
    }

    /// Returns whether by the rules of the second value `localhost` is the default host of the
    /// scheme.
    #[inline(always)]
    fn default_host_is_localhost(&self, scheme: Scheme<'_>) -> bool {
        self.rules.default_host_is_localhost(scheme)
    }
}
