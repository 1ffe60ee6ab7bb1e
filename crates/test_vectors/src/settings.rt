//! Rules of schemes that a row gives.
ghost use Rattle.std.specs.Prelude.{◌==◌, Some, None, true, if◌then◌else◌};
ghost use Rattle.std.specs.Cmp.Lexicographic.{pointwise};
ghost use Rattle.std.specs.Option.{option_map_or};
ghost use Rattle.fluent_uri.specs.Prelude.{lowered_scheme, only_ports, rules_with};

use fluent_uri::component::Scheme;
use fluent_uri::normalize::SchemeRules;

/// The default port that a row gives to one scheme, or, if it names none, to every scheme.
#[derive(Clone, Copy)]
pub(crate) struct RowPort<'a> {
    pub(crate) scheme: Option<Scheme<'a>>,
    pub(crate) port: u16,
}

impl SchemeRules for RowPort<'_> {
    ghost rules_of = { λ row. only_ports (λ scheme.
        if option_map_or (λ one. pointwise ◌==◌ (lowered_scheme one) scheme) row.scheme true
        then Some row.port else None) };

    /// Returns the port that the row gives to the scheme, if it gives one.
    fn default_port(&self, scheme: Scheme<'_>) -> Option<u16> {
        match self.scheme {
            Some(one) => { if one == scheme { Some(self.port) } else { None } }
            None => Some(self.port),
        }
    }

    /// Returns `false`.
    fn empty_path_is_root(&self, _scheme: Scheme<'_>) -> bool {
        false
    }

    /// Returns `false`.
    fn default_host_is_localhost(&self, _scheme: Scheme<'_>) -> bool {
        false
    }
}

/// Rules of a caller: under every scheme an empty path after an authority is `/`, and the default
/// host is `localhost`. No scheme has a default port.
#[derive(Clone, Copy)]
pub(crate) struct EveryScheme;

impl SchemeRules for EveryScheme {
    ghost rules_of = { λ _. rules_with (λ _. None) (λ _. true) (λ _. true) };

    /// Returns `None`.
    fn default_port(&self, _scheme: Scheme<'_>) -> Option<u16> {
        None
    }

    /// Returns `true`.
    fn empty_path_is_root(&self, _scheme: Scheme<'_>) -> bool {
        true
    }

    /// Returns `true`.
    fn default_host_is_localhost(&self, _scheme: Scheme<'_>) -> bool {
        true
    }
}
