//! Normal forms and targets by the rules of schemes (RFC 3986, section 6.2.3).
ghost use Rattle.std.specs.Prelude.{◌≡◌};
ghost use Rattle.fluent_uri.specs.Prelude.{default_port, default_rules, meaning_of, meaning_under, normal_text, standard_rules, uri, uri_text};

use fluent_uri::{Uri, laws};

/// A caller that makes keys of meanings under default ports proves that they are the texts that
/// `normalize` writes.
pub fn key_by_ports_alone(text: &str)
    ensures { normal_text (meaning_under uri default_rules text.now)
        ≡ normal_text (meaning_of uri default_port text.now) }
{
    laws::default_ports_are_rules();
}

/// A caller that turns the rules of schemes on proves that what was one link stays one.
pub fn one_link_stays_one(one: Uri<&str>, other: Uri<&str>)
    requires { meaning_of uri default_port (uri_text one)
        ≡ meaning_of uri default_port (uri_text other) }
    ensures { meaning_under uri standard_rules (uri_text one.entry)
        ≡ meaning_under uri standard_rules (uri_text other.entry) }
{
    laws::rules_keep_equivalence();
}
