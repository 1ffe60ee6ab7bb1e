//! References that lead from a base to a target (RFC 3986, section 5.2).
ghost use Rattle.std.specs.Prelude.{◌≡◌, Err, Ok, false, true};
ghost use Rattle.fluent_uri.specs.Prelude.{components, is_opaque, lacks_dot_segments, recompose, resolution_of_texts, uri_ref_text, uri_text};
ghost use Rattle.uri_basic.specs.Deviations.{NothingDeviates, has_literal_dot_segment, takes_base_path};
ghost use Rattle.uri_basic.specs.Target.{PathStartsWithDoubleSlash, basic_resolution_of_texts, target};
ghost use Rattle.uri_relative.specs.Leading.{LeadsTo, NeedsSchemeOrAuthority, needs_authority, settled, without_fragment};
ghost use Rattle.uri_relative.specs.Rule.{reference_to};

use fluent_uri::{Uri, UriRef};
use uri_basic::laws as basic_laws;
use uri_relative::laws as relative_laws;

/// A caller that shortens links proves that a reference which leads to the target of a link resolves
/// to it.
pub fn leads_back(base: Uri<&str>, link: UriRef<&str>, target: &str, short: &str)
    requires target { resolution_of_texts (uri_text base) (uri_ref_text link) ≡ Ok target.now }
    requires short { LeadsTo (uri_text base) target.now short.now }
    ensures { resolution_of_texts (uri_text base.entry) short.now ≡ Ok target.now }
{
    let _scheme = base.scheme();
    relative_laws::references_lead_back_to_targets();
}

/// A caller that asks for references without a scheme and an authority proves that to such a target
/// there is none.
pub fn has_no_relative_reference(base: Uri<&str>, target: Uri<&str>)
    requires base { is_opaque (components (uri_text base)) ≡ false }
    requires target { needs_authority (components (uri_text base)) (settled (uri_text target))
        ≡ true }
    ensures { NeedsSchemeOrAuthority (uri_text base.entry) (uri_text target.entry) }
{
    let _base = base.scheme();
    let _target = target.scheme();
    relative_laws::exceptions_need_a_scheme_or_an_authority();
}

/// A caller proves that both algorithms have one target, where none of their differences concerns
/// the base and the reference.
pub fn one_target_by_both(base: &str, reference: &str)
    requires { NothingDeviates (components base.now) (components reference.now) }
    ensures resolver { resolution_of_texts base.now reference.now
        ≡ Ok (recompose (target (components base.now) (components reference.now))) }
    ensures basic { basic_resolution_of_texts base.now reference.now
        ≡ Ok (recompose (target (components base.now) (components reference.now))) }
{
    basic_laws::targets_are_the_same_where_nothing_deviates();
}

/// A caller proves that a target which the basic algorithm rejects has no text.
pub fn has_no_text(base: Uri<&str>, reference: &str)
    requires { basic_resolution_of_texts (uri_text base) reference.now
        ≡ Err PathStartsWithDoubleSlash }
    ensures { (components (recompose (target (components (uri_text base.entry))
        (components reference.now)))
        ≡ target (components (uri_text base.entry)) (components reference.now)) → ⊥ }
{
    let _scheme = base.scheme();
    basic_laws::rejected_targets_have_no_text();
}

/// A caller whose links are read by the basic algorithm proves that a reference leads to its target
/// there too.
pub fn leads_by_basic_algorithm(base: &str, target: &str, reference: &str)
    requires leads { LeadsTo base.now target.now reference.now }
    requires same { NothingDeviates (without_fragment (components base.now))
        (components reference.now) }
    ensures { basic_resolution_of_texts base.now reference.now
        ≡ Ok (recompose (settled target.now)) }
{
    basic_laws::references_lead_to_targets_where_nothing_deviates();
}

/// A caller proves that the reference which `relativize` makes leads by the basic algorithm to each
/// target whose path has no dot segment.
pub fn relativized_by_basic_algorithm(base: &str, target: Uri<&str>)
    requires { lacks_dot_segments (components (uri_text target)).path ≡ true }
    ensures { basic_resolution_of_texts base.now
        (reference_to false base.now (uri_text target.entry)) ≡ Ok (uri_text target.entry) }
{
    let _scheme = target.scheme();
    basic_laws::relativized_references_lead_to_targets();
}

/// A caller that finds a segment `.` or `..` in a target of the basic algorithm proves that its path
/// is the base's.
pub fn has_path_of_base(base: Uri<&str>, reference: &str, target: &str)
    requires target { basic_resolution_of_texts (uri_text base) reference.now ≡ Ok target.now }
    requires dots { has_literal_dot_segment (components target.now).path ≡ true }
    ensures takes { takes_base_path (components reference.now) ≡ true }
    ensures path { (components target.now).path ≡ (components (uri_text base.entry)).path }
{
    let _scheme = base.scheme();
    basic_laws::targets_with_dot_segments_have_the_path_of_their_base();
}
