//! Copies of texts that are normal but for what the rules of their scheme change (RFC 3986, section
//! 6.2.3).
ghost use Rattle.std.specs.Prelude.{◌≡◌, IfOk, Some, [], codes, false, if◌then◌else◌, string_bytes, true};
ghost use Rattle.uri_parts.specs.Prelude.{ArePackedPositionsOf, components, core_text, packed, positions_of, recompose};
ghost use Rattle.uri_ops.specs.ComponentSets.{HasComponentSets};
ghost use Rattle.uri_ops.specs.Models.Places.{before_path};
ghost use Rattle.uri_ops.specs.Models.RuledComponents.{changed_components, has_default_host, has_root_path};
ghost use Rattle.uri_ops.specs.Meaning.{meaning_of};
ghost use Rattle.uri_ops.specs.Normal.{normal_text};
ghost use Rattle.uri_ops.specs.Normalizers.{HasNormalText};
ghost use Rattle.uri_ops.specs.Resolving.{components_of};

use crate::normalize::literal_runs::push_short_str;
use crate::normalize::normalized::Normalized;
use crate::resolve::text_view::TextView;
use crate::scheme_rules::SchemeRules;
use std::alloc::{AllocError, Global};
use uri_parts::core_text::Core;
use uri_parts::kind::Kind;
use uri_parts::packed_positions::PackedPositions;

/// Returns what a text has before its path, without its host `localhost` if that is left out.
#[inline(always)]
fn prefix_under_rules<'a>(drops_host: bool, view: &TextView<'a>) -> &'a str
    requires { drops_host ≡ true → (components_of view.now).authority ≡ Some (codes "localhost") }
    ensures { result.now
        ≡ before_path (changed_components drops_host false (components_of view.now)) }
{
    let before = view.before_path();
    if !drops_host {
        return before;
    }
    &before[..before.len() - "localhost".len()]
}

/// Returns the path that is put in for an empty one, or no text.
#[inline(always)]
fn added_path(adds_root: bool) -> &'static str
    ensures { result.now ≡ (if adds_root then codes "/" else []) }
{
    if adds_root { "/" } else { "" }
}

/// Returns the positions of a text whose path begins after this prefix, and ends and is followed by
/// a query where it says, without its host if that is left out.
#[inline(always)]
fn shifted(
    drops_host: bool,
    places: PackedPositions,
    path_start: usize,
    path_end: usize,
    query_end: usize,
) -> PackedPositions
    ensures { result ≡ record places {
      host_end = if drops_host then places.host_start else places.host_end;
      path_start = path_start;
      path_end = path_end;
      query_end = query_end;
    } }
{
    let mut shifted = places;
    if drops_host {
        shifted.host_end = places.host_start;
    }
    shifted.path_start = path_start;
    shifted.path_end = path_end;
    shifted.query_end = query_end;
    shifted
}

/// Returns the text of a value with `/` put in for its empty path, and without its host `localhost`,
/// if each is to be.
#[inline(always)]
fn changed_copy<K: Kind>(
    alloc: Global,
    core: Core<K, &str>,
    drops_host: bool,
    adds_root: bool,
) -> Result<Normalized, AllocError>
    requires host { drops_host ≡ true
        → (components (core_text core)).authority ≡ Some (codes "localhost") }
    requires root { adds_root ≡ true → (components (core_text core)).path ≡ [] }
    ensures text { let p = changed_components drops_host adds_root
        (components (core_text core.entry)) in
        IfOk result (λ made. string_bytes made.text ≡ recompose p) }
    ensures places { let p = changed_components drops_host adds_root
        (components (core_text core.entry)) in
        IfOk result (λ made. made.positions ≡ packed (positions_of p)) }
    ensures underflow { IfOk result (λ made. made.underflows ≡ false) }
{
    let view = TextView::of_core(core);
    let prefix = prefix_under_rules(drops_host, &view);
    let path = view.path();
    let suffix = view.from_path_suffix(path);
    let root = added_path(adds_root);
    let mut text = String::with_capacity(alloc, core.as_str().len().saturating_add(root.len()))?;
    text.push_str(prefix)?;
    push_short_str(root, &mut text)?;
    let end = text.len();
    let path_end = end + path.len();
    let query_end = end + (path.len() + view.query_with_delimiter().len());
    push_short_str(suffix, &mut text)?;
    Ok(Normalized {
        text,
        positions: shifted(
            drops_host,
            core.packed_positions(),
            prefix.len(),
            path_end,
            query_end,
        ),
        underflows: false,
    })
}

/// Returns the normal text of a value whose text is normal by the ports of the rules alone, where
/// the rules leave out the host or put in a path.
#[inline(always)]
pub(crate) fn ruled_copy<K: Kind, S: SchemeRules>(
    alloc: Global,
    core: Core<K, &str>,
    rules: &S,
    drops_host: bool,
    adds_root: bool,
) -> Result<Normalized, AllocError>
    requires sets { HasComponentSets K.kind }
    requires normal { core_text core
        ≡ normal_text (meaning_of K.kind (S.rules_of rules.now).ports (core_text core)) }
    requires host { drops_host
        ≡ has_default_host (S.rules_of rules.now).locals (components (core_text core)) }
    requires root { adds_root
        ≡ has_root_path (S.rules_of rules.now).roots (components (core_text core)) }
    ensures text { IfOk result (λ made.
        HasNormalText K.kind (S.rules_of rules.now) (core_text core.entry)
        (string_bytes made.text)) }
    ensures at { IfOk result (λ made.
        ArePackedPositionsOf (string_bytes made.text) made.positions) }
    ensures underflow { IfOk result (λ made. made.underflows ≡ false) }
{
    // What `as_str` promises of the text is used by the proof.
    let _text = core.as_str();
    let made = changed_copy(alloc, core, drops_host, adds_root)?;
    Ok(made)
}
