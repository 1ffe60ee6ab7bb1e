//! The normal text of a value (RFC 3986, section 6.2.2; RFC 3987, section 5.3.2).
ghost use Rattle.std.specs.Prelude.{◌≡◌, ◌+◌, ◌<◌, ◌∷◌, ℕ, List, Option, [], IfOk, OnOk, codes, is_some, length, option_map, string_bytes, true};
ghost use Rattle.uri_pct.specs.Prelude.{Pushes, slash, text_of};
ghost use Rattle.uri_parts.specs.Prelude.{ArePackedPositionsOf, Kind, core_text, marked, scheme_text};
ghost use Rattle.uri_ops.specs.ComponentSets.{HasComponentSets, IsComponentSet};
ghost use Rattle.uri_ops.specs.Dots.{underflows};
ghost use Rattle.uri_ops.specs.Normal.{normal_part, normal_scheme, normal_path_text, path_underflows};
ghost use Rattle.uri_ops.specs.Normalizers.{HasNormalText, text_underflows};

use crate::normalize::decode_unreserved::push_decoded_component;
use crate::normalize::decoded_paths::push_decoded_path;
use crate::normalize::literal_runs::push_lower;
use crate::normalize::normal_authority::push_authority;
use crate::normalize::normalized::Normalized;
use crate::normalize::ruled_parts::{has_root_path, ruled_authority, ruled_path};
use crate::path::slashes::guard_path;
use crate::scheme_rules::SchemeRules;
use std::alloc::{AllocError, Global};
use uri_parts::component::{Authority, Scheme};
use uri_parts::core_text::Core;
use uri_parts::kind::Kind;
use uri_parts::packed_positions::PackedPositions;
use uri_parts::positions::{AuthorityPositions, Positions};
use uri_pct::encoder::{Encoder, PathEncoder};
use uri_pct::pct_enc::EStr;

/// Appends the scheme of a normal text, in lower case, and its `:`, and returns where it ends.
fn push_scheme(scheme: Option<Scheme<'_>>, out: &mut String) -> Result<Option<usize>, AllocError>
    ensures text { OnOk result (Pushes out.old out.new
        (marked [] (normal_scheme (option_map scheme_text scheme.entry)) (codes ":"))) }
    ensures end { IfOk result (λ end. end
        ≡ option_map (λ s. length (string_bytes out.old) + length s)
        (normal_scheme (option_map scheme_text scheme.entry))) }
{
    let Some(scheme) = scheme else {
        return Ok(None);
    };
    push_lower(scheme.as_str(), out)?;
    let end = out.len();
    out.push(':')?;
    Ok(Some(end))
}

/// Appends a query or a fragment of a normal text, decoded, after its mark, and returns where it
/// ends.
#[inline(always)]
fn push_with_delimiter<E: Encoder>(
    mark: char,
    part: Option<EStr<'_, E>>,
    out: &mut String,
) -> Result<Option<usize>, AllocError>
    requires { mark < 128 }
    ensures text { OnOk result (Pushes out.old out.new
        (marked (mark ∷ []) (normal_part E.set (option_map text_of part.entry)) [])) }
    ensures end { IfOk result (λ end. end
        ≡ option_map (λ s. length (string_bytes out.old) + 1 + length s)
        (normal_part E.set (option_map text_of part.entry))) }
{
    let Some(part) = part else {
        return Ok(None);
    };
    out.push(mark)?;
    push_decoded_component(part, out)?;
    Ok(Some(out.len()))
}

/// Appends a path as it is in a normal text, and returns whether a double dot had nothing left
/// to remove. Only under a scheme and from a `/` on are dot segments removed, and `/.` is put
/// before the path if it would otherwise be parsed as an authority.
#[inline(always)]
fn push_normal_path<E: PathEncoder>(
    has_scheme: bool,
    has_authority: bool,
    path: EStr<'_, E>,
    out: &mut String,
) -> Result<bool, AllocError>
    requires set { IsComponentSet (codes "?#[]") E.set }
    requires slash { E.set.ascii slash ≡ true }
    ensures text { (scheme authority : Option (List ℕ)) → is_some scheme ≡ has_scheme
        → is_some authority ≡ has_authority
        → OnOk result (Pushes out.old out.new
        (normal_path_text E.set scheme authority (text_of path.entry))) }
    ensures underflow { (scheme : Option (List ℕ)) → is_some scheme ≡ has_scheme
        → IfOk result (λ underflowed. underflowed ≡ path_underflows scheme (text_of path.entry)) }
{
    if !has_scheme || !path.is_absolute() {
        push_decoded_component(path, out)?;
        return Ok(false);
    }
    let start = out.len();
    let underflowed = push_decoded_path(&E::table(), path.as_str(), out)?;
    if !has_authority {
        guard_path(start, out)?;
    }
    Ok(underflowed)
}

/// Returns the normal text of a value, written component by component, with its positions and
/// whether the removal of its dot segments underflows.
pub(crate) fn written_normal_text<K: Kind, S: SchemeRules>(
    alloc: Global,
    core: Core<K, &str>,
    rules: &S,
) -> Result<Normalized, AllocError>
    requires { HasComponentSets K.kind }
    ensures text { IfOk result (λ made.
        HasNormalText K.kind (S.rules_of rules.now) (core_text core.entry)
        (string_bytes made.text)) }
    ensures at { IfOk result (λ made.
        ArePackedPositionsOf (string_bytes made.text) made.positions) }
    ensures underflow { IfOk result (λ made.
        made.underflows ≡ text_underflows (core_text core.entry)) }
{
    // The path `/` that the rules put in place of an empty one is a byte more.
    let added = usize::from(has_root_path(core, rules));
    let mut text = String::with_capacity(alloc, core.as_str().len().saturating_add(added))?;
    let scheme = core.scheme();
    let scheme_end = push_scheme(scheme, &mut text)?;
    let authority = ruled_authority(core, rules);
    let places = push_authority(authority, scheme, rules, &mut text)?;
    let path_start = text.len();
    let path = ruled_path(core, rules);
    let has_authority = authority.is_some();
    let underflows = push_normal_path(scheme.is_some(), has_authority, path, &mut text)?;
    let path_end = text.len();
    let query_end = push_with_delimiter('?', core.query(), &mut text)?;
    push_with_delimiter('#', core.fragment(), &mut text)?;
    let positions = PackedPositions::of(&Positions {
        scheme_end,
        authority: places,
        path_start,
        path_end,
        query_end,
    });
    Ok(Normalized {
        text,
        positions,
        underflows,
    })
}
