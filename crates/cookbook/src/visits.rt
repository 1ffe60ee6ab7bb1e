//! A table that is keyed by normal forms.
ghost use Rattle.std.specs.Prelude.{◌≡◌, ◌+◌, ◌-◌, ◌^◌, min, unwrap_or, bytes_eq};
ghost use Rattle.std.specs.Prelude.{if◌then◌else◌, List, ℕ, IfOk, IsOkUnless, OnErr, Some};
ghost use Rattle.std.specs.BTreeMap.{get_by_text};
ghost use Rattle.std.specs.Option.{option_map_or};
ghost use Rattle.fluent_uri.specs.Prelude.{refusal, uri};
ghost use Rattle.cookbook.specs.Frontiers.{normal_of};

use crate::normal::normal_form;
use crate::refusal::Failure;
use std::alloc::Global;
use std::collections::BTreeMap;

/// Returns how many visits a table has for a normal form.
fn visits_of(visits: &BTreeMap<String, u32>, normal: &str) -> u32
    ensures { result ≡ unwrap_or (get_by_text visits.now normal.now) 0 }
{
    visits.get(normal).copied().unwrap_or(0)
}

/// Counts a visit of a URI under its normal form, and returns how many there are, up to the largest
/// `u32`.
///
/// # Errors
///
/// `Text` exactly if the text is not a URI; `OutOfMemory` if allocation fails.
#[tactic(auto, using(std::proofs::lemmas::Map::Text::text_keys))]
pub fn count_visit(
    alloc: Global,
    visits: &mut BTreeMap<String, u32>,
    text: &str,
) -> Result<u32, Failure>
    ensures more { IfOk result (λ n. n
        ≡ min (unwrap_or (get_by_text visits.old (normal_of text.now)) 0 + 1) (2 ^ 32 - 1)) }
    ensures counted { IfOk result (λ n. (key : List ℕ) → get_by_text visits.new key
        ≡ (if bytes_eq (normal_of text.now) key then Some n else get_by_text visits.old key)) }
    ensures kept { OnErr result ((key : List ℕ) →
        get_by_text visits.new key ≡ get_by_text visits.old key) }
    ensures refused { IsOkUnless result
        (option_map_or Failure.Text (refusal uri text.now) Failure.OutOfMemory) }
{
    let normal = normal_form(alloc, text)?.into_string();
    let count = visits_of(visits, normal.as_str()).saturating_add(1);
    visits.insert(normal, count)?;
    Ok(count)
}
