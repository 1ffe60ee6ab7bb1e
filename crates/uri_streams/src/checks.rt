//! The law of `urilines check`. A law is a function that does nothing, and its contract states it.
ghost use Rattle.std.specs.Prelude.{◌≡◌, Bool, List, false, true, ℕ};
ghost use Rattle.std.specs.List.{AllPass, concat, filter};
ghost use Rattle.uri_streams.specs.Checks.{AreMergedFrom, checking, is_passed, is_within_maximum, lines_for, lines_within_maximum, output_for, passes_over_errors};
ghost use Rattle.uri_commands.specs.declared.kinds.KindName.{KindName};
ghost use Rattle.uri_streams.specs.declared.job.Job.{Job};

/// The outputs of `check` and `check --invert`, merged by line, make up the input.
///
/// Each line is in one of the two outputs as it is, in its order: with what ends it, a newline
/// or `\r` and a newline, or without one at the end of the input. A line that lacks the field, or
/// is not UTF-8, is not of the kind, so it is in the output of `check --invert`.
///
/// A line that is longer than the maximum is an error of both, since it is not kept in memory. If
/// there is one, the two outputs make up the other lines, unless `--errors` is `line` or `stop`.
pub fn check_and_its_inverse_make_up_the_input()
    ensures lines { (job : Job) (input : List ℕ) → concat (lines_for job input) ≡ input }
    ensures passed { (job : Job) (kind : KindName) (is_inverted : Bool) (input : List ℕ)
        → passes_over_errors job.errors ≡ true
        → output_for (checking job kind is_inverted) input
        ≡ concat (filter (is_passed job kind is_inverted) (lines_for job input)) }
    ensures merged { (job : Job) (kind : KindName) (input : List ℕ)
        → passes_over_errors job.errors ≡ true
        → AreMergedFrom (lines_for job (output_for (checking job kind false) input))
        (lines_for job (output_for (checking job kind true) input))
        (lines_within_maximum job input) }
    ensures whole { (job : Job) (kind : KindName) (input : List ℕ)
        → AllPass (is_within_maximum job) (lines_for job input)
        → AreMergedFrom (lines_for job (output_for (checking job kind false) input))
        (lines_for job (output_for (checking job kind true) input)) (lines_for job input) }
{}
