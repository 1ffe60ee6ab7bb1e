//! The pairs of a query (RFC 3986, section 3.4), and the lines of a job.
ghost use Rattle.std.specs.Prelude.{◌≡◌, map};
ghost use Rattle.std.specs.List.{concat};
ghost use Rattle.uri_query.specs.Pairs.{decode_pairs, pair_texts, query_text};
ghost use Rattle.uri_streams.specs.Checks.{lines_for};

use uri_query::Pair;
use uri_query::pairs::pairs_of_their_query_are_the_same;
use uri_streams::checks::check_and_its_inverse_make_up_the_input;
use uri_streams::job::Job;

/// A caller that writes a query of pairs proves that a reader of it gets these pairs.
pub fn pairs_are_read_again(pairs: &[Pair])
    ensures { decode_pairs (query_text (map pair_texts pairs.now)) ≡ map pair_texts pairs.now }
{
    pairs_of_their_query_are_the_same(pairs);
}

/// A caller that joins the lines of a job proves that it has the input again.
pub fn lines_joined(job: &Job, input: &[u8])
    ensures { concat (lines_for job.now input.now) ≡ input.now }
{
    check_and_its_inverse_make_up_the_input();
}
