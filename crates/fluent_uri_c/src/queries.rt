//! The pairs of a query.
ghost use Rattle.std.specs.Prelude.{◌≡◌};
ghost use Rattle.fluent_uri_c.specs.Pairs.{LeavesPair, value_span};

use crate::errors::Error;
use crate::parts::{Span, absent};
use crate::texts::is_possible_length;
use uri_query::{PairPlace, next_pair};

/// Where the name and the value of a pair are in a query. The value of one without `=` is absent.
#[repr(C)]
#[derive(Clone, Copy)]
pub struct Pair {
    pub name: Span,
    pub value: Span,
}

/// Returns the span, for C, of the value of a pair: what is after its `=`, if it has one.
fn value_span(place: PairPlace) -> Span
    ensures { result ≡ value_span place }
{
    if place.name_end < place.end {
        Span {
            start: place.name_end + 1,
            end: place.end,
        }
    } else {
        absent()
    }
}

/// Reports where the next pair of a query is, from a position on, which is then the end of that
/// pair. Returns 1, or 0 if no pair is left. Takes no memory.
#[unsafe(no_mangle)]
pub extern "C" fn fluent_uri_next_pair(query: &[u8], position: &mut usize, pair: &mut Pair) -> u32
    ensures { LeavesPair query.now position.old position.new pair.old pair.new result }
{
    if !is_possible_length(query) {
        return Error::InvalidArgument.number();
    }
    if query.len() < *position {
        return 0;
    }
    let Some(place) = next_pair(query, *position) else {
        return 0;
    };
    *position = place.end;
    *pair = Pair {
        name: Span {
            start: place.start,
            end: place.name_end,
        },
        value: value_span(place),
    };
    1
}
