//! Two texts read from their ends in step, block by block.
ghost use Rattle.std.specs.Prelude.{◌≡◌, ◌+◌, ◌<◌, ◌≤◌, length};
ghost use Rattle.std.specs.Cmp.Lexicographic.{slice_cmp};
ghost use Rattle.std.specs.Ordering.{nat_cmp};
ghost use Rattle.uri_order.specs.Ends.{AreEnds};

use std::cmp::Ordering;
use uri_ops::read_back::{BLOCK, ReadBack, take_last_block};

/// Which of two texts ends first, where both are read from their ends in step.
#[derive(Drop)]
pub(crate) enum Ends<A, B> {
    /// Both end at once. Their order is with it.
    Both(Ordering),
    /// The second ends. What is left of the first is with it, and how many bytes more than the
    /// second has were read of the first: at least one, and at most a block.
    Second(A, usize),
    /// The first ends. The same is with it, of the second.
    First(B, usize),
}

/// Reads two texts in step, and returns which of them ends first. Blocks that are read later are
/// nearer to the start, so the last two that differ decide.
fn read_in_step<A: ReadBack, B: ReadBack>(mut one: A, mut other: B) -> Ends<A, B>
    ensures { AreEnds A.unread B.unread (A.unread one) (B.unread other) result }
{
    let mut block = [0; BLOCK];
    let mut other_block = [0; BLOCK];
    let mut order = Ordering::Equal;
    loop {
        let start = take_last_block(&mut one, &mut block);
        let begin = take_last_block(&mut other, &mut other_block);
        if start < begin {
            return Ends::Second(one, begin - start);
        }
        if begin < start {
            return Ends::First(other, start - begin);
        }
        order = block[start..].cmp(&other_block[begin..]).then(order);
        if start > 0 {
            return Ends::Both(order);
        }
    }
}

/// Returns the order of a text and of one that is shorter. A prefix as long as the shorter text
/// decides first: after it are `more` bytes, and as many as `rest` has.
fn cmp_shorter<A: ReadBack, B: ReadBack>(one: A, mut rest: A, more: usize, other: B) -> Ordering
    requires some { 0 < more }
    requires within { more ≤ 1024 }
    requires lengths { length (A.unread one)
        ≡ length (A.unread rest) + more + length (B.unread other) }
    ensures { result ≡ slice_cmp nat_cmp (A.unread one) (B.unread other) }
{
    let mut prefix = one;
    let mut block = [0; BLOCK];
    let mut count = more;
    while count > 0 {
        let _start = prefix.read_back(&mut block, count);
        count = BLOCK - take_last_block(&mut rest, &mut block);
    }
    match read_in_step(prefix, other) {
        Ends::Both(order) => order.then(Ordering::Greater),
        _ => unreachable!(),
    }
}

/// Returns the order of two texts, of which one has as many bytes as a block or more.
pub(crate) fn cmp_long<A: ReadBack, B: ReadBack>(one: A, other: B) -> Ordering
    ensures { result ≡ slice_cmp nat_cmp (A.unread one) (B.unread other) }
{
    match read_in_step(one, other) {
        Ends::Both(order) => order,
        Ends::Second(rest, more) => cmp_shorter(one, rest, more, other),
        Ends::First(rest, more) => cmp_shorter(other, rest, more, one).reverse(),
    }
}
