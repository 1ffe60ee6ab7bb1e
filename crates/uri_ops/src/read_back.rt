//! Texts that are read from their end, a block at a time, without memory.
ghost use Rattle.std.specs.Prelude.{◌≡◌, ◌↔◌, ◌+◌, ◌≤◌, ◌<◌, ◌++◌, ℕ, List, [], drop, length, true};
ghost use Rattle.uri_ops.specs.FromEnd.Blocks.{IsLastBlock};

pub(crate) mod held;
pub(crate) mod last_tokens;
pub mod literal_back;
pub mod normal_authority;
pub mod normal_back;
pub mod normal_block;
pub(crate) mod normal_path;
pub(crate) mod normal_tokens;
pub(crate) mod octets_back;
pub(crate) mod path_back;
pub mod ruled_back;
pub(crate) mod segments_back;

/// How many bytes a block has.
pub const BLOCK: usize = 1024;

/// A text that is read from its end. What is left of it is `unread`.
pub trait ReadBack: Copy + Drop {
    ghost unread: { Self → List ℕ };

    /// Takes the last bytes that are left of the text and puts them into the block before `end`,
    /// until the block is full or nothing is left. Returns where they begin.
    fn read_back(&mut self, block: &mut [u8; BLOCK], end: usize) -> usize
        requires { end ≤ 1024 }
        ensures text { unread self.old ++ drop end block.old
            ≡ unread self.new ++ drop result block.new }
        ensures within { result ≤ end }
        ensures end { 0 < result → unread self.new ≡ [] };
}

/// Two texts, one after the other.
#[derive(Clone, Copy)]
pub struct Joined<A, B> {
    pub front: A,
    pub back: B,
}

impl<A: ReadBack, B: ReadBack> ReadBack for Joined<A, B> {
    ghost unread = { λ text. A.unread text.front ++ B.unread text.back };

    /// Takes the last bytes of the second text, and then of the first if nothing is left of the
    /// second.
    #[inline(always)]
    fn read_back(&mut self, block: &mut [u8; BLOCK], end: usize) -> usize {
        let start = self.back.read_back(block, end);
        if start == 0 {
            return 0;
        }
        self.front.read_back(block, start)
    }
}

/// Returns the first text followed by the second.
#[inline(always)]
pub fn join<A: ReadBack, B: ReadBack>(front: A, back: B) -> Joined<A, B>
    ensures { ⟦<Joined<A, B> as ReadBack>⟧.unread result ≡ A.unread front ++ B.unread back }
{
    Joined { front, back }
}

/// Takes the last bytes that are left of a text and puts them at the end of the block, until the
/// block is full or nothing is left. Returns where they begin.
#[inline(always)]
pub fn take_last_block<A: ReadBack>(text: &mut A, block: &mut [u8; BLOCK]) -> usize
    ensures block { IsLastBlock 1024 (A.unread text.old) (A.unread text.new)
        (drop result block.new) }
    ensures length { length (drop result block.new) + result ≡ 1024 }
{
    text.read_back(block, BLOCK)
}

/// Returns whether a text, which it reads from its end, is another one.
pub(crate) fn is_read_as<A: ReadBack>(text: &mut A, other: &[u8]) -> bool
    ensures { (result ≡ true) ↔ (A.unread text.old ≡ other.now) }
{
    let mut left = other;
    let mut block = [0; BLOCK];
    loop {
        let start = take_last_block(text, &mut block);
        let Some(rest) = left.strip_suffix(&block[start..]) else {
            return false;
        };
        if start > 0 {
            return rest.is_empty();
        }
        left = rest;
    }
}
