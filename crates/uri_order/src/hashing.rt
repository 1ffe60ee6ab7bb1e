//! Texts written into a hasher.
ghost use Rattle.std.specs.Prelude.{◌≡◌, fold};
ghost use Rattle.uri_order.specs.HashedTexts.{hashed_text};

use std::hash::Hasher;
use uri_ops::read_back::literal_back::LiteralBack;
use uri_ops::read_back::{BLOCK, ReadBack, take_last_block};

/// Writes a text, which it reads from its end, into a hasher, block by block, and then a byte that
/// no text has.
pub(crate) fn hash_back<A: ReadBack, H: Hasher>(text: &mut A, state: &mut H)
    ensures { state.new ≡ fold H.write state.old (hashed_text (A.unread text.old)) }
{
    let mut block = [0; BLOCK];
    loop {
        let start = take_last_block(text, &mut block);
        state.write(&block[start..]);
        if start > 0 {
            state.write_u8(0xFF);
            return;
        }
    }
}

/// Writes bytes into a hasher as `NormalOrder::hash` writes a normal form.
#[doc(hidden)]
pub fn hash_bytes<H: Hasher>(bytes: &[u8], state: &mut H)
    ensures { state.new ≡ fold H.write state.old (hashed_text bytes.now) }
{
    if bytes.len() >= BLOCK {
        let mut text = LiteralBack::copied(bytes);
        hash_back(&mut text, state);
        return;
    }
    state.write(bytes);
    state.write_u8(0xFF);
}
