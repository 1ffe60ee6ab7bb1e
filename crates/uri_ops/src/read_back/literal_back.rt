//! Texts that normalising copies, or writes in lower case, read from their end.
ghost use Rattle.std.specs.Prelude.{◌≡◌, ◌+◌, ◌≤◌, ◌++◌, drop, length};
ghost use Rattle.std.specs.Str.{str_to_ascii_lowercase};
ghost use Rattle.uri_ops.specs.FromEnd.Literals.{cased};

use crate::read_back::{BLOCK, ReadBack};

/// A text that is read from its end as it is, or with its ASCII letters in lower case.
#[derive(Clone, Copy)]
pub struct LiteralBack<'a> {
    text: &'a [u8],
    lowers: bool,
}

impl<'a> LiteralBack<'a> {
    ghost use Rattle.uri_ops.specs.FromEnd.Literals.{literal_unread};

    /// Returns the text to read as it is.
    #[inline(always)]
    pub fn copied(text: &'a [u8]) -> Self
        ensures { literal_unread result ≡ text.now }
    {
        LiteralBack {
            text,
            lowers: false,
        }
    }

    /// Returns the text to read in lower case.
    #[inline(always)]
    pub(crate) fn lowered(text: &'a [u8]) -> Self
        ensures { literal_unread result ≡ str_to_ascii_lowercase text.now }
    {
        LiteralBack { text, lowers: true }
    }
}

/// Puts a text into the block before `end`, with its ASCII letters in lower case if `lowers`.
/// Returns where it begins.
#[inline(always)]
pub(crate) fn put_back(lowers: bool, text: &[u8], block: &mut [u8; BLOCK], end: usize) -> usize
    requires end { end ≤ 1024 }
    requires fits { length text.now ≤ end }
    ensures text { drop result block.new ≡ cased lowers text.now ++ drop end block.old }
    ensures start { result + length text.now ≡ end }
{
    let start = end - text.len();
    block[start..end].copy_from_slice(text);
    if lowers {
        block[start..end].make_ascii_lowercase();
    }
    start
}

impl<'a> ReadBack for LiteralBack<'a> {
    ghost use Rattle.uri_ops.specs.FromEnd.Literals.{literal_unread};

    ghost unread = { literal_unread };

    /// Takes the last bytes that are left.
    #[inline(always)]
    fn read_back(&mut self, block: &mut [u8; BLOCK], end: usize) -> usize {
        let text = self.text;
        if text.is_empty() {
            return end;
        }
        let count = text.len().min(end);
        let left = text.len() - count;
        self.text = &text[..left];
        put_back(self.lowers, &text[left..], block, end)
    }
}
