//! The window through which a run of octets past ASCII is decoded.
ghost use Rattle.std.specs.Prelude.{◌≡◌, ◌-◌, ◌<◌, ◌≤◌, ◌==◌, [], ◌∷◌, ◌++◌, length, take, drop};
ghost use Rattle.uri_pct.specs.Parts.{ArePastAscii};
ghost use Rattle.uri_pct.specs.Models.Unfinished.{following_byte_count, unfinished_len};

/// How many bytes a window holds at most.
const WIDTH: usize = 32;

/// The bytes of a run of octets past ASCII that nothing has taken yet.
#[derive(Drop)]
pub(crate) struct Window {
    bytes: [u8; WIDTH],
    len: usize,
    ghost fits: { len ≤ 32 },
    ghost past_ascii: { ArePastAscii (take len bytes) },
}

impl Window {
    ghost use Rattle.uri_pct.specs.Models.Windows.{window_bytes};

    /// Returns a window of octets that holds none.
    pub(crate) fn new() -> Window
        ensures { window_bytes result ≡ [] }
    {
        Window {
            bytes: [0; WIDTH],
            len: 0,
        }
    }

    /// Returns the bytes that the window holds.
    pub(crate) fn as_slice(&self) -> &[u8]
        ensures value { result.now ≡ window_bytes self.now }
        ensures past_ascii { ArePastAscii result.now }
    {
        &self.bytes[..self.len]
    }

    /// Returns whether the window holds nothing.
    pub(crate) fn is_empty(&self) -> bool
        ensures { result ≡ (length (window_bytes self.now) == 0) }
    {
        self.len == 0
    }

    /// Returns whether the window holds as many bytes as it may.
    pub(crate) fn is_full(&self) -> bool
        ensures { result ≡ (length (window_bytes self.now) == 32) }
    {
        self.len == WIDTH
    }

    /// Puts a byte after those that the window holds.
    pub(crate) fn push(&mut self, byte: u8)
        requires room { length (window_bytes self.old) < 32 }
        requires past_ascii { 128 ≤ byte }
        ensures { window_bytes self.new ≡ window_bytes self.old ++ byte ∷ [] }
    {
        self.bytes[self.len] = byte;
        self.len += 1;
    }

    /// Keeps so many of the bytes that the window holds, the last ones.
    pub(crate) fn keep_last(&mut self, kept: usize)
        requires { kept ≤ length (window_bytes self.old) }
        ensures { window_bytes self.new
            ≡ drop (length (window_bytes self.old) - kept) (window_bytes self.old) }
    {
        self.bytes.copy_within(self.len - kept..self.len, 0);
        self.len = kept;
    }

    /// Empties the window.
    pub(crate) fn clear(&mut self)
        ensures { window_bytes self.new ≡ [] }
    {
        self.len = 0;
    }
}

/// Returns how many bytes follow the first of a character in a window, or 0 if it begins none.
fn following_byte_count(first: u8) -> usize
    ensures { result ≡ following_byte_count first }
{
    match first {
        0xC2..=0xDF => 1,
        0xE0..=0xEF => 2,
        0xF0..=0xF4 => 3,
        _ => 0,
    }
}

/// Returns how many bytes at the end of a window begin a character that calls for more of them.
pub(crate) fn unfinished_len(bytes: &[u8]) -> usize
    requires { 3 ≤ length bytes.now }
    ensures value { result ≡ unfinished_len bytes.now }
    ensures few { result ≤ 3 }
{
    let len = bytes.len();
    if following_byte_count(bytes[len - 3]) > 2 {
        3
    } else if following_byte_count(bytes[len - 2]) > 1 {
        2
    } else if following_byte_count(bytes[len - 1]) > 0 {
        1
    } else {
        0
    }
}
