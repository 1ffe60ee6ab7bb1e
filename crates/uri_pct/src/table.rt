//! Sets of characters (RFC 3986, appendix A; RFC 3987, section 2.2).
ghost use Rattle.std.specs.Prelude.{◌≡◌, ◌<◌, ◌↔◌, ◌==◌, ◌&&◌, ◌||◌, ℕ, IfSome, IsSome, IsTrue, true, false};
ghost use Rattle.std.specs.Int.{bit_at, is_in_range};
ghost use Rattle.std.specs.List.{list_all};
ghost use Rattle.uri_pct.specs.Masks.{has_bit, is_unencoded_ascii};
ghost use Rattle.uri_pct.specs.DecodeUnreserved.{is_decodable};
ghost use Rattle.uri_pct.specs.Sets.{allows, allows_past_ascii, is_ucschar, is_iprivate, is_one_of, characters_only, union, difference, IsSubset};

#[doc(hidden)]
pub mod characters;
mod constants;
pub(crate) mod members;

pub use self::constants::{
    ALPHA, DIGIT, FRAGMENT, GEN_DELIMS, HEXDIG, IFRAGMENT, IPATH, IPV_FUTURE, IQUERY, IREG_NAME,
    ISEGMENT_NZ_NC, IUSERINFO, PATH, PCHAR, QUERY, REG_NAME, RESERVED, SCHEME, SEGMENT_NZ_NC,
    SUB_DELIMS, UNRESERVED, USERINFO,
};
use crate::masks::{holds, words};

/// A set of ASCII characters other than `%`, and three flags. The flags add percent-encoded octets,
/// the characters of `ucschar` and those of `iprivate` (RFC 3987, section 2.2).
///
/// `QUERY` allows the letters, and octets beside them.
#[derive(Clone, Copy, Debug)]
pub struct Table {
    low: u64,
    high: u64,
    pct_encoded: bool,
    ucschar: bool,
    iprivate: bool,
    pub ghost lacks_percent: { (bit_at low 37 == 1) ≡ false },
}

impl Table {
    ghost use Rattle.uri_pct.specs.Tables.{set_of, empty_set};

    /// Returns the table of these characters, without percent-encoded octets and without characters
    /// past ASCII, or `None` exactly if a byte is past ASCII or `%`.
    ///
    /// # Examples
    ///
    /// `Table::try_new(b"ab")` is the table of `a` and `b`, and `Table::try_new(b"100%")` is
    /// `None`.
    ///
    /// ```
    /// if Table::try_new(bytes).is_some() {
    ///     Some(Table::new(bytes))
    /// } else {
    ///     None
    /// }
    /// ```
    pub fn try_new(bytes: &[u8]) -> Option<Table>
        ensures some { IsSome result ↔ IsTrue (list_all is_unencoded_ascii bytes.now) }
        ensures table { IfSome result (λ table. set_of table
            ≡ characters_only (is_one_of bytes.now)) }
    {
        if are_unencoded_ascii(bytes) {
            Some(Table::new(bytes))
        } else {
            None
        }
    }

    /// Returns the table of these characters, without percent-encoded octets and without characters
    /// past ASCII. The list may be empty.
    ///
    /// # Conditions
    ///
    /// Each byte is ASCII and not `%`; `try_new` tests it.
    ///
    /// # Examples
    ///
    /// `Table::new(b"ab")` allows `a` and `b` alone.
    ///
    /// ```
    /// pub fn vowels() -> Table {
    ///     Table::new(b"aeiouAEIOU")
    /// }
    /// ```
    pub fn new(bytes: &[u8]) -> Table
        requires { IsTrue (list_all is_unencoded_ascii bytes.now) }
        ensures { set_of result ≡ characters_only (is_one_of bytes.now) }
    {
        let mut low: u64 = 0;
        let mut high: u64 = 0;
        for &byte in bytes {
            if byte < 64 {
                low |= 1 << byte;
            } else {
                high |= 1 << (byte - 64);
            }
        }
        Table {
            low,
            high,
            pct_encoded: false,
            ucschar: false,
            iprivate: false,
        }
    }

    /// Returns the union of two tables: of their characters, and of each flag.
    ///
    /// `ALPHA.or(&DIGIT)` allows `a` and `1`, and not `-`.
    pub const fn or(self, other: &Table) -> Table
        ensures { set_of result ≡ union (set_of self) (set_of other.now) }
    {
        Table {
            low: self.low | other.low,
            high: self.high | other.high,
            pct_encoded: self.pct_encoded | other.pct_encoded,
            ucschar: self.ucschar | other.ucschar,
            iprivate: self.iprivate | other.iprivate,
        }
    }

    /// Returns what `self` allows and `other` does not, among the characters and the flags.
    ///
    /// `PATH.sub(&GEN_DELIMS)` allows `a` and not `/`.
    pub const fn sub(self, other: &Table) -> Table
        ensures { set_of result ≡ difference (set_of self) (set_of other.now) }
    {
        Table {
            low: self.low & !other.low,
            high: self.high & !other.high,
            pct_encoded: self.pct_encoded & !other.pct_encoded,
            ucschar: self.ucschar & !other.ucschar,
            iprivate: self.iprivate & !other.iprivate,
        }
    }

    /// Returns the table with percent-encoded octets allowed.
    ///
    /// `DIGIT.or_pct_encoded()` allows the text `1%20`, and `DIGIT` does not.
    pub const fn or_pct_encoded(mut self) -> Table
        ensures { set_of result ≡ record (set_of self) { pct_encoded = true } }
    {
        self.pct_encoded = true;
        self
    }

    /// Returns the same table, without percent-encoded octets.
    #[inline(always)]
    pub(crate) fn without_octets(mut self) -> Table
        ensures { set_of result ≡ record (set_of self) { pct_encoded = false } }
    {
        self.pct_encoded = false;
        self
    }

    /// Returns the table with the characters of `ucschar` (RFC 3987, section 2.2) allowed.
    ///
    /// `ALPHA.or_ucschar()` allows `é`, and `ALPHA` does not.
    pub const fn or_ucschar(mut self) -> Table
        ensures { set_of result ≡ record (set_of self) { ucschar = true } }
    {
        self.ucschar = true;
        self
    }

    /// Returns the table with the characters of `iprivate` (RFC 3987, section 2.2) allowed.
    ///
    /// `ALPHA.or_iprivate()` allows U+E000, and `ALPHA` does not.
    pub const fn or_iprivate(mut self) -> Table
        ensures { set_of result ≡ record (set_of self) { iprivate = true } }
    {
        self.iprivate = true;
        self
    }

    /// Returns whether `other` allows every character that `self` allows, and has each flag that
    /// `self` has.
    ///
    /// # Examples
    ///
    /// `ALPHA.is_subset(&UNRESERVED)` holds, and `UNRESERVED.is_subset(&ALPHA)` does not.
    ///
    /// ```
    /// if E::table().is_subset(&SuperE::table()) {
    ///     Some(text.upcast())
    /// } else {
    ///     None
    /// }
    /// ```
    pub const fn is_subset(&self, other: &Table) -> bool
        ensures { IsTrue result ↔ IsSubset (set_of self.now) (set_of other.now) }
    {
        self.sub(other).is_empty()
    }

    /// Returns whether there is no character and no flag.
    const fn is_empty(&self) -> bool
        ensures { IsTrue result ↔ (set_of self.now ≡ empty_set) }
    {
        (self.low | self.high == 0) & !(self.pct_encoded | self.ucschar | self.iprivate)
    }

    /// Returns whether percent-encoded octets are allowed.
    ///
    /// `PATH` allows them, and `DIGIT` does not.
    pub const fn allows_pct_encoded(&self) -> bool
        ensures { result ≡ (set_of self.now).pct_encoded }
    {
        self.pct_encoded
    }

    /// Returns whether the ASCII character of the code `byte` is allowed; from 128 on no byte is.
    pub(crate) const fn allows_ascii(&self, byte: u8) -> bool
        ensures value { result ≡ (set_of self.now).ascii byte }
        ensures ascii { IsTrue result → byte < 128 }
    {
        holds(&words(self.low, self.high), byte)
    }

    /// Returns the bits of the table's codes below 64, and of those from 64 on.
    #[inline(always)]
    pub(crate) fn masks(&self) -> (u64, u64)
        ensures { has_bit result.0 result.1 ≡ (set_of self.now).ascii }
    {
        (self.low, self.high)
    }

    /// Returns the two masks and the three flags, in the order of the fields.
    #[inline(always)]
    pub(crate) fn parts(&self) -> (u64, u64, bool, bool, bool)
        ensures { record {
          ascii = has_bit result.0 result.1;
          pct_encoded = result.2;
          ucschar = result.3;
          iprivate = result.4;
        } ≡ set_of self.now }
    {
        (
            self.low,
            self.high,
            self.pct_encoded,
            self.ucschar,
            self.iprivate,
        )
    }

    /// Returns the table of these parts.
    #[inline(always)]
    pub(crate) const fn of_parts(
        low: u64,
        high: u64,
        pct_encoded: bool,
        ucschar: bool,
        iprivate: bool,
    ) -> Table
        requires { has_bit low high 37 ≡ false }
        ensures { set_of result ≡ record {
          ascii = has_bit low high;
          pct_encoded = pct_encoded;
          ucschar = ucschar;
          iprivate = iprivate;
        } }
    {
        Table {
            low,
            high,
            pct_encoded,
            ucschar,
            iprivate,
        }
    }

    /// Returns whether the byte begins a character of U+00C0 to U+D7FF, which are all in `ucschar`,
    /// and the table allows that.
    #[tactic(auto, using(std::proofs::lemmas::Bool::Decides::nat_tests))]
    #[inline(always)]
    pub(crate) fn allows_lead(&self, byte: u8) -> bool
        ensures { result ≡ ((set_of self.now).ucschar && is_in_range 0xC3 0xED byte) }
    {
        self.ucschar && matches!(byte, 0xC3..=0xED)
    }

    /// Returns whether some characters past ASCII are allowed.
    #[inline(always)]
    #[doc(hidden)]
    pub fn allows_some_past_ascii(&self) -> bool
        ensures { result ≡ ((set_of self.now).ucschar || (set_of self.now).iprivate) }
    {
        self.ucschar || self.iprivate
    }

    /// Returns whether a character past ASCII is allowed, as one of `ucschar` or of `iprivate`.
    #[tactic(auto, unfolding(crate::specs::Sets::allows_past_ascii))]
    #[doc(hidden)]
    pub const fn allows_past_ascii(&self, ch: char) -> bool
        ensures { result ≡ allows_past_ascii (set_of self.now) ch }
    {
        (self.ucschar && is_ucschar(ch)) || (self.iprivate && is_iprivate(ch))
    }

    /// Returns whether the table allows the character literally.
    ///
    /// # Examples
    ///
    /// `ALPHA.allows('a')` holds, and `ALPHA.allows('1')` does not.
    ///
    /// ```
    /// if table::QUERY.allows(ch) {
    ///     query.push(ch)?;
    /// }
    /// ```
    #[tactic(auto, using(std::proofs::lemmas::Bool::Decides::nat_tests))]
    pub const fn allows(&self, ch: char) -> bool
        ensures { result ≡ allows (set_of self.now) ch }
    {
        if ch.is_ascii() {
            self.allows_ascii(ch as u8)
        } else {
            self.allows_past_ascii(ch)
        }
    }

    /// Returns the table of the characters whose octets normalising decodes (RFC 3986, section
    /// 6.2.2.2; RFC 3987, section 5.3.2.3): the unreserved ones, and those past ASCII that the
    /// table allows.
    #[doc(hidden)]
    pub fn decodable(&self) -> Table
        ensures { (c : ℕ) → allows (set_of result) c ≡ is_decodable (set_of self.now) c }
    {
        Table {
            low: UNRESERVED.low,
            high: UNRESERVED.high,
            pct_encoded: false,
            ucschar: self.ucschar,
            iprivate: self.iprivate,
        }
    }
}

/// Returns whether a table may have each of the bytes: it is ASCII and not `%`.
fn are_unencoded_ascii(bytes: &[u8]) -> bool
    ensures { result ≡ list_all is_unencoded_ascii bytes.now }
{
    bytes.iter().all(|&byte| byte < 128 && byte != b'%')
}

/// Returns whether a character is of the rule `ucschar` (RFC 3987, section 2.2).
#[tactic(auto, using(crate::proofs::TableSets::Ranges::ucschar_ranges))]
const fn is_ucschar(ch: char) -> bool
    ensures { result ≡ is_ucschar ch }
{
    let code = ch as u32;
    if code < 0x10000 {
        matches!(code, 0xA0..=0xD7FF | 0xF900..=0xFDCF | 0xFDF0..=0xFFEF)
    } else if code < 0xE0000 {
        code % 0x10000 <= 0xFFFD
    } else {
        matches!(code, 0xE1000..=0xEFFFD)
    }
}

/// Returns whether a character is of the rule `iprivate` (RFC 3987, section 2.2).
#[tactic(auto, using(crate::proofs::TableSets::Ranges::iprivate_ranges))]
const fn is_iprivate(ch: char) -> bool
    ensures { result ≡ is_iprivate ch }
{
    matches!(ch as u32, 0xE000..=0xF8FF | 0xF0000..=0xFFFFD | 0x100000..=0x10FFFD)
}
