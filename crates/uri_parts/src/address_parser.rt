//! The numbers of an IP address: RFC 3986, section 3.2.2.
ghost use Rattle.std.specs.Net.Reader as numbers;
ghost use Rattle.std.specs.Char.{digit_value};
ghost use Rattle.std.specs.Prelude.{◌≡◌, ◌≤◌, ◌<◌, IfSome, None, length, option_copied, true, ◌+◌, drop, IsTrue, min, slice_index, take};
ghost use Rattle.std.specs.Str.Parse.{digits_value};
ghost use Rattle.uri_parts.specs.Models.Literals.{AreLeadingHexDigits, BeginsNumber, segments_of_ipv4, two_segments};

/// Returns what follows this byte of an IPv6 address, if the text begins with it.
#[inline(always)]
fn after_byte(text: &[u8], byte: u8) -> Option<&[u8]>
    ensures { option_copied result ≡ numbers.read_byte byte text.now }
{
    match text {
        [first, rest @ ..] if *first == byte => Some(rest),
        _ => None,
    }
}

/// Returns the decimal number, one of an IPv4 address, at the start, and how many digits it has,
/// leading zeros too. `None` exactly if there is no digit, or the number is above 255.
#[inline(always)]
fn decimal_up_to_255(text: &[u8]) -> Option<(u32, usize)>
    ensures value { result ≡ numbers.read_number 10 255 text.now }
    ensures fits { IfSome result (λ n. (n.0 ≤ 255) × (0 < n.1) × (n.1 ≤ length text.now)) }
{
    let mut value = 0u32;
    let mut count = 0;
    for byte in text {
        let Some(digit) = char::from(*byte).to_digit(10) else {
            break;
        };
        let next = value * 10 + digit;
        if next > 255 {
            return None;
        }
        value = next;
        count += 1;
    }
    if count == 0 {
        None
    } else {
        Some((value, count))
    }
}

/// Parses a number of an IPv4 address,
/// of at most 255 without leading zeros. Returns it and what follows it.
#[tactic(auto, unfolding(std::specs::Net::Reader::read_octet))]
#[inline(always)]
fn parse_octet(text: &[u8]) -> Option<(u32, &[u8])>
    ensures value { numbers.read_view (λ n. n) result ≡ numbers.read_octet text.now }
    ensures fits { IfSome result (λ n. n.0 ≤ 255) }
{
    let (value, count) = decimal_up_to_255(text)?;
    if count > 1 && text[0] == b'0' {
        return None;
    }
    Some((value, &text[count..]))
}

/// Parses the IPv4 address that a text begins with. Returns its numbers, as the last two segments
/// of an IPv6 address, and what follows it.
#[tactic(auto, unfolding(std::specs::Net::Reader::read_ipv4))]
#[inline(never)]
pub(crate) fn parse_ipv4(text: &[u8]) -> Option<(u16, u16, &[u8])>
    ensures { two_segments result ≡ segments_of_ipv4 text.now }
{
    let (a, text) = parse_octet(text)?;
    let (b, text) = parse_octet(after_byte(text, b'.')?)?;
    let (c, text) = parse_octet(after_byte(text, b'.')?)?;
    let (d, text) = parse_octet(after_byte(text, b'.')?)?;
    Some(((a * 256 + b) as u16, (c * 256 + d) as u16, text))
}

/// The value of each byte that is a hexadecimal digit, and 16 for the others.
pub(crate) const DIGIT_VALUES: &[u8; 256] = &[
    16, 16, 16, 16, 16, 16, 16, 16, 16, 16, 16, 16, 16, 16, 16, 16, // 00
    16, 16, 16, 16, 16, 16, 16, 16, 16, 16, 16, 16, 16, 16, 16, 16, // 10
    16, 16, 16, 16, 16, 16, 16, 16, 16, 16, 16, 16, 16, 16, 16, 16, // 20
    0, 1, 2, 3, 4, 5, 6, 7, 8, 9, 16, 16, 16, 16, 16, 16, // 30
    16, 10, 11, 12, 13, 14, 15, 16, 16, 16, 16, 16, 16, 16, 16, 16, // 40
    16, 16, 16, 16, 16, 16, 16, 16, 16, 16, 16, 16, 16, 16, 16, 16, // 50
    16, 10, 11, 12, 13, 14, 15, 16, 16, 16, 16, 16, 16, 16, 16, 16, // 60
    16, 16, 16, 16, 16, 16, 16, 16, 16, 16, 16, 16, 16, 16, 16, 16, // 70
    16, 16, 16, 16, 16, 16, 16, 16, 16, 16, 16, 16, 16, 16, 16, 16, // 80
    16, 16, 16, 16, 16, 16, 16, 16, 16, 16, 16, 16, 16, 16, 16, 16, // 90
    16, 16, 16, 16, 16, 16, 16, 16, 16, 16, 16, 16, 16, 16, 16, 16, // A0
    16, 16, 16, 16, 16, 16, 16, 16, 16, 16, 16, 16, 16, 16, 16, 16, // B0
    16, 16, 16, 16, 16, 16, 16, 16, 16, 16, 16, 16, 16, 16, 16, 16, // C0
    16, 16, 16, 16, 16, 16, 16, 16, 16, 16, 16, 16, 16, 16, 16, 16, // D0
    16, 16, 16, 16, 16, 16, 16, 16, 16, 16, 16, 16, 16, 16, 16, 16, // E0
    16, 16, 16, 16, 16, 16, 16, 16, 16, 16, 16, 16, 16, 16, 16, 16, // F0
];

/// Returns the byte of an IPv6 address at `index`, or 0 at its end. Whether the index is inside
/// is tested only where it is not known.
#[inline(always)]
pub(crate) fn byte_at(text: &[u8], index: usize, is_inside: bool) -> u8
    requires { IsTrue is_inside → index < length text.now }
    ensures { result ≡ slice_index text.now index }
{
    if is_inside || index < text.len() {
        text[index]
    } else {
        0
    }
}

/// Returns the value of this byte as a hexadecimal digit, or 16 if it is none.
#[inline(always)]
fn digit_of(byte: u8) -> u16
    ensures { result ≡ min (digit_value byte) 16 }
{
    u16::from(DIGIT_VALUES[usize::from(byte)])
}

/// The hexadecimal digits that a group of an IPv6 address begins with.
#[derive(Clone, Copy)]
pub(crate) struct LeadingDigits {
    /// How many there are, of which five at most are counted.
    pub(crate) count: usize,
    /// The number that they write, if there are fewer than five.
    pub(crate) value: u16,
    /// The byte after them, if there are fewer than five: 0 at the end of the text.
    pub(crate) next: u8,
}

/// Returns the hexadecimal digits at `start`, one more than `digits`, or `None` if these are all.
/// Five bytes are left there, or this is not known.
#[inline(always)]
fn with_next_digit(
    text: &[u8],
    start: usize,
    digits: LeadingDigits,
    has_five: bool,
) -> Option<LeadingDigits>
    requires found { BeginsNumber (drop start text.now) digits.count digits.value }
    requires next { digits.next ≡ slice_index text.now (start + digits.count) }
    requires few { digits.count < 4 }
    requires five { IsTrue has_five → start + 5 ≤ length text.now }
    ensures count { IfSome result (λ d. d.count ≡ digits.count + 1) }
    ensures found { IfSome result (λ d. BeginsNumber (drop start text.now) d.count d.value) }
    ensures next { IfSome result (λ d. d.next ≡ slice_index text.now (start + d.count)) }
    ensures all { result ≡ None → AreLeadingHexDigits (drop start text.now) digits.count }
{
    let digit = digit_of(digits.next);
    if digit == 16 {
        return None;
    }
    let count = digits.count + 1;
    Some(LeadingDigits {
        count,
        value: digits.value * 16 + digit,
        next: byte_at(text, start + count, has_five),
    })
}

/// Returns the hexadecimal digits at `start`. Five bytes are left there, or this is not known.
///
/// There is no loop, since one takes more instructions.
#[inline(always)]
fn count_digits(text: &[u8], start: usize, has_five: bool) -> LeadingDigits
    requires start { start ≤ length text.now }
    requires five { IsTrue has_five → start + 5 ≤ length text.now }
    ensures digits { AreLeadingHexDigits (drop start text.now) result.count }
    ensures value { result.count < 5
        → result.value ≡ digits_value 16 (take result.count (drop start text.now)) }
    ensures next { result.count < 5 → result.next ≡ slice_index text.now (start + result.count) }
{
    let none = LeadingDigits {
        count: 0,
        value: 0,
        next: byte_at(text, start, has_five),
    };
    let Some(one) = with_next_digit(text, start, none, has_five) else {
        return none;
    };
    let Some(two) = with_next_digit(text, start, one, has_five) else {
        return one;
    };
    let Some(three) = with_next_digit(text, start, two, has_five) else {
        return two;
    };
    let Some(four) = with_next_digit(text, start, three, has_five) else {
        return three;
    };
    if digit_of(four.next) == 16 {
        return four;
    }
    LeadingDigits {
        count: 5,
        value: four.value,
        next: four.next,
    }
}

/// Returns the hexadecimal digits at `start`.
///
/// Most groups have five bytes after their start, and there no index is tested.
#[inline(always)]
pub(crate) fn leading_digits(text: &[u8], start: usize) -> LeadingDigits
    requires { start ≤ length text.now }
    ensures digits { AreLeadingHexDigits (drop start text.now) result.count }
    ensures value { result.count < 5
        → result.value ≡ digits_value 16 (take result.count (drop start text.now)) }
    ensures next { result.count < 5 → result.next ≡ slice_index text.now (start + result.count) }
{
    if text.len() - start >= 5 {
        count_digits(text, start, true)
    } else {
        count_digits(text, start, false)
    }
}
