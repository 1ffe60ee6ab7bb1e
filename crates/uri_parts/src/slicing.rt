//! Texts that are cut at ASCII characters.
ghost use Rattle.std.specs.Prelude.{◌≡◌, ◌<◌, IfSome, IsTrue, is_some, nat_lt, not, drop};
ghost use Rattle.std.specs.List.{list_all, prefix_len};
ghost use Rattle.uri_pct.specs.Prelude.{is_one_of};
ghost use Rattle.uri_parts.specs.Components.{starts, before_any, from_any};

/// Returns whether a byte is one of the marks, such as the `]` after an address in a host.
fn is_one_of(marks: &[u8], byte: u8) -> bool
    ensures { result ≡ is_one_of marks.now byte }
{
    marks.iter().any(|mark| *mark == byte)
}

/// Returns how many bytes of a host come before the first of the marks, or before the end.
fn length_before(bytes: &[u8], marks: &[u8]) -> usize
    ensures { result ≡ prefix_len (λ c. not (is_one_of marks.now c)) bytes.now }
{
    let mut i = 0;
    while i < bytes.len() && !is_one_of(marks, bytes[i]) {
        i += 1;
    }
    i
}

/// Cuts an address out of a host: returns the text before
/// the first of these ASCII characters, and from it on.
#[doc(hidden)]
pub fn cut_before<'a>(text: &'a str, marks: &[u8]) -> (&'a str, &'a str)
    requires { IsTrue (list_all (λ b. nat_lt b 128) marks.now) }
    ensures before { result.0.now ≡ before_any marks.now text.now }
    ensures from { result.1.now ≡ from_any marks.now text.now }
{
    text.split_at(length_before(text.as_bytes(), marks))
}

/// Returns what follows this ASCII character of a host,
/// such as its `[`, if the text begins with it.
#[doc(hidden)]
pub fn after_mark(text: &str, mark: u8) -> Option<&str>
    requires { mark < 128 }
    ensures begins { is_some result ≡ starts mark text.now }
    ensures rest { IfSome result (λ rest. rest.now ≡ drop 1 text.now) }
{
    let [first, ..] = text.as_bytes() else {
        return None;
    };
    if *first == mark {
        Some(&text[1..])
    } else {
        None
    }
}
