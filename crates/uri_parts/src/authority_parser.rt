//! An authority, parsed from left to right (RFC 3986, section 3.2).
//!
//! What passes as a name and a port is a prefix of userinfo. So nothing is scanned again to
//! distinguish the two, nor to find where and why an authority is rejected.
ghost use Rattle.std.specs.Prelude.{◌≡◌, ◌≤◌, ◌+◌, drop, length, true, IfErr, IfOk, IfSome, OnOk, Some, Ok, IfNone, IsTrue, ◌<◌, false, IsCharBoundary};
ghost use Rattle.uri_pct.specs.Prelude.{left_bracket, valid_prefix};
ghost use Rattle.uri_parts.specs.Models.AuthorityParsing.{port_length, name_and_port_length, name_ends_authority, host_end, host_and_port_length, further_userinfo_length};
ghost use Rattle.std.specs.Option.{option_or};
ghost use Rattle.std.specs.Result.{result_err};
ghost use Rattle.uri_parts.specs.Components.{starts};
ghost use Rattle.uri_parts.specs.LiteralErrors.{literal};
ghost use Rattle.uri_parts.specs.Refusals.{error_from_path, last_colon as last_colon_before};
ghost use Rattle.uri_parts.specs.Models.ParseErrors.{left_over_error, name_error, host_error, userinfo_error};
ghost use Rattle.uri_parts.specs.Errors.{IsErrorIn, unexpected};
ghost use Rattle.uri_parts.specs.Models.Literals.{literal_length};
ghost use Rattle.uri_parts.specs.Models.Cursors.{text_after_cursor, cursor_text, cursor_position};

use crate::cursor::Cursor;
use crate::error::{Padding, ParseError, ParseErrorKind};
use crate::ip_literal::literal_end;
use crate::kind::Kind;
use uri_pct::table::DIGIT;

/// Passes the port of an authority with its `:`, if one is next.
#[tactic(auto, using(crate::proofs::Steps::ports), unfolding(crate::proofs::Steps::name))]
#[inline(always)]
fn pass_port(cursor: &mut Cursor<'_>)
    ensures text { cursor_text cursor.new ≡ cursor_text cursor.old }
    ensures place { cursor_position cursor.new ≡ cursor_position cursor.old + port_length
        (text_after_cursor cursor.old) }
    ensures rest { text_after_cursor cursor.new ≡ drop (port_length (text_after_cursor cursor.old))
        (text_after_cursor cursor.old) }
{
    if cursor.skip(b':') {
        cursor.scan(&DIGIT);
    }
}

/// Returns whether a host in brackets is next. A registered name begins with no bracket.
#[inline(always)]
pub(crate) fn is_before_literal<K: Kind>(cursor: &Cursor<'_>) -> bool
    ensures value { result ≡ starts left_bracket (text_after_cursor cursor.now) }
    ensures no_name { IsTrue result
        → name_ends_authority K.kind (text_after_cursor cursor.now) ≡ false }
{
    cursor.next_is(b'[')
}

/// Passes a registered name and the port after it, if there is one. Returns where the name ends,
/// and whether the authority may end after both. `/` follows most names, and is looked for first.
#[tactic(auto, using(crate::proofs::Steps::names), unfolding(crate::proofs::Steps::name))]
#[inline(always)]
pub(crate) fn pass_name<K: Kind>(cursor: &mut Cursor<'_>) -> (usize, bool)
    ensures end { result.0 ≡ cursor_position cursor.old + valid_prefix K.kind.reg_name
        (text_after_cursor cursor.old) }
    ensures finds { result.1 ≡ name_ends_authority K.kind (text_after_cursor cursor.old) }
    ensures text { cursor_text cursor.new ≡ cursor_text cursor.old }
    ensures place { cursor_position cursor.new
        ≡ cursor_position cursor.old + name_and_port_length K.kind (text_after_cursor cursor.old) }
    ensures rest { text_after_cursor cursor.new
        ≡ drop (name_and_port_length K.kind (text_after_cursor cursor.old))
        (text_after_cursor cursor.old) }
{
    let end = cursor.scan(&K::tables().reg_name);
    if cursor.next_is(b'/') {
        return (end, true);
    }
    pass_port(cursor);
    (end, cursor.ends_authority())
}

/// Returns the error of what is left over after an authority, from `start` on. It reports a
/// malformed percent-encoded octet of the path that is scanned there, or else what is next.
#[tactic(auto, unfolding(crate::specs::Models::ParseErrors::left_over_error))]
#[cold]
#[inline(never)]
fn error_of_left_over<K: Kind>(text: &str, start: usize) -> ParseError
    requires { IsCharBoundary text.now start }
    ensures error { IsErrorIn text.now result }
    ensures returned { Some result ≡ left_over_error K.kind text.now start }
{
    let mut path = Cursor::at(text, start);
    match path.pass(&K::tables().path) {
        Ok(_) => Cursor::at(text, start).unexpected(),
        Err(error) => error,
    }
}

/// Returns the position of the last `:` of an authority from `start` to `end`, if there is one.
#[tactic(auto, using(crate::proofs::Steps::colons))]
fn last_colon(text: &str, start: usize, end: usize) -> Option<usize>
    requires order { start ≤ end }
    requires end { end ≤ length text.now }
    ensures boundary { IfSome result (IsCharBoundary text.now) }
    ensures last { IfSome result (λ colon.
        (start ≤ colon) × (colon ≡ last_colon_before text.now end)) }
    ensures none { IfNone result
        (last_colon_before text.now end ≡ last_colon_before text.now start) }
{
    let bytes = text.as_bytes();
    let mut i = end;
    while i > start {
        i -= 1;
        if bytes[i] == b':' {
            return Some(i);
        }
    }
    None
}

/// Returns the error of what was scanned as userinfo up to `end`, where no `@` is next. A name and
/// a port end at `start`. After them the error is at the last of several `:`, or at the port's
/// first byte that is no digit.
#[tactic(auto, using(crate::proofs::Steps::below), unfolding(crate::proofs::Steps::after_name))]
#[cold]
#[inline(never)]
fn error_after_name<K: Kind>(text: &str, start: usize, end: usize) -> ParseError
    requires start { IsCharBoundary text.now start }
    requires end { IsCharBoundary text.now end }
    requires order { start ≤ end }
    requires some { 0 < start }
    ensures error { IsErrorIn text.now result }
    ensures returned { Some result ≡ name_error K.kind text.now start end }
{
    if start == end {
        return error_of_left_over::<K>(text, end);
    }
    match last_colon(text, start, end) {
        Some(colon) => ParseError::new(colon, ParseErrorKind::UnexpectedChar),
        None => Cursor::at(text, start).unexpected(),
    }
}

/// Passes the host of an authority that is in brackets, of which the `[` is next.
#[tactic(auto, using(crate::proofs::Refusals::LiteralEnds::literal_ends))]
#[inline(always)]
fn pass_literal(cursor: &mut Cursor<'_>) -> Result<(), ParseError>
    requires { starts left_bracket (text_after_cursor cursor.old) ≡ true }
    ensures text { cursor_text cursor.new ≡ cursor_text cursor.old }
    ensures place { OnOk result (cursor_position cursor.new ≡ cursor_position cursor.old
        + (1 + literal_length (drop 1 (text_after_cursor cursor.old)))) }
    ensures rest { OnOk result (text_after_cursor cursor.new
        ≡ drop (1 + literal_length (drop 1 (text_after_cursor cursor.old)))
        (text_after_cursor cursor.old)) }
    ensures refused { result_err result
        ≡ result_err (literal (cursor_text cursor.old) (cursor_position cursor.old + 1)) }
    ensures found { OnOk result
        (literal (cursor_text cursor.old) (cursor_position cursor.old + 1)
        ≡ Ok (cursor_position cursor.new)) }
    ensures err { IfErr result (IsErrorIn (cursor_text cursor.old)) }
{
    cursor.skip(b'[');
    let end = literal_end(cursor.text(), cursor.position())?;
    *cursor = Cursor::at(cursor.text(), end);
    Ok(())
}

/// Passes userinfo, of which a name and a port were passed, and its `@`.
#[tactic(auto, using(crate::proofs::Steps::cuts), unfolding(crate::proofs::Steps::user))]
#[inline(always)]
pub(crate) fn pass_userinfo<K: Kind>(cursor: &mut Cursor<'_>) -> Result<(), ParseError>
    requires some { 0 < cursor_position cursor.old }
    ensures text { cursor_text cursor.new ≡ cursor_text cursor.old }
    ensures place { OnOk result (cursor_position cursor.new
        ≡ cursor_position cursor.old
        + (further_userinfo_length K.kind (text_after_cursor cursor.old) + 1)) }
    ensures rest { OnOk result (text_after_cursor cursor.new
        ≡ drop (further_userinfo_length K.kind (text_after_cursor cursor.old) + 1)
        (text_after_cursor cursor.old)) }
    ensures returned { let text = cursor_text cursor.old in
        userinfo_error K.kind text (cursor_position cursor.old)
        ≡ option_or (result_err result) (host_error K.kind text (cursor_position cursor.new)) }
    ensures err { IfErr result (IsErrorIn (cursor_text cursor.old)) }
{
    let start = cursor.position();
    if cursor.skip(b'@') {
        return Ok(());
    }
    let end = cursor.pass(&K::tables().userinfo)?;
    if cursor.skip(b'@') {
        return Ok(());
    }
    Err(error_after_name::<K>(cursor.text(), start, end))
}

/// Where a host ends, and the authority that it is in.
#[derive(Clone, Copy)]
pub(crate) struct HostEnds {
    pub end: usize,
    padding: Padding,
    pub host_end: usize,
}

/// Finds the ends of a host and of the port after it, if there is one. They must end the authority.
/// The tables of the kind are constants here: handed on, they would be set out in memory, as
/// cursors are.
#[tactic(auto, using(crate::proofs::Steps::cuts), unfolding(crate::proofs::Steps::host))]
#[inline(never)]
pub(crate) fn find_host<K: Kind>(text: &str, host_start: usize) -> Result<HostEnds, ParseError>
    requires { IsCharBoundary text.now host_start }
    ensures host { IfOk result (λ ends.
        ends.host_end ≡ host_start + host_end K.kind (drop host_start text.now)) }
    ensures end { IfOk result (λ ends.
        ends.end ≡ host_start + host_and_port_length K.kind (drop host_start text.now)) }
    ensures boundary { IfOk result (λ ends. IsCharBoundary text.now ends.end) }
    ensures returned { IfErr result (λ e. host_error K.kind text.now host_start ≡ Some e) }
    ensures goes_on { IfOk result (λ ends.
        host_error K.kind text.now host_start ≡ error_from_path K.kind text.now ends.end) }
    ensures err { IfErr result (IsErrorIn text.now) }
{
    let mut cursor = Cursor::at(text, host_start);
    if cursor.next_is(b'[') {
        pass_literal(&mut cursor)?;
    } else {
        cursor.scan(&K::tables().reg_name);
    }
    let host_end = cursor.position();
    pass_port(&mut cursor);
    if !cursor.ends_authority() {
        return Err(error_of_left_over::<K>(text, cursor.position()));
    }
    Ok(HostEnds {
        end: cursor.position(),
        padding: Padding::BYTE,
        host_end,
    })
}
