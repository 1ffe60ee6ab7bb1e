//! The parser of the four kinds.
ghost use Rattle.std.specs.Prelude.{◌≡◌, ◌↔◌, ◌<◌, IfErr, IfOk, IsOk, IsTrue, Some, None, ◌+◌, OnOk, drop, IsCharBoundary};
ghost use Rattle.std.specs.Option.{option_or};
ghost use Rattle.std.specs.Result.{result_err};
ghost use Rattle.uri_parts.specs.Models.AuthorityParsing.{host_end, host_and_port_length};
ghost use Rattle.uri_parts.specs.Models.Parsing.{authority_positions, schemeless_positions, parsed_positions};
ghost use Rattle.uri_parts.specs.Refusals.{error_from_path, error_from_relative_path, refusal};
ghost use Rattle.uri_parts.specs.Models.ParseErrors.{authority_error, host_error, schemeless_error, parsed_error};
ghost use Rattle.uri_parts.specs.Errors.{IsErrorIn, unexpected};
ghost use Rattle.uri_parts.specs.Grammar.{IsOfKind, first_segment_set};
ghost use Rattle.uri_parts.specs.PackedPositions.{ArePackedPositionsOf, packed};
ghost use Rattle.uri_parts.specs.Models.Cursors.{text_after_cursor, cursor_text, cursor_position, packed_from, packed_if_parsed_from};

use crate::authority_parser::{find_host, is_before_literal, pass_name, pass_userinfo};
use crate::cursor::Cursor;
use crate::error::{Padding, ParseError};
use crate::kind::Kind;
use crate::packed_positions::PackedPositions;
use crate::scheme_prefix::pass_scheme;

/// What comes before the rest of a path, in the words of [`PackedPositions`].
#[derive(Clone, Copy)]
struct BeforePath {
    path_start: usize,
    padding: Padding,
    scheme_end: usize,
    host_start: usize,
    host_end: usize,
}

/// What comes before a path that the text begins with.
const NOTHING: BeforePath = BeforePath {
    path_start: 0,
    padding: Padding::BYTE,
    scheme_end: 0,
    host_start: 0,
    host_end: 0,
};

/// Parses the rest of a path, the query and the fragment after it, and then the end of the text.
#[tactic(auto, unfolding(crate::proofs::Steps::tail))]
#[inline(always)]
fn parse_path<K: Kind>(
    cursor: &mut Cursor<'_>,
    before: BeforePath,
) -> Result<PackedPositions, ParseError>
    ensures places { IfOk result (λ p. p ≡ packed_if_parsed_from K.kind before cursor.old) }
    ensures refused { result_err result
        ≡ error_from_path K.kind (cursor_text cursor.old) (cursor_position cursor.old) }
    ensures err { IfErr result (IsErrorIn (cursor_text cursor.old)) }
{
    let path_end = cursor.pass(&K::tables().path)?;
    let query_end = if cursor.skip(b'?') {
        cursor.pass(&K::tables().query)?
    } else {
        path_end
    };
    if cursor.skip(b'#') {
        cursor.pass(&K::tables().fragment)?;
    }
    if !cursor.is_at_end() {
        return Err(cursor.unexpected());
    }
    Ok(PackedPositions {
        scheme_end: before.scheme_end,
        host_start: before.host_start,
        host_end: before.host_end,
        path_start: before.path_start,
        path_end,
        query_end,
    })
}

/// Passes a host and the port after it, if there is one. They must end the authority, which comes
/// before a path.
#[tactic(auto)]
#[inline(always)]
fn pass_host<K: Kind>(cursor: &mut Cursor<'_>, scheme_end: usize) -> Result<BeforePath, ParseError>
    ensures start { IfOk result (λ b. b.path_start ≡ cursor_position cursor.new) }
    ensures scheme { IfOk result (λ b. b.scheme_end ≡ scheme_end) }
    ensures host_start { IfOk result (λ b. b.host_start ≡ cursor_position cursor.old) }
    ensures host_end { IfOk result (λ b. b.host_end
        ≡ cursor_position cursor.old + host_end K.kind (text_after_cursor cursor.old)) }
    ensures place { OnOk result (cursor_position cursor.new
        ≡ cursor_position cursor.old + host_and_port_length K.kind (text_after_cursor cursor.old)) }
    ensures text { cursor_text cursor.new ≡ cursor_text cursor.old }
    ensures refused { let text = cursor_text cursor.old in
        host_error K.kind text (cursor_position cursor.old)
        ≡ option_or (result_err result) (error_from_path K.kind text (cursor_position cursor.new)) }
    ensures err { IfErr result (IsErrorIn (cursor_text cursor.old)) }
{
    let text = cursor.text();
    let host_start = cursor.position();
    let host = find_host::<K>(text, host_start)?;
    *cursor = Cursor::at(text, host.end);
    Ok(BeforePath {
        path_start: host.end,
        padding: Padding::BYTE,
        scheme_end,
        host_start,
        host_end: host.host_end,
    })
}

/// Parses an authority, which comes before a path.
#[tactic(auto, unfolding(crate::proofs::Steps::authority_before_path))]
#[inline(always)]
fn pass_authority<K: Kind>(
    cursor: &mut Cursor<'_>,
    scheme_end: usize,
) -> Result<BeforePath, ParseError>
    requires some { 0 < cursor_position cursor.old }
    ensures places { IfOk result (λ b.
        record (packed (authority_positions K.kind None (cursor_position cursor.old)
        (text_after_cursor cursor.old))) { scheme_end = scheme_end }
        ≡ packed_if_parsed_from K.kind b cursor.new) }
    ensures start { IfOk result (λ b. b.path_start ≡ cursor_position cursor.new) }
    ensures text { cursor_text cursor.new ≡ cursor_text cursor.old }
    ensures refused { let text = cursor_text cursor.old in
        authority_error K.kind text (cursor_position cursor.old)
        ≡ option_or (result_err result) (error_from_path K.kind text (cursor_position cursor.new)) }
    ensures err { IfErr result (IsErrorIn (cursor_text cursor.old)) }
{
    if is_before_literal::<K>(cursor) {
        return pass_host::<K>(cursor, scheme_end);
    }
    let host_start = cursor.position();
    let (host_end, is_whole) = pass_name::<K>(cursor);
    if is_whole {
        return Ok(BeforePath {
            path_start: cursor.position(),
            padding: Padding::BYTE,
            scheme_end,
            host_start,
            host_end,
        });
    }
    if cursor.is_before_excluded::<K>() {
        return Err(cursor.unexpected());
    }
    pass_userinfo::<K>(cursor)?;
    pass_host::<K>(cursor, scheme_end)
}

/// Returns whether what is next shows that a path without a scheme cannot begin there, and that
/// nothing of what may follow a path does.
#[tactic(auto, unfolding(crate::proofs::Steps::tail, crate::proofs::Steps::before_path))]
#[inline(always)]
fn is_unexpected<K: Kind>(cursor: &Cursor<'_>) -> bool
    ensures { let i = cursor_position cursor.now in IsTrue result
        → error_from_relative_path K.kind (cursor_text cursor.now) (first_segment_set K.kind) i
        ≡ Some (unexpected i) }
{
    cursor.is_before_excluded::<K>()
}

/// Parses the authority of a text that begins with `//`, and returns what comes before its path.
/// Few texts begin so: it is a call, so that the parser of an authority is inlined once.
#[tactic(auto, unfolding(crate::proofs::Steps::before_path, crate::proofs::Steps::tail))]
#[inline(never)]
fn pass_first_authority<K: Kind>(text: &str) -> Result<BeforePath, ParseError>
    requires { IsCharBoundary text.now 2 }
    ensures places { IfOk result (λ b. packed (authority_positions K.kind None 2 (drop 2 text.now))
        ≡ packed_from K.kind b b.path_start (drop b.path_start text.now)) }
    ensures boundary { IfOk result (λ b. IsCharBoundary text.now b.path_start) }
    ensures returned { IfErr result (λ e. authority_error K.kind text.now 2 ≡ Some e) }
    ensures goes_on { IfOk result (λ b. authority_error K.kind text.now 2
        ≡ error_from_path K.kind text.now b.path_start) }
    ensures err { IfErr result (IsErrorIn text.now) }
{
    let mut cursor = Cursor::at(text, 2);
    pass_authority::<K>(&mut cursor, 0)
}

/// Passes the authority of a text that begins with `//`, which was passed.
#[tactic(auto, unfolding(crate::proofs::Steps::before_path, crate::proofs::Steps::tail))]
#[inline(always)]
fn pass_after_slashes<K: Kind>(cursor: &mut Cursor<'_>) -> Result<BeforePath, ParseError>
    requires { cursor_position cursor.old ≡ 2 }
    ensures places { IfOk result (λ b.
        packed (authority_positions K.kind None 2 (text_after_cursor cursor.old))
        ≡ packed_if_parsed_from K.kind b cursor.new) }
    ensures text { cursor_text cursor.new ≡ cursor_text cursor.old }
    ensures refused { let text = cursor_text cursor.old in authority_error K.kind text 2
        ≡ option_or (result_err result) (error_from_path K.kind text (cursor_position cursor.new)) }
    ensures err { IfErr result (IsErrorIn (cursor_text cursor.old)) }
{
    let text = cursor.text();
    let before = pass_first_authority::<K>(text)?;
    *cursor = Cursor::at(text, before.path_start);
    Ok(before)
}

/// Parses what comes before a path in a text that has no scheme, from the characters on that might
/// have been one: an authority, or else the first segment, which has no `:`.
/// Neither an empty text nor a `/` after these characters needs a scan.
#[tactic(auto, unfolding(crate::proofs::Steps::beginning))]
#[inline(always)]
fn pass_schemeless<K: Kind>(cursor: &mut Cursor<'_>) -> Result<BeforePath, ParseError>
    ensures places { let segment = first_segment_set K.kind in IfOk result (λ b.
        packed (schemeless_positions segment K.kind (cursor_position cursor.old)
        (text_after_cursor cursor.old))
        ≡ packed_if_parsed_from K.kind b cursor.new) }
    ensures text { cursor_text cursor.new ≡ cursor_text cursor.old }
    ensures refused { let text = cursor_text cursor.old in
        schemeless_error (first_segment_set K.kind) K.kind text (cursor_position cursor.old)
        ≡ option_or (result_err result) (error_from_path K.kind text (cursor_position cursor.new)) }
    ensures err { IfErr result (IsErrorIn (cursor_text cursor.old)) }
{
    if cursor.position() == 0 {
        if cursor.skip_slashes() {
            return pass_after_slashes::<K>(cursor);
        }
        if cursor.is_at_end() {
            return Ok(NOTHING);
        }
        if is_unexpected::<K>(cursor) {
            return Err(cursor.unexpected());
        }
    } else if cursor.next_is(b'/') {
        return Ok(NOTHING);
    }
    cursor.pass(&K::tables().segment_nz_nc)?;
    if cursor.next_is(b':') {
        return Err(cursor.unexpected());
    }
    Ok(NOTHING)
}

/// Parses what comes before a path, from the beginning of the text on.
#[tactic(auto, using(crate::proofs::Steps::schemes), unfolding(crate::proofs::Steps::beginning))]
#[inline(always)]
fn pass_before_path<K: Kind>(cursor: &mut Cursor<'_>) -> Result<BeforePath, ParseError>
    requires start { cursor_position cursor.old ≡ 0 }
    ensures places { let segment = first_segment_set K.kind in IfOk result (λ b.
        packed (parsed_positions segment K.kind (cursor_text cursor.old))
        ≡ packed_if_parsed_from K.kind b cursor.new) }
    ensures text { cursor_text cursor.new ≡ cursor_text cursor.old }
    ensures refused { let text = cursor_text cursor.old in
        parsed_error (first_segment_set K.kind) K.kind text
        ≡ option_or (result_err result) (error_from_path K.kind text (cursor_position cursor.new)) }
    ensures err { IfErr result (IsErrorIn (cursor_text cursor.old)) }
{
    let scheme = pass_scheme(cursor);
    if scheme.has_authority {
        return pass_authority::<K>(cursor, scheme.end);
    }
    if scheme.has_colon {
        if !scheme.is_scheme {
            return Err(Cursor::new(cursor.text()).unexpected());
        }
        return Ok(BeforePath {
            path_start: cursor.position(),
            padding: Padding::BYTE,
            scheme_end: scheme.end,
            host_start: 0,
            host_end: 0,
        });
    }
    if K::tables().needs_scheme {
        return Err(cursor.unexpected());
    }
    pass_schemeless::<K>(cursor)
}

/// Parses a whole text of the kind, and returns the positions of its components.
#[tactic(auto)]
#[inline(always)]
fn parse_text<K: Kind>(text: &str) -> Result<PackedPositions, ParseError>
    ensures places { IfOk result (λ p.
        p ≡ packed (parsed_positions (first_segment_set K.kind) K.kind text.now)) }
    ensures refused { result_err result ≡ parsed_error (first_segment_set K.kind) K.kind text.now }
    ensures err { IfErr result (IsErrorIn text.now) }
{
    let mut cursor = Cursor::new(text);
    let before = pass_before_path::<K>(&mut cursor)?;
    parse_path::<K>(&mut cursor, before)
}

/// Parses a text of the kind. Returns the positions of its components, or why it is not of the
/// kind.
#[inline(always)]
pub fn parse<K: Kind>(text: &str) -> Result<PackedPositions, ParseError>
    ensures accepts { IsOk result ↔ IsOfKind K.kind text.now }
    ensures positions { IfOk result (ArePackedPositionsOf text.now) }
    ensures refused { result_err result ≡ refusal K.kind text.now }
    ensures err { IfErr result (IsErrorIn text.now) }
{
    parse_text::<K>(text)
}
