//! Laws of the errors that parsing returns, each the contract of a function that does nothing.
#![tactic(auto)]

ghost use Rattle.std.specs.Prelude.{◌≡◌, ℕ, List, false, true, map, take, Some, IsUtf8};
ghost use Rattle.uri_parts.specs.declared.error.ParseError.{ParseError};
ghost use Rattle.uri_parts.specs.Prelude.{error_index, iri, iri_ref, refusal, uri, uri_ref};
ghost use Rattle.error_laws.specs.ViablePrefixes.{IsViablePrefix, has_late_error};
ghost use Rattle.error_laws.specs.ViablePrefixRows.{late_error_rows};

/// What is before the index of an error begins some text of the kind, but for three exceptions, in
/// which the error is returned later: `has_late_error` says which texts these are.
///
/// `http://[vG.addr]` has its error at index 9, and `http://[v` begins `http://[v1.a]`.
pub fn what_is_before_an_error_begins_a_text()
    ensures uri { (text : List ℕ) (e : ParseError) → IsUtf8 text → refusal uri text ≡ Some e
        → has_late_error uri text ≡ false → IsViablePrefix uri (take (error_index e) text) }
    ensures uri_ref { (text : List ℕ) (e : ParseError) → IsUtf8 text
        → refusal uri_ref text ≡ Some e → has_late_error uri_ref text ≡ false
        → IsViablePrefix uri_ref (take (error_index e) text) }
    ensures iri { (text : List ℕ) (e : ParseError) → IsUtf8 text → refusal iri text ≡ Some e
        → has_late_error iri text ≡ false → IsViablePrefix iri (take (error_index e) text) }
    ensures iri_ref { (text : List ℕ) (e : ParseError) → IsUtf8 text
        → refusal iri_ref text ≡ Some e → has_late_error iri_ref text ≡ false
        → IsViablePrefix iri_ref (take (error_index e) text) }
{}

/// What is before the index of an error that is returned late begins no text of the kind. So the
/// texts of `has_late_error` are exactly those whose error is later than it might be.
///
/// `3ab` as a URI has its error at index 3, and no URI begins with `3ab`.
pub fn what_is_before_a_late_error_begins_no_text()
    ensures uri { (text : List ℕ) (e : ParseError) → IsUtf8 text → refusal uri text ≡ Some e
        → has_late_error uri text ≡ true → IsViablePrefix uri (take (error_index e) text) → ⊥ }
    ensures uri_ref { (text : List ℕ) (e : ParseError) → IsUtf8 text
        → refusal uri_ref text ≡ Some e → has_late_error uri_ref text ≡ true
        → IsViablePrefix uri_ref (take (error_index e) text) → ⊥ }
    ensures iri { (text : List ℕ) (e : ParseError) → IsUtf8 text → refusal iri text ≡ Some e
        → has_late_error iri text ≡ true → IsViablePrefix iri (take (error_index e) text) → ⊥ }
    ensures iri_ref { (text : List ℕ) (e : ParseError) → IsUtf8 text
        → refusal iri_ref text ≡ Some e → has_late_error iri_ref text ≡ true
        → IsViablePrefix iri_ref (take (error_index e) text) → ⊥ }
{}

/// Some example texts are, and some are not, the exceptions whose errors are returned late.
#[doc(hidden)]
pub fn some_texts_have_late_errors()
    ensures { map (λ row. has_late_error row.0 row.1) late_error_rows
        ≡ map (λ row. row.2) late_error_rows }
{}
