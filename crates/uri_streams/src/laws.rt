//! Laws of the lines of JSON. A law is a function that does nothing, and its contract states the
//! law.
ghost use Rattle.std.specs.Prelude.{◌≡◌, List, Option, bytes_eq, map, ℕ};
ghost use Rattle.std.specs.List.{IsDistinct};
ghost use Rattle.fluent_uri.specs.Prelude.{Components, IsTextOf, components};
ghost use Rattle.uri_streams.specs.Json.{json_of};
ghost use Rattle.uri_streams.specs.JsonTexts.{IsJsonTextOf, JsonValue};
ghost use Rattle.uri_streams.specs.JsonValues.{components_value, named_components, present, query_value};
ghost use Rattle.uri_streams.specs.Queries.{pairs_of_query, query_json};
ghost use Rattle.uri_commands.specs.Kinds.{kind_named};
ghost use Rattle.uri_commands.specs.declared.kinds.KindName.{KindName};

/// A JSON text represents one value (RFC 8259).
///
/// `["\u0041"]` represents an array of the string `A`, and nothing else.
pub fn a_json_text_represents_one_value()
    ensures { (text : List ℕ) (v w : JsonValue)
        → IsJsonTextOf v text → IsJsonTextOf w text → v ≡ w }
{}

/// The line that `urilines parse` writes for a text is a JSON text of an object, whose members are
/// the components of the text that are present, in order. Each has a name of its own.
///
/// `x:y` has the line `{"scheme":"x","path":"y"}`.
pub fn parse_lines_are_json_objects()
    ensures object { (name : KindName) (text : List ℕ) → IsTextOf (kind_named name) text
        → IsJsonTextOf (components_value (components text)) (json_of (components text)) }
    ensures names { (p : Components)
        → IsDistinct bytes_eq (map (λ one. one.0) (present (named_components p))) }
{}

/// Two texts are equal if the lines that `urilines parse` writes for them represent one value.
///
/// No text but `x:y` has a line that represents the object of `{"scheme":"x","path":"y"}`.
pub fn parse_lines_determine_their_texts()
    ensures { (name other : KindName) (a b : List ℕ) (v : JsonValue)
        → IsTextOf (kind_named name) a → IsTextOf (kind_named other) b
        → IsJsonTextOf v (json_of (components a)) → IsJsonTextOf v (json_of (components b))
        → a ≡ b }
{}

/// The line that `urilines query` writes for a query is a JSON text of an array, whose elements are
/// the decoded pairs of the query, in order, each an array of two strings.
///
/// `a=%22&b` has the line `[["a","\""],["b",""]]`.
pub fn query_lines_are_json_arrays()
    ensures { (query : Option (List ℕ)) → IsJsonTextOf (query_value query) (query_json query) }
{}

/// Two queries have the same decoded pairs if the lines that `urilines query` writes for them
/// represent one value.
///
/// `a=%22` and `a=%22&` have one line, `[["a","\""]]`, and the same pair.
pub fn query_lines_determine_their_pairs()
    ensures { (a b : Option (List ℕ)) (v : JsonValue)
        → IsJsonTextOf v (query_json a) → IsJsonTextOf v (query_json b)
        → pairs_of_query a ≡ pairs_of_query b }
{}
