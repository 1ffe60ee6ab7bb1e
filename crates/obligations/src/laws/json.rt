//! Lines of JSON (RFC 8259), as `urilines` writes them.
ghost use Rattle.std.specs.Prelude.{◌≡◌, Option, List, ℕ};
ghost use Rattle.fluent_uri.specs.Prelude.{IsTextOf, components};
ghost use Rattle.uri_commands.specs.Kinds.{kind_named};
ghost use Rattle.uri_streams.specs.Json.{json_of};
ghost use Rattle.uri_streams.specs.JsonTexts.{IsJsonTextOf, JsonValue};
ghost use Rattle.uri_streams.specs.JsonValues.{components_value, query_value};
ghost use Rattle.uri_streams.specs.Queries.{pairs_of_query, query_json};

use uri_commands::kinds::KindName;
use uri_streams::laws as line_laws;

/// A caller that reads a line of `parse` by a parser of JSON proves that it gets the object of the
/// components, and no other value.
pub fn read_as_components(name: KindName, text: &str)
    requires { IsTextOf (kind_named name) text.now }
    ensures object { IsJsonTextOf (components_value (components text.now))
        (json_of (components text.now)) }
    ensures alone { (value : JsonValue) → IsJsonTextOf value (json_of (components text.now))
        → value ≡ components_value (components text.now) }
{
    line_laws::parse_lines_are_json_objects();
    line_laws::a_json_text_represents_one_value();
}

/// A caller with a table whose keys are the values of such lines proves that a key has one text.
pub fn one_text_of_a_value(name: KindName, one: &str, other: &str)
    requires one { IsTextOf (kind_named name) one.now }
    requires other { IsTextOf (kind_named name) other.now }
    ensures { (value : JsonValue) → IsJsonTextOf value (json_of (components one.now))
        → IsJsonTextOf value (json_of (components other.now)) → one.now ≡ other.now }
{
    line_laws::parse_lines_determine_their_texts();
}

/// A caller that reads lines of `query` by a parser of JSON proves that each is an array of pairs,
/// and that queries of one value have the same pairs.
pub fn read_as_pairs()
    ensures array { (query : Option (List ℕ)) → IsJsonTextOf (query_value query)
        (query_json query) }
    ensures pairs { (one other : Option (List ℕ)) (value : JsonValue)
        → IsJsonTextOf value (query_json one) → IsJsonTextOf value (query_json other)
        → pairs_of_query one ≡ pairs_of_query other }
{
    line_laws::query_lines_are_json_arrays();
    line_laws::query_lines_determine_their_pairs();
}
