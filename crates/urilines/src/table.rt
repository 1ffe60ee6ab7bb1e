//! The options of `urilines`, a row each. The parser is made from the rows and from those of the
//! commands, which are in `table.rt` of `uri_commands`. So are the manual pages of `urilines` and
//! `uritool`, by `tools/manual`: the comment of a row is its entry there.

/// What follows an option.
#[derive(Clone, Copy)]
pub enum Value {
    /// Nothing.
    Nothing,
    /// A text, by its name in the help.
    Text(&'static str),
    /// A number below 2^32, by its name in the help.
    Number(&'static str),
    /// One of these words, by its name in the help.
    Word(&'static str, &'static [&'static str]),
}

/// An option of `urilines`. `--scheme-rules` is one of `uritool` too, before the command.
#[derive(Clone, Copy)]
pub struct OptionRow {
    /// Its long form, without `--`.
    pub name: &'static str,
    /// Its short form, without `-`, if it has one.
    pub short: Option<char>,
    /// What follows it.
    pub value: Value,
    /// The names of the commands that it goes with. If there are none, it goes with each.
    pub commands: &'static [&'static str],
    /// What the help says of it.
    pub help: &'static str,
}

/// The command gets the field of this number, from 1, and not the whole text. The other fields are
/// written as they are, and need not be UTF-8. An error takes the place of the field. A line with
/// fewer fields is an error, which takes the place of the line, and for `check` one that is not of
/// the kind. If the command writes nothing for the field, nothing is written for the line.
pub const FIELD: OptionRow = OptionRow {
    name: "field",
    short: None,
    value: Value::Number("N"),
    commands: &[],
    help: "Work on the field of this number, from 1, and keep the others",
};

/// What is between two fields: an ASCII character that no result and no message of the command has,
/// so that a line keeps its fields. The default is a tab. For `parse` and `query`, which write
/// JSON, it is a control character that JSON escapes; for `resolve` and `links` also another that
/// no URI may have, such as |, but no space; and for the others also one that a query may have,
/// such as a comma, but no letter or digit and none of - . _ ~ / : and '. Another character is
/// rejected. Quotes have no meaning.
pub const DELIMITER: OptionRow = OptionRow {
    name: "delimiter",
    short: None,
    value: Value::Text("C"),
    commands: &[],
    help: "What is between two fields, an ASCII character; a tab where none is given",
};

/// Texts end with NUL, and not with a newline.
pub const NULL: OptionRow = OptionRow {
    name: "null",
    short: Some('0'),
    value: Value::Nothing,
    commands: &[],
    help: "Texts end with NUL, and not with a newline",
};

/// The text or the field is mended first, as `mend` does, for the kind of texts that the command
/// gets: URI references for `resolve uri` and `links`, URIs for `relativize uri`. A link that
/// cannot be mended is an error, as it is without this option. `check` then passes each line that
/// can be mended, unchanged.
pub const MENDED: OptionRow = OptionRow {
    name: "mend",
    short: None,
    value: Value::Nothing,
    commands: &[],
    help: "Mend each line first, as the command mend does",
};

/// What happens to a line that is an error: `line` writes `error:` and the message in its place,
/// `drop` writes nothing, `stderr` writes the message with the number of the line to the error
/// output, and `stop` does so and ends the run. The default is `line`, and `drop` for `check` and
/// `unique`.
pub const ERRORS: OptionRow = OptionRow {
    name: "errors",
    short: None,
    value: Value::Word("WHERE", &["line", "drop", "stderr", "stop"]),
    commands: &[],
    help: "What happens to a line that is an error (default: line; drop for check and unique)",
};

/// A line with a longer text is an error. The default is 1048576. Memory is bounded by it, whatever
/// the input, beside what `unique` and `links` keep.
pub const MAX_LINE: OptionRow = OptionRow {
    name: "max-line",
    short: None,
    value: Value::Number("BYTES"),
    commands: &[],
    help: "A longer line is an error (default: 1048576)",
};

/// Says on the error output how many lines were read, and how many of them were errors: after the
/// first line of each second, also if lines are long in coming. At the end it says so with the
/// lines a second, which on a terminal is said without this option too.
pub const PROGRESS: OptionRow = OptionRow {
    name: "progress",
    short: None,
    value: Value::Nothing,
    commands: &[],
    help: "Say on the error output how far the run is, once a second",
};

/// Passes on each line whose text is not of the kind. The outputs with this option and without it,
/// merged by line, make up the input: each line is in one of them, and both keep the order. Only a
/// line that is longer than the maximum is in neither.
pub const INVERT: OptionRow = OptionRow {
    name: "invert",
    short: None,
    value: Value::Nothing,
    commands: &["check"],
    help: "Pass on the lines that are not of the kind",
};

/// The path of the reference is relative even if the path from the root is shorter, as pages that
/// are read from a disk need: from http://a/b/c/d to http://a/x it is ../../x, and not /x.
pub const PREFER_RELATIVE: OptionRow = OptionRow {
    name: "prefer-relative",
    short: None,
    value: Value::Nothing,
    commands: &["relativize"],
    help: "Write a relative path even if that from the root is shorter",
};

/// The target is by the basic algorithm as RFC 3986, section 5.2, prints it, which RDF asks for:
/// the base may then be opaque, %2E is no dot, and a target that has no authority and a path that
/// begins with // is an error.
pub const BASIC: OptionRow = OptionRow {
    name: "basic",
    short: None,
    value: Value::Nothing,
    commands: &["resolve"],
    help: "Resolve by the basic algorithm of RFC 3986, section 5.2, to the letter",
};

/// Normal forms are by the other rules of schemes too: http://a is written as http://a/, and
/// file://localhost/a as file:///a. Normal forms with the option and without it are no keys of one
/// table.
pub const SCHEME_RULES: OptionRow = OptionRow {
    name: "scheme-rules",
    short: None,
    value: Value::Nothing,
    commands: &["normalize", "unique", "links"],
    help: "Normalize by the rules of schemes: http://a is http://a/",
};

/// The options, in the order of the help.
pub static OPTIONS: [OptionRow; 11] = [
    FIELD,
    DELIMITER,
    NULL,
    MENDED,
    ERRORS,
    MAX_LINE,
    PROGRESS,
    INVERT,
    PREFER_RELATIVE,
    BASIC,
    SCHEME_RULES,
];
