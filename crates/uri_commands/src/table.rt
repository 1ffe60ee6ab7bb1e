//! The commands of `uritool` and `urilines`, a row each. Both programs read names and forms from
//! the rows, and `tools/manual` the manual pages: the comment of a row is its entry there.

/// The words for the four kinds.
pub static KINDS: [&str; 4] = ["uri", "uri-ref", "iri", "iri-ref"];

/// The words for the kinds of a base.
pub static BASES: [&str; 2] = ["uri", "iri"];

/// A command.
#[derive(Clone, Copy)]
pub struct CommandRow {
    /// Its name.
    pub name: &'static str,
    /// Whether its next word is a kind.
    pub has_kind: bool,
    /// Whether its next word is a base. If it has a kind too, that is the kind of the base.
    pub has_base: bool,
    /// Its form on the command line of `uritool`, or nothing if it is one of `urilines` alone.
    pub form: &'static str,
    /// What `urilines --help` says of it.
    pub help: &'static str,
}

/// Writes the normal form (RFC 3986, section 6.2.2), without a default or empty port (section
/// 6.2.3). Two texts have the same normal form exactly if they are equivalent.
pub const NORMALIZE: CommandRow = CommandRow {
    name: "normalize",
    has_kind: true,
    has_base: false,
    form: "[--scheme-rules] normalize KIND TEXT",
    help: "Write the normal form of each line",
};

/// Writes the target of the reference against the base (RFC 3986, section 5.2).
///
/// # In urilines
///
/// The base is taken without its fragment (section 5.1).
pub const RESOLVE: CommandRow = CommandRow {
    name: "resolve",
    has_kind: true,
    has_base: true,
    form: "resolve uri|iri BASE REF",
    help: "Write the target of each line against a base",
};

/// Writes a short reference that leads from the base to each target. It is the inverse of
/// `resolve`: the reference and the target itself resolve to the same text against the base without
/// its fragment. If the base's path has no dot segment, no such reference is shorter.
pub const RELATIVIZE: CommandRow = CommandRow {
    name: "relativize",
    has_kind: true,
    has_base: true,
    form: "",
    help: "Write a short reference that leads from a base to each line",
};

/// Passes on each line whose text is of the kind, unchanged, with what ends it. A line that is not
/// UTF-8 or lacks the field is not of the kind. A line that is longer than the maximum is not kept
/// in memory, and is an error.
pub const CHECK: CommandRow = CommandRow {
    name: "check",
    has_kind: true,
    has_base: false,
    form: "",
    help: "Pass on the lines that are of a kind, unchanged",
};

/// Writes the text of the kind that the link of a page is mended to: without white space at both
/// ends, tabs and newlines, and with each character percent-encoded that path, query or fragment
/// must not have. A text of the kind stays as it is. Scheme and authority never change: a link
/// whose authority is not one of the kind, or that lacks the scheme which the kind needs, is an
/// error. After a check of the host use what was written, and not the link.
pub const MEND: CommandRow = CommandRow {
    name: "mend",
    has_kind: true,
    has_base: false,
    form: "mend KIND TEXT",
    help: "Write what each line is mended to, as the link of a page",
};

/// # In uritool
///
/// Writes a line `NAME`=`TEXT` for each component that is present.
///
/// # In urilines
///
/// Writes an object of JSON (RFC 8259). Its members are the components that are present (`scheme`,
/// `authority`, `path`, `query` and `fragment`) and the parts of the authority (`userinfo`, `host`,
/// `host_kind` and `port`), which come after it. Each is a string. Different texts have different
/// objects.
pub const PARSE: CommandRow = CommandRow {
    name: "parse",
    has_kind: true,
    has_base: false,
    form: "parse KIND TEXT",
    help: "Write the components of each line as an object of JSON",
};

/// Writes an array of JSON (RFC 8259) that has the pairs of the query, each an array of a name and
/// a value. The query is split at each `&`, and a pair at its first `=`; empty substrings are
/// passed over, and a pair without `=` has an empty value. Percent-encoded octets are decoded.
/// Bytes that are not UTF-8 become U+FFFD, and `+` is not a space. The array of a text without a
/// query is empty.
pub const QUERY: CommandRow = CommandRow {
    name: "query",
    has_kind: true,
    has_base: false,
    form: "",
    help: "Write the pairs of the query of each line, decoded, as an array of JSON",
};

/// Writes the normal form of each text the first time that a text equivalent to it comes. A line
/// that is an error has no output, unless `--errors` is given. The normal forms that were met are
/// kept in memory, in a table whose keys are drawn at random.
pub const UNIQUE: CommandRow = CommandRow {
    name: "unique",
    has_kind: true,
    has_base: false,
    form: "",
    help: "Write the normal form of each line the first time that its meaning comes",
};

/// Resolves each URI reference against the base, and writes `new` or `known`, the number of its
/// target, from 0, and the normal form of the target. Equivalent targets are one.
///
/// # In uritool
///
/// For a reference that has no target it writes `refused` and why.
///
/// # In urilines
///
/// The base is taken without its fragment. The targets that were met are kept in memory.
pub const LINKS: CommandRow = CommandRow {
    name: "links",
    has_kind: false,
    has_base: true,
    form: "[--scheme-rules] links BASE REF...",
    help: "Write whether the target of each line is new, its id and itself",
};

/// The commands of `urilines`, in the order of its help.
pub static COMMANDS: [CommandRow; 9] = [
    NORMALIZE, RESOLVE, RELATIVIZE, CHECK, MEND, PARSE, QUERY, UNIQUE, LINKS,
];
