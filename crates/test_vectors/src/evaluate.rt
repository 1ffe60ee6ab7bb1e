//! The result of what a row asks.

use crate::fields::{Fields, RowError, Words};
use crate::kinds::Kind;
use crate::references::{normalize, scheme};
use crate::settings::{EveryScheme, RowPort};
use crate::{ascii_hosts, basic, conversions, encoded, mending, orders, references, relative};
use fluent_uri::component::Scheme;
use fluent_uri::kind::{BaseKind, RefKind};
use fluent_uri::net::{IpAddr, Ipv4Addr, Ipv6Addr};
use fluent_uri::normalize::{DefaultPorts, Normalizer, StandardRules};
use std::alloc::Global;
use std::hash::{DefaultHasher, Hash, Hasher};
use uri_parts::kind::{self, IriKind, IriRefKind, UriKind, UriRefKind};

const NO_OPERATION: RowError = RowError::Malformed("no such operation");

/// Returns the words of a row's result: what its operation gives of its fields.
pub(crate) fn evaluate(alloc: Global, asked: &str) -> Result<Words, RowError> {
    let mut fields = Fields::new(alloc, asked);
    let mut words = Words::new(alloc);
    let operation = fields.word()?;
    if is_of_pair(operation) {
        evaluate_pair(alloc, operation, &mut fields, &mut words)?;
    } else {
        say(alloc, operation, &mut fields, &mut words)?;
    }
    if fields.is_at_end() {
        Ok(words)
    } else {
        Err(RowError::Malformed("a field too many"))
    }
}

/// Returns whether a word of a row is one of these.
fn is_one_of(word: &str, words: &[&str]) -> bool {
    for &one in words {
        if one == word {
            return true;
        }
    }
    false
}

/// Returns whether a row asks something of a base and a reference or a target.
fn is_of_pair(operation: &str) -> bool {
    operation.starts_with("resolve")
        || operation.starts_with("swap")
        || operation.starts_with("relativize")
}

/// The operations on a percent-encoded path.
const OF_PATH: &[&str] = &[
    "to-bytes",
    "to-string",
    "to-string-lossy",
    "read",
    "segments",
];

/// Those on a path and a delimiter.
const OF_DELIMITER: &[&str] = &["split", "split-once", "rsplit-once"];

/// Those on the value of a text that change nothing.
const OF_COMPONENTS: &[&str] = &["parse", "authority", "host", "ipv6", "port", "socket"];

/// Appends to a row's result what its operation gives of its fields, if it is not of a pair.
fn say(
    alloc: Global,
    operation: &str,
    fields: &mut Fields<'_>,
    words: &mut Words,
) -> Result<(), RowError> {
    if operation.starts_with("compare") {
        return evaluate_order(alloc, operation, fields, words);
    }
    if is_one_of(operation, OF_PATH) {
        return encoded::say_decoded_path(alloc, operation, fields.text()?.as_str(), words);
    }
    if is_one_of(operation, OF_DELIMITER) {
        return say_substrings(operation, fields, words);
    }
    match operation {
        "is-valid" => is_valid(fields, words),
        "encode" => encode(alloc, fields, words),
        "encode-bytes" => encode_bytes(alloc, fields, words),
        "scheme" => say_scheme(fields.text()?.as_str(), words),
        "same-scheme" => same_scheme(fields, words),
        "default-port" => default_port(alloc, fields.text()?.as_str(), words),
        "table" => encoded::table(alloc, fields.word()?, words),
        "print-ipv4" => print_ipv4(alloc, fields, words),
        "print-ipv6" => print_ipv6(alloc, fields, words),
        _ => evaluate_value(alloc, operation, fields, words),
    }
}

/// Takes a kind and a text from a row's fields, and appends what the row asks of them.
fn evaluate_value(
    alloc: Global,
    operation: &str,
    fields: &mut Fields<'_>,
    words: &mut Words,
) -> Result<(), RowError> {
    let kind = Kind::named(fields.word()?)?;
    let given = fields.text()?;
    let text = given.as_str();
    match operation {
        "to-uri" => conversions::convert(alloc, kind, Kind::Uri, text, words),
        "to-uri-ref" => conversions::convert(alloc, kind, Kind::UriRef, text, words),
        "to-iri" => conversions::convert(alloc, kind, Kind::Iri, text, words),
        "to-iri-ref" => conversions::convert(alloc, kind, Kind::IriRef, text, words),
        "encode-as-uri" => conversions::to_uri(alloc, kind, text, words),
        _ => match kind {
            Kind::Uri => of_kind::<UriKind>(alloc, operation, text, fields, words),
            Kind::UriRef => of_kind::<UriRefKind>(alloc, operation, text, fields, words),
            Kind::Iri => of_kind::<IriKind>(alloc, operation, text, fields, words),
            Kind::IriRef => of_kind::<IriRefKind>(alloc, operation, text, fields, words),
        },
    }
}

/// Appends to a row's result what the row asks of a text of this kind.
fn of_kind<K: kind::Kind>(
    alloc: Global,
    operation: &str,
    text: &str,
    fields: &mut Fields<'_>,
    words: &mut Words,
) -> Result<(), RowError> {
    match operation {
        "error" => references::error::<K>(alloc, text, words),
        "strip-fragment" => conversions::strip_fragment::<K>(alloc, text, words),
        "with-fragment" => {
            conversions::with_fragment::<K>(alloc, text, fields.text()?.as_str(), words)
        }
        "mend" => mending::mend::<K>(alloc, text, words),
        "is-normal" => orders::is_normal::<K, _>(alloc, DefaultPorts, text, words),
        "is-normal-by-rules" => orders::is_normal::<K, _>(alloc, StandardRules, text, words),
        "ascii-host" => ascii_hosts::ascii_host::<K>(alloc, text, words),
        _ if is_one_of(operation, OF_COMPONENTS) => {
            references::evaluate_text::<K>(alloc, operation, text, words)
        }
        _ => normal_form::<K>(alloc, operation, text, fields, words),
    }
}

/// Appends to a row's result the normal form of a text of this kind by the normaliser that the row
/// names, or the error of the text.
fn normal_form<K: kind::Kind>(
    alloc: Global,
    operation: &str,
    text: &str,
    fields: &mut Fields<'_>,
    words: &mut Words,
) -> Result<(), RowError> {
    let normalizer = Normalizer::new();
    match operation {
        "normalize" => normalize::<K, _>(alloc, normalizer, text, words),
        "normalize-strict" => {
            normalize::<K, _>(alloc, normalizer.allow_path_underflow(false), text, words)
        }
        "normalize-under" => {
            let (name, port) = (fields.word()?, fields.number()?);
            let scheme = match name {
                "*" => None,
                word => Some(scheme(word)?),
            };
            let rules = RowPort { scheme, port };
            normalize::<K, _>(alloc, normalizer.default_port_with(rules), text, words)
        }
        "normalize-by-rules" => {
            let by_rules = normalizer.scheme_rules_with(StandardRules);
            normalize::<K, _>(alloc, by_rules, text, words)
        }
        "normalize-by-rules-strict" => {
            let strict = normalizer.allow_path_underflow(false);
            normalize::<K, _>(alloc, strict.scheme_rules_with(StandardRules), text, words)
        }
        "normalize-by-every-rule" => {
            let (scheme, port) = (None, 80);
            let by_rules = normalizer
                .scheme_rules_with(EveryScheme)
                .default_port_with(RowPort { scheme, port });
            normalize::<K, _>(alloc, by_rules, text, words)
        }
        _ => Err(NO_OPERATION),
    }
}

/// Takes a kind, a base and a reference or a target from a row's fields, and appends what the row
/// asks of them.
fn evaluate_pair(
    alloc: Global,
    operation: &str,
    fields: &mut Fields<'_>,
    words: &mut Words,
) -> Result<(), RowError> {
    let kind = Kind::named(fields.word()?)?;
    let (base, other) = (fields.text()?, fields.text()?);
    let texts = (base.as_str(), other.as_str());
    match kind {
        Kind::Uri => of_base::<UriKind, UriRefKind>(alloc, operation, texts, words),
        Kind::Iri if operation == "swap-as-uris" => {
            references::swap_as_uris(alloc, texts.0, texts.1, words)
        }
        Kind::Iri => of_base::<IriKind, IriRefKind>(alloc, operation, texts, words),
        _ => Err(RowError::Malformed("a base is a `uri` or an `iri`")),
    }
}

/// Appends to a row's result what the row asks of a base of the kind `B`, and a reference of the
/// kind `K` or a target.
fn of_base<B: BaseKind, K: RefKind>(
    alloc: Global,
    operation: &str,
    (base, other): (&str, &str),
    words: &mut Words,
) -> Result<(), RowError> {
    match operation {
        "resolve" => references::resolve::<K>(alloc, true, base, other, words),
        "resolve-strict" => references::resolve::<K>(alloc, false, base, other, words),
        "resolve-normalized" => {
            references::resolve_normalized::<K, _>(alloc, DefaultPorts, base, other, words)
        }
        "resolve-by-rules" => {
            references::resolve_normalized::<K, _>(alloc, StandardRules, base, other, words)
        }
        "swap" => references::swap::<K>(alloc, base, other, words),
        "resolve-basic" => basic::resolve::<K>(alloc, base, other, words),
        "resolve-both" => basic::resolve_both::<K>(alloc, base, other, words),
        "relativize" => relative::relativize::<B>(alloc, false, base, other, words),
        "relativize-path" => relative::relativize::<B>(alloc, true, base, other, words),
        "relativize-back" => relative::relativize_back::<B, K>(alloc, base, other, words),
        _ => Err(NO_OPERATION),
    }
}

/// Takes a kind and two texts from a row's fields, and a port if the row gives one, and appends the
/// order of their normal forms.
fn evaluate_order(
    alloc: Global,
    operation: &str,
    fields: &mut Fields<'_>,
    words: &mut Words,
) -> Result<(), RowError> {
    let kind = Kind::named(fields.word()?)?;
    let (one, other) = (fields.text()?, fields.text()?);
    let texts = (one.as_str(), other.as_str());
    match kind {
        Kind::Uri => of_texts::<UriKind>(alloc, operation, texts, fields, words),
        Kind::UriRef => of_texts::<UriRefKind>(alloc, operation, texts, fields, words),
        Kind::Iri => of_texts::<IriKind>(alloc, operation, texts, fields, words),
        Kind::IriRef => of_texts::<IriRefKind>(alloc, operation, texts, fields, words),
    }
}

/// Appends to a row's result the order of the normal forms of two texts of this kind.
fn of_texts<K: kind::Kind>(
    alloc: Global,
    operation: &str,
    texts: (&str, &str),
    fields: &mut Fields<'_>,
    words: &mut Words,
) -> Result<(), RowError> {
    match operation {
        "compare" => orders::compare::<K, _>(alloc, DefaultPorts, texts, words),
        "compare-by-rules" => orders::compare::<K, _>(alloc, StandardRules, texts, words),
        "compare-under" => {
            let (scheme, port) = (None, fields.number()?);
            orders::compare::<K, _>(alloc, RowPort { scheme, port }, texts, words)
        }
        _ => Err(NO_OPERATION),
    }
}

/// Takes a path and a delimiter from a row's fields, and appends the substrings that it asks for.
fn say_substrings(
    operation: &str,
    fields: &mut Fields<'_>,
    words: &mut Words,
) -> Result<(), RowError> {
    let (text, delimiter) = (fields.text()?, fields.word()?);
    encoded::say_substrings(operation, text.as_str(), delimiter, words)
}

/// Takes an encoder and a text from a row's fields, and appends whether it allows the text.
fn is_valid(fields: &mut Fields<'_>, words: &mut Words) -> Result<(), RowError> {
    let (encoder, text) = (fields.word()?, fields.text()?);
    let is_valid = encoded::is_valid(encoder, text.as_str())?;
    Ok(words.verbatim(if is_valid { "yes" } else { "no" })?)
}

/// Takes an encoder and a text from a row's fields, and appends the text as it writes it.
fn encode(alloc: Global, fields: &mut Fields<'_>, words: &mut Words) -> Result<(), RowError> {
    let (encoder, text) = (fields.word()?, fields.text()?);
    encoded::encode(alloc, encoder, text.as_str().as_bytes(), true, words)
}

/// Takes an encoder and bytes from a row's fields, and appends the bytes as it writes them.
fn encode_bytes(alloc: Global, fields: &mut Fields<'_>, words: &mut Words) -> Result<(), RowError> {
    let (encoder, bytes) = (fields.word()?, fields.bytes()?);
    encoded::encode(alloc, encoder, bytes.as_slice(), false, words)
}

/// Appends to a row's result the text if it is a scheme, or `none`.
fn say_scheme(text: &str, words: &mut Words) -> Result<(), RowError> {
    Ok(match Scheme::new(text) {
        Some(scheme) => words.text(scheme.as_str())?,
        None => words.verbatim("none")?,
    })
}

/// Returns the hash of a scheme, for a row that compares two.
fn hash_of_scheme(scheme: Scheme<'_>) -> u64 {
    let mut state = DefaultHasher::new();
    scheme.hash(&mut state);
    state.finish()
}

/// Takes two schemes from a row's fields, and appends whether they are equal.
fn same_scheme(fields: &mut Fields<'_>, words: &mut Words) -> Result<(), RowError> {
    let (first, second) = (fields.text()?, fields.text()?);
    compare_schemes(scheme(first.as_str())?, scheme(second.as_str())?, words)
}

/// Appends to a row's result whether two schemes are equal, and whether their hashes say otherwise.
fn compare_schemes(
    first: Scheme<'_>,
    second: Scheme<'_>,
    words: &mut Words,
) -> Result<(), RowError> {
    let is_equal = first == second;
    words.verbatim(if is_equal { "equal" } else { "different" })?;
    let has_equal_hash = hash_of_scheme(first) == hash_of_scheme(second);
    Ok(words.unless(has_equal_hash == is_equal, "by another hash")?)
}

/// Appends to a row's result the default port of a scheme, and whether it differs in capitals.
fn default_port(alloc: Global, text: &str, words: &mut Words) -> Result<(), RowError> {
    let port = scheme(text)?.default_port();
    match port {
        Some(port) => words.verbatim(format!(in alloc; "{port}")?.as_str())?,
        None => words.verbatim("none")?,
    }
    let capitals = text.to_ascii_uppercase(alloc)?;
    let is_same = scheme(capitals.as_str())?.default_port() == port;
    Ok(words.unless(is_same, "but not in capitals")?)
}

/// Appends to a row's result what an `IpAddr` prints, unless the address printed the same.
fn say_address(alloc: Global, address: IpAddr, words: &mut Words) -> Result<(), RowError> {
    Ok(words.unless_said("either", format!(in alloc; "{address}")?.as_str())?)
}

/// Takes the next field of a row as a decimal number up to 255.
fn octet(fields: &mut Fields<'_>) -> Result<u8, RowError> {
    match u8::try_from(fields.number()?) {
        Ok(octet) => Ok(octet),
        Err(_) => Err(RowError::Malformed("a number is over 255")),
    }
}

/// Takes the numbers of an IPv4 address from a row's fields, and appends its text.
fn print_ipv4(alloc: Global, fields: &mut Fields<'_>, words: &mut Words) -> Result<(), RowError> {
    let (a, b) = (octet(fields)?, octet(fields)?);
    let (c, d) = (octet(fields)?, octet(fields)?);
    let address = Ipv4Addr::new(a, b, c, d);
    words.text(format!(in alloc; "{address}")?.as_str())?;
    say_address(alloc, IpAddr::V4(address), words)
}

/// Takes the numbers of an IPv6 address from a row's fields, and appends its text.
fn print_ipv6(alloc: Global, fields: &mut Fields<'_>, words: &mut Words) -> Result<(), RowError> {
    let mut numbers = [0u16; 8];
    for number in &mut numbers {
        *number = fields.hexadecimal()?;
    }
    let [a, b, c, d, e, f, g, h] = numbers;
    let address = Ipv6Addr::new(a, b, c, d, e, f, g, h);
    words.text(format!(in alloc; "{address}")?.as_str())?;
    say_address(alloc, IpAddr::V6(address), words)
}
