//! What `tools/bench/run` counts, done by the port: one sort of work on one text, again and again.
//! It is proved to be safe and to end; what it calls has the contracts.
#![tactic(auto)]

mod calls;

use crate::calls as call;
use fluent_uri::normalize::{Normalizer, RuleSet};
use fluent_uri::resolve::Resolver;
use fluent_uri::{Iri, Uri, UriRef};
use std::alloc::Global;
use uri_basic::BasicResolver;
use uri_links::links::Register;

/// What is returned for a text that is rejected, in place of the length of a result.
const REJECTED: u64 = u64::MAX;

/// Makes a call so many times, and returns the length of its last result.
macro_rules! length_of {
    ($rounds:expr, $call:expr) => {{
        let mut length = REJECTED;
        for _ in 0..$rounds {
            length = match $call {
                Some(answer) => answer.as_str().len() as u64,
                None => REJECTED,
            };
        }
        length
    }};
}

/// Resolves a URI reference by a resolver of a URI so many times, and returns the length of the
/// target, or `REJECTED`.
macro_rules! resolved_by {
    ($resolver:ident, $call:path; $alloc:expr, $base:expr, $reference:expr, $rounds:expr) => {
        match (call::parse_uri($base), call::parse_uri_ref($reference)) {
            (Ok(base), Ok(reference)) => {
                let resolver = $resolver::with_base(base);
                length_of!($rounds, $call($alloc, &resolver, reference))
            }
            _ => REJECTED,
        }
    };
}

/// Makes a call so many times with the text, and with the base if it needs one. `tools/bench/run`
/// has the numbers of the calls.
#[unsafe(no_mangle)]
pub extern "C" fn bench(alloc: Global, work: u32, text: &[u8], base: &[u8], rounds: u64) -> u64 {
    let Ok(text) = std::str::from_utf8(text) else {
        return REJECTED;
    };
    let Ok(base) = std::str::from_utf8(base) else {
        return REJECTED;
    };
    match work {
        0 => length_of!(rounds, call::parse_uri(text).ok()),
        1 => length_of!(rounds, call::parse_uri_ref(text).ok()),
        2 => length_of!(rounds, call::parse_iri(text).ok()),
        3 => length_of!(rounds, call::parse_iri_ref(text).ok()),
        4 => length_of!(rounds, call::normalize_uri(alloc, text)),
        5 => length_of!(rounds, call::normalize_uri_ref(alloc, text)),
        6 => length_of!(rounds, call::normalize_iri(alloc, text)),
        7 => length_of!(rounds, call::normalize_iri_ref(alloc, text)),
        8 => length_of!(rounds, call::resolve_uri(alloc, base, text)),
        9 => length_of!(rounds, call::resolve_iri(alloc, base, text)),
        10 => resolve_values(alloc, base, text, rounds),
        11 => length_of!(rounds, call::resolve_normalized(alloc, base, text)),
        12 => decode(alloc, text, rounds),
        13 => length_of!(rounds, call::encode(alloc, text)),
        14 => length_of!(rounds, call::to_uri(alloc, text)),
        15 => match call::parse_uri(text) {
            Ok(value) => length_of!(rounds, call::build(alloc, value)),
            Err(_) => REJECTED,
        },
        16 => links(alloc, base, text, rounds),
        17 => length_of!(rounds, call::copy(alloc, text)),
        18 => length_of!(rounds, call::copy_uri_ref(alloc, text)),
        19 => length_of!(rounds, call::mend_uri_ref(alloc, text).ok()),
        20 => length_of!(rounds, call::mend_iri_ref(alloc, text).ok()),
        21 => length_of!(rounds, call::mend_copy(alloc, text)),
        22 => normalize_by_rules(alloc, text, RuleSet::DefaultPorts, rounds),
        23 => normalize_by_rules(alloc, text, RuleSet::StandardRules, rounds),
        24 => resolved_by!(Resolver, call::resolve; alloc, base, text, rounds),
        25 => resolved_by!(BasicResolver, call::resolve_basic; alloc, base, text, rounds),
        _ => REJECTED,
    }
}

/// Parses a text as a URI and normalises it by these rules of schemes in so many counted rounds,
/// and returns the length of the normal form, or `REJECTED`.
fn normalize_by_rules(alloc: Global, text: &str, rules: RuleSet, rounds: u64) -> u64 {
    length_of!(rounds, call::normalize_by_rules(alloc, text, rules))
}

/// Resolves a URI reference against a URI in so many counted rounds, and returns the length of the
/// target, or `REJECTED`.
fn resolve_values(alloc: Global, base: &str, reference: &str, rounds: u64) -> u64 {
    let Ok(base) = call::parse_uri(base) else {
        return REJECTED;
    };
    let Ok(reference) = call::parse_uri_ref(reference) else {
        return REJECTED;
    };
    length_of!(rounds, call::resolve_values(alloc, base, reference))
}

/// Decodes the path of an IRI in so many counted rounds, and returns the length of the text, or
/// `REJECTED`.
fn decode(alloc: Global, text: &str, rounds: u64) -> u64 {
    let Ok(value) = call::parse_iri(text) else {
        return REJECTED;
    };
    length_of!(rounds, call::decode(alloc, value.path()))
}

/// Notes each line in a new register in so many counted rounds, and returns how many targets it has
/// then, or `REJECTED`.
fn links(alloc: Global, base: &str, lines: &str, rounds: u64) -> u64 {
    let Ok(base) = call::parse_uri(base) else {
        return REJECTED;
    };
    let mut targets = REJECTED;
    for _ in 0..rounds {
        let mut register = Register::new(alloc, Normalizer::new());
        for line in lines.split('\n') {
            if call::note(&mut register, &base, line).is_none() {
                return REJECTED;
            }
        }
        targets = register.len() as u64;
    }
    targets
}
