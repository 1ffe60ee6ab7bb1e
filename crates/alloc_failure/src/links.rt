//! A register of links, which a failed allocation leaves as it was.
use crate::requests::{end, report};
use crate::values::{is_text, parsed};
use fluent_uri::normalize::{Normalizer, SchemeRules, StandardRules};
use integration_tests::comparison::equal;
use std::alloc::AllocError;
use std::process::Abort;
use uri_links::links::{Outcome, Register};
use uri_parts::kind::{UriKind, UriRefKind};

/// Checks in a test of denied memory that the register of links has these targets.
fn has_targets<R: Abort, S: SchemeRules>(rt: &R, register: &Register<S>, targets: &[&str]) {
    equal(register.len(), targets.len()).expect(rt, "how many targets");
    for (id, &wanted) in targets.iter().enumerate() {
        let target = register.target(id).expect(rt, wanted);
        is_text(rt, target.as_str(), wanted);
    }
}

/// Notes a link in a register, and checks the outcome. If memory is denied, the register still has
/// the targets `held`, and notes the link again.
fn notes<R: Abort + Print, S: SchemeRules>(
    rt: &R,
    register: &mut Register<S>,
    text: &str,
    held: &[&str],
    wanted: Outcome,
) {
    let base = parsed::<_, UriKind>(rt, "s:/a");
    let reference = parsed::<_, UriRefKind>(rt, text);
    let outcome = match register.note(&base, &reference) {
        Ok(outcome) => outcome,
        Err(AllocError) => {
            report(rt, "note");
            has_targets(rt, register, held);
            register.note(&base, &reference).expect(rt, text)
        }
    };
    equal(outcome, wanted).expect(rt, text);
}

/// Tests a register that notes a new link, the same again and another while memory is denied.
#[test]
fn one_by_one(rt: HostRuntime) {
    let mut register = Register::new(rt.alloc(), Normalizer::new());
    notes(&rt, &mut register, "b", &[], Outcome::New(0));
    notes(&rt, &mut register, "%62", &["s:/b"], Outcome::Known(0));
    notes(&rt, &mut register, "c", &["s:/b"], Outcome::New(1));
    has_targets(&rt, &register, &["s:/b", "s:/c"]);
    end(&rt, rt.alloc());
}

/// Tests a register by the rules of schemes that notes links while memory is denied.
#[test]
fn links_by_rules(rt: HostRuntime) {
    let normalizer = Normalizer::new().scheme_rules_with(StandardRules);
    let mut register = Register::new(rt.alloc(), normalizer);
    notes(&rt, &mut register, "http://a", &[], Outcome::New(0));
    notes(
        &rt,
        &mut register,
        "http://a/",
        &["http://a/"],
        Outcome::Known(0),
    );
    has_targets(&rt, &register, &["http://a/"]);
    end(&rt, rt.alloc());
}

/// Tests a register that notes links together: if memory is denied, it noted a prefix of them.
#[test]
fn links_together(rt: HostRuntime) {
    let base = parsed::<_, UriKind>(&rt, "s:/a");
    let references = ["b", "./b"].map(|text| parsed::<_, UriRefKind>(&rt, text));
    let mut register = Register::new(rt.alloc(), Normalizer::new());
    match register.note_all(&base, &references) {
        Ok(outcomes) => {
            let wanted = [Outcome::New(0), Outcome::Known(0)];
            equal(outcomes.as_slice(), wanted.as_slice()).expect(&rt, "note_all");
            has_targets(&rt, &register, &["s:/b"]);
        }
        Err(AllocError) => {
            report(&rt, "note_all");
            has_targets(
                &rt,
                &register,
                ["s:/b"].get(..register.len()).expect(&rt, "a front"),
            );
        }
    }
    end(&rt, rt.alloc());
}
