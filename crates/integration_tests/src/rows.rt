//! What `vectors` prints for rows that differ and for malformed rows, and the status that it ends
//! with. Its stored run has rows that hold.
use crate::comparison::equal;
use std::alloc::Global;
use std::process::Abort;
use test_vectors::run::run;
use test_vectors::{Row, push_rows};

/// Checks the status that `vectors` ends with for these rows, and the lines that it prints.
fn prints<R: Abort>(rt: &R, alloc: Global, text: &str, status: u8, lines: &str) {
    let mut rows: Vec<Row<'_>> = Vec::new(alloc);
    push_rows(alloc, "f", text.as_bytes(), &mut rows).expect(rt, text);
    let mut out = Vec::new(alloc);
    equal(run(alloc, rows.as_slice(), &mut out), status).expect(rt, lines);
    equal(out.as_slice(), lines.as_bytes()).expect(rt, lines);
}

/// Rows of which each differs in one thing, and one among them that holds.
const DIFFER: &str = "\
error uri foo -> UnexpectedChar 2
error uri foo -> InvalidPctEncodedOctet 3
error uri foo -> UnexpectedChar 3
normalize uri-ref //@: -> //@:
normalize-under uri S://h:1 t 1 -> s://h
normalize-strict uri s:/.. -> s:/
resolve uri s:/a/b ../c -> s:/a/c
resolve-strict uri s:/a ../c -> s:/c
resolve uri s:a b -> error BaseWithFragment
";

const DIFFERENCES: &str = "\
fail f:1: expected UnexpectedChar 2, got UnexpectedChar 3
fail f:2: expected InvalidPctEncodedOctet 3, got UnexpectedChar 3
fail f:4: expected //@:, got //@
fail f:5: expected s://h, got s://h:1
fail f:6: expected s:/, got error PathUnderflow
fail f:7: expected s:/a/c, got s:/c
fail f:8: expected s:/c, got error PathUnderflow
fail f:9: expected error BaseWithFragment, got error InvalidReferenceAgainstOpaqueBase
rows 9 failed 8
";

/// Tests that `vectors` prints a line for each row that differs.
#[test]
fn rows_that_differ_are_named(rt: HostRuntime) {
    prints(&rt, rt.alloc(), DIFFER, 1, DIFFERENCES);
}

/// Malformed rows.
const MALFORMED: &str = "\
parse uri s:/a
# a comment
pars uri s:/a -> path=/a
parse url s:/a -> path=/a
parse uri -> path=/a
parse uri s:/a s:/b -> scheme=s path=/a
parse uri s:\\x -> scheme=s path=/a
parse uri s:\\u{110000} -> scheme=s path=/a
normalize-under uri s:/ s x -> s:/
resolve uri a b -> b
";

const FAULTS: &str = "\
fail f:1: no ` -> `
fail f:3: no such operation
fail f:4: no such kind
fail f:5: a field is missing
fail f:6: a field too many
fail f:7: an escape is malformed
fail f:8: no such character
fail f:9: a field is not a number
fail f:10: a text is not of its kind
rows 9 failed 9
";

/// Tests that `vectors` prints a line for each malformed row.
#[test]
fn malformed_rows_are_named(rt: HostRuntime) {
    prints(&rt, rt.alloc(), MALFORMED, 1, FAULTS);
}
