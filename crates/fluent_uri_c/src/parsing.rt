//! The batch that parses each text of a column.
ghost use Rattle.fluent_uri_c.specs.Columns.{column32, column64, column_of};
ghost use Rattle.fluent_uri_c.specs.Kinds.{kind_numbered};
ghost use Rattle.fluent_uri_c.specs.PartColumns.{LeavesParts};

use crate::columns::{Offset, is_possible_column, text_at};
use crate::outcome::{Full, Outcome, report_full, report_progress};
use crate::parts::{Parts, parse};

/// Parses each text of a column as the kind with this number, and writes the parts of each, or its
/// error.
fn parse_column<O: Offset>(
    kind: u32,
    texts: &[u8],
    offsets: &[O],
    parts: &mut [Parts],
    outcome: &mut Outcome,
) -> u32
    ensures { LeavesParts (kind_numbered kind)
        (column_of O.value O.limit texts.now offsets.now)
        parts.old parts.new outcome.new result }
{
    if kind > 3 || !is_possible_column(texts, offsets) {
        return report_progress(9, 0, 0, outcome);
    }
    let count = offsets.len().saturating_sub(1);
    if parts.len() < count {
        let full = Full {
            buffer: 3,
            needed: count,
        };
        return report_full(full, 0, 0, outcome);
    }
    for index in 0..count {
        let Some(text) = text_at(texts, offsets, index) else {
            return report_progress(9, index, 0, outcome);
        };
        let _ = parse(kind, text, &mut parts[index]);
    }
    report_progress(0, count, 0, outcome)
}

/// Parses each text of a column as the kind, and writes the parts of each, or its error.
#[unsafe(no_mangle)]
pub extern "C" fn fluent_uri_parse_batch(
    kind: u32,
    texts: &[u8],
    offsets: &[u32],
    parts: &mut [Parts],
    outcome: &mut Outcome,
) -> u32
    ensures { LeavesParts (kind_numbered kind) (column32 texts.now offsets.now)
        parts.old parts.new outcome.new result }
{
    parse_column(kind, texts, offsets, parts, outcome)
}

/// Parses each text of a column as the kind, with offsets of 64 bits, and writes the parts of each,
/// or its error.
#[unsafe(no_mangle)]
pub extern "C" fn fluent_uri_parse_batch64(
    kind: u32,
    texts: &[u8],
    offsets: &[u64],
    parts: &mut [Parts],
    outcome: &mut Outcome,
) -> u32
    ensures { LeavesParts (kind_numbered kind) (column64 texts.now offsets.now)
        parts.old parts.new outcome.new result }
{
    parse_column(kind, texts, offsets, parts, outcome)
}
