//! Reading a line.
ghost use Rattle.std.specs.Prelude.{◌≡◌, IfOk, IfSome, None, OnErr, OnOk};
ghost use Rattle.std.specs.Io.Buffered.{reader_remaining};
ghost use Rattle.std.specs.Io.KnownBytes.{IsAtEnd, Keeps};
ghost use Rattle.uri_streams.specs.Models.{FailsInWriting, IsFlushedIfDrained, KeepsFailures, ReadsPartOfLine, ReadsFirstLine};

use crate::failure::Cause;
use crate::source::Source;
use std::io::{Read, Write};
use uri_commands::sink::Sink;

/// Reads a line of an input into `line`, of which it keeps the first `limit` bytes. Returns whether
/// a `\r` is before its `end`, or `None` at the end of the input. Before the reader is asked for
/// more than it has buffered, the writer is flushed.
pub(crate) fn read_line<R: Read, W: Write>(
    reader: &mut Source<R>,
    writer: &mut Sink<W>,
    end: u8,
    limit: usize,
    line: &mut Vec<u8>,
) -> Result<Option<bool>, Cause>
    ensures line { IfOk result (λ read. IfSome read
        (ReadsFirstLine (reader_remaining R.remaining reader.old.reader)
        (reader_remaining R.remaining reader.new.reader) end limit line.new.items)) }
    ensures end { IfOk result (λ read. read ≡ None
        → IsAtEnd (reader_remaining R.remaining reader.old.reader)) }
    ensures ended { IfOk result (λ read. read ≡ None
        → Keeps (reader_remaining R.remaining reader.old.reader)
        (reader_remaining R.remaining reader.new.reader)) }
    ensures keeps { Keeps (W.contents writer.old.writer) (W.contents writer.new.writer) }
    ensures stopped { OnErr result
        (ReadsPartOfLine (reader_remaining R.remaining reader.old.reader)
        (reader_remaining R.remaining reader.new.reader) end) }
    ensures failures { KeepsFailures result reader.old reader.new writer.old writer.new }
{
    line.clear();
    let mut count = 0usize;
    let mut is_return = false;
    let mut reads = 0u64;
    while reads < u64::MAX {
        flush_before_read(reader, writer)?;
        let part = reader.take_part(writer, end, limit, is_return, line)?;
        count = count.saturating_add(part.count);
        is_return = part.is_return;
        if part.is_last {
            if count == 0 {
                return Ok(None);
            }
            return Ok(Some(is_return && part.count > 0));
        }
        reads += 1;
    }
    Err(reader.fail_too_many_reads(reads))
}

/// Flushes the writer if the reader has nothing buffered, so that output does not wait for input.
fn flush_before_read<R: Read, W: Write>(
    reader: &Source<R>,
    writer: &mut Sink<W>,
) -> Result<(), Cause>
    ensures keeps { Keeps (W.contents writer.old.writer) (W.contents writer.new.writer) }
    ensures failures { FailsInWriting result writer.old writer.new }
    ensures flushed { OnOk result (IsFlushedIfDrained reader.now.reader writer.new.is_flushed) }
{
    if reader.is_drained() && !writer.flush() {
        return Err(Cause::Output);
    }
    Ok(())
}
