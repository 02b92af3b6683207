//! How what comes back is printed.

ghost use Rattle.std.specs.Prelude.{◌≡◌, ◌++◌, IfErr, OnOk};
ghost use Rattle.std.specs.Io.KnownBytes.{Appends};
ghost use Rattle.fault_io.specs.Known.{GrewBy, IsFront};
ghost use Rattle.monitor.specs.Faults.{CountsSink, IsOfPrinting};
ghost use Rattle.monitor.specs.Printing.{closing_of, printed_as, row_of};
ghost use Rattle.quel_meaning.specs.Printed.{head_bytes, reply_bytes};

use crate::replies::push_reply;
use crate::tables::{push_head, push_row_line, push_rule};
use calculus::{Column, List, OutOfMemory, Reply, Row};
use fault_io::{Sink, SinkFault, write_all};
use message_codec::StageMessage;
use net_core::WorkFault;
use std::alloc::Global;

/// Adds the closing line of a table that is begun.
fn push_closing(out: &mut Vec<u8>, begun: &Option<List<Column>>) -> Result<(), OutOfMemory>
    ensures { OnOk result (out.new.items ≡ out.old.items ++ closing_of begun.now) }
{
    match begun {
        Some(columns) => push_rule(out, columns.items()),
        None => Ok(()),
    }
}

/// Adds the line of a row of the table that is begun.
fn push_row(out: &mut Vec<u8>, begun: &Option<List<Column>>, row: &Row) -> Result<(), OutOfMemory>
    ensures { OnOk result (out.new.items ≡ out.old.items ++ row_of begun.now row.now) }
{
    match begun {
        Some(columns) => push_row_line(out, columns.items(), row),
        None => Ok(()),
    }
}

/// Adds the closing line of a table that is begun, and the head of the next.
fn push_next(
    out: &mut Vec<u8>,
    begun: &Option<List<Column>>,
    columns: &[Column],
) -> Result<(), OutOfMemory>
    ensures { OnOk result (out.new.items ≡ out.old.items ++ closing_of begun.now ++ head_bytes columns.now) }
{
    push_closing(out, begun)?;
    push_head(out, columns)
}

/// Adds the closing line of a table that is begun, and a reply.
fn push_answer(
    out: &mut Vec<u8>,
    begun: &Option<List<Column>>,
    reply: &Reply,
) -> Result<(), OutOfMemory>
    ensures { OnOk result (out.new.items ≡ out.old.items ++ closing_of begun.now ++ reply_bytes reply.now) }
{
    push_closing(out, begun)?;
    push_reply(out, reply)
}

/// Adds what a message is printed as, behind a table that is begun or none.
#[tactic(auto, unfolding(quel_meaning::specs::Printed::reply_bytes))]
fn push_said(
    out: &mut Vec<u8>,
    begun: &Option<List<Column>>,
    said: &StageMessage,
) -> Result<(), OutOfMemory>
    ensures { OnOk result (out.new.items ≡ out.old.items ++ printed_as begun.now said.now) }
{
    match said {
        StageMessage::Head(columns) => push_next(out, begun, columns.items()),
        StageMessage::Row(row) => push_row(out, begun, row),
        StageMessage::Done => push_answer(out, begun, &Reply::Done),
        StageMessage::Refused(refusal) => push_answer(out, begun, &Reply::Refused(*refusal)),
        StageMessage::End => push_closing(out, begun),
        StageMessage::Text(_) => Ok(()),
        StageMessage::Tree(_) => Ok(()),
        StageMessage::Change(_) => Ok(()),
        StageMessage::Quit => Ok(()),
    }
}

/// Gives bytes to a sink.
pub(crate) fn put<K: Sink>(sink: &mut K, bytes: &[u8]) -> Result<(), WorkFault>
    ensures whole { OnOk result (Appends (K.written sink.old) (K.written sink.new) bytes.now) }
    ensures front { GrewBy (K.written sink.old) (K.written sink.new) (λ more. IsFront more bytes.now) }
    ensures counts { CountsSink (K.faults sink.old) (K.faults sink.new) (K.stalls sink.old) (K.stalls sink.new) result }
    ensures inside { IfErr result (λ fault. IsOfPrinting fault) }
{
    match write_all(sink, bytes) {
        Ok(()) => Ok(()),
        Err(SinkFault::Failed) => Err(WorkFault::Sink),
        Err(SinkFault::Stalled) => Err(WorkFault::Sink),
    }
}

/// Prints a message behind a table that is begun or none.
pub(crate) fn print<K: Sink>(
    alloc: Global,
    begun: &Option<List<Column>>,
    said: &StageMessage,
    sink: &mut K,
) -> Result<(), WorkFault>
    ensures whole { OnOk result (Appends (K.written sink.old) (K.written sink.new) (printed_as begun.now said.now)) }
    ensures front { GrewBy (K.written sink.old) (K.written sink.new) (λ more. IsFront more (printed_as begun.now said.now)) }
    ensures counts { CountsSink (K.faults sink.old) (K.faults sink.new) (K.stalls sink.old) (K.stalls sink.new) result }
    ensures inside { IfErr result (λ fault. IsOfPrinting fault) }
{
    let mut out = Vec::new(alloc);
    push_said(&mut out, begun, said)?;
    put(sink, &out)
}
