//! A piece of work at the script.

ghost use Rattle.std.specs.Prelude.{◌≡◌, [], true, IfErr, OnErr, OnOk};
ghost use Rattle.base_trait.specs.Crashes.{AllDenote, LeavesBut};
ghost use Rattle.calculus.specs.Database.{Db};
ghost use Rattle.monitor.specs.Asked.{SourceAsked};
ghost use Rattle.monitor.specs.Doing.{HasDone, ReadPartly, SparesOut};
ghost use Rattle.monitor.specs.Faults.{CountsShelf, CountsSink, IsOfMonitor};
ghost use Rattle.monitor.specs.Lines.{SourceRead};
ghost use Rattle.monitor.specs.Standing.{IsDueAt, waits};
ghost use Rattle.monitor.specs.declared.at.At.TheVariants.{Reading};
ghost use Rattle.net_core.specs.Crashes.{IsForgotten};

use crate::at::At;
use crate::printing::put;
use crate::reader::Reader;
use crate::settling::settle;
use base_trait::Base;
use fault_io::{Shelf, Sink, Source};
use message_codec::Outgoing;
use net_core::WorkFault;
use std::alloc::Global;

/// Reads on, writes what it prints, and then sends the buffer, stores it or leaves.
pub(crate) fn read<H: Shelf, S: Source, K: Sink>(
    alloc: Global,
    reader: &mut Reader,
    heard: &mut usize,
    at: &mut At,
    out: &mut Outgoing,
    shelf: &mut H,
    source: &mut S,
    sink: &mut K,
) -> Result<(), WorkFault>
    requires nothing { out.old ≡ [] }
    requires reading { at.old ≡ Reading }
    ensures did { OnOk result (HasDone reader.old reader.new at.new out.new (S.left source.old) (S.left source.new) (H.files shelf.old) (H.files shelf.new) (K.written sink.old) (K.written sink.new)) }
    ensures part { OnErr result (ReadPartly reader.old (S.left source.old) (H.files shelf.old) (H.files shelf.new) (K.written sink.old) (K.written sink.new)) }
    ensures due { IsDueAt at.new }
    ensures source { SourceRead heard.old heard.new (S.left source.old) (S.left source.new) (S.given source.old) (S.given source.new) (S.faults source.old) (S.faults source.new) result }
    ensures ends { SourceAsked reader.old heard.old heard.new (S.left source.old) (S.left source.new) (S.ended source.old) (S.ended source.new) result }
    ensures shelf { CountsShelf (H.faults shelf.old) (H.faults shelf.new) result }
    ensures sink { CountsSink (K.faults sink.old) (K.faults sink.new) (K.stalls sink.old) (K.stalls sink.new) result }
    ensures spares { IfErr result (λ fault. SparesOut (H.files shelf.old) (H.files shelf.new) (K.written sink.old) (K.written sink.new) fault) }
    ensures inside { IfErr result (λ fault. IsOfMonitor fault) }
{
    let mut bytes = Vec::new(alloc);
    let event = reader.read_on(alloc, shelf, source, heard, &mut bytes)?;
    put(sink, &bytes)?;
    settle(alloc, &event, reader.text(), at, out, shelf)
}

/// Where the stage has given the turn away, it hands the database over.
pub(crate) fn give_turn<B: Base>(at: &At, base: &mut B)
    ensures kept { B.database base.new ≡ B.database base.old }
    ensures faults { B.faults base.new ≡ B.faults base.old }
    ensures still { (B.clock base.new ≡ B.clock base.old) × (B.reads base.new ≡ B.reads base.old) }
    ensures crash { LeavesBut (λ _. ⊥) (B.clock base.old) (B.clock base.new) (B.left_since base.old) (B.left_since base.new) }
    ensures durable { (db : Db) → AllDenote (B.clock base.old) (B.left_since base.old) db → AllDenote (B.clock base.new) (B.left_since base.new) db }
    ensures forgotten { waits at.now ≡ true → IsForgotten (B.schema base.new) (B.database base.new) }
{
    if !at.waits() {
        return;
    }
    base.hand_over();
}
