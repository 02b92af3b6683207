//! What the first stage does when it has read.

ghost use Rattle.std.specs.Prelude.{◌≡◌, [], IfErr, OnErr, OnOk, Some};
ghost use Rattle.fault_io.specs.Files.{Files, stored};
ghost use Rattle.fault_io.specs.Shelves.{MayHaveStored};
ghost use Rattle.frame_codec.specs.Messages.{message_frames};
ghost use Rattle.monitor.specs.Faults.{CountsShelf, IsOfStoring};
ghost use Rattle.monitor.specs.Settling.{MayBeStored, at_behind, files_behind, frames_behind};
ghost use Rattle.monitor.specs.Standing.{IsDueAt};
ghost use Rattle.monitor.specs.declared.at.At.TheVariants.{Reading};

use crate::at::At;
use crate::event::Event;
use calculus::{List, OutOfMemory};
use fault_io::Shelf;
use message_codec::{Outgoing, quit_message, text_message};
use net_core::WorkFault;
use std::alloc::Global;

/// The frames of a batch.
fn send(alloc: Global, text: &[u8], out: &mut Outgoing) -> Result<(), OutOfMemory>
    requires { out.old ≡ [] }
    ensures { OnOk result (out.new ≡ message_frames 1 text.now) }
{
    let bytes = text.to_vec(alloc)?;
    out.put(text_message(List::of(bytes)))
}

/// The frame that says that the script has ended.
fn leave(alloc: Global, out: &mut Outgoing) -> Result<(), OutOfMemory>
    requires { out.old ≡ [] }
    ensures { OnOk result (out.new ≡ message_frames 10 []) }
{
    out.put(quit_message(alloc))
}

/// Stores bytes as the file of this name.
fn store<H: Shelf>(shelf: &mut H, name: &[u8], bytes: &[u8]) -> Result<(), WorkFault>
    ensures file { (known : Files) → H.files shelf.old ≡ Some known → OnOk result (H.files shelf.new ≡ Some (stored known name.now bytes.now)) }
    ensures failed { (known : Files) → H.files shelf.old ≡ Some known → OnErr result (MayHaveStored name.now bytes.now known (H.files shelf.new)) }
    ensures counts { CountsShelf (H.faults shelf.old) (H.faults shelf.new) result }
    ensures inside { IfErr result (λ fault. IsOfStoring fault) }
{
    match shelf.store(name, bytes) {
        Ok(()) => Ok(()),
        Err(_) => Err(WorkFault::Shelf),
    }
}

/// Sends the buffer or says that the script has ended, where it is so; stores the buffer as a file.
pub(crate) fn settle<H: Shelf>(
    alloc: Global,
    event: &Event,
    text: &[u8],
    at: &mut At,
    out: &mut Outgoing,
    shelf: &mut H,
) -> Result<(), WorkFault>
    requires nothing { out.old ≡ [] }
    requires reading { at.old ≡ Reading }
    ensures at { OnOk result (at.new ≡ at_behind event.now) }
    ensures out { OnOk result (out.new ≡ frames_behind event.now text.now) }
    ensures files { (known : Files) → H.files shelf.old ≡ Some known → OnOk result (H.files shelf.new ≡ Some (files_behind event.now known text.now)) }
    ensures failed { (known : Files) → H.files shelf.old ≡ Some known → OnErr result (MayBeStored event.now known text.now (H.files shelf.new)) }
    ensures due { IsDueAt at.new }
    ensures counts { CountsShelf (H.faults shelf.old) (H.faults shelf.new) result }
    ensures inside { IfErr result (λ fault. IsOfStoring fault) }
{
    match event {
        Event::GoesOn => Ok(()),
        Event::Sends => {
            send(alloc, text, out)?;
            *at = At::Waiting(None);
            Ok(())
        }
        Event::Leaves => {
            leave(alloc, out)?;
            *at = At::Ended;
            Ok(())
        }
        Event::Stores(name) => store(shelf, name.items(), text),
    }
}
