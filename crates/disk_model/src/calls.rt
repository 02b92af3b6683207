ghost use Rattle.std.specs.Prelude.{◌≡◌, ◌≤◌, Some, None, length, take, drop, IsTrue, false, true, List, map, ◌++◌, OnOk};
ghost use Rattle.disk_model.specs.Disk.{Image, IsSettled};
ghost use Rattle.disk_model.specs.declared.calls.Call.TheVariants.{Sync as ASync};
ghost use Rattle.disk_model.specs.Calls.{page_of, seen_after, seen_from, synced_from, touched_of, failed_call};
ghost use Rattle.disk_model.specs.Walks.{said, IsQuiet, IsQuietCall, filled_call};

use crate::disk::{Addr, Page};
use memory::OutOfMemory;

/// A write, a cut or a sync of a disk in memory, also one that failed.
#[derive(Clone, Copy, Debug, PartialEq, Eq)]
pub enum Call {
    /// A page was written at an address.
    Write(Addr, Page),
    /// A write at an address failed: reads there give what they gave before.
    FailedWrite(Addr),
    /// The pages of a file were taken away.
    Cut(u32),
    /// A cut of a file failed: reads there give what they gave before.
    FailedCut(u32),
    /// A sync was made.
    Sync,
    /// A sync failed.
    FailedSync,
    /// A crash left a page of this byte at each address of a file. It is no call: it stands for what
    /// a disk held at its start, and is never among the calls made since.
    Fill(u32, u8),
}

/// The entry of a call that failed.
pub fn failed(call: Call) -> Call
    ensures { result ≡ failed_call call }
{
    match call {
        Call::Write(a, _) | Call::FailedWrite(a) => Call::FailedWrite(a),
        Call::Cut(file) | Call::FailedCut(file) => Call::FailedCut(file),
        Call::Sync | Call::FailedSync => Call::FailedSync,
        Call::Fill(file, byte) => Call::Fill(file, byte),
    }
}

/// Fills a page with one byte.
#[tactic(auto, unfolding(crate::specs::Calls::page_of))]
fn fill(out: &mut Page, byte: u8)
    ensures { out.new ≡ page_of byte }
{
    *out = [byte; 1024];
}

/// What a call left at this address, where it says something of it.
fn says(call: &Call, a: Addr, out: &mut Page) -> Option<bool>
    ensures { (m : Image) → seen_after call.now m a ≡ said result out.new (m a) }
{
    match call {
        Call::Write(b, page) => {
            if a.file == b.file && a.page == b.page {
                *out = *page;
                return Some(true);
            }
            None
        }
        Call::Fill(file, byte) => {
            if a.file == *file {
                fill(out, *byte);
                return Some(true);
            }
            None
        }
        Call::Cut(file) => {
            if a.file == *file {
                return Some(false);
            }
            None
        }
        Call::FailedWrite(_) | Call::FailedCut(_) | Call::Sync | Call::FailedSync => None,
    }
}

/// What the last of the calls that says something of this address left there.
pub fn look(calls: &[Call], a: Addr, out: &mut Page) -> Option<bool>
    ensures { (m : Image) → seen_from m calls.now a ≡ said result out.new (m a) }
{
    let mut n = calls.len();
    while n > 0 {
        n -= 1;
        if let Some(found) = says(&calls[n], a, out) {
            return Some(found);
        }
    }
    None
}

fn is_sync(call: &Call) -> bool
    ensures yes { IsTrue result → call.now ≡ ASync }
    ensures quiet { result ≡ false → IsQuietCall call.now }
{
    matches!(call, Call::Sync)
}

/// How many calls there are up to and with the last sync.
pub fn synced(calls: &[Call]) -> usize
    ensures bound { result ≤ length calls.now }
    ensures quiet { IsQuiet (drop result calls.now) }
    ensures settled { IsSettled (touched_of (take result calls.now)) }
    ensures stood { (m : Image) → synced_from m m calls.now ≡ seen_from m (take result calls.now) }
{
    let mut n = calls.len();
    while n > 0 {
        if is_sync(&calls[n - 1]) {
            return n;
        }
        n -= 1;
    }
    0
}

/// An entry that fills with one byte what this one touches.
fn filled(call: Call, byte: u8) -> Call
    ensures { result ≡ filled_call byte call }
{
    match call {
        Call::Write(a, _) | Call::FailedWrite(a) => {
            let mut page = [0; 1024];
            fill(&mut page, byte);
            Call::Write(a, page)
        }
        Call::Cut(file) | Call::FailedCut(file) | Call::Fill(file, _) => Call::Fill(file, byte),
        Call::Sync => Call::Sync,
        Call::FailedSync => Call::FailedSync,
    }
}

/// Adds entries that fill with one byte what these calls touched.
pub fn fill_all(entries: &mut Vec<Call>, calls: &[Call], byte: u8) -> Result<(), OutOfMemory>
    ensures { OnOk result (entries.new.items ≡ entries.old.items ++ map (filled_call byte) calls.now) }
{
    for call in calls {
        entries.push(filled(*call, byte))?;
    }
    Ok(())
}
