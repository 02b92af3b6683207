//! What says that a disk holds a database, and whose it is.

ghost use Rattle.std.specs.Prelude.{◌≡◌, ◌==◌, Some, IfOk, take, bytes_eq, if◌then◌else◌};
ghost use Rattle.disk_model.specs.Disk.{Image, RisesUpTo};
ghost use Rattle.am_traits.specs.Causes.{HasStoreCause};
ghost use Rattle.batch_file.specs.Layout.{first_byte};
ghost use Rattle.calculus.specs.Text.{trimmed};
ghost use Rattle.stored_database.specs.Denoting.{birth, header_bytes, header_of};
ghost use Rattle.db_disk.specs.Head.{IsHead};
ghost use Rattle.db_disk.specs.Held.{administrator};

use crate::header::put_header;
use am_traits::{PageStore, StoreFault};
use calculus::{Name, OutOfMemory};
use disk_model::{Addr, Page};
use std::alloc::Global;

/// The page of the header.
pub(crate) const HEADER: Addr = Addr { file: 0, page: 0 };

/// The page of the birth byte.
pub(crate) const BIRTH: Addr = Addr { file: 0, page: 1 };

/// What says that a disk holds a database.
#[derive(Drop)]
pub(crate) enum Head {
    /// A database of this administrator was born.
    Of(Name),
    /// There is no header.
    NoHeader,
    /// No database was born.
    Unborn,
}

/// The bytes without the blanks at their end.
fn trimmed(bytes: &[u8]) -> &[u8]
    ensures { result.now ≡ trimmed bytes.now }
{
    let mut rest = bytes;
    while let Some((last, front)) = rest.split_last() {
        if *last != b' ' {
            break;
        }
        rest = front;
    }
    rest
}

/// Whether a page begins as the header of this administrator's database.
#[tactic(auto, using(crate::proofs::Held::same_header))]
fn begins_as(page: &Page, dba: &Name) -> bool
    ensures { result ≡ bytes_eq (take 22 page.now) (header_bytes dba.now) }
{
    let mut wanted: Page = [0; 1024];
    put_header(&mut wanted, dba);
    page[..22] == wanted[..22]
}

/// The administrator whose header begins a page; `None` exactly where it is that of none.
pub fn header_name(alloc: Global, page: &Page) -> Result<Option<Name>, OutOfMemory>
    ensures { IfOk result (λ name. name ≡ header_of page.now) }
{
    match Name::of(alloc, trimmed(&page[10..22]))? {
        Some(dba) => {
            if begins_as(page, &dba) {
                Ok(Some(dba))
            } else {
                Ok(None)
            }
        }
        None => Ok(None),
    }
}

/// Reads whose database the pages hold.
fn read_header<S: PageStore>(alloc: Global, store: &mut S) -> Result<Option<Name>, StoreFault>
    ensures named { (m : Image) → S.pages store.old ≡ Some m → IfOk result (λ name. name ≡ administrator m) }
    ensures reads { RisesUpTo 1 (S.reads store.old) (S.reads store.new) }
    ensures same { S.pages store.new ≡ S.pages store.old }
    ensures came { (s : S) → S.came s store.old → S.came s store.new }
    ensures only_read { (s : S) → S.only_read s store.old → S.only_read s store.new }
    ensures cause { HasStoreCause (S.faults store.old) (S.faults store.new) result }
{
    let mut page: Page = [0; 1024];
    if !store.get(HEADER, &mut page)? {
        return Ok(None);
    }
    Ok(header_name(alloc, &page)?)
}

/// Whether there is a page, and it begins with 1.
fn begins(found: bool, page: &Page) -> bool
    ensures { result ≡ (first_byte (if found then Some page.now else None) == 1) }
{
    found && page[0] == 1
}

/// Reads whether a database was born.
fn read_birth<S: PageStore>(store: &mut S) -> Result<bool, StoreFault>
    ensures born { (m : Image) → S.pages store.old ≡ Some m → IfOk result (λ yes. yes ≡ (birth m == 1)) }
    ensures reads { RisesUpTo 1 (S.reads store.old) (S.reads store.new) }
    ensures same { S.pages store.new ≡ S.pages store.old }
    ensures came { (s : S) → S.came s store.old → S.came s store.new }
    ensures only_read { (s : S) → S.only_read s store.old → S.only_read s store.new }
    ensures cause { HasStoreCause (S.faults store.old) (S.faults store.new) result }
{
    let mut page: Page = [0; 1024];
    let found = store.get(BIRTH, &mut page)?;
    Ok(begins(found, &page))
}

/// Reads whether the pages hold a database, and whose.
pub(crate) fn read_head<S: PageStore>(alloc: Global, store: &mut S) -> Result<Head, StoreFault>
    ensures head { (m : Image) → S.pages store.old ≡ Some m → IfOk result (λ head. IsHead m head) }
    ensures reads { RisesUpTo 2 (S.reads store.old) (S.reads store.new) }
    ensures same { S.pages store.new ≡ S.pages store.old }
    ensures came { (s : S) → S.came s store.old → S.came s store.new }
    ensures only_read { (s : S) → S.only_read s store.old → S.only_read s store.new }
    ensures cause { HasStoreCause (S.faults store.old) (S.faults store.new) result }
{
    if !read_birth(store)? {
        return Ok(Head::Unborn);
    }
    match read_header(alloc, store)? {
        Some(dba) => Ok(Head::Of(dba)),
        None => Ok(Head::NoHeader),
    }
}
