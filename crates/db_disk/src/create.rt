//! A database is made on a disk.

ghost use Rattle.std.specs.Prelude.{◌≡◌, ◌≢◌, ◌⊎◌, ◌↔◌, ◌≤◌, ℕ, List, [], ◌∷◌, Some, None, Err, IsTrue, IfOk, OnOk, IsErrOf, if◌then◌else◌};
ghost use Rattle.fault_io.specs.Causes.{HasCause};
ghost use Rattle.disk_model.specs.Disk.{IsImage, IsSettled, LeavesOnly, OnlyReads};
ghost use Rattle.disk_model.specs.declared.disk.Addr.{Addr as At};
ghost use Rattle.disk_model.specs.History.{Came, CameSo};
ghost use Rattle.disk_model.specs.declared.calls.Call.TheVariants.{Write as AWrite, Sync as ASync};
ghost use Rattle.batch_file.specs.Layout.{addr, first_byte, gate};
ghost use Rattle.stored_database.specs.Denoting.{stored, empty_database};
ghost use Rattle.db_disk.specs.Created.{IsFresh, IsHeader, IsMaking, IsReady, IsNewDatabase, IsUnborn, UnbornOrHolds, birth, birth_page};
ghost use Rattle.db_disk.specs.Making.{Bears, BothCame, Clears, Creates, Heads, Prepares};
ghost use Rattle.db_disk.specs.Faults.{FailsBy};

use crate::fault::CreateFault;
use crate::head::{BIRTH, HEADER};
use crate::header::put_header;
use calculus::Name;
use disk_model::{Addr, Disk, DiskFailed, Page};
use page_cells::fresh_page;

/// The page of the gate.
const GATE: Addr = Addr { file: 1, page: 0 };

/// Writes another page than that of the birth byte.
fn write_beside<D: Disk>(disk: &mut D, a: Addr, page: &Page) -> Result<(), DiskFailed>
    requires beside { a ≢ birth_page }
    requires unborn { IsTrue D.is_known → IsUnborn (D.seen disk.old) (D.touched disk.old) }
    ensures unborn { IsTrue D.is_known → IsUnborn (D.seen disk.new) (D.touched disk.new) }
    ensures crash { IsTrue D.is_known → (s : D) (dba : List ℕ) → IsMaking D.seen D.touched D.clock D.left_since dba s disk.old
        → IsMaking D.seen D.touched D.clock D.left_since dba s disk.new }
    ensures written { IsTrue D.is_known → OnOk result (D.seen disk.new a ≡ Some page.now) }
    ensures elsewhere { IsTrue D.is_known → (b : At) → b ≢ a → D.seen disk.new b ≡ D.seen disk.old b }
    ensures noted { OnOk result (Came (D.history disk.old) (D.history disk.new) (AWrite a page.now ∷ [])) }
    ensures cause { HasCause (D.faults disk.old) (D.faults disk.new) result }
{
    disk.write(a, page)?;
    Ok(())
}

/// Shuts the gate and writes the header.
fn write_heads<D: Disk>(disk: &mut D, dba: &Name) -> Result<(), DiskFailed>
    requires unborn { IsTrue D.is_known → IsUnborn (D.seen disk.old) (D.touched disk.old) }
    ensures unborn { IsTrue D.is_known → IsUnborn (D.seen disk.new) (D.touched disk.new) }
    ensures crash { IsTrue D.is_known → (s : D) (dba : List ℕ) → IsMaking D.seen D.touched D.clock D.left_since dba s disk.old
        → IsMaking D.seen D.touched D.clock D.left_since dba s disk.new }
    ensures shut { IsTrue D.is_known → OnOk result (gate (D.seen disk.new) ≢ 1) }
    ensures header { IsTrue D.is_known → OnOk result (IsHeader dba.now (D.seen disk.new (addr 0 0))) }
    ensures made { OnOk result (CameSo (D.history disk.old) (D.history disk.new) (Heads dba.now)) }
    ensures cause { HasCause (D.faults disk.old) (D.faults disk.new) result }
{
    let mut page: Page = [0; 1024];
    write_beside(disk, GATE, &page)?;
    put_header(&mut page, dba);
    write_beside(disk, HEADER, &page)?;
    Ok(())
}

/// Writes the first page of a catalogue, without a row.
fn write_catalogue<D: Disk>(disk: &mut D, file: u32) -> Result<(), DiskFailed>
    requires file { 5 ≤ file }
    requires unborn { IsTrue D.is_known → IsUnborn (D.seen disk.old) (D.touched disk.old) }
    ensures unborn { IsTrue D.is_known → IsUnborn (D.seen disk.new) (D.touched disk.new) }
    ensures crash { IsTrue D.is_known → (s : D) (dba : List ℕ) → IsMaking D.seen D.touched D.clock D.left_since dba s disk.old
        → IsMaking D.seen D.touched D.clock D.left_since dba s disk.new }
    ensures elsewhere { IsTrue D.is_known → (b : At) → b ≢ addr file 0 → D.seen disk.new b ≡ D.seen disk.old b }
    ensures fresh { IsTrue D.is_known → OnOk result (IsFresh (D.seen disk.new (addr file 0))) }
    ensures made { OnOk result (CameSo (D.history disk.old) (D.history disk.new) (Clears file)) }
    ensures cause { HasCause (D.faults disk.old) (D.faults disk.new) result }
{
    let mut page: Page = [0; 1024];
    fresh_page(&mut page);
    write_beside(disk, Addr { file, page: 0 }, &page)?;
    Ok(())
}

/// Waits until all that was written is durable, none being born.
fn settle<D: Disk>(disk: &mut D) -> Result<(), DiskFailed>
    requires unborn { IsTrue D.is_known → IsUnborn (D.seen disk.old) (D.touched disk.old) }
    ensures unborn { IsTrue D.is_known → IsUnborn (D.seen disk.new) (D.touched disk.new) }
    ensures crash { IsTrue D.is_known → (s : D) (dba : List ℕ) → IsMaking D.seen D.touched D.clock D.left_since dba s disk.old
        → IsMaking D.seen D.touched D.clock D.left_since dba s disk.new }
    ensures same { IsTrue D.is_known → D.seen disk.new ≡ D.seen disk.old }
    ensures settled { IsTrue D.is_known → OnOk result (IsSettled (D.touched disk.new)) }
    ensures noted { OnOk result (Came (D.history disk.old) (D.history disk.new) (ASync ∷ [])) }
    ensures cause { HasCause (D.faults disk.old) (D.faults disk.new) result }
{
    disk.sync()?;
    Ok(())
}

/// Writes all but the birth byte.
fn prepare<D: Disk>(disk: &mut D, dba: &Name) -> Result<(), DiskFailed>
    requires unborn { IsTrue D.is_known → IsUnborn (D.seen disk.old) (D.touched disk.old) }
    ensures unborn { IsTrue D.is_known → IsUnborn (D.seen disk.new) (D.touched disk.new) }
    ensures crash { IsTrue D.is_known → (s : D) (dba : List ℕ) → IsMaking D.seen D.touched D.clock D.left_since dba s disk.old
        → IsMaking D.seen D.touched D.clock D.left_since dba s disk.new }
    ensures ready { IsTrue D.is_known → OnOk result (IsReady dba.now (D.seen disk.new)) }
    ensures settled { IsTrue D.is_known → OnOk result (IsSettled (D.touched disk.new)) }
    ensures made { OnOk result (CameSo (D.history disk.old) (D.history disk.new) (Prepares dba.now)) }
    ensures cause { HasCause (D.faults disk.old) (D.faults disk.new) result }
{
    write_heads(disk, dba)?;
    write_catalogue(disk, 5)?;
    write_catalogue(disk, 6)?;
    write_catalogue(disk, 7)?;
    settle(disk)?;
    Ok(())
}

/// Writes the birth byte.
fn give_birth<D: Disk>(disk: &mut D, dba: &Name) -> Result<(), DiskFailed>
    requires ready { IsTrue D.is_known → IsReady dba.now (D.seen disk.old) }
    requires settled { IsTrue D.is_known → IsSettled (D.touched disk.old) }
    ensures crash { IsTrue D.is_known → (s : D) → IsMaking D.seen D.touched D.clock D.left_since dba.now s disk.old
        → IsMaking D.seen D.touched D.clock D.left_since dba.now s disk.new }
    ensures new { IsTrue D.is_known → OnOk result (IsNewDatabase dba.now (D.seen disk.new)) }
    ensures settled { IsTrue D.is_known → OnOk result (IsSettled (D.touched disk.new)) }
    ensures made { OnOk result (CameSo (D.history disk.old) (D.history disk.new) Bears) }
    ensures cause { HasCause (D.faults disk.old) (D.faults disk.new) result }
{
    let mut page: Page = [0; 1024];
    page[0] = 1;
    disk.write(BIRTH, &page)?;
    disk.sync()?;
    Ok(())
}

/// Whether a database was born on the disk.
fn is_born<D: Disk>(disk: &mut D) -> Result<bool, DiskFailed>
    ensures born { IsTrue D.is_known → IfOk result (λ yes. IsTrue yes ↔ (birth (D.seen disk.old) ≡ 1)) }
    ensures same { IsTrue D.is_known → OnlyReads D.seen D.touched D.clock D.left_since disk.old disk.new }
    ensures unwritten { D.history disk.new ≡ D.history disk.old }
    ensures cause { HasCause (D.faults disk.old) (D.faults disk.new) result }
{
    let mut page: Page = [0; 1024];
    let found = disk.read(BIRTH, &mut page)?;
    Ok(begins(found, &page))
}

/// Whether there is a page, and it begins with 1.
fn begins(found: bool, page: &Page) -> bool
    ensures { IsTrue result ↔ (first_byte (if found then Some page.now else None) ≡ 1) }
{
    found && page[0] == 1
}

/// Whether a database was born on the disk, once what was written before is durable.
fn is_born_still<D: Disk>(disk: &mut D) -> Result<bool, DiskFailed>
    ensures born { IsTrue D.is_known → IfOk result (λ yes. IsTrue yes ↔ (birth (D.seen disk.old) ≡ 1)) }
    ensures same { IsTrue D.is_known → D.seen disk.new ≡ D.seen disk.old }
    ensures settled { IsTrue D.is_known → OnOk result (IsSettled (D.touched disk.new)) }
    ensures crash { IsTrue D.is_known → (dba : List ℕ) → IsMaking D.seen D.touched D.clock D.left_since dba disk.old disk.new }
    ensures noted { OnOk result (Came (D.history disk.old) (D.history disk.new) (ASync ∷ [])) }
    ensures cause { HasCause (D.faults disk.old) (D.faults disk.new) result }
{
    disk.sync()?;
    is_born(disk)
}

/// Makes the disk hold a database, where none was born on it and nothing is touched.
fn make<D: Disk>(disk: &mut D, dba: &Name) -> Result<(), DiskFailed>
    requires unborn { IsTrue D.is_known → birth (D.seen disk.old) ≢ 1 }
    requires settled { IsTrue D.is_known → IsSettled (D.touched disk.old) }
    ensures crash { IsTrue D.is_known → (s : D) → IsMaking D.seen D.touched D.clock D.left_since dba.now s disk.old
        → IsMaking D.seen D.touched D.clock D.left_since dba.now s disk.new }
    ensures new { IsTrue D.is_known → OnOk result (IsNewDatabase dba.now (D.seen disk.new)) }
    ensures settled { IsTrue D.is_known → OnOk result (IsSettled (D.touched disk.new)) }
    ensures made { OnOk result (BothCame (D.history disk.old) (D.history disk.new) dba.now) }
    ensures cause { HasCause (D.faults disk.old) (D.faults disk.new) result }
{
    prepare(disk, dba)?;
    give_birth(disk, dba)?;
    Ok(())
}

/// Makes the disk hold a database of this administrator without anything in it. It begins with a sync,
/// and then looks whether a database was born there: `Exists` exactly where one was. A crash at any
/// moment leaves an image of before, one on which no database is born, or one that holds the new
/// database. Takes no memory.
pub fn create_db<D: Disk>(disk: &mut D, dba: &Name) -> Result<(), CreateFault>
    ensures exists { IsTrue D.is_known → (IsErrOf result CreateFault.Exists → birth (D.seen disk.old) ≡ 1) }
    ensures born { IsTrue D.is_known → birth (D.seen disk.old) ≡ 1 → (result ≡ Err CreateFault.Exists) ⊎ (result ≡ Err CreateFault.Disk) }
    ensures crash { IsTrue D.is_known → LeavesOnly D.clock D.left_since disk.old disk.new
        (λ m. IsImage (D.seen disk.old) (D.touched disk.old) m ⊎ UnbornOrHolds dba.now m) }
    ensures new { IsTrue D.is_known → OnOk result (stored (D.seen disk.new) ≡ Some (empty_database dba.now)) }
    ensures settled { IsTrue D.is_known → OnOk result (IsSettled (D.touched disk.new)) }
    // Whatever is known of the disk's content, these calls were made and answered Ok.
    ensures made { OnOk result (CameSo (D.history disk.old) (D.history disk.new) (Creates dba.now)) }
    ensures unwritten { IsErrOf result CreateFault.Exists → Came (D.history disk.old) (D.history disk.new) (ASync ∷ []) }
    ensures cause { FailsBy (D.faults disk.old) (D.faults disk.new) result }
{
    let _name = dba.bytes();
    if is_born_still(disk)? {
        return Err(CreateFault::Exists);
    }
    make(disk, dba)?;
    Ok(())
}
