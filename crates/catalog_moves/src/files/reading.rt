//! A table of files is made of the entries of a catalogue.

ghost use Rattle.std.specs.Prelude.{◌≡◌, ℕ, false, true, [], map, find, None, IfOk, OnOk, option_map};
ghost use Rattle.std.specs.Option.{ForSome};
ghost use Rattle.calculus.specs.Keys.{same_key};
ghost use Rattle.calculus.specs.Lists.{differ_by};
ghost use Rattle.calculus.specs.declared.query.RelKey.{RelKey as Key};
ghost use Rattle.stored_database.specs.Printed.{files_in, printed, HasFiles};
ghost use Rattle.page_chain.specs.Pages.{Pages};
ghost use Rattle.calculus.specs.Database.{Db};
ghost use Rattle.calculus.specs.IsDatabase.{IsDatabase};
ghost use Rattle.catalog_moves.specs.Bases.{IndexBases};
ghost use Rattle.catalog_rows.specs.Shown.{entry_in};
ghost use Rattle.catalog_moves.specs.Files.{files_of, place_at, places_of, place_in};

use super::FileTable;
use calculus::OutOfMemory;
use catalog_rows::EntryRow;
use std::alloc::Global;

/// Puts the files that entries say into an empty table; whether no key stands twice.
fn put_all(alloc: Global, table: &mut FileTable, entries: &[EntryRow]) -> Result<bool, OutOfMemory>
    requires { places_of table.old ≡ [] }
    ensures once { IfOk result (λ once. once ≡ true → (key : Key) → place_at (places_of table.new) key ≡ option_map place_in (find (λ e. same_key e.key key) entries.now)) }
    ensures twice { IfOk result (λ once. once ≡ false → differ_by same_key (map (λ e. e.key) entries.now) ≡ false) }
{
    for entry in entries {
        if table.has(&entry.key) {
            return Ok(false);
        }
        table.put(alloc, &entry.key, entry.file, entry.used, entry.base)?;
    }
    Ok(true)
}

impl FileTable {
    /// The files that entries say; `None` only where a key stands twice.
    pub fn of_entries(alloc: Global, entries: &[EntryRow]) -> Result<Option<FileTable>, OutOfMemory>
        ensures found { IfOk result (λ found. ForSome found (λ table.
            files_of table ≡ files_in (record { entries = map entry_in entries.now; columns = []; parts = [] }))) }
        ensures places { IfOk result (λ found. ForSome found (λ table.
            (key : Key) → place_at (places_of table) key ≡ option_map place_in (find (λ e. same_key e.key key) entries.now))) }
        ensures bases { IfOk result (λ found. ForSome found (λ table. (db : Db) (files : ℕ → Pages) → IsDatabase db
            → HasFiles db files (files_of table) → map entry_in entries.now ≡ (printed db (files_of table)).entries → IndexBases table db)) }
        ensures twice { IfOk result (λ found. found ≡ None → differ_by same_key (map (λ e. e.key) entries.now) ≡ false) }
    {
        let mut table = FileTable::new(alloc);
        if put_all(alloc, &mut table, entries)? {
            Ok(Some(table))
        } else {
            Ok(None)
        }
    }
}
