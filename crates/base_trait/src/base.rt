ghost use Rattle.std.specs.Prelude.{◌≡◌, ◌⊎◌, ◌≤◌, ◌+◌, ℕ, Bool, List, Option, Some, IfOk, OnOk, OnErr, IsErrOf, IsTrue, is_some, length, true};
ghost use Rattle.std.specs.Option.{ForSome};
ghost use Rattle.calculus.specs.Change.{IsLawful, laid};
ghost use Rattle.calculus.specs.Database.{Db, is_relation, rules_on, permits_on, entries};
ghost use Rattle.calculus.specs.Finding.{found};
ghost use Rattle.calculus.specs.IsDatabase.{IsDatabase, row_fits};
ghost use Rattle.calculus.specs.Rows.{Row as Values, has};
ghost use Rattle.calculus.specs.Schema.{schema_of};
ghost use Rattle.calculus.specs.Stored.{attrs_at, rows_at};
ghost use Rattle.calculus.specs.declared.probe.Place.{Place as At};
ghost use Rattle.calculus.specs.declared.query.RelKey.{RelKey as Key};
ghost use Rattle.base_trait.specs.Causes.{HasCause};
ghost use Rattle.base_trait.specs.Crashes.{LeavesBut, OnlyAsked, AllDenote};
ghost use Rattle.base_trait.specs.Scans.{Gives, IsOver, IsScan, first_place};
ghost use Rattle.base_trait.specs.Known.{known_at, query_at, is_named_by_view};

use crate::BaseFault;
use calculus::{DbChange, Name, Permit, Place, Probe, Query, RelInfo, RelKey, Row, Rule};
use std::alloc::Global;

/// A database that can be asked and changed.
///
/// What it is may be known or not: of one in memory it is known; of one over pages of a disk where
/// its pages denote a database. Where it isn't known, the clauses on what it is say nothing. Its
/// schema, which is all of it but the rows, is known all the same: the first answer fixes it, and
/// what doesn't ask for rows is answered by it.
pub trait Base {
    /// The database, where it is known.
    ghost database: { Self → Option Db };

    /// What is known of the schema, which is all of a database but its rows: the database itself where it
    /// is known, else one that has the schema that was read; of that one's rows nothing is said.
    ghost schema: { Self → Option Db };

    /// Whether the first answer fixes the schema. A base that answers by no schema says no here.
    ghost fixes: { Bool };

    /// How often a call to the disk below has failed. The count stands still at 2^64 - 1.
    ghost faults: { Self → ℕ };

    /// The clock of the disk below, which doesn't fall. Without a disk it stands at 0, as the next one does.
    ghost clock: { Self → ℕ };

    /// How often a page was read from the disk below.
    ghost reads: { Self → ℕ };

    /// A call that needs the catalogues reads at most so many pages for them: none once they are known. Of a
    /// disk that doesn't say what it holds, or on which a batch stands open, nothing is said before that.
    ghost cat: { Self → ℕ → Type 0 };

    /// How many pages the relation under a key has, where the catalogues are known.
    ghost pages: { Self → Key → ℕ };

    /// How many pages a scan of what stands under a key still reads from a place on, where nothing else is
    /// asked between its calls.
    ghost unread: { Self → Key → At → ℕ };

    /// What a crash at some moment from that one on may have left: an image that stands, redone, for
    /// this database, or for none. Without a disk there is no such image.
    ghost left_since: { Self → ℕ → Option Db → Type 0 };

    /// The disk below was restored, and no change has failed since.
    ghost ready: { Self → Bool };

    /// It came of that base by questions, and by handing over.
    ghost asked: { Self → Self → Type 0 };

    /// The rows that a scan of what stands under a key still gives from a place on, in its order.
    ghost left: { Self → Key → At → List Values };

    /// What is known is a database.
    ghost lawful: { (b : Self) (s : Db) → schema b ≡ Some s → IsDatabase s };

    /// Where the database is known, its schema is.
    ghost own: { (b : Self) (db : Db) → database b ≡ Some db → schema b ≡ Some db };

    /// From the first place on a scan gives each row once.
    ghost scanned: { (b : Self) (db : Db) (key : Key) → database b ≡ Some db
        → IsScan (rows_at db key) (left b key first_place) };

    /// This moment is one of those since an earlier one.
    ghost counts_now: { (b : Self) (t : ℕ) (o : Option Db) → t ≤ clock b → left_since b (clock b) o → left_since b t o };

    /// A whole scan reads each page of the relation once at most.
    ghost whole: { (b : Self) (key : Key) (at : At) → unread b key at ≤ pages b key };

    /// Before any question it comes of itself.
    ghost starts: { (b : Self) → asked b b };

    /// Questions leave the database as it is, and what scans still give.
    ghost asks_keep: { (before now : Self) → asked before now → (database now ≡ database before) × (left now ≡ left before) };

    /// Questions leave nothing else on the disk, and only an opening raises its clock.
    ghost asks: { (before now : Self) → asked before now
        → OnlyAsked (clock before) (clock now) (ready before) (ready now) (left_since before) (left_since now) };

    /// The name of the administrator.
    fn dba(&mut self, alloc: Global) -> Result<Name, BaseFault>
        ensures known { (s : Db) → schema self.old ≡ Some s → IfOk result (λ name. name ≡ s.dba) }
        ensures by_schema { (s : Db) → schema self.new ≡ Some s → IfOk result (λ name. name ≡ s.dba) }
        ensures kept { database self.new ≡ database self.old }
        ensures stays { (s : Db) → schema self.old ≡ Some s → schema self.new ≡ Some s }
        ensures fixed { IsTrue fixes → OnOk result (IsTrue (is_some (schema self.new))) }
        ensures ready { OnOk result (IsTrue (ready self.new)) }
        ensures cached { OnOk result (cat self.new 0) }
        ensures still_cached { cat self.old 0 → (cat self.new 0) × (pages self.new ≡ pages self.old) }
        ensures reads { (n : ℕ) → cat self.old n → reads self.new ≤ reads self.old + n }
        ensures asked { (b : Self) → asked b self.old → asked b self.new }
        ensures cause { HasCause (database self.old) (faults self.old) (faults self.new) result };

    /// The number of relations, views and indexes, without the catalogues.
    fn count(&mut self) -> Result<u32, BaseFault>
        ensures known { (s : Db) → schema self.old ≡ Some s → IfOk result (λ n. n ≡ length (entries s)) }
        ensures by_schema { (s : Db) → schema self.new ≡ Some s → IfOk result (λ n. n ≡ length (entries s)) }
        ensures kept { database self.new ≡ database self.old }
        ensures stays { (s : Db) → schema self.old ≡ Some s → schema self.new ≡ Some s }
        ensures fixed { IsTrue fixes → OnOk result (IsTrue (is_some (schema self.new))) }
        ensures ready { OnOk result (IsTrue (ready self.new)) }
        ensures cached { OnOk result (cat self.new 0) }
        ensures still_cached { cat self.old 0 → (cat self.new 0) × (pages self.new ≡ pages self.old) }
        ensures reads { (n : ℕ) → cat self.old n → reads self.new ≤ reads self.old + n }
        ensures asked { (b : Self) → asked b self.old → asked b self.new }
        ensures cause { HasCause (database self.old) (faults self.old) (faults self.new) result };

    /// What the user means by a name: the user's own relation or view, else the administrator's or
    /// the catalogue.
    fn find(
        &mut self,
        alloc: Global,
        name: &Name,
        user: &Name,
    ) -> Result<Option<RelInfo>, BaseFault>
        ensures known { (s : Db) → schema self.old ≡ Some s → IfOk result (λ info. info ≡ found s user.now name.now) }
        ensures by_schema { (s : Db) → schema self.new ≡ Some s → IfOk result (λ info. info ≡ found s user.now name.now) }
        ensures kept { database self.new ≡ database self.old }
        ensures stays { (s : Db) → schema self.old ≡ Some s → schema self.new ≡ Some s }
        ensures fixed { IsTrue fixes → OnOk result (IsTrue (is_some (schema self.new))) }
        ensures ready { OnOk result (IsTrue (ready self.new)) }
        ensures cached { OnOk result (cat self.new 0) }
        ensures still_cached { cat self.old 0 → (cat self.new 0) × (pages self.new ≡ pages self.old) }
        ensures reads { (n : ℕ) → cat self.old n → reads self.new ≤ reads self.old + n }
        ensures asked { (b : Self) → asked b self.old → asked b self.new }
        ensures cause { HasCause (database self.old) (faults self.old) (faults self.new) result };

    /// What stands under a key: a relation, a view, an index or a catalogue.
    fn info(&mut self, alloc: Global, key: &RelKey) -> Result<Option<RelInfo>, BaseFault>
        ensures known { (s : Db) → schema self.old ≡ Some s → IfOk result (λ info. info ≡ known_at s key.now) }
        ensures by_schema { (s : Db) → schema self.new ≡ Some s → IfOk result (λ info. info ≡ known_at s key.now) }
        ensures kept { database self.new ≡ database self.old }
        ensures stays { (s : Db) → schema self.old ≡ Some s → schema self.new ≡ Some s }
        ensures fixed { IsTrue fixes → OnOk result (IsTrue (is_some (schema self.new))) }
        ensures ready { OnOk result (IsTrue (ready self.new)) }
        ensures cached { OnOk result (cat self.new 0) }
        ensures still_cached { cat self.old 0 → (cat self.new 0) × (pages self.new ≡ pages self.old) }
        ensures reads { (n : ℕ) → cat self.old n → reads self.new ≤ reads self.old + n }
        ensures asked { (b : Self) → asked b self.old → asked b self.new }
        ensures cause { HasCause (database self.old) (faults self.old) (faults self.new) result };

    /// How many rows the relation or catalogue under a key has. Our own: so a change of one row
    /// needn't go over all.
    fn size(&mut self, alloc: Global, key: &RelKey) -> Result<u32, BaseFault>
        ensures known { (db : Db) → database self.old ≡ Some db → IfOk result (λ n. n ≡ length (rows_at db key.now)) }
        ensures kept { database self.new ≡ database self.old }
        ensures stays { (s : Db) → schema self.old ≡ Some s → schema self.new ≡ Some s }
        ensures fixed { IsTrue fixes → OnOk result (IsTrue (is_some (schema self.new))) }
        ensures ready { OnOk result (IsTrue (ready self.new)) }
        ensures cached { OnOk result (cat self.new 0) }
        ensures still_cached { cat self.old 0 → (cat self.new 0) × (pages self.new ≡ pages self.old) }
        ensures reads { (n : ℕ) → cat self.old n → reads self.new ≤ reads self.old + (n + pages self.new key.now) }
        ensures asked { (b : Self) → asked b self.old → asked b self.new }
        ensures cause { HasCause (database self.old) (faults self.old) (faults self.new) result };

    /// Whether the relation or catalogue under a key has the row. Our own, as `size`.
    fn has_row(&mut self, alloc: Global, key: &RelKey, row: &Row) -> Result<bool, BaseFault>
        ensures known { (db : Db) → database self.old ≡ Some db → IfOk result (λ b. b ≡ has (rows_at db key.now) row.now) }
        ensures kept { database self.new ≡ database self.old }
        ensures stays { (s : Db) → schema self.old ≡ Some s → schema self.new ≡ Some s }
        ensures fixed { IsTrue fixes → OnOk result (IsTrue (is_some (schema self.new))) }
        ensures ready { OnOk result (IsTrue (ready self.new)) }
        ensures cached { OnOk result (cat self.new 0) }
        ensures still_cached { cat self.old 0 → (cat self.new 0) × (pages self.new ≡ pages self.old) }
        ensures reads { (n : ℕ) → cat self.old n → reads self.new ≤ reads self.old + (n + pages self.new key.now) }
        ensures asked { (b : Self) → asked b self.old → asked b self.new }
        ensures cause { HasCause (database self.old) (faults self.old) (faults self.new) result };

    /// The next row of the relation or catalogue under a key that meets the probe, from a place on,
    /// which moves behind it; `None` where no more meets it, and then each further call from there on
    /// says so again. From the first place on, while nothing is changed, the calls give each row that
    /// meets the probe once.
    fn scan(
        &mut self,
        alloc: Global,
        key: &RelKey,
        probe: &Probe,
        at: &mut Place,
    ) -> Result<Option<Row>, BaseFault>
        ensures known { (db : Db) → database self.old ≡ Some db
            → Gives probe.now (left self.old key.now) at.old at.new result }
        ensures over { (db : Db) → database self.old ≡ Some db → IsOver probe.now (left self.old key.now) at.new result }
        // Whatever is known, a row of a base relation fits the attributes that the schema gives it.
        ensures fits { (s : Db) → schema self.new ≡ Some s → is_relation s key.now ≡ true
            → IfOk result (λ row. ForSome row (λ r. row_fits (attrs_at s key.now) r ≡ true)) }
        ensures same { left self.new ≡ left self.old }
        ensures kept { database self.new ≡ database self.old }
        ensures stays { (s : Db) → schema self.old ≡ Some s → schema self.new ≡ Some s }
        ensures fixed { IsTrue fixes → OnOk result (IsTrue (is_some (schema self.new))) }
        ensures ready { OnOk result (IsTrue (ready self.new)) }
        ensures cached { OnOk result (cat self.new 0) }
        ensures still_cached { cat self.old 0 → (cat self.new 0) × (pages self.new ≡ pages self.old) }
        ensures reads { (n : ℕ) → cat self.old n → reads self.new ≤ reads self.old + (n + pages self.new key.now) }
        // The first call, and each one behind it, leaves so much less to read.
        ensures begins { (n : ℕ) → cat self.old n → OnOk result (reads self.new + unread self.new key.now at.new ≤ reads self.old + (n + pages self.new key.now)) }
        ensures goes_on { cat self.old 0 → OnOk result (reads self.new + unread self.new key.now at.new ≤ reads self.old + unread self.old key.now at.old) }
        ensures asked { (b : Self) → asked b self.old → asked b self.new }
        ensures cause { HasCause (database self.old) (faults self.old) (faults self.new) result };

    /// The query of a view; `None` exactly where no view stands under the key.
    fn view(&mut self, alloc: Global, key: &RelKey) -> Result<Option<Query>, BaseFault>
        ensures known { (s : Db) → schema self.old ≡ Some s → IfOk result (λ q. q ≡ query_at s key.now) }
        ensures by_schema { (s : Db) → schema self.new ≡ Some s → IfOk result (λ q. q ≡ query_at s key.now) }
        ensures kept { database self.new ≡ database self.old }
        ensures stays { (s : Db) → schema self.old ≡ Some s → schema self.new ≡ Some s }
        ensures fixed { IsTrue fixes → OnOk result (IsTrue (is_some (schema self.new))) }
        ensures ready { OnOk result (IsTrue (ready self.new)) }
        ensures cached { OnOk result (cat self.new 0) }
        ensures still_cached { cat self.old 0 → (cat self.new 0) × (pages self.new ≡ pages self.old) }
        ensures reads { (n : ℕ) → cat self.old n → reads self.new ≤ reads self.old + n }
        ensures asked { (b : Self) → asked b self.old → asked b self.new }
        ensures cause { HasCause (database self.old) (faults self.old) (faults self.new) result };

    /// The rules of a relation, by number.
    fn rules(&mut self, alloc: Global, key: &RelKey) -> Result<Vec<Rule>, BaseFault>
        ensures known { (s : Db) → schema self.old ≡ Some s → IfOk result (λ rs. rs.items ≡ rules_on s key.now) }
        ensures by_schema { (s : Db) → schema self.new ≡ Some s → IfOk result (λ rs. rs.items ≡ rules_on s key.now) }
        ensures kept { database self.new ≡ database self.old }
        ensures stays { (s : Db) → schema self.old ≡ Some s → schema self.new ≡ Some s }
        ensures fixed { IsTrue fixes → OnOk result (IsTrue (is_some (schema self.new))) }
        ensures ready { OnOk result (IsTrue (ready self.new)) }
        ensures cached { OnOk result (cat self.new 0) }
        ensures still_cached { cat self.old 0 → (cat self.new 0) × (pages self.new ≡ pages self.old) }
        ensures reads { (n : ℕ) → cat self.old n → reads self.new ≤ reads self.old + n }
        ensures asked { (b : Self) → asked b self.old → asked b self.new }
        ensures cause { HasCause (database self.old) (faults self.old) (faults self.new) result };

    /// The permits of a relation, by number.
    fn permits(&mut self, alloc: Global, key: &RelKey) -> Result<Vec<Permit>, BaseFault>
        ensures known { (s : Db) → schema self.old ≡ Some s → IfOk result (λ ps. ps.items ≡ permits_on s key.now) }
        ensures by_schema { (s : Db) → schema self.new ≡ Some s → IfOk result (λ ps. ps.items ≡ permits_on s key.now) }
        ensures kept { database self.new ≡ database self.old }
        ensures stays { (s : Db) → schema self.old ≡ Some s → schema self.new ≡ Some s }
        ensures fixed { IsTrue fixes → OnOk result (IsTrue (is_some (schema self.new))) }
        ensures ready { OnOk result (IsTrue (ready self.new)) }
        ensures cached { OnOk result (cat self.new 0) }
        ensures still_cached { cat self.old 0 → (cat self.new 0) × (pages self.new ≡ pages self.old) }
        ensures reads { (n : ℕ) → cat self.old n → reads self.new ≤ reads self.old + n }
        ensures asked { (b : Self) → asked b self.old → asked b self.new }
        ensures cause { HasCause (database self.old) (faults self.old) (faults self.new) result };

    /// Whether some view names the relation under a key, where these views don't count.
    fn named_by_view(
        &mut self,
        alloc: Global,
        key: &RelKey,
        but: &[RelKey],
    ) -> Result<bool, BaseFault>
        ensures known { (s : Db) → schema self.old ≡ Some s → IfOk result (λ b. b ≡ is_named_by_view s but.now key.now) }
        ensures by_schema { (s : Db) → schema self.new ≡ Some s → IfOk result (λ b. b ≡ is_named_by_view s but.now key.now) }
        ensures kept { database self.new ≡ database self.old }
        ensures stays { (s : Db) → schema self.old ≡ Some s → schema self.new ≡ Some s }
        ensures fixed { IsTrue fixes → OnOk result (IsTrue (is_some (schema self.new))) }
        ensures ready { OnOk result (IsTrue (ready self.new)) }
        ensures cached { OnOk result (cat self.new 0) }
        ensures still_cached { cat self.old 0 → (cat self.new 0) × (pages self.new ≡ pages self.old) }
        ensures reads { (n : ℕ) → cat self.old n → reads self.new ≤ reads self.old + n }
        ensures asked { (b : Self) → asked b self.old → asked b self.new }
        ensures cause { HasCause (database self.old) (faults self.old) (faults self.new) result };

    /// Applies a change that is lawful, on the schema as well. After want of memory the database is as before, after
    /// any other fault it is that of before or of after.
    fn apply(&mut self, alloc: Global, change: &DbChange) -> Result<(), BaseFault>
        requires { (db : Db) → database self.old ≡ Some db → IsLawful db change.now }
        ensures known { (db : Db) → database self.old ≡ Some db → OnOk result (database self.new ≡ Some (laid db change.now)) }
        ensures schema { (s now : Db) → schema self.old ≡ Some s → schema self.new ≡ Some now → OnOk result (schema_of now ≡ schema_of (laid s change.now)) }
        ensures fixed { IsTrue fixes → OnOk result (IsTrue (is_some (schema self.new))) }
        ensures no_memory { IsErrOf result BaseFault.OutOfMemory → database self.new ≡ database self.old }
        // After any fault a database that is known is the one of before or of after.
        ensures failed { (db now : Db) → database self.old ≡ Some db → database self.new ≡ Some now → OnErr result ((now ≡ db) ⊎ (now ≡ laid db change.now)) }
        // A crash leaves what it might leave before, or the database of after.
        ensures crash { (db : Db) → database self.old ≡ Some db
            → LeavesBut (λ o. o ≡ Some (laid db change.now)) (clock self.old) (clock self.new) (left_since self.old) (left_since self.new) }
        // And after Ok it leaves nothing but the latter.
        ensures durable { (db : Db) → database self.old ≡ Some db → OnOk result (AllDenote (clock self.new) (left_since self.new) (laid db change.now)) }
        ensures cause { HasCause (database self.old) (faults self.old) (faults self.new) result };

    /// Forgets all that was kept of the disk. Takes no memory.
    fn hand_over(&mut self)
        ensures kept { database self.new ≡ database self.old }
        ensures faults { faults self.new ≡ faults self.old }
        // No schema is known any more but that of a database that is known.
        ensures forgotten { (s : Db) → schema self.new ≡ Some s → database self.new ≡ Some s }
        ensures still { (clock self.new ≡ clock self.old) × (reads self.new ≡ reads self.old) }
        ensures asked { (b : Self) → asked b self.old → asked b self.new };
}
