ghost use Rattle.std.specs.Prelude.{◌≡◌, ◌<◌, ◌≤◌, ℕ, Bool, Some, None, List, Option, [], ◌∷◌, IsTrue, IfOk, OnOk, if◌then◌else◌};
ghost use Rattle.fault_io.specs.Causes.{HasCause};
ghost use Rattle.disk_model.specs.Disk.{Image, IsImage, IsSettled, Changes, OnlyReads, Elapses, RisesUpTo};
ghost use Rattle.disk_model.specs.History.{Came};

/// The address of a page: a file's number, and the page's number in it, each from 0.
#[derive(Clone, Copy, Debug, PartialEq, Eq)]
pub struct Addr {
    /// The number of the file.
    pub file: u32,
    /// The number of the page in its file.
    pub page: u32,
}

/// The bytes of a page.
pub type Page = [u8; 1024];

/// A call to a disk failed. The disk's count of faults rose in that call.
#[derive(Clone, Copy, Debug, PartialEq, Eq)]
pub struct DiskFailed;

/// A disk of pages that may crash.
///
/// Writes and cuts since the last sync that succeeded touch addresses, also those that fail; a cut
/// touches every page of its file. A crash leaves, at each touched address, any bytes or no page,
/// and at each other address what a read gave. After a sync that succeeds nothing is touched.
///
/// What a disk holds may be known or not, by its type: of one in memory it is, of a real one not.
/// The counts of faults and of reads are always known. The writes, cuts and syncs that it had may be
/// known or not, also where what it holds isn't: so whoever answers by what was written has to have
/// made the calls, on whatever disk.
pub trait Disk {
    ghost use Rattle.disk_model.specs.declared.disk.Addr.{Addr};
    ghost use Rattle.disk_model.specs.declared.calls.Call.{Call as Made};
    ghost use Rattle.disk_model.specs.declared.calls.Call.TheVariants.{Write as AWrite, Cut as ACut, Sync as ASync};

    /// Whether the content of disks of this type is known. The next four speak of one that does.
    ghost is_known: { Bool };

    /// The page that a read gives at each address.
    ghost seen: { Self → Image };

    /// The addresses at which a crash may leave anything.
    ghost touched: { Self → Addr → Type 0 };

    /// The moment, as a number that does not fall.
    ghost clock: { Self → ℕ };

    /// What a crash at some moment from that one on may have left.
    ghost left_since: { Self → ℕ → Image → Type 0 };

    /// How often a call has failed.
    ghost faults: { Self → ℕ };

    /// How often a page was read.
    ghost reads: { Self → ℕ };

    /// The writes, cuts and syncs that it had, in their order, where they are known.
    ghost history: { Self → Option (List Made) };

    /// Reads the page at an address. `Ok(false)` where there is none: it was never written, or it
    /// was cut. What `out` holds then, or after an error, is not said.
    fn read(&mut self, a: Addr, out: &mut Page) -> Result<bool, DiskFailed>
        ensures page { IsTrue is_known →
            IfOk result (λ found. seen self.old a ≡ (if found then Some out.new else None)) }
        ensures same { IsTrue is_known → OnlyReads seen touched clock left_since self.old self.new }
        ensures cause { HasCause (faults self.old) (faults self.new) result }
        ensures reads { RisesUpTo 1 (reads self.old) (reads self.new) }
        ensures unwritten { history self.new ≡ history self.old };

    /// Writes a page. Until a sync succeeds, a crash may leave any bytes there, or no page; after an
    /// error reads may give any bytes there, too.
    fn write(&mut self, a: Addr, page: &Page) -> Result<(), DiskFailed>
        ensures written { IsTrue is_known → OnOk result (seen self.new a ≡ Some page.now) }
        ensures change { IsTrue is_known → Changes (λ b. b ≡ a) seen touched self.old self.new }
        ensures time { IsTrue is_known → Elapses seen touched clock left_since self.old self.new }
        ensures rises { IsTrue is_known → OnOk result (clock self.old < clock self.new) }
        ensures cause { HasCause (faults self.old) (faults self.new) result }
        ensures reads { reads self.new ≡ reads self.old }
        ensures noted { OnOk result (Came (history self.old) (history self.new) (AWrite a page.now ∷ [])) };

    /// Takes all pages of a file away. Until a sync succeeds, a crash may leave anything in that
    /// file; after an error reads may give anything there, too.
    fn cut(&mut self, file: u32) -> Result<(), DiskFailed>
        ensures cut { IsTrue is_known →
            OnOk result ((b : Addr) → b.file ≡ file → seen self.new b ≡ None) }
        ensures change { IsTrue is_known →
            Changes (λ b. b.file ≡ file) seen touched self.old self.new }
        ensures time { IsTrue is_known → Elapses seen touched clock left_since self.old self.new }
        ensures rises { IsTrue is_known → OnOk result (clock self.old < clock self.new) }
        ensures cause { HasCause (faults self.old) (faults self.new) result }
        ensures reads { reads self.new ≡ reads self.old }
        ensures noted { OnOk result (Came (history self.old) (history self.new) (ACut file ∷ [])) };

    /// After it, a crash leaves what a read gives. A sync that fails touches nothing more.
    fn sync(&mut self) -> Result<(), DiskFailed>
        ensures durable { IsTrue is_known → OnOk result (IsSettled (touched self.new)) }
        ensures seen { IsTrue is_known → seen self.new ≡ seen self.old }
        ensures touched { IsTrue is_known → (b : Addr) → touched self.new b → touched self.old b }
        ensures time { IsTrue is_known → Elapses seen touched clock left_since self.old self.new }
        ensures rises { IsTrue is_known → OnOk result (clock self.old < clock self.new) }
        ensures cause { HasCause (faults self.old) (faults self.new) result }
        ensures reads { reads self.new ≡ reads self.old }
        ensures noted { OnOk result (Came (history self.old) (history self.new) (ASync ∷ [])) };

    /// Since this moment there is no other.
    ghost only_now: { (d : Self) (m : Image) → IsTrue is_known
        → left_since d (clock d) m → IsImage (seen d) (touched d) m };

    /// This moment is one of those since an earlier one.
    ghost counts_now: { (d : Self) (t : ℕ) (m : Image) → IsTrue is_known
        → t ≤ clock d → IsImage (seen d) (touched d) m → left_since d t m };
}
