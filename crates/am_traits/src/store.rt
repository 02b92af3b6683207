//! What pages are kept in.

ghost use Rattle.std.specs.Prelude.{◌≡◌, ◌≤◌, ℕ, Some, None, Option, IfOk, OnOk, if◌then◌else◌};
ghost use Rattle.disk_model.specs.Disk.{Image, RisesUpTo};
ghost use Rattle.am_traits.specs.Causes.{HasStoreCause};
ghost use Rattle.am_traits.specs.Pages.{with_page};

use crate::StoreFault;
use disk_model::{Addr, Page};

/// A map of pages. What it holds may be known or not.
///
/// It keeps the page that it gave or put last, so asking for that page again reads nothing.
pub trait PageStore {
    ghost use Rattle.disk_model.specs.declared.disk.Addr.{Addr as At};

    /// The page at each address, where it is known.
    ghost pages: { Self → Option Image };

    /// How often a call to the disk below has failed. The count stands still at 2^64 - 1.
    ghost faults: { Self → ℕ };

    /// How often a page was read from the disk below.
    ghost reads: { Self → ℕ };

    /// The address of the page that it gave or put last and keeps.
    ghost last: { Self → Option At };

    /// It came of that store by calls of this trait alone.
    ghost came: { Self → Self → Type 0 };

    /// It came of that store by `get` alone.
    ghost only_read: { Self → Self → Type 0 };

    /// Before any call it comes of itself.
    ghost starts: { (s : Self) → came s s };

    /// And without a `put`.
    ghost reads_start: { (s : Self) → only_read s s };

    /// Gives the page at an address. `Ok(false)` where there is none; what `out` holds then, or after
    /// an error, isn't said.
    fn get(&mut self, a: Addr, out: &mut Page) -> Result<bool, StoreFault>
        ensures page { (m : Image) → pages self.old ≡ Some m → IfOk result (λ found. m a ≡ (if found then Some out.new else None)) }
        ensures same { pages self.new ≡ pages self.old }
        ensures reads { RisesUpTo 1 (reads self.old) (reads self.new) }
        ensures kept { last self.old ≡ Some a → reads self.new ≡ reads self.old }
        ensures last { OnOk result (last self.new ≡ Some a) }
        ensures came { (s : Self) → came s self.old → came s self.new }
        ensures only_read { (s : Self) → only_read s self.old → only_read s self.new }
        ensures cause { HasStoreCause (faults self.old) (faults self.new) result };

    /// Puts a page in its place, and keeps it; no page is read. After an error nothing is known of the pages.
    fn put(&mut self, a: Addr, page: &Page) -> Result<(), StoreFault>
        requires { 5 ≤ a.file }
        ensures page { (m : Image) → pages self.old ≡ Some m → OnOk result (pages self.new ≡ Some (with_page a page.now m)) }
        ensures reads { reads self.new ≡ reads self.old }
        ensures last { OnOk result (last self.new ≡ Some a) }
        ensures came { (s : Self) → came s self.old → came s self.new }
        ensures cause { HasStoreCause (faults self.old) (faults self.new) result };
}
