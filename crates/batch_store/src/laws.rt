//! What holds of the pages that count once changes are laid over them.

ghost use Rattle.std.specs.Prelude.{◌≡◌, All, IsTrue};
ghost use Rattle.disk_model.specs.Disk.{Image};
ghost use Rattle.batch_file.specs.Layout.{Entries, is_place};
ghost use Rattle.batch_file.specs.Redone.{kept, laid};

/// Where two images have the same pages that count, they have the same once the same changes are applied
/// over both. And where the changes are at places that a batch may name, the pages that count are then
/// those of before with the changes laid over them.
pub fn changes_lie_over_the_pages_that_count()
    ensures alike { (cs : Entries) (m n : Image) → kept m ≡ kept n
        → kept (laid cs m) ≡ kept (laid cs n) }
    ensures over { (cs : Entries) (m : Image) → All (λ c. IsTrue (is_place c.0)) cs
        → kept (laid cs m) ≡ laid cs (kept m) }
{}
