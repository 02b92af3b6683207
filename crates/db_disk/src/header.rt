//! The page that says what a disk holds, and for whom.

ghost use Rattle.std.specs.Prelude.{◌≡◌, ◌≤◌, ◌+◌, ◌++◌, length, drop, take};
ghost use Rattle.page_cells.specs.RowBytes.{filled};
ghost use Rattle.db_disk.specs.Created.{header_bytes, mark};

use calculus::Name;
use disk_model::Page;

/// Puts a name into the first so many bytes, with blanks behind it.
fn put_name(out: &mut [u8], name: &[u8], bytes: usize)
    requires short { length name.now ≤ bytes }
    requires room { bytes ≤ length out.old }
    ensures { out.new ≡ filled name.now bytes ++ drop bytes out.old }
{
    out[..name.len()].copy_from_slice(name);
    out[name.len()..bytes].fill(b' ');
}

/// Puts a name from a place on, as `put_name` does.
fn put_name_at(out: &mut [u8], at: usize, name: &[u8], bytes: usize)
    requires short { length name.now ≤ bytes }
    requires room { at + bytes ≤ length out.old }
    ensures { out.new ≡ take at out.old ++ (filled name.now bytes ++ drop (at + bytes) out.old) }
{
    put_name(&mut out[at..], name, bytes);
}

/// Puts what each header begins with.
fn put_mark(out: &mut [u8])
    requires { 10 ≤ length out.old }
    ensures { out.new ≡ mark ++ drop 10 out.old }
{
    out[..10].copy_from_slice(b"INGRES7 \x01\x00");
}

/// Makes the page one that begins as the header of this administrator's database.
#[tactic(auto, using(crate::proofs::Headers::header_front), unfolding(calculus::specs::Name::is_name))]
pub fn put_header(out: &mut Page, dba: &Name)
    ensures { take 22 out.new ≡ header_bytes dba.now }
{
    put_mark(out);
    put_name_at(out, 10, dba.bytes(), 12);
}
