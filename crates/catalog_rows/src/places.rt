//! What stands in places of a row.

ghost use Rattle.std.specs.Prelude.{◌≡◌, ◌≤◌, ◌+◌, IfOk, length};
ghost use Rattle.byteorder.specs.Endian.{little_from};
ghost use Rattle.calculus.specs.Text.{trimmed};
ghost use Rattle.stored_database.specs.Names.{name_of};

use byteorder::{ByteOrder, LittleEndian};
use calculus::{Name, OutOfMemory};
use std::alloc::Global;

/// The number in the four bytes from a place.
pub(crate) fn number_at(bytes: &[u8], at: usize) -> u32
    requires { at + 4 ≤ length bytes.now }
    ensures { result ≡ little_from at 4 bytes.now }
{
    LittleEndian::read_u32(&bytes[at..at + 4])
}

/// The number in the two bytes from a place.
pub(crate) fn place_at(bytes: &[u8], at: usize) -> u16
    requires { at + 2 ≤ length bytes.now }
    ensures { result ≡ little_from at 2 bytes.now }
{
    LittleEndian::read_u16(&bytes[at..at + 2])
}

/// The bytes without the blanks at their end.
fn trimmed(bytes: &[u8]) -> &[u8]
    ensures { result.now ≡ trimmed bytes.now }
{
    let mut rest = bytes;
    'blanks: while let Some((last, front)) = rest.split_last() {
        if *last != b' ' {
            break;
        }
        rest = front;
    }
    rest
}

/// The name that the bytes are without the blanks at their end; `None` exactly where they are none.
#[tactic(auto, unfolding(stored_database::specs::Names::name_of))]
pub(crate) fn name_in(alloc: Global, bytes: &[u8]) -> Result<Option<Name>, OutOfMemory>
    ensures { IfOk result (λ name. name ≡ name_of bytes.now) }
{
    Name::of(alloc, trimmed(bytes))
}
