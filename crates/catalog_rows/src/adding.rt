//! The fields of rows as bytes behind others.

ghost use Rattle.std.specs.Prelude.{◌≡◌, ◌≤◌, ◌++◌, IsTrue, OnOk, length};
ghost use Rattle.byteorder.specs.Endian.{little_bytes};
ghost use Rattle.calculus.specs.Name.{is_name};
ghost use Rattle.stored_database.specs.Names.{bytes32, name_bytes};

use byteorder::{ByteOrder, LittleEndian};
use calculus::{Name, OutOfMemory};

/// Adds a number in four bytes, the lowest first.
pub(crate) fn add_number(row: &mut Vec<u8>, number: u32) -> Result<(), OutOfMemory>
    ensures { OnOk result (row.new.items ≡ row.old.items ++ bytes32 number) }
{
    let mut bytes = [0; 4];
    LittleEndian::write_u32(&mut bytes, number);
    row.extend_from_slice(&bytes)?;
    Ok(())
}

/// Adds a number in two bytes, the lowest first.
pub(crate) fn add_place(row: &mut Vec<u8>, place: u16) -> Result<(), OutOfMemory>
    ensures { OnOk result (row.new.items ≡ row.old.items ++ little_bytes 2 place) }
{
    let mut bytes = [0; 2];
    LittleEndian::write_u16(&mut bytes, place);
    row.extend_from_slice(&bytes)?;
    Ok(())
}

/// Adds bytes, and blanks behind them up to twelve.
#[tactic(auto, unfolding(stored_database::specs::Names::name_bytes))]
fn add_filled(row: &mut Vec<u8>, bytes: &[u8]) -> Result<(), OutOfMemory>
    requires { length bytes.now ≤ 12 }
    ensures { OnOk result (row.new.items ≡ row.old.items ++ name_bytes bytes.now) }
{
    let blanks = [b' '; 12];
    row.extend_from_slice(bytes)?;
    row.extend_from_slice(&blanks[bytes.len()..])?;
    Ok(())
}

/// Adds a name in twelve bytes, with blanks behind it.
#[tactic(auto, unfolding(calculus::specs::Name::is_name))]
pub(crate) fn add_name(row: &mut Vec<u8>, name: &Name) -> Result<(), OutOfMemory>
    ensures bytes { OnOk result (row.new.items ≡ row.old.items ++ name_bytes name.now) }
    ensures named { OnOk result (IsTrue (is_name name.now)) }
{
    add_filled(row, name.bytes())
}
