//! The bytes of replies.

ghost use Rattle.std.specs.Prelude.{◌≡◌, ◌++◌, OnOk, IfOk, flat_map};
ghost use Rattle.quel_meaning.specs.Printed.{done_bytes, reply_bytes, table_bytes};

use crate::refusals::push_refusal;
use crate::tables::push_table;
use calculus::{OutOfMemory, Reply, Table};
use std::alloc::Global;

/// The acknowledgement.
const DONE: &[u8] = b"done\n";

/// The acknowledgement.
pub fn done_bytes(alloc: Global) -> Result<Vec<u8>, OutOfMemory>
    ensures { IfOk result (λ bytes. bytes.items ≡ done_bytes) }
{
    Ok(Vec::from_slice(alloc, DONE)?)
}

/// Adds tables, one after the other.
fn push_tables(out: &mut Vec<u8>, tables: &[Table]) -> Result<(), OutOfMemory>
    ensures { OnOk result (out.new.items ≡ out.old.items ++ flat_map table_bytes tables.now) }
{
    for table in tables {
        push_table(out, table)?;
    }
    Ok(())
}

/// Adds what a reply is printed as.
#[tactic(auto, unfolding(quel_meaning::specs::Printed::reply_bytes))]
pub fn push_reply(out: &mut Vec<u8>, reply: &Reply) -> Result<(), OutOfMemory>
    ensures { OnOk result (out.new.items ≡ out.old.items ++ reply_bytes reply.now) }
{
    match reply {
        Reply::Nothing => Ok(()),
        Reply::Done => Ok(out.extend_from_slice(DONE)?),
        Reply::Refused(refusal) => push_refusal(out, refusal),
        Reply::Tables(tables) => push_tables(out, tables.items()),
    }
}

/// What a reply is printed as: nothing, an acknowledgement, a refusal, or tables one after the other.
pub fn reply_bytes(alloc: Global, reply: &Reply) -> Result<Vec<u8>, OutOfMemory>
    ensures { IfOk result (λ bytes. bytes.items ≡ reply_bytes reply.now) }
{
    let mut out = Vec::new(alloc);
    push_reply(&mut out, reply)?;
    Ok(out)
}
