//! Messages as the stages hold them, and what bytes are read as.

ghost use Rattle.std.specs.Prelude.{◌≡◌, IfOk, option_map};
ghost use Rattle.message_codec.specs.Messages.{message};
ghost use Rattle.quel_network.specs.Spelling.{if_empty, message_by};

use crate::refusals::{RefusalTree, is_refusal_number};
use crate::values::value_of;
use calculus::{Checked, Column, DbChange, Refusal, Row};
use memory::{Boxed, List, OutOfMemory};
use quel_tree::{CheckedTree, ColumnsTree, DbChangeTree, RowTree};
use std::alloc::Global;

/// What one stage tells another.
#[derive(Drop)]
pub enum StageMessage {
    /// A batch.
    Text(List<u8>),
    /// A statement whose names were found.
    Tree(Boxed<Checked>),
    /// A table begins.
    Head(List<Column>),
    /// A row of the table that is begun.
    Row(Row),
    /// A change of the database.
    Change(Boxed<DbChange>),
    /// The end of what was asked.
    End,
    /// A statement was refused.
    Refused(Refusal),
    /// A statement was carried out.
    Done,
    /// The end of all.
    Quit,
}

/// A batch.
#[tactic(auto, using(crate::proofs::ByKind::text_read))]
fn text_of(alloc: Global, bytes: &[u8]) -> Result<Option<StageMessage>, OutOfMemory>
    ensures { IfOk result (λ came. option_map message came ≡ message_by 1 bytes.now) }
{
    let batch = bytes.to_vec(alloc)?;
    Ok(Some(StageMessage::Text(List::of(batch))))
}

/// A tree, where the bytes spell one.
fn tree_of(alloc: Global, bytes: &[u8]) -> Result<Option<StageMessage>, OutOfMemory>
    ensures { IfOk result (λ came. option_map message came ≡ message_by 2 bytes.now) }
{
    match value_of::<CheckedTree>(alloc, bytes)? {
        Some(found) => Ok(Some(StageMessage::Tree(Boxed::new(alloc, found)?))),
        None => Ok(None),
    }
}

/// A head, where the bytes spell one.
fn head_of(alloc: Global, bytes: &[u8]) -> Result<Option<StageMessage>, OutOfMemory>
    ensures { IfOk result (λ came. option_map message came ≡ message_by 3 bytes.now) }
{
    match value_of::<ColumnsTree>(alloc, bytes)? {
        Some(found) => Ok(Some(StageMessage::Head(found))),
        None => Ok(None),
    }
}

/// A row, where the bytes spell one.
fn row_of(alloc: Global, bytes: &[u8]) -> Result<Option<StageMessage>, OutOfMemory>
    ensures { IfOk result (λ came. option_map message came ≡ message_by 4 bytes.now) }
{
    match value_of::<RowTree>(alloc, bytes)? {
        Some(found) => Ok(Some(StageMessage::Row(found))),
        None => Ok(None),
    }
}

/// A change, where the bytes spell one.
fn change_of(alloc: Global, bytes: &[u8]) -> Result<Option<StageMessage>, OutOfMemory>
    ensures { IfOk result (λ came. option_map message came ≡ message_by 5 bytes.now) }
{
    match value_of::<DbChangeTree>(alloc, bytes)? {
        Some(found) => Ok(Some(StageMessage::Change(Boxed::new(alloc, found)?))),
        None => Ok(None),
    }
}

/// A refusal, where the bytes spell one whose number some refusal has.
#[tactic(auto, using(crate::proofs::ByKind::refusal_read, crate::proofs::ByKind::refusal_unknown, crate::proofs::ByKind::refusal_unread))]
fn refusal_of(alloc: Global, bytes: &[u8]) -> Result<Option<StageMessage>, OutOfMemory>
    ensures { IfOk result (λ came. option_map message came ≡ message_by 7 bytes.now) }
{
    match value_of::<RefusalTree>(alloc, bytes)? {
        Some(found) => {
            if !is_refusal_number(found.code) {
                return Ok(None);
            }
            Ok(Some(StageMessage::Refused(found)))
        }
        None => Ok(None),
    }
}

/// The value, where there are no bytes.
fn if_empty<T: Drop>(value: T, bytes: &[u8]) -> Option<T>
    ensures { result ≡ if_empty value bytes.now }
{
    if bytes.is_empty() { Some(value) } else { None }
}

/// The message that these bytes are, where its last frame is of this kind; none where they are none.
#[tactic(auto, using(crate::proofs::ByKind::end_read, crate::proofs::ByKind::done_read, crate::proofs::ByKind::quit_read, crate::proofs::ByKind::other_read))]
pub fn message_of(
    alloc: Global,
    kind: u8,
    bytes: &[u8],
) -> Result<Option<StageMessage>, OutOfMemory>
    ensures { IfOk result (λ came. option_map message came ≡ message_by kind bytes.now) }
{
    match kind {
        1 => text_of(alloc, bytes),
        2 => tree_of(alloc, bytes),
        3 => head_of(alloc, bytes),
        4 => row_of(alloc, bytes),
        5 => change_of(alloc, bytes),
        6 => Ok(if_empty(StageMessage::End, bytes)),
        7 => refusal_of(alloc, bytes),
        8 => Ok(if_empty(StageMessage::Done, bytes)),
        10 => Ok(if_empty(StageMessage::Quit, bytes)),
        _ => Ok(None),
    }
}
