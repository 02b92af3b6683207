//! Copies of replies.

use super::parts::copy_both;
use crate::{Column, OutOfMemory, Reply, Table};
use memory::TryCopy;
use std::alloc::Global;

impl TryCopy for Column {
    fn copy(&self, alloc: Global) -> Result<Column, OutOfMemory> {
        match self.name.copy(alloc) {
            Ok(name) => Ok(Column {
                name,
                kind: self.kind,
            }),
            Err(error) => Err(error),
        }
    }
}

impl TryCopy for Table {
    fn copy(&self, alloc: Global) -> Result<Table, OutOfMemory> {
        match copy_both(alloc, &self.columns, &self.rows) {
            Ok((columns, rows)) => Ok(Table { columns, rows }),
            Err(error) => Err(error),
        }
    }
}

impl TryCopy for Reply {
    fn copy(&self, alloc: Global) -> Result<Reply, OutOfMemory> {
        match self {
            Reply::Nothing => Ok(Reply::Nothing),
            Reply::Done => Ok(Reply::Done),
            Reply::Refused(refusal) => Ok(Reply::Refused(*refusal)),
            Reply::Tables(tables) => match tables.copy(alloc) {
                Ok(tables) => Ok(Reply::Tables(tables)),
                Err(error) => Err(error),
            },
        }
    }
}
