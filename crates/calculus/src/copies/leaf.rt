//! Copies of what trees are made of.

use super::parts::copy_both;
use crate::{
    AggTable, Chars, CopyCol, CopyForm, Domain, Name, OutOfMemory, Probe, RelKey, Row, SortKey,
    Text, Value,
};
use memory::{TryCopy, copies};
use std::alloc::Global;

impl TryCopy for Name {
    fn copy(&self, alloc: Global) -> Result<Name, OutOfMemory> {
        Name::copy(self, alloc)
    }
}

impl TryCopy for Text {
    fn copy(&self, alloc: Global) -> Result<Text, OutOfMemory> {
        Text::copy(self, alloc)
    }
}

impl TryCopy for Chars {
    fn copy(&self, alloc: Global) -> Result<Chars, OutOfMemory> {
        Chars::copy(self, alloc)
    }
}

impl TryCopy for Domain {
    fn copy(&self, _alloc: Global) -> Result<Domain, OutOfMemory> {
        Ok(*self)
    }
}

impl TryCopy for CopyForm {
    fn copy(&self, _alloc: Global) -> Result<CopyForm, OutOfMemory> {
        Ok(*self)
    }
}

impl TryCopy for CopyCol {
    fn copy(&self, _alloc: Global) -> Result<CopyCol, OutOfMemory> {
        Ok(*self)
    }
}

impl TryCopy for SortKey {
    fn copy(&self, _alloc: Global) -> Result<SortKey, OutOfMemory> {
        Ok(*self)
    }
}

impl TryCopy for Value {
    fn copy(&self, alloc: Global) -> Result<Value, OutOfMemory> {
        match self {
            Value::Int(number) => Ok(Value::Int(*number)),
            Value::Text(text) => match text.copy(alloc) {
                Ok(text) => Ok(Value::Text(text)),
                Err(error) => Err(error),
            },
        }
    }
}

impl TryCopy for RelKey {
    fn copy(&self, alloc: Global) -> Result<RelKey, OutOfMemory> {
        match copy_both(alloc, &self.owner, &self.name) {
            Ok((owner, name)) => Ok(RelKey { owner, name }),
            Err(error) => Err(error),
        }
    }
}

impl TryCopy for Probe {
    fn copy(&self, alloc: Global) -> Result<Probe, OutOfMemory> {
        match self.equal.copy(alloc) {
            Ok(equal) => Ok(Probe { equal }),
            Err(error) => Err(error),
        }
    }
}

impl TryCopy for AggTable {
    fn copy(&self, alloc: Global) -> Result<AggTable, OutOfMemory> {
        match copy_both(alloc, &self.groups, &self.empty) {
            Ok((groups, empty)) => Ok(AggTable { groups, empty }),
            Err(error) => Err(error),
        }
    }
}

impl TryCopy for Row {
    fn copy(&self, alloc: Global) -> Result<Row, OutOfMemory> {
        match copies(alloc, self.values()) {
            Ok(values) => Ok(Row::of(values)),
            Err(error) => Err(error),
        }
    }
}
