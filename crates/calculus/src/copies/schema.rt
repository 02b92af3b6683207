//! Copies of what a database says of relations.

use super::parts::copy_both;
use crate::{Attr, OutOfMemory, Permit, RelFile, RelInfo, Rule};
use memory::{TryCopy, both};
use std::alloc::Global;

impl TryCopy for Attr {
    fn copy(&self, alloc: Global) -> Result<Attr, OutOfMemory> {
        match self.name.copy(alloc) {
            Ok(name) => Ok(Attr {
                name,
                kind: self.kind,
            }),
            Err(error) => Err(error),
        }
    }
}

impl TryCopy for RelInfo {
    fn copy(&self, alloc: Global) -> Result<RelInfo, OutOfMemory> {
        let lists = copy_both(alloc, &self.attrs, &self.keys);
        match both(self.key.copy(alloc), lists) {
            Ok((key, (attrs, keys))) => Ok(RelInfo {
                key,
                spec: self.spec,
                attrs,
                keys,
            }),
            Err(error) => Err(error),
        }
    }
}

impl TryCopy for Permit {
    fn copy(&self, alloc: Global) -> Result<Permit, OutOfMemory> {
        let whom = copy_both(alloc, &self.attrs, &self.user);
        match both(whom, self.qual.copy(alloc)) {
            Ok(((attrs, user), qual)) => Ok(Permit {
                number: self.number,
                ops: self.ops,
                attrs,
                user,
                qual,
            }),
            Err(error) => Err(error),
        }
    }
}

impl TryCopy for Rule {
    fn copy(&self, alloc: Global) -> Result<Rule, OutOfMemory> {
        match self.qual.copy(alloc) {
            Ok(qual) => Ok(Rule {
                number: self.number,
                qual,
            }),
            Err(error) => Err(error),
        }
    }
}

impl TryCopy for RelFile {
    fn copy(&self, alloc: Global) -> Result<RelFile, OutOfMemory> {
        match copy_both(alloc, &self.keys, &self.domains) {
            Ok((keys, domains)) => Ok(RelFile {
                file: self.file,
                spec: self.spec,
                keys,
                domains,
                primary: self.primary,
                directory: self.directory,
                used: self.used,
            }),
            Err(error) => Err(error),
        }
    }
}
