//! What was found in a database: expansions of views, and permits.

ghost use Rattle.std.specs.Prelude.{◌≡◌, true, IfOk, IfSome, OnOk};
ghost use Rattle.std.specs.List.{list_all};
ghost use Rattle.calculus.specs.Database.{Db, permits_on};
ghost use Rattle.calculus.specs.Who.{Who};
ghost use Rattle.view_expand.specs.Found.{IsFound, IsExpansionOf, nothing_found};
ghost use Rattle.view_text.specs.Scoped.{is_scoped};

use calculus::{List, OutOfMemory, Permit, RelKey, TryCopy};
use indexmap::IndexMap;
use memory::both;
use std::alloc::Global;
use std::marker::Model;
use view_text::Expansion;

/// The expansions of views that were found in a database for one who asks, each by the view's key and by the
/// levels that it goes through, so that each is made once; and permits, by the key that they stand on, so
/// that they are asked for once.
pub struct ExpansionsFound {
    expansions: IndexMap<(RelKey, u8), Expansion>,
    permits: IndexMap<RelKey, List<Permit>>,
}

impl Drop for ExpansionsFound {
    fn drop(self) {
        let Self {
            expansions: _,
            permits: _,
        } = self;
    }
}

impl Model for ExpansionsFound {
    ghost use Rattle.std.specs.Prelude.{◌≡◌, true};
    ghost use Rattle.std.specs.Coded.{codes};
    ghost use Rattle.std.specs.List.{list_all};
    ghost use Rattle.calculus.specs.contracts.query.QQual as quals;
    ghost use Rattle.calculus.specs.contracts.query.QTerm as terms;
    ghost use Rattle.view_expand.specs.Found.{Found};
    ghost use Rattle.view_text.specs.Scoped.{is_scoped};

    ghost Value = { Found };

    ghost coded = { Prim.hlevel (codes, quals.the_row.coded, terms.the_row.coded) };

    ghost view = { λ t. record { expansions = t.expansions.entries; permits = t.permits.entries } };

    ghost invariant = { λ t. list_all (λ e. is_scoped e.1) t.expansions.entries ≡ true };
}

/// A text equal to this one.
fn copy_of(alloc: Global, expansion: &Expansion) -> Result<Expansion, OutOfMemory>
    ensures { IfOk result (λ copy. copy ≡ expansion.now) }
{
    let vars = expansion.vars.copy(alloc);
    let terms = expansion.terms.copy(alloc);
    let conditions = expansion.conditions.copy(alloc);
    match both(vars, both(terms, conditions)) {
        Ok((vars, (terms, conditions))) => Ok(Expansion {
            vars,
            terms,
            conditions,
        }),
        Err(error) => Err(error),
    }
}

/// The key beside the levels.
fn beside(alloc: Global, key: &RelKey, levels: u8) -> Result<(RelKey, u8), OutOfMemory>
    ensures { IfOk result (λ pair. pair ≡ (key.now, levels)) }
{
    match key.copy(alloc) {
        Ok(key) => Ok((key, levels)),
        Err(error) => Err(error),
    }
}

impl ExpansionsFound {
    /// Nothing is found yet.
    pub fn new(alloc: Global) -> ExpansionsFound
        ensures { result ≡ nothing_found }
    {
        ExpansionsFound {
            expansions: IndexMap::new(alloc),
            permits: IndexMap::new(alloc),
        }
    }

    /// A copy of the expansion that was found of the key through so many levels; `None` where none was.
    pub(crate) fn expansion(
        &self,
        alloc: Global,
        key: &RelKey,
        levels: u8,
    ) -> Result<Option<Expansion>, OutOfMemory>
        ensures expansion { (db : Db) (who : Who) → IsFound db who self.now → IfOk result (λ found. IfSome found (λ expansion. IsExpansionOf db who key.now levels expansion)) }
        ensures scoped { IfOk result (λ found. IfSome found (λ expansion. is_scoped expansion ≡ true)) }
    {
        let pair = beside(alloc, key, levels)?;
        match self.expansions.get(&pair) {
            Some(expansion) => match copy_of(alloc, expansion) {
                Ok(copy) => Ok(Some(copy)),
                Err(error) => Err(error),
            },
            None => Ok(None),
        }
    }

    /// Keeps the expansion beside the others. Where there is no room, what was found stays.
    fn put(&mut self, pair: (RelKey, u8), expansion: Expansion) -> Result<(), OutOfMemory>
        requires { is_scoped expansion ≡ true }
        ensures found { (db : Db) (who : Who) → IsFound db who self.old → IsExpansionOf db who pair.0 pair.1 expansion → IsFound db who self.new }
    {
        match self.expansions.insert(pair, expansion) {
            Ok(_) => Ok(()),
            Err(_) => Err(OutOfMemory),
        }
    }

    /// Keeps a copy of the expansion of the key through so many levels, and answers the expansion.
    pub(crate) fn kept(
        &mut self,
        alloc: Global,
        key: &RelKey,
        levels: u8,
        expansion: Expansion,
    ) -> Result<Expansion, OutOfMemory>
        requires { is_scoped expansion ≡ true }
        ensures expansion { IfOk result (λ answer. answer ≡ expansion) }
        ensures found { (db : Db) (who : Who) → IsFound db who self.old → IsExpansionOf db who key.now levels expansion → IsFound db who self.new }
    {
        let copies = both(beside(alloc, key, levels), copy_of(alloc, &expansion));
        let done = match copies {
            Ok((pair, copy)) => self.put(pair, copy),
            Err(error) => Err(error),
        };
        match done {
            Ok(()) => Ok(expansion),
            Err(error) => Err(error),
        }
    }

    /// The permits that were found of the key; `None` where none were asked for.
    pub(crate) fn permits(&self, key: &RelKey) -> Option<&[Permit]>
        ensures { (db : Db) (who : Who) → IsFound db who self.now → IfSome result (λ permits. permits.now ≡ permits_on db key.now) }
    {
        match self.permits.get(key) {
            Some(permits) => Some(permits.items()),
            None => None,
        }
    }

    /// Keeps the permits beside the others. Where there is no room, what was found stays.
    fn put_permits(&mut self, key: RelKey, permits: Vec<Permit>) -> Result<(), OutOfMemory>
        ensures found { (db : Db) (who : Who) → IsFound db who self.old → permits.items ≡ permits_on db key → IsFound db who self.new }
    {
        match self.permits.insert(key, List::of(permits)) {
            Ok(_) => Ok(()),
            Err(_) => Err(OutOfMemory),
        }
    }

    /// Keeps the permits of the key.
    pub(crate) fn keep_permits(
        &mut self,
        alloc: Global,
        key: &RelKey,
        permits: Vec<Permit>,
    ) -> Result<(), OutOfMemory>
        ensures found { (db : Db) (who : Who) → IsFound db who self.old → permits.items ≡ permits_on db key.now → IsFound db who self.new }
    {
        match key.copy(alloc) {
            Ok(key) => self.put_permits(key, permits),
            Err(error) => Err(error),
        }
    }
}
