use crate::shared::{empty, key_of};
use base_trait::{Base, BaseFault};
use calculus::{List, Name, OutOfMemory, Place, Probe, RelKey};
use plain_base::DbPlain;
use std::alloc::Global;
use std::process::Abort;
use std::test::*;

/// The probe that each row meets.
fn every(alloc: Global) -> Probe {
    Probe {
        equal: List::of(Vec::new(alloc)),
    }
}

/// Whether a scan gives one more row, from a place on, which moves behind it.
fn has_more<B: Base>(
    alloc: Global,
    base: &mut B,
    key: &RelKey,
    at: &mut Place,
) -> Result<bool, BaseFault> {
    let row = base.scan(alloc, key, &every(alloc), at)?;
    Ok(row.is_some())
}

/// How many rows a scan gives, as far as 20.
fn scanned<B: Base>(alloc: Global, base: &mut B, key: &RelKey) -> Result<u32, BaseFault> {
    let mut at = Place { page: 0, line: 0 };
    for count in 0..20u32 {
        if !has_more(alloc, base, key, &mut at)? {
            return Ok(count);
        }
    }
    Ok(20)
}

/// How many rows a scan of what has this name gives, and how many there are once what is kept is
/// handed over.
fn counted<R: Abort>(rt: &R, alloc: Global, owner: &[u8], name: &[u8]) -> (u32, u32) {
    let mut base = empty(rt, alloc);
    let key = key_of(rt, alloc, owner, name);
    let given = scanned(alloc, &mut base, &key).expect(rt, "rows");
    base.hand_over();
    let size = base.size(alloc, &key).expect(rt, "a size");
    (given, size)
}

/// Whether the first row that a scan of what has this name gives is there.
fn has_first<R: Abort>(rt: &R, alloc: Global, owner: &[u8], name: &[u8]) -> bool {
    let mut base = empty(rt, alloc);
    let key = key_of(rt, alloc, owner, name);
    let probe = every(alloc);
    let mut at = Place { page: 0, line: 0 };
    let row = base.scan(alloc, &key, &probe, &mut at).expect(rt, "a scan");
    let row = row.expect(rt, "a row");
    base.has_row(alloc, &key, &row).expect(rt, "an answer")
}

/// Whether the administrator has this name.
fn is_administrator<R: Abort>(rt: &R, alloc: Global, name: &[u8]) -> bool {
    let mut base = empty(rt, alloc);
    let dba = base.dba(alloc).expect(rt, "a name");
    dba.bytes() == name
}

/// Whether a user means something by a name, and whether something stands under both.
fn found_and_known<R: Abort>(rt: &R, alloc: Global, user: &[u8], name: &[u8]) -> (bool, bool) {
    let mut base = empty(rt, alloc);
    let key = key_of(rt, alloc, user, name);
    let found = base.find(alloc, &key.name, &key.owner).expect(rt, "memory");
    let known = base.info(alloc, &key).expect(rt, "memory");
    (found.is_some(), known.is_some())
}

/// How many entries there are, and how many rules and permits on what has this name.
fn hanging<R: Abort>(rt: &R, alloc: Global, owner: &[u8], name: &[u8]) -> (u32, usize, usize) {
    let mut base = empty(rt, alloc);
    let key = key_of(rt, alloc, owner, name);
    let entries = base.count().expect(rt, "a number");
    let rules = base.rules(alloc, &key).expect(rt, "rules");
    let permits = base.permits(alloc, &key).expect(rt, "permits");
    (entries, rules.len(), permits.len())
}

/// Whether a view stands under a key.
fn is_view<B: Base>(alloc: Global, base: &mut B, key: &RelKey) -> Result<bool, BaseFault> {
    let query = base.view(alloc, key)?;
    Ok(query.is_some())
}

/// Whether a view has this name, and whether one names what has it.
fn viewed<R: Abort>(rt: &R, alloc: Global, owner: &[u8], name: &[u8]) -> (bool, bool) {
    let mut base = empty(rt, alloc);
    let key = key_of(rt, alloc, owner, name);
    let there = is_view(alloc, &mut base, &key).expect(rt, "memory");
    let named = base.named_by_view(alloc, &key, &[]).expect(rt, "an answer");
    (there, named)
}

#[test]
fn a_scan_gives_each_row_of_a_catalogue(rt: HostRuntime) {
    let alloc = rt.alloc();
    assert!(rt; counted(&rt, alloc, b"ann", b"attribute") == (9, 9));
}

#[test]
fn a_row_that_a_scan_gives_is_there(rt: HostRuntime) {
    let alloc = rt.alloc();
    assert!(rt; is_administrator(&rt, alloc, b"ann"));
    assert!(rt; has_first(&rt, alloc, b"ann", b"relation"));
}

#[test]
fn a_catalogue_is_found_by_its_name(rt: HostRuntime) {
    let alloc = rt.alloc();
    assert!(rt; found_and_known(&rt, alloc, b"bob", b"relation") == (true, false));
}

#[test]
fn nothing_stands_in_a_new_database(rt: HostRuntime) {
    let alloc = rt.alloc();
    assert!(rt; hanging(&rt, alloc, b"ann", b"parts") == (0, 0, 0));
    assert!(rt; viewed(&rt, alloc, b"ann", b"parts") == (false, false));
}

/// How many rows a scan of a catalogue of a new database gives; 0 where its name is none.
fn counted_or_refused(alloc: Global) -> Result<u32, BaseFault> {
    let Some(key) = catalogue_key(alloc)? else {
        return Ok(0);
    };
    let Some(dba) = Name::of(alloc, b"ann")? else {
        return Ok(0);
    };
    let mut base = DbPlain::new(alloc, dba);
    scanned(alloc, &mut base, &key)
}

/// The key of a catalogue of ann's.
fn catalogue_key(alloc: Global) -> Result<Option<RelKey>, OutOfMemory> {
    let Some(owner) = Name::of(alloc, b"ann")? else {
        return Ok(None);
    };
    match Name::of(alloc, b"attribute")? {
        Some(name) => Ok(Some(RelKey { owner, name })),
        None => Ok(None),
    }
}

#[test]
fn want_of_memory_is_answered(rt: HostRuntime) {
    match counted_or_refused(rt.alloc()) {
        Ok(count) => assert!(rt; count == 9),
        Err(fault) => assert!(rt; fault == BaseFault::OutOfMemory),
    }
}
