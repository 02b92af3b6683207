//! The file of a relation, as it is known in memory.

ghost use Rattle.std.specs.Prelude.{◌≡◌, ◌<◌, ◌⊎◌, true, None, IfOk};
ghost use Rattle.std.specs.Option.{ForSome};
ghost use Rattle.base_trait.specs.Known.{known_at};
ghost use Rattle.calculus.specs.declared.schema.Spec.TheVariants.{Index};
ghost use Rattle.calculus.specs.Database.{is_relation};
ghost use Rattle.calculus.specs.Structures.{is_view};
ghost use Rattle.page_chain.specs.Lists.{each};
ghost use Rattle.plain_base.specs.Shown.{database_of};
ghost use Rattle.stored_database.specs.Spelled.{domain_of};
ghost use Rattle.catalog_moves.specs.Files.{files_of};
ghost use Rattle.catalog.specs.Asked.{HasKind, IsFileBy};
ghost use Rattle.catalog.specs.Filling.{IsFileOf, IsFileWith};

use am_traits::RelFile;
use base_trait::Base;
use calculus::{Attr, Domain, Kind, List, OutOfMemory, RelInfo, RelKey, Spec};
use catalog_moves::FileTable;
use plain_base::DbPlain;
use std::alloc::Global;

/// The number of the first file of a relation.
const FIRST_FILE: u32 = 16;

/// The domains of attributes; `None` where one has none.
fn domains_of(alloc: Global, attrs: &[Attr]) -> Result<Option<List<Domain>>, OutOfMemory>
    ensures { IfOk result (λ domains. domains ≡ each domain_of attrs.now) }
{
    let mut domains = Vec::new(alloc);
    let mut rest = attrs;
    'attrs: while let Some((attr, others)) = rest.split_first() {
        match attr.kind {
            Kind::Of(domain) => domains.push(domain)?,
            Kind::Wide => return Ok(None),
        }
        rest = others;
    }
    Ok(Some(List::of(domains)))
}

/// A file of a relation with these attributes; `None` where one has no domain.
pub(crate) fn file_with(
    alloc: Global,
    info: &RelInfo,
    file: u32,
    used: u32,
) -> Result<Option<RelFile>, OutOfMemory>
    ensures there { IfOk result (λ found. ForSome found (λ its. IsFileWith info.now file used its)) }
    ensures none { IfOk result (λ found. found ≡ None → each domain_of info.now.attrs ≡ None) }
{
    let Some(domains) = domains_of(alloc, info.attrs.items())? else {
        return Ok(None);
    };
    let keys = Vec::from_slice(alloc, info.keys.items())?;
    Ok(Some(RelFile {
        file,
        spec: info.spec,
        keys: List::of(keys),
        domains,
        primary: 1,
        directory: 0,
        used,
    }))
}

/// What is known of what stands under a key.
fn known(alloc: Global, plain: &mut DbPlain, key: &RelKey) -> Result<Option<RelInfo>, OutOfMemory>
    ensures known { IfOk result (λ info. info ≡ known_at (database_of plain.old) key.now) }
    ensures same { database_of plain.new ≡ database_of plain.old }
{
    match plain.info(alloc, key) {
        Ok(info) => Ok(info),
        Err(_) => Err(OutOfMemory),
    }
}

/// The file of a relation that stands under a key; `None` where none is known that may be one's.
pub(crate) fn relation_file(
    alloc: Global,
    plain: &mut DbPlain,
    files: &FileTable,
    key: &RelKey,
) -> Result<Option<RelFile>, OutOfMemory>
    requires { is_relation (database_of plain.old) key.now ≡ true }
    ensures same { database_of plain.new ≡ database_of plain.old }
    ensures there { IfOk result (λ found. ForSome found (λ file. IsFileOf (database_of plain.old) (files_of files.now) key.now file)) }
    ensures none { IfOk result (λ found. found ≡ None → ((files_of files.now).file key.now < 16) ⊎ ((files_of files.now).used key.now < 1)) }
{
    let Some((file, used)) = files.place(key) else {
        return Ok(None);
    };
    if file < FIRST_FILE || used == 0 {
        return Ok(None);
    }
    match known(alloc, plain, key)? {
        Some(info) => file_with(alloc, &info, file, used),
        None => Ok(None),
    }
}

/// The file of an index, which has no pages yet.
fn index_file(alloc: Global, info: &RelInfo, file: u32) -> Result<Option<RelFile>, OutOfMemory>
    requires { info.now.spec ≡ Index }
    ensures there { IfOk result (λ found. ForSome found (λ its. HasKind info.now its × (its.file ≡ file))) }
    ensures none { IfOk result (λ found. found ≡ None → each domain_of info.now.attrs ≡ None) }
{
    match file_with(alloc, info, file, 0)? {
        Some(mut its) => {
            its.primary = 0;
            Ok(Some(its))
        }
        None => Ok(None),
    }
}

/// The file of a relation that has this one with so many pages, or of an index that has it; `None` of a
/// view, and where an attribute has no domain.
pub(crate) fn file_by(
    alloc: Global,
    info: &RelInfo,
    file: u32,
    used: u32,
) -> Result<Option<RelFile>, OutOfMemory>
    ensures there { IfOk result (λ found. ForSome found (λ its. IsFileBy info.now file used its)) }
    ensures none { IfOk result (λ found. found ≡ None → (is_view info.now.spec ≡ true) ⊎ (each domain_of info.now.attrs ≡ None)) }
{
    match info.spec {
        Spec::View => Ok(None),
        Spec::Index => index_file(alloc, info, file),
        _ => file_with(alloc, info, file, used),
    }
}
