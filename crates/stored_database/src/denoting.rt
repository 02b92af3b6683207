//! What the pages of a disk stand for.

ghost use Rattle.stored_database.specs.Laws.{FreshPagesStand, HeadersAreTheirBytes, OneDatabase, OnlyKeptPagesCount, PagesStandExactly, SameRedone, SameWhereKept, ShutDisksHold, WhatIsDenotedIsADatabase};

/// What pages stand for is a database.
#[tactic(auto, using(crate::proofs::WhatStands::what_is_denoted_is_a_database))]
pub fn what_is_denoted_is_a_database()
    ensures { WhatIsDenotedIsADatabase }
{}

/// Pages stand for at most one database.
#[tactic(auto, using(crate::proofs::WhatStands::one_database))]
pub fn one_database()
    ensures { OneDatabase }
{}

/// Disks with the same pages once their batches are applied hold the same database.
#[tactic(auto, using(crate::proofs::WhatStands::same_redone))]
pub fn same_redone()
    ensures { SameRedone }
{}

/// Only the pages of file 0 and of the files from 5 up count.
#[tactic(auto, using(crate::proofs::WhatStands::only_kept_pages_count))]
pub fn only_kept_pages_count()
    ensures { OnlyKeptPagesCount }
{}

/// Images with the same such pages stand for the same database.
#[tactic(auto, using(crate::proofs::WhatStands::same_where_kept))]
pub fn same_where_kept()
    ensures { SameWhereKept }
{}

/// A disk whose gate isn't open holds what its pages denote.
#[tactic(auto, using(crate::proofs::WhatStands::shut_disks_hold))]
pub fn shut_disks_hold()
    ensures { ShutDisksHold }
{}

/// Fresh pages, with a header, the birth byte and three empty files, stand for an empty database.
#[tactic(auto, using(crate::proofs::Fresh::fresh_pages_stand))]
pub fn fresh_pages_stand()
    ensures { FreshPagesStand }
{}

/// The first bytes of a page are a header exactly of a name.
#[tactic(auto, using(crate::proofs::Exactly::headers_are_their_bytes))]
pub fn headers_are_their_bytes()
    ensures { HeadersAreTheirBytes }
{}

/// Pages denote a database exactly where they are the pages that it has: the header, the birth byte,
/// its catalogue by files that it may have, and on them its rows.
#[tactic(auto, using(crate::proofs::Exactly::pages_stand_exactly))]
pub fn pages_stand_exactly()
    ensures { PagesStandExactly }
{}
