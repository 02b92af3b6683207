//! What is read.

ghost use Rattle.std.specs.Prelude.{◌≡◌, ℕ, List};
ghost use Rattle.std.specs.List.{Contains};
ghost use Rattle.calculus.specs.declared.query.RelKey.{RelKey};
ghost use Rattle.calculus.specs.declared.query.Query.{Query};
ghost use Rattle.calculus.specs.declared.request.Update.{Update};
ghost use Rattle.calculus.specs.Who.{Who};
ghost use Rattle.calculus.specs.Database.{Db};
ghost use Rattle.calculus.specs.VariableRows.{rows_of};
ghost use Rattle.calculus.specs.Answer.{answer, lacks};
ghost use Rattle.calculus.specs.Replacement.{updated};
ghost use Rattle.calculus.specs.Permission.{query_permitted, update_permitted};
ghost use Rattle.calculus.specs.Sizes.{level_of};
ghost use Rattle.calculus.specs.Reads.{reads_of, query_reads, update_reads};
ghost use Rattle.calculus.specs.Schema.{schema_of};
ghost use Rattle.calculus_laws.specs.Reading.{IsKept, HaveSameRows, IsOverItsRelation};

/// What a key reads, and what a query reads, through views of views and by aggregates, are base relations
/// and catalogues that are there.
pub fn what_is_read_is_kept()
    ensures key { (db : Db) (key read : RelKey) → Contains (reads_of db key) read → IsKept db read }
    ensures query { (db : Db) (q : Query) (read : RelKey) → Contains (query_reads db q) read → IsKept db read }
{}

/// Two databases of one schema that have the same rows under each key that a query reads give the same
/// answer, whoever asks, and lack the value of a target in the same cases; and what has a key has the same
/// rows, where those of each key that it reads are the same. An update makes the same change of both, or is
/// refused by the same number, where what it reads is the same.
pub fn what_is_read_decides()
    ensures rows { (db other : Db) → schema_of db ≡ schema_of other → (who : Who) (key : RelKey) → HaveSameRows db other (reads_of db key)
        → (attrs : List ℕ) → rows_of db who key attrs ≡ rows_of other who key attrs }
    ensures answers { (db other : Db) → schema_of db ≡ schema_of other → (who : Who) (q : Query) → HaveSameRows db other (query_reads db q)
        → answer db who q ≡ answer other who q }
    ensures lacks { (db other : Db) → schema_of db ≡ schema_of other → (who : Who) (q : Query) → HaveSameRows db other (query_reads db q)
        → lacks db who q ≡ lacks other who q }
    ensures updates { (db other : Db) → schema_of db ≡ schema_of other → (who : Who) (u : Update) → IsOverItsRelation u → HaveSameRows db other (update_reads db u)
        → updated db who u ≡ updated other who u }
{}

/// The schema decides what is read and what is permitted, and the level of what stands under a key: in two
/// databases of one schema they are the same, whatever rows the relations have.
pub fn the_schema_decides()
    ensures reads { (db other : Db) → schema_of db ≡ schema_of other → (q : Query) → query_reads db q ≡ query_reads other q }
    ensures update_reading { (db other : Db) → schema_of db ≡ schema_of other → (u : Update) → update_reads db u ≡ update_reads other u }
    ensures levels { (db other : Db) → schema_of db ≡ schema_of other → (key : RelKey) → level_of db key ≡ level_of other key }
    ensures query { (db other : Db) → schema_of db ≡ schema_of other → (who : Who) (q : Query) → query_permitted db who q ≡ query_permitted other who q }
    ensures update { (db other : Db) → schema_of db ≡ schema_of other → (who : Who) (u : Update) → update_permitted db who u ≡ update_permitted other who u }
{}
