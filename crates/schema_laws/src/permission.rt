//! What is permitted, whatever the rows.

ghost use Rattle.std.specs.Prelude.{◌≡◌, ℕ, List};
ghost use Rattle.calculus.specs.declared.query.RelKey.{RelKey};
ghost use Rattle.calculus.specs.declared.query.Query.{Query};
ghost use Rattle.calculus.specs.declared.request.Update.{Update};
ghost use Rattle.calculus.specs.Who.{Who};
ghost use Rattle.calculus.specs.Database.{Db};
ghost use Rattle.calculus.specs.Rights.{Right, permitted};
ghost use Rattle.calculus.specs.Permission.{readable, query_permitted, update_permitted};
ghost use Rattle.calculus.specs.Schema.{schema_of};

/// What is permitted without a look at rows is permitted in the schema, and nothing else is.
pub fn what_is_permitted_is_in_the_schema()
    ensures rights { (db : Db) (who : Who) (right : Right) (attrs : List ℕ) (key : RelKey)
        → permitted (schema_of db) who right attrs key ≡ permitted db who right attrs key }
    ensures reading { (db : Db) (who : Who) (key : RelKey) (attrs : List ℕ)
        → readable (schema_of db) who key attrs ≡ readable db who key attrs }
    ensures queries { (db : Db) (who : Who) (q : Query) → query_permitted (schema_of db) who q ≡ query_permitted db who q }
    ensures updates { (db : Db) (who : Who) (u : Update) → update_permitted (schema_of db) who u ≡ update_permitted db who u }
{}
