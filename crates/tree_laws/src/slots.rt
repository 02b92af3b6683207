//! Aggregates in a list, by their slots.

ghost use Rattle.std.specs.Prelude.{◌≡◌, true, List, map};
ghost use Rattle.calculus.specs.declared.query.Query.{Query};
ghost use Rattle.calculus.specs.Database.{Db};
ghost use Rattle.calculus.specs.QueryParts.{query_aggregates};
ghost use Rattle.calculus.specs.Who.{Who};
ghost use Rattle.quel_meaning.specs.FitQueries.{slots_count_up};
ghost use Rattle.view_text.specs.declared.expansion.Expansion.{Expansion};
ghost use Rattle.view_text.specs.Expanded.{expanded_aggregate, expanded_over, substituted_query};
ghost use Rattle.view_text.specs.Replaced.{listed};
ghost use Rattle.view_text.specs.Expansions.{substituted_from};

/// Where the slots of a query's aggregates count up, a query with these expansions substituted has at the place of
/// each aggregate the one at its slot in the list of what all of them become.
pub fn aggregates_stand_at_their_slots()
    ensures { (db : Db) (who : Who) (expansions : List Expansion) (q : Query) → slots_count_up q ≡ true
        → substituted_query (listed (map (expanded_aggregate db who (substituted_from 0 expansions)) (query_aggregates q))) expansions q ≡ expanded_over db who expansions q }
{}
