//! What the stages print of a script is what its session prints, and where they leave it is where it ends.

ghost use Rattle.std.specs.Prelude.{◌≡◌, [], ◌∷◌, ℕ, List, map, true};
ghost use Rattle.calculus.specs.Database.{Db};
ghost use Rattle.quel_meaning.specs.Session.{databases, output, replies, session};
ghost use Rattle.quel_meaning.specs.State.{State};
ghost use Rattle.quel_network.specs.Quel.{quel};
ghost use Rattle.quel_network.specs.Sorts.{User, first_monitor};

/// What a script prints that no stage has begun yet is the output of its session. Its statements are
/// those of the session, each with its reply and the database after it. And where it ends the session
/// does: its database, its files, and whether a command ended it.
pub fn a_script_is_its_session()
    ensures bytes { (user : User) (state : State) (script : List ℕ)
        → (quel user).script_bytes state.db state.shelf state.ranges first_monitor script ≡ output (session user.reading user.asker state script) }
    ensures databases { (user : User) (state : State) (script : List ℕ)
        → state.db ∷ map (λ f. f.db) ((quel user).script_statements state.db state.shelf state.ranges first_monitor script) ≡ databases state.db (session user.reading user.asker state script) }
    ensures replies { (user : User) (state : State) (script : List ℕ)
        → map (λ f. f.reply) ((quel user).script_statements state.db state.shelf state.ranges first_monitor script) ≡ replies (session user.reading user.asker state script) }
    ensures end { (user : User) (state : State) (script : List ℕ)
        → (quel user).script_end state.db state.shelf state.ranges first_monitor script ≡ (let s = session user.reading user.asker state script in record { db = s.state.db; shelf = s.state.shelf; quit = s.quit }) }
    ensures over { (user : User) (script : List ℕ) → (quel user).is_over script ≡ true → script ≡ [] }
{}
