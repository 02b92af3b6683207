ghost use Rattle.network_meaning.specs.Language.{Language};
ghost use Rattle.network_meaning.specs.Laws.{Laws};
ghost use Rattle.network_meaning.specs.Sorts.{Sorts};
ghost use Rattle.network_meaning.specs.Tiny.{tiny, tiny_sorts};
ghost use Rattle.network_meaning.specs.TinyLaws.{tiny_laws};

/// A language that four stages may speak: what it speaks about, and for each user what scripts mean and
/// how messages are spelled.
pub trait Spoken {
    ghost sorts: { Sorts };

    ghost User: { Type 0 };

    ghost language: { User → Language sorts };

    ghost obeys: { (user : User) → Laws (language user) };
}

/// A small language, as an example: each byte of a script is a statement, which adds it to the
/// database, asks for all of it, or is refused, whoever the user is.
pub struct Tiny;

impl Spoken for Tiny {
    ghost sorts = { tiny_sorts };

    ghost User = { Unit {0} };

    ghost language = { λ _. tiny };

    ghost obeys = { λ _. tiny_laws };
}
