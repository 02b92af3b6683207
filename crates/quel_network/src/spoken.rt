//! The language of this program as one of those that four stages may speak.

ghost use Rattle.quel_network.specs.Laws.{quel_laws};
ghost use Rattle.quel_network.specs.Quel.{quel};
ghost use Rattle.quel_network.specs.Sorts.{User, quel_sorts};

use network_meaning::Spoken;

/// QUEL, as the four stages of this program speak it, for each user and each way of reading texts that
/// the grammar allows. So each law of the network holds of it.
pub struct Quel;

impl Spoken for Quel {
    ghost sorts = { quel_sorts };

    ghost User = { User };

    ghost language = { quel };

    ghost obeys = { quel_laws };
}
