// Carrying an inclusion proof forward and comparing two, document 01, 'Carrying forward and comparing': a proof at an old size becomes a
// proof at a new size, or two strings with one hash are handed over. specs/ has the definitions over any hash; proofs/ has the laws that
// crates above may cite.
#![tactic(auto)]

pub mod by_number; // the entries: both by the number of a hash
pub mod compare; // two inclusion proofs for one place, size and root
pub mod forward; // an inclusion proof, by a consistency proof to a larger size
pub mod limits; // how long a pair buffer must be
mod accept; // when both verdicts accept
mod bytes; // strings and paths, written into lent buffers
mod level; // one level of two proofs
mod walk; // the way down to the full subtree that holds a place

ghost use Rattle.octets.specs.Answer.{Faithful};
ghost use Rattle.carry.specs.Carries.{Carrying, Honest};
ghost use Rattle.carry.specs.Cases.{Starred};
ghost use Rattle.tree.specs.Claims.{OfEvery, OfEvery32};
ghost use Rattle.carry.specs.Compare.{comparing};
ghost use Rattle.carry.specs.Compares.{Comparing};
ghost use Rattle.carry.specs.Examples.{Collisions};
ghost use Rattle.carry.specs.Forward.{carrying};
ghost use Rattle.carry.specs.Levels.{Levelled};

// What is proved of carrying and comparing beside their own promises: of every hash, or of every hash of 32 bytes; of the paper's cases, of examples with
// collisions, and that what the answers report loses nothing. It does nothing.
pub fn claims()
    ensures carries { OfEvery32 Carrying }
    ensures honest_list { OfEvery32 Honest }
    ensures compares { OfEvery32 Comparing }
    ensures topmost { OfEvery Levelled }
    ensures starred { Starred }
    ensures collisions { Collisions }
    ensures carrying_loses_nothing { Faithful carrying }
    ensures comparing_loses_nothing { Faithful comparing }
{}
