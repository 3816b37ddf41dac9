// The Merkle tree of RFC 9162, section 2.1, over the node hash of the crate `hash`: builders of roots, inclusion paths and consistency
// paths from leaf hashes, and the verdicts on inclusion and consistency proofs. What crates above build on is public, takes any numbers and any
// buffers, and goes by an `Algorithm`; the entries, in by_number, go by its number. specs/ has the definitions over any hash; proofs/ has the laws
// that crates above may cite.
#![tactic(auto)]

pub mod by_number; // the entries: builders and verdicts by the number of a hash
pub mod build; // roots and paths, from joined leaf hashes into a lent output
pub mod verdict; // both verdicts
pub mod count; // how many nodes a path has
pub mod limits; // the largest size, and the most nodes of a path
pub mod nodes; // hashes joined in a buffer, 32 bytes each
mod parts; // recursions on the two parts of joined leaf hashes
mod refusal; // the numbers of the refusals
pub mod split; // the two parts of a list
pub mod yields; // the roots that a path yields

ghost use Rattle.octets.specs.Answer.{Faithful};
ghost use Rattle.tree.specs.Build.{building};
ghost use Rattle.tree.specs.Equations.{Equations};
ghost use Rattle.tree.specs.Claims.{OfEvery, OfEvery32, Bounds, Reached, Counts, Accepts, Equal, Complete, FullSubtrees};

// What is proved beside the contracts, over any hash: the RFC's equations, the counts of nodes, that the verdicts accept exactly what the definitions
// yield, all that the builders build among it, and how full subtrees and levels make up a tree. It does nothing.
pub fn claims()
    ensures equations { OfEvery Equations }
    ensures bounds { Bounds }
    ensures reached { Reached }
    ensures counts { OfEvery Counts }
    ensures accepts { OfEvery Accepts }
    ensures equal { OfEvery Equal }
    ensures complete { OfEvery32 Complete }
    ensures full_subtrees { OfEvery FullSubtrees }
    ensures building_loses_nothing { Faithful building }
{}
