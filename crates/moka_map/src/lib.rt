//! A hash map after moka's `cht::segment::HashMap`, of one owner: keys by their hashes over
//! segments, whose arrays grow.
#![tactic(auto)]

mod answers;
mod changes;
mod hash_map;
mod inserts;
mod iter;
mod looks;
mod removals;
mod running;
mod scanning;
mod whole;

pub use hash_map::HashMap;
pub use iter::Iter;
pub use scanning::ScanningGet;
pub use whole::each_pair_once;
