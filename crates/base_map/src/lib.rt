//! The collection of a map: what it holds, an edition for each stripe of its keys, what calls on it read and write, and the
//! replay of the changes that a transaction commits.
//!
//! Key `k` is on stripe `k mod stripes`, and the stripes are the map's locations. A call on one key reads its stripe and
//! writes it if it changes the key's entry; `Len` reads every stripe. [`laws`] says of this that it is enough: what a call
//! answers depends on the stripes that it reads alone, and what it changes is on those that it writes.
#![tactic(auto)]

mod footprints;
pub mod laws;
mod map_base;

pub use footprints::{change_in, location_in, reads_in, writes_in};
pub use map_base::MapBase;
