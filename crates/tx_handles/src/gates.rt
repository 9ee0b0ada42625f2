//! Where a collection over several gates lies.
//!
//! A collection of the table has one gate, which each call on it takes. A map or a multiset over several gates is laid over as many
//! collections of the table, with consecutive numbers: a hash of a key says in which of them the key is. So calls on different keys seldom
//! wait for each other.
ghost use Rattle.std.specs.Prelude.{◌≡◌, ◌+◌, ◌≤◌, IfOk, slice_get};
ghost use Rattle.std.specs.Option.{option_copied};
ghost use Rattle.tx_handles.specs.Gates.{hash_of, place_of};

use seq_model::{Held, Refusal};

/// An odd number near 2 to the 64th over the golden ratio: products of neighbours with it are far from each other.
pub const SPREAD: u64 = 11_400_714_819_323_198_485;

/// Another odd number, for the second round. Of several it is the one by which the first few keys lie most evenly.
pub const MIX: u64 = 9_346_574_923_557_569_063;

/// Collections of the table with consecutive numbers, and what the hash of a key starts from.
#[derive(Clone, Copy)]
pub struct Gates {
    pub first: u32,
    /// How many there are beside the first one.
    pub others: u32,
    pub seed: u64,
}

// The last product has the key in both factors. With a constant in one of them, keys at the same distance would have hashes at the same few
// distances, and neighbours would be on one gate far more often than any two keys.
#[tactic(auto, unfolding(crate::specs::Gates::hash_of, crate::specs::Gates::mixed_of, crate::specs::Gates::spread_of))]
fn hash_of(seed: u64, key: u64) -> u64
    ensures { result ≡ hash_of seed key }
{
    let spread = key.wrapping_add(seed).wrapping_mul(SPREAD);
    let mixed = spread.wrapping_add(spread / 0x1_0000_0000);
    mixed.wrapping_mul(mixed.wrapping_add(MIX)) / 0x1_0000_0000
}

impl Gates {
    /// One collection.
    pub fn one(number: u32) -> Gates
        ensures first { result.first ≡ number }
        ensures others { result.others ≡ 0 }
    {
        Gates {
            first: number,
            others: 0,
            seed: 0,
        }
    }

    /// Which of the collections has a key, counted from 0.
    #[tactic(auto, unfolding(crate::specs::Gates::place_of), using(crate::proofs::GateLemmas::place_within))]
    pub fn place(self, key: u64) -> u64
        ensures place { result ≡ place_of self key }
        ensures within { result ≤ self.others }
    {
        if self.others == 0 {
            return 0;
        }
        hash_of(self.seed, key) % (u64::from(self.others) + 1)
    }

    /// The number of one of the collections.
    pub fn number(self, place: u64) -> Result<u32, Refusal>
        ensures { IfOk result (λ number. number ≡ self.first + place) }
    {
        let Some(number) = u64::from(self.first).checked_add(place) else {
            return Err(Refusal::NoSuch);
        };
        let Ok(number) = u32::try_from(number) else {
            return Err(Refusal::NoSuch);
        };
        Ok(number)
    }

    /// What one of the collections holds, of what all collections of a store hold.
    pub fn held_at<V>(self, held: &[Held<V>], place: u64) -> Option<&Held<V>>
        ensures { option_copied result ≡ slice_get held.now (self.first + place) }
    {
        let number = u64::from(self.first).checked_add(place)?;
        held.get(number as usize)
    }
}
