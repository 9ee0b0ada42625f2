//! The tables to begin with.
ghost use Rattle.std.specs.Prelude.{◌≡◌, IfOk};
ghost use Rattle.rand.specs.Draw.{Gives};
ghost use Rattle.vac_model.specs.Balanced.{IsBalanced};
ghost use Rattle.text_formats.specs.Openings.{AreItems, IsFresh, item_drawn, opening_of};
ghost use Rattle.text_formats.specs.Options.{AreWithin};

use crate::draws::{below, price};
use crate::options::Options;
use rand_core::Rng;
use rand_pcg::Pcg32;
use seq_model::{Entries, Memory};
use std::alloc::Global;
use vac_model::{Each, Item, Queue, Tables};

/// Tables to begin with: of each kind an item of each id from 1 on, with units and a price that are drawn, all units free, and no
/// customers. They are balanced.
pub fn opening(alloc: Global, seed: u64, options: &Options) -> Result<Tables, Memory>
    requires { AreWithin options.now }
    ensures drawn { IfOk result (λ tables. tables ≡ opening_of seed options.now) }
    ensures balanced { IfOk result IsBalanced }
{
    let mut random = Pcg32::new(seed, 0);
    let items = Each {
        car: items(alloc, &mut random, options.relations)?,
        flight: items(alloc, &mut random, options.relations)?,
        room: items(alloc, &mut random, options.relations)?,
    };
    let waiting = Each {
        car: Queue::new(alloc),
        flight: Queue::new(alloc),
        room: Queue::new(alloc),
    };
    let (customers, tickets) = (Entries::new(alloc), Entries::new(alloc));
    Ok(Tables::of_maps(alloc, items, customers, tickets, waiting, 0))
}

/// So many items of a kind, by id, from 1.
#[tactic(auto, using(crate::proofs::DrawnOpeningLemmas::no_items, crate::proofs::DrawnOpeningLemmas::item_more))]
fn items<R: Rng>(alloc: Global, random: &mut R, count: u32) -> Result<Entries<Item>, Memory>
    ensures { IfOk result (λ items. AreItems count (R.stream random.old) items (R.stream random.new)) }
{
    let mut items = Entries::new(alloc);
    for before in 0..u64::from(count) {
        let item = item(random);
        items.insert(before + 1, item)?;
    }
    Ok(items)
}

fn item<R: Rng>(random: &mut R) -> Item
    ensures drawn { Gives item_drawn (R.stream random.old) result (R.stream random.new) }
    ensures fresh { IsFresh result }
{
    let total = 100 * (1 + below(random, 5));
    Item {
        total,
        used: 0,
        free: total,
        price: price(random),
    }
}
