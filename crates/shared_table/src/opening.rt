//! Opening a table.
ghost use Rattle.actor_parts.specs.declared.blocks.TheConstants.{COLLECTION_LIMIT, TABLE_LIMIT};
ghost use Rattle.std.specs.Prelude.{◌≡◌, ◌≤◌, ◌≢◌, [], IfErr, IfOk, IfSome, IsOk, Some, length, map};
ghost use Rattle.replay_log.specs.Contents.{HaveStripes};
ghost use Rattle.seq_model.specs.Refusals.{IsNoSuchOrTooLong};
ghost use Rattle.actor_parts.specs.Openings.{IsWithin, blocks_of, world_of};
ghost use Rattle.shared_table.specs.Layout.{IsLaidOut};
ghost use Rattle.shared_table.specs.Shown.{first as first_view};
ghost use Rattle.shared_table.specs.Seated.{Owns, blocks_in, contents_in, list_of, opening_of};

use crate::home::Home;
use crate::layout::stride;
use crate::rule::Whole;
use crate::seat::{EventsSinceStep, Seat};
use crate::table::TxTable;
use crate::view::{Opening, SHARES};
use actor_parts::{Blocks, Boxed, lay};
use replay_log::Base;
use seq_model::{Memory, Refusal, Shape, State, Value};
use std::alloc::Global;
use std::snapshot::Snapshot;

// The words of a table that opens with this clock and these values.
fn laid_out(alloc: Global, clock: u64, values: &[u64], gates: usize) -> Result<Vec<u64>, Memory>
    requires locations { length values.now ≤ TABLE_LIMIT }
    requires gates { gates ≤ COLLECTION_LIMIT }
    ensures { IfOk result (λ row. IsLaidOut clock values.now (length values.now) gates row.items) }
{
    let locations = values.len();
    let step = stride(locations);
    let mut row = vec![in alloc; 0; 16 + step * locations + 8 * gates]?;
    row[0] = clock;
    for l in 0..locations {
        row[9 + step * l] = values[l];
    }
    Ok(row)
}

fn at_home<V: Value>(
    alloc: Global,
    bases: Vec<Base<V>>,
) -> Result<Vec<Boxed<Home<Base<V>>>>, Memory>
    ensures { IfOk result (λ homes. homes.items ≡ map Some bases.items) }
{
    let mut homes = Vec::with_capacity(alloc, bases.len())?;
    for base in bases {
        let base = Boxed::new(alloc, base)?;
        homes.push(Boxed::new(alloc, Home::of(base))?)?;
    }
    Ok(homes)
}

// How the locations are laid out, where there is a number of stripes for each collection, and it is not refused.
fn blocks_for<V: Value>(alloc: Global, shape: &Shape, state: &State<V>) -> Option<Blocks>
    ensures words { IfSome result (λ blocks. blocks.words ≡ length state.now.words) }
    ensures blocks { IfSome result (λ blocks. blocks.blocks ≡ blocks_of shape.now.stripes state.now.held) }
{
    let stripes = shape.stripes.as_slice();
    let held = state.held();
    if stripes.len() != held.len() {
        return None;
    }
    match lay(alloc, state.words().len(), stripes, held) {
        Ok(blocks) => Some(blocks),
        Err(_) => None,
    }
}

impl<V: Value> TxTable<V> {
    /// A table that opens with these words and collections, and with this clock, and its first seat alone, which has all shares. Each
    /// collection is in as many stripes as the shape says.
    ///
    /// `NoSuch` where the shape has not as many numbers of stripes as there are collections. `TooLong` where the clock is above its limit,
    /// there are more than 256 collections or more than 1,048,576 locations, or a collection can't have so many stripes. What was moved in
    /// is dropped. `Memory`, where an allocation fails, only where nothing of these is so.
    pub fn open_bare(
        alloc: Global,
        shape: &Shape,
        state: State<V>,
    ) -> Result<(TxTable<V>, Seat<V>), Refusal>
        ensures opens { IfOk result (λ opened. opening_of opened.0 ≡ world_of shape.now.stripes shape.now.clock state) }
        ensures blocks { IfOk result (λ opened. blocks_in opened.0 ≡ blocks_of shape.now.stripes state.held) }
        ensures stripes { IfOk result (λ opened. HaveStripes (blocks_in opened.0)) }
        ensures contents { IfOk result (λ opened. contents_in opened.0 ≡ state) }
        ensures owns { IfOk result (λ opened. Owns opened.0 opened.1) }
        ensures seat { IfOk result (λ opened. opened.1.place.me ≡ (first_view, [])) }
        ensures new { IfOk result (λ opened. (list_of opened.1.asked ≡ []) × (opened.1.last ≡ 0)) }
        ensures refused { IfErr result (λ refusal. IsNoSuchOrTooLong refusal (length shape.now.stripes ≢ length state.held)
            (IsWithin shape.now.stripes shape.now.clock state)) }
        ensures fits { IsOk result → (length shape.now.stripes ≡ length state.held) × IsWithin shape.now.stripes shape.now.clock state }
    {
        let about = Opening {
            shape: Snapshot::of(shape),
            state: Snapshot::of(&state),
        };
        let words = state.words().len();
        let blocks = blocks_for(alloc, shape, &state);
        let laid = actor_parts::Table::open(alloc, shape, state)?;
        let Some(blocks) = blocks else {
            return Err(Refusal::Memory);
        };
        let locations = laid.cells.values.len();
        let row = laid_out(
            alloc,
            laid.cells.clock,
            &laid.cells.values,
            laid.gates.len(),
        )?;
        let homes = at_home(alloc, laid.bases)?;
        let Ok((whole, place)) = Whole::new(alloc, row.as_slice(), homes, &about) else {
            return Err(Refusal::Memory);
        };
        let table = TxTable {
            whole,
            words: words as u32,
            locations,
            blocks,
            alloc,
        };
        let seat = Seat {
            place,
            asked: EventsSinceStep::Nothing,
            shares: SHARES,
            last: 0,
        };
        Ok((table, seat))
    }
}
