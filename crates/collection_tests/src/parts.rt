//! Rows on what all collections use: sets of locations, editions and the hash map.
ghost use Rattle.std.specs.Prelude.{◌≡◌, ◌<◌, ◌^◌, IsTrue, length, slice_index};

use crate::alone::{HIGH, locations_in};
use conflict::{Editions, LocSet, RoomMap, conflicts};
use row_parts::{Call, call_of, location_in, print_held, split};
use seq_model::{Held, Memory, Refusal};
use smallvec::SmallVec;
use std::alloc::Global;
use std::fmt::Write;
use text_formats::tokens_of;

/// The set of the locations that stand after its name.
pub fn set_in(alloc: Global, row: &str) -> Result<LocSet, Refusal> {
    let Some((_, locations)) = row.split_once(' ') else {
        return Ok(LocSet::empty(alloc));
    };
    let tokens = tokens_of(alloc, locations)?;
    match tokens.as_slice() {
        [one] => Ok(LocSet::single(alloc, location_in(one)?)),
        [lower, higher] => pair_of(alloc, location_in(lower)?, location_in(higher)?),
        many => {
            let mut locations = SmallVec::new(alloc);
            for token in many {
                locations.push(location_in(token)?)?;
            }
            Ok(LocSet::from_locations(locations))
        }
    }
}

fn pair_of(alloc: Global, lower: u32, higher: u32) -> Result<LocSet, Refusal> {
    if lower < higher {
        Ok(LocSet::pair(alloc, lower, higher))
    } else {
        Err(Refusal::NoSuch)
    }
}

/// `COUNT has LOCATIONS`: how many locations are below the count, and whether these are.
pub fn answer_below(text: &mut String, row: &str) -> Result<(), Refusal> {
    let (count, locations) = split(row, " has ")?;
    let set = LocSet::all_below(*text.allocator(), location_in(count)?)?;
    let count = set.as_slice().len();
    write!(text, "{count} locations")?;
    for token in locations.split(' ') {
        let location = location_in(token)?;
        text.push_str(if set.contains(location) {
            ", yes"
        } else {
            ", no"
        })?;
    }
    Ok(())
}

/// What a call reads and writes.
#[derive(Drop)]
pub struct Footprint {
    pub reads: LocSet,
    pub writes: LocSet,
}

fn footprint_in(alloc: Global, row: &str) -> Result<Footprint, Refusal> {
    let (reads, writes) = split(row, ", ")?;
    let reads = set_in(alloc, reads)?;
    let writes = set_in(alloc, writes)?;
    Ok(Footprint { reads, writes })
}

/// Whether two calls conflict with these footprints.
pub fn tell_conflict(text: &mut String, one: &Footprint, other: &Footprint) -> Result<(), Refusal> {
    let meet = conflicts(&one.reads, &one.writes, &other.reads, &other.writes);
    Ok(text.push_str(if meet { "yes" } else { "no" })?)
}

/// `reads LOCATIONS, writes LOCATIONS; reads LOCATIONS, writes LOCATIONS`: whether the two conflict.
pub fn answer_meet(text: &mut String, row: &str) -> Result<(), Refusal> {
    let alloc = *text.allocator();
    let (one, other) = split(row, "; ")?;
    let one = footprint_in(alloc, one)?;
    let other = footprint_in(alloc, other)?;
    tell_conflict(text, &one, &other)
}

fn is_raisable(editions: &Editions, count: u32, location: u32) -> bool
    requires { length editions.now ≡ count }
    ensures within { IsTrue result → location < length editions.now }
    ensures below { IsTrue result → slice_index editions.now location < 2 ^ 63 }
{
    location < count && editions.edition(location) < HIGH
}

fn raise(
    alloc: Global,
    editions: &mut Editions,
    count: u32,
    written: (u32, u32),
) -> Result<(), Refusal>
    requires { length editions.old ≡ count }
    ensures { length editions.new ≡ count }
{
    let (lower, higher) = written;
    if !is_raisable(editions, count, lower) || !is_raisable(editions, count, higher) {
        return Err(Refusal::NoSuch);
    }
    let written = if lower < higher {
        LocSet::pair(alloc, lower, higher)
    } else {
        LocSet::single(alloc, lower)
    };
    editions.raise(&written);
    Ok(())
}

fn print_copy(text: &mut String, editions: &Editions, count: u32) -> Result<(), Memory>
    requires { length editions.now ≡ count }
{
    let copy = editions.try_copy()?;
    text.push_str("editions")?;
    for location in 0..count {
        let edition = copy.edition(location);
        write!(text, " {edition}")?;
    }
    Ok(())
}

/// `COUNT raised LOCATIONS`: a copy of so many editions, of which none, one or two are raised.
pub fn answer_editions(text: &mut String, row: &str) -> Result<(), Refusal> {
    let (count, raised) = split(row, " raised")?;
    let count = location_in(count)?;
    let alloc = *text.allocator();
    let mut editions = Editions::new(alloc, count)?;
    if let Some(raised) = raised.strip_prefix(" ") {
        raise(alloc, &mut editions, count, locations_in(raised)?)?;
    }
    Ok(print_copy(text, &editions, count)?)
}

fn step(text: &mut String, table: &mut RoomMap<u64>, asked: Call<'_>) -> Result<(), Refusal> {
    match asked.name {
        "put" => {
            table.reserve(1)?;
            table.insert_reserved(asked.at, asked.value);
            Ok(())
        }
        "remove" => {
            table.remove(asked.at);
            Ok(())
        }
        "get" => {
            let printed = match table.get(asked.at) {
                Some(value) => write!(text, "{value}; "),
                None => text.push_str("none; "),
            };
            Ok(printed?)
        }
        _ => Err(Refusal::NoSuch),
    }
}

fn print_table(text: &mut String, table: &RoomMap<u64>) -> Result<(), Refusal> {
    let count = table.len();
    write!(text, "{count} keys, ")?;
    let held = Held::Map(table.to_entries()?);
    Ok(print_held(text, &held)?)
}

/// `STEPS`: a table on which `put KEY VALUE`, `remove KEY` and `get KEY` are made; what it holds, and what a table does that is
/// opened of a copy's entries.
pub fn answer_hash_map(text: &mut String, row: &str) -> Result<(), Refusal> {
    let alloc = *text.allocator();
    let mut table = RoomMap::new(alloc);
    let answered = make_steps(alloc, text, &mut table, row);
    drop(table);
    answered
}

fn make_steps(
    alloc: Global,
    text: &mut String,
    table: &mut RoomMap<u64>,
    row: &str,
) -> Result<(), Refusal> {
    for asked in row.split(", ") {
        step(text, table, call_of(asked)?)?;
    }
    print_table(text, table)?;
    text.push_str("; again ")?;
    let again = RoomMap::of_entries(alloc, table.try_copy()?.to_entries()?)?;
    print_table(text, &again)
}
