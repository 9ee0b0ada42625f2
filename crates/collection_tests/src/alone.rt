//! Rows that open a base of their own.
ghost use Rattle.std.specs.Prelude.{◌≡◌, ◌<◌, ◌≤◌, ◌^◌, ◌∷◌, [], IfOk, IsTrue, slice_index};
ghost use Rattle.replay_log.specs.Base.{editions_of, locations_of, shown_of, stripes_of};

use crate::changes::changes_of;
use base_bag::BagBase;
use base_map::MapBase;
use base_pq::PqBase;
use base_queue::QueueBase;
use conflict::{Change, Changes, LocSet};
use replay_log::{Base, LocationEditions, Log, Touch, TouchedKey};
use row_parts::{location_in, print_all, print_base, script_of, split};
use seq_model::{Held, Memory, Op, Refusal};
use std::alloc::{AllocError, Global};
use std::fmt::Write;

/// What stands before the editions of a base.
const EDITIONS: &str = "editions";

/// No edition that is raised here is so high.
pub const HIGH: u64 = 1 << 62;

/// `KIND COLLECTION`: opens what the header says as a base of this kind.
pub fn answer_of_kind(text: &mut String, row: &str) -> Result<(), Refusal> {
    let alloc = *text.allocator();
    let (kind, opening) = split(row, " ")?;
    let script = script_of(alloc, opening)?;
    match script.collections.as_slice().first() {
        Some(collection) => {
            let held = collection.held.try_copy(alloc)?;
            let base = open_as(alloc, kind, collection.stripes, held)?;
            print_base(text, &base)
        }
        None => Err(Refusal::NoSuch),
    }
}

fn open_as(alloc: Global, kind: &str, stripes: u32, held: Held<u64>) -> Result<Base<u64>, Refusal> {
    Ok(match kind {
        "map" => Base::Map(MapBase::open(alloc, stripes, held)?),
        "bag" => Base::Bag(BagBase::open(alloc, stripes, held)?),
        "pq" => Base::Pq(PqBase::open(alloc, stripes, held)?),
        _ => Base::Queue(QueueBase::open(alloc, stripes, held)?),
    })
}

fn new_of(alloc: Global, kind: &str, stripes: u32) -> Result<Base<u64>, Refusal>
    ensures { IfOk result (λ base. stripes_of base ≡ stripes) }
{
    Ok(match kind {
        "map" => Base::Map(MapBase::new(alloc, stripes)?),
        "bag" => Base::Bag(BagBase::new(alloc, stripes)?),
        "pq" => Base::Pq(PqBase::new(alloc, stripes)?),
        _ => Base::Queue(QueueBase::new(alloc, stripes)?),
    })
}

fn locations(base: &Base<u64>, stripes: u32) -> u32
    requires { stripes_of base.now ≡ stripes }
    ensures { result ≤ locations_of (stripes_of base.now) (shown_of base.now) }
{
    match base {
        Base::Map(_) | Base::Bag(_) => stripes,
        Base::Pq(_) => stripes.saturating_add(1),
        Base::Queue(_) => stripes.saturating_add(2),
    }
}

fn print_editions(
    text: &mut String,
    name: &str,
    base: &Base<u64>,
    stripes: u32,
) -> Result<(), AllocError>
    requires { stripes_of base.now ≡ stripes }
{
    text.push_str(name)?;
    for location in 0..locations(base, stripes) {
        let edition = base.edition(location);
        write!(text, " {edition}")?;
    }
    Ok(())
}

/// `KIND STRIPES`: the editions of an empty base.
pub fn answer_new(text: &mut String, row: &str) -> Result<(), Refusal> {
    let (kind, stripes) = split(row, " ")?;
    let stripes = location_in(stripes)?;
    let base = new_of(*text.allocator(), kind, stripes)?;
    let printed = print_editions(text, EDITIONS, &base, stripes);
    drop(base);
    Ok(printed?)
}

fn is_raisable(base: &Base<u64>, stripes: u32, location: u32) -> bool
    requires { stripes_of base.now ≡ stripes }
    ensures within { IsTrue result → location < locations_of (stripes_of base.now) (shown_of base.now) }
    ensures below { IsTrue result → slice_index (editions_of base.now) location < 2 ^ 63 }
{
    location < locations(base, stripes) && base.edition(location) < HIGH
}

// Replays the changes, which write these two locations, or one where they are the same, and prints what they leave.
fn raise(
    text: &mut String,
    base: &mut Base<u64>,
    stripes: u32,
    changes: Changes<u64>,
    written: (u32, u32),
) -> Result<(), Refusal>
    requires { stripes_of base.old ≡ stripes }
{
    let alloc = *text.allocator();
    let (lower, higher) = written;
    base.prepare(changes.as_slice())?;
    if !is_raisable(base, stripes, lower) || !is_raisable(base, stripes, higher) {
        return Err(Refusal::NoSuch);
    }
    let written = if lower < higher {
        LocSet::pair(alloc, lower, higher)
    } else {
        LocSet::single(alloc, lower)
    };
    base.replay(changes, &written);
    print_raised(text, base, stripes)
}

/// One location, which stands for two, or two.
pub fn locations_in(row: &str) -> Result<(u32, u32), Refusal> {
    let (lower, higher) = row.split_once(' ').unwrap_or((row, row));
    Ok((location_in(lower)?, location_in(higher)?))
}

/// `KIND STRIPES at LOCATIONS: CHANGES`: the editions of an empty base after the changes, which write these one or two locations;
/// those of its copy, and what the copy holds.
pub fn answer_raised(text: &mut String, row: &str) -> Result<(), Refusal> {
    let (place, changes) = split(row, ": ")?;
    let (opening, written) = split(place, " at ")?;
    let (kind, stripes) = split(opening, " ")?;
    let (stripes, written) = (location_in(stripes)?, locations_in(written)?);
    let changes = changes_of(*text.allocator(), changes)?;
    let mut base = new_of(*text.allocator(), kind, stripes)?;
    raise(text, &mut base, stripes, changes, written)
}

fn print_raised(text: &mut String, base: &Base<u64>, stripes: u32) -> Result<(), Refusal>
    requires { stripes_of base.now ≡ stripes }
{
    print_editions(text, EDITIONS, base, stripes)?;
    let copy = base.try_copy()?;
    let printed = print_copied(text, &copy, stripes);
    drop(copy);
    printed
}

fn print_copied(text: &mut String, copy: &Base<u64>, stripes: u32) -> Result<(), Refusal>
    requires { stripes_of copy.now ≡ stripes }
{
    print_editions(text, ", copied editions", copy, stripes)?;
    text.push_str(", ")?;
    print_base(text, copy)
}

// Two puts on one stripe, each pushed with it.
fn log_of_two_puts(alloc: Global) -> Result<Log<u64>, Memory>
    ensures { IfOk result (λ log. log.locations ≡ 1 ∷ 1 ∷ []) }
{
    let stripe = LocSet::single(alloc, 1);
    let mut log = Log::new(alloc);
    log.push(Change::Put(1, 10), &stripe)?;
    log.push(Change::Put(3, 30), &stripe)?;
    Ok(log)
}

fn fold(alloc: Global, base: &mut Base<u64>) -> Result<(), Refusal>
    requires { stripes_of base.old ≡ 2 }
    ensures { stripes_of base.new ≡ 2 }
{
    let mut log = log_of_two_puts(alloc)?;
    base.prepare(log.changes())?;
    if !is_raisable(base, 2, 1) {
        return Err(Refusal::NoSuch);
    }
    log.fold(base);
    Ok(())
}

/// What two puts leave that are each logged with the one stripe of a map in two that they change. `puts logged`: the editions.
/// `puts touched`: what is copied for a key that the map has, for one that it lacks, and for the number of all keys, by stripes and summed.
pub fn answer_two_puts(text: &mut String, row: &str) -> Result<(), Refusal> {
    let alloc = *text.allocator();
    let mut base = new_of(alloc, "map", 2)?;
    fold(alloc, &mut base)?;
    match row {
        "puts logged" => Ok(print_editions(text, EDITIONS, &base, 2)?),
        "puts touched" => print_all_touches(text, &base),
        _ => Err(Refusal::NoSuch),
    }
}

fn print_all_touches(text: &mut String, base: &Base<u64>) -> Result<(), Refusal> {
    print_touch(text, base.touch(&Op::Get(3))?)?;
    print_touch(text, base.touch(&Op::Remove(4))?)?;
    print_touch(text, base.touch(&Op::Len)?)?;
    let mut lent = LocationEditions::new(*text.allocator());
    Ok(print_touch(text, base.touch_summed(&Op::Len, &mut lent)?)?)
}

// What was touched, and each location with its edition.
fn print_touch(text: &mut String, touch: Touch<u64>) -> Result<(), AllocError> {
    let touched = match &touch.held {
        TouchedKey::Entry(key, Some(value)) => print_all(text, "Entry", &[*key, *value]),
        TouchedKey::Entry(key, None) => write!(text, "Entry {key} none"),
        TouchedKey::Copies(element, copies) => print_all(text, "Copies", &[*element, *copies]),
        TouchedKey::Counts(counts) => print_all(text, "Counts", counts.as_slice()),
        TouchedKey::Total(total) => print_all(text, "Total", &[*total]),
    };
    touched?;
    text.push_str(" at")?;
    for entry in touch.editions.as_slice() {
        write!(text, " {}:{}", entry.0, entry.1)?;
    }
    text.push_str("; ")
}
