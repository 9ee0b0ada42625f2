//! How the lanes lie, and a line in them.
ghost use Rattle.std.specs.Prelude.{◌≡◌, ◌++◌, OnOk, flat_map};
ghost use Rattle.std.specs.String.{string_bytes};
ghost use Rattle.session_text.specs.Lanes.{actor_text, after_text, fits, gap, head_text, is_narrow, lane_in, line_text, name_text, times};

use crate::rows::Row;
use crate::run::whose;
use seq_model::{ACTOR_LIMIT, Memory};
use std::alloc::Global;
use std::fmt::Write;

/// All lanes together take so many columns, but for the least and the greatest width of one.
const ROOM: usize = 114;

/// The greatest width of a lane.
const WIDEST: usize = 40;

/// The least width of a lane.
const NARROWEST: usize = 3;

/// In a lane that is narrower, a line names its actor.
pub(crate) const NAMED: usize = 10;

/// How the lanes lie.
#[derive(Drop)]
pub(crate) struct Layout {
    /// The actor of each lane, rising.
    pub actors: Vec<u32>,
    /// The width of a lane, with the bar before it.
    pub width: usize,
}

/// A lane for each actor of an event of these rows.
pub(crate) fn layout_of(alloc: Global, rows: &[Row]) -> Result<Layout, Memory> {
    let mut actors = Vec::new(alloc);
    for actor in 1..=ACTOR_LIMIT as u32 {
        if rows.iter().any(|row| whose(&row.event) == actor) {
            actors.push(actor)?;
        }
    }
    let width = ROOM / actors.len().max(1);
    Ok(Layout {
        actors,
        width: width.max(NARROWEST).min(WIDEST),
    })
}

pub(crate) fn push_times(text: &mut String, count: usize, piece: &str) -> Result<(), Memory>
    ensures { OnOk result (string_bytes text.new ≡ string_bytes text.old ++ times count piece.now) }
{
    for _time in 0..count {
        text.push_str(piece)?;
    }
    Ok(())
}

impl Layout {
    /// Whether a text of this length fits in a lane.
    pub(crate) fn fits(&self, length: usize) -> bool
        ensures { result ≡ fits self.now length }
    {
        length < self.width.saturating_sub(1)
    }

    /// Whether a line has to name its actor.
    pub(crate) fn is_narrow(&self) -> bool
        ensures { result ≡ is_narrow self.now }
    {
        self.width < NAMED
    }

    /// The lanes with their actors.
    pub(crate) fn print_head(&self, text: &mut String) -> Result<(), Memory>
        ensures { OnOk result (string_bytes text.new ≡ string_bytes text.old ++ head_text self.now) }
    {
        text.push_str("     ")?;
        self.print_names(text)?;
        text.push('\n')?;
        Ok(())
    }

    fn print_names(&self, text: &mut String) -> Result<(), Memory>
        ensures { OnOk result (string_bytes text.new ≡ string_bytes text.old ++ flat_map (name_text self.now) self.now.actors.items) }
    {
        for actor in self.actors.as_slice() {
            self.print_name(text, *actor)?;
        }
        Ok(())
    }

    fn print_name(&self, text: &mut String, actor: u32) -> Result<(), Memory>
        ensures { OnOk result (string_bytes text.new ≡ string_bytes text.old ++ name_text self.now actor) }
    {
        let mut name = String::new(*text.allocator());
        self.print_actor(&mut name, actor)?;
        text.push_str(name.as_str())?;
        push_times(text, self.width.saturating_sub(name.len()), " ")
    }

    fn print_actor(&self, name: &mut String, actor: u32) -> Result<(), Memory>
        ensures { OnOk result (string_bytes name.new ≡ string_bytes name.old ++ actor_text self.now actor) }
    {
        if self.is_narrow() {
            write!(name, "|{actor}")?;
        } else {
            write!(name, "| actor {actor}")?;
        }
        Ok(())
    }

    /// A line that begins with these four columns and has a text in the lane of an actor.
    pub(crate) fn print_line(
        &self,
        text: &mut String,
        head: &str,
        actor: u32,
        cell: &str,
    ) -> Result<(), Memory>
        ensures { OnOk result (string_bytes text.new ≡ string_bytes text.old ++ line_text self.now head.now actor cell.now) }
    {
        let lane = self.lane_of(actor);
        text.push_str(head)?;
        text.push_str(" |")?;
        self.push_gaps(text, lane)?;
        text.push(' ')?;
        text.push_str(cell)?;
        let after = self.actors.len().saturating_sub(lane).saturating_sub(1);
        self.print_after(text, after, cell.len())?;
        text.push('\n')?;
        Ok(())
    }

    /// How many lanes are before that of the actor.
    fn lane_of(&self, actor: u32) -> usize
        ensures { result ≡ lane_in self.now.actors.items actor }
    {
        let mut lane = 0;
        let mut left = self.actors.as_slice();
        while let Some((other, later)) = left.split_first() {
            if actor <= *other {
                return lane;
            }
            lane += 1;
            left = later;
        }
        lane
    }

    fn push_gaps(&self, text: &mut String, count: usize) -> Result<(), Memory>
        ensures { OnOk result (string_bytes text.new ≡ string_bytes text.old ++ times count (gap self.now)) }
    {
        let mut piece = String::new(*text.allocator());
        push_times(&mut piece, self.width.saturating_sub(1), " ")?;
        piece.push('|')?;
        push_times(text, count, piece.as_str())
    }

    /// What is after a text of this length, if it fits in its lane: the rest of that, and so many empty lanes.
    fn print_after(&self, text: &mut String, after: usize, length: usize) -> Result<(), Memory>
        ensures { OnOk result (string_bytes text.new ≡ string_bytes text.old ++ after_text self.now after length) }
    {
        if self.fits(length) && after > 0 {
            let rest = self.width.saturating_sub(length).saturating_sub(2);
            push_times(text, rest, " ")?;
            text.push('|')?;
            self.push_gaps(text, after.saturating_sub(1))?;
        }
        Ok(())
    }
}
