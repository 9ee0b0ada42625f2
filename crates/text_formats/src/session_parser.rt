//! Reads a session file.
ghost use Rattle.std.specs.Prelude.{◌≡◌, ◌↔◌, IsTrue, IfOk, IfErr, IfSome, OnOk, Some, List, MatchResult, All, is_some};
ghost use Rattle.std.specs.FinMap as map;
ghost use Rattle.seq_model.specs.declared.refusal.Refusal.TheVariants.{Memory as OutOfMemory};
ghost use Rattle.vac_model.specs.declared.action.Action.{Action as AnAction};
ghost use Rattle.vac_model.specs.Balanced.{IsBalanced};
ghost use Rattle.vac_model.specs.Actions.{IsAllowed};
ghost use Rattle.vac_model.specs.Holdings.{Holdings, of_kind};
ghost use Rattle.text_formats.specs.declared.session_line.SessionLine.{SessionLine};
ghost use Rattle.text_formats.specs.Sessions.{IsNextLine, IsSessionText, IsUnreadable, MayStand, nothing, opening, with_item, with_line};

use crate::cut::{first_line, tokens_of};
use crate::session_line::{SessionLine, read_line};
use seq_model::{Entries, Items, Memory, Refusal};
use std::alloc::Global;
use vac_model::{Action, Each, Item, Kind, Queue, Tables};

/// What has been read of a session file: the items that there are, and what each session does.
#[derive(Drop)]
pub struct Sessions {
    items: Each<Entries<Item>>,
    actions: Items<Action>,
}

/// Reads a session file: the tables that it opens with, which are balanced, and the action of each session, which is within
/// its limits. `BadText` names the first line outside the grammar, counted from 1.
pub fn parse_sessions(alloc: Global, text: &[u8]) -> Result<(Tables, Vec<Action>), Refusal>
    ensures sessions { IfOk result (λ read. IsSessionText text.now read.0 read.1.items) }
    ensures balanced { IfOk result (λ read. IsBalanced read.0) }
    ensures allowed { IfOk result (λ read. All IsAllowed read.1.items) }
    ensures refused { IfErr result (IsUnreadable text.now) }
    ensures only { (tables : Holdings) (actions : List AnAction) → IsSessionText text.now tables actions
        → MatchResult result (λ read. (read.0 ≡ tables) × (read.1.items ≡ actions)) (λ refusal. refusal ≡ OutOfMemory) }
{
    let mut sessions = Sessions::new(alloc);
    let mut rest = text;
    let mut number = 1;
    while let Some((line, behind)) = first_line(rest) {
        let Some(line) = read_next(alloc, &sessions, line)? else {
            return Err(Refusal::BadText { line: number });
        };
        sessions.add(line)?;
        rest = behind;
        number += 1;
    }
    if !rest.is_empty() {
        return Err(Refusal::BadText { line: number });
    }
    Ok((opening(alloc, sessions.items), sessions.actions.into_vec()))
}

// The line that these bytes are, where it may stand after what has been read.
fn read_next(
    alloc: Global,
    sessions: &Sessions,
    bytes: &[u8],
) -> Result<Option<SessionLine>, Memory>
    ensures found { IfOk result (λ read. IfSome read (IsNextLine sessions.now bytes.now)) }
    ensures only { IfOk result (λ read. (line : SessionLine) → IsNextLine sessions.now bytes.now line → read ≡ Some line) }
{
    let Ok(line) = std::str::from_utf8(bytes) else {
        return Ok(None);
    };
    let tokens = tokens_of(alloc, line)?;
    let Some(line) = read_line(alloc, tokens.as_slice())? else {
        return Ok(None);
    };
    if sessions.may_go_on(&line) {
        return Ok(Some(line));
    }
    Ok(None)
}

fn opening(alloc: Global, items: Each<Entries<Item>>) -> Tables
    ensures { result ≡ opening items }
{
    let waiting = Each {
        car: Queue::new(alloc),
        flight: Queue::new(alloc),
        room: Queue::new(alloc),
    };
    Tables::of_maps(
        alloc,
        items,
        Entries::new(alloc),
        Entries::new(alloc),
        waiting,
        0,
    )
}

impl Sessions {
    fn new(alloc: Global) -> Sessions
        ensures { result ≡ nothing }
    {
        Sessions {
            items: Each {
                car: Entries::new(alloc),
                flight: Entries::new(alloc),
                room: Entries::new(alloc),
            },
            actions: Items::new(alloc),
        }
    }

    fn has_item(&self, kind: Kind, id: u64) -> bool
        ensures { result ≡ is_some (map.get (of_kind kind self.now.items) id) }
    {
        match kind {
            Kind::Car => self.items.car.get(id).is_some(),
            Kind::Flight => self.items.flight.get(id).is_some(),
            Kind::Room => self.items.room.get(id).is_some(),
        }
    }

    fn may_go_on(&self, line: &SessionLine) -> bool
        ensures { IsTrue result ↔ MayStand self.now line.now }
    {
        match line {
            SessionLine::Have { kind, id, .. } => {
                self.actions.is_empty() && !self.has_item(*kind, *id)
            }
            SessionLine::Does(_) => true,
        }
    }

    fn put_item(&mut self, kind: Kind, id: u64, item: Item) -> Result<(), Memory>
        ensures { OnOk result (self.new ≡ with_item kind id item self.old) }
    {
        match kind {
            Kind::Car => self.items.car.insert(id, item)?,
            Kind::Flight => self.items.flight.insert(id, item)?,
            Kind::Room => self.items.room.insert(id, item)?,
        };
        Ok(())
    }

    fn add(&mut self, line: SessionLine) -> Result<(), Memory>
        ensures { OnOk result (self.new ≡ with_line self.old line) }
    {
        match line {
            SessionLine::Have {
                kind,
                id,
                total,
                price,
            } => {
                let item = Item {
                    total,
                    used: 0,
                    free: total,
                    price,
                };
                self.put_item(kind, id, item)
            }
            SessionLine::Does(action) => self.actions.push(action),
        }
    }
}
