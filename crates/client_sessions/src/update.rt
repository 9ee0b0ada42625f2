//! The program of an update, walked.
ghost use Rattle.std.specs.Prelude.{◌≡◌, ◌≢◌, ◌≤◌, List, All, IfOk, length, take};
ghost use Rattle.seq_model.specs.declared.call.Reply.{Reply as AReply};
ghost use Rattle.seq_model.specs.Places.{IsPlaceIn};
ghost use Rattle.seq_model.specs.Programs.{Answers, after, asked};
ghost use Rattle.vac_model.specs.Actions as actions;
ghost use Rattle.vac_model.specs.declared.action.Change.{Change as AChange};
ghost use Rattle.vac_model.specs.declared.action.ChangeReply.{ChangeReply as AChanged};
ghost use Rattle.client_sessions.specs.Sessions as programs;
ghost use Rattle.client_sessions.specs.Sessions.{SessionProgram};
ghost use Rattle.client_sessions.specs.Walks.{Comes};
ghost use Rattle.client_sessions.specs.declared.entry.Entry.{Entry as AnEntry};
ghost use Rattle.client_sessions.specs.Noted.{AreChanged, AreNoted, IsMade, is_set};

use crate::entry::Entry;
use crate::walk::{Left, Stop, Walk, ask_of, item_in};
use seq_model::{Ask, Items, JobPlace, Memory, Reply};
use std::alloc::Global;
use vac_model::{ActionReply, Change, ChangeReply, Item, Kind, changed, place_of};

impl<'a> Walk<'a> {
    /// Makes one entry the other, where they differ.
    fn set_item(
        &mut self,
        kind: Kind,
        id: u64,
        old: Option<Item>,
        new: Option<Item>,
    ) -> Result<(), Stop>
        ensures { (next : SessionProgram)
            → Comes (after (programs.set_item kind id old new next) self.old) result (λ _. after next self.new) }
    {
        match (old, new) {
            (None, None) => Ok(()),
            (Some(_), None) => self.remove_item(kind, id),
            (None, Some(new)) => self.put_item(kind, id, new),
            (Some(old), Some(new)) => {
                if is_same_item(&old, &new) {
                    return Ok(());
                }
                self.put_item(kind, id, new)
            }
        }
    }

    fn change_one(&mut self, change: Change) -> Result<ChangeReply, Stop>
        requires { actions.IsAmountWithin change }
        ensures { (next : AChanged → SessionProgram)
            → Comes (after (programs.change_one change next) self.old) result (λ made. after (next made) self.new) }
    {
        let (kind, id) = place_of(change);
        let item = self.get_item(kind, id)?;
        let (made, left) = changed(change, item);
        self.set_item(kind, id, item, left)?;
        Ok(made)
    }

    pub(crate) fn update(&mut self, changes: &[Change]) -> Result<Items<ChangeReply>, Stop>
        requires { All actions.IsAmountWithin changes.now }
        ensures { (next : List AChanged → SessionProgram)
            → Comes (after (programs.change_each changes.now next) self.old) result (λ made. after (next made) self.new) }
    {
        let mut made = Items::from_vec(Vec::with_capacity(self.allocator(), changes.len())?);
        for change in changes {
            let one = self.change_one(*change)?;
            made.push(one)?;
        }
        Ok(made)
    }

    pub(crate) fn answer_update(&mut self, changes: &[Change]) -> Result<ActionReply, Stop>
        requires { All actions.IsAmountWithin changes.now }
        ensures { Comes (after (programs.update changes.now) self.old) result (λ reply. Answers reply) }
    {
        let made = self.update(changes)?;
        Ok(ActionReply::Updated(made))
    }
}

/// Whether a call makes the one entry the other.
fn is_set(old: Option<Item>, new: Option<Item>) -> bool
    ensures { result ≡ is_set old new }
{
    match (old, new) {
        (None, None) => false,
        (Some(old), Some(new)) => !is_same_item(&old, &new),
        _ => true,
    }
}

/// How many of the replies are to the calls of the change: none, where one of its calls has no reply yet, or it aborts.
fn replies_to(change: Change, replies: &[Reply<Entry>]) -> usize
    requires { actions.IsAmountWithin change }
    ensures few { result ≤ length replies.now }
    ensures made { result ≢ 0 → IsMade change (take result replies.now) }
{
    let [reply, rest @ ..] = replies else {
        return 0;
    };
    let Ok(item) = item_in(reply) else {
        return 0;
    };
    let (_, new) = changed(change, item);
    if !is_set(item, new) {
        return 1;
    }
    match rest {
        [_, ..] => 2,
        [] => 0,
    }
}

/// Passes the changes whose calls have their replies.
fn pass_changes(changes: &[Change], replies: &[Reply<Entry>], heard: &mut usize, passed: &mut usize)
    requires within { All actions.IsAmountWithin changes.now }
    requires changed { AreChanged changes.now replies.now heard.old passed.old }
    ensures { AreChanged changes.now replies.now heard.new passed.new }
{
    'changes: while *passed < changes.len() {
        let (_, left) = replies.split_at(*heard);
        let count = replies_to(changes[*passed], left);
        if count == 0 {
            return;
        }
        *heard += count;
        *passed += 1;
    }
}

/// What an update asks, walked from the first reply.
fn ask_whole(
    alloc: Global,
    changes: &[Change],
    replies: &[Reply<Entry>],
) -> Result<Ask<Entry>, Memory>
    requires { All actions.IsAmountWithin changes.now }
    ensures { IfOk result (λ ask. ask ≡ asked (after (programs.update changes.now) replies.now)) }
{
    let mut walk = Walk::new(alloc, Left::Replies(replies));
    ask_of(walk.answer_update(changes))
}

/// How many changes a place notes.
fn passed_in(place: &JobPlace) -> usize
    ensures { (changes : List AChange) (replies : List (AReply AnEntry))
        → IsPlaceIn (λ told noted. AreNoted changes told noted) replies place.now → AreChanged changes replies place.now.heard result }
{
    if place.heard == 0 {
        return 0;
    }
    place.marks[0] as usize
}

/// What an update asks. It notes how many changes were made.
pub(crate) fn ask_update(
    alloc: Global,
    changes: &[Change],
    replies: &[Reply<Entry>],
    place: &mut JobPlace,
) -> Result<Ask<Entry>, Memory>
    requires within { All actions.IsAmountWithin changes.now }
    requires place { IsPlaceIn (λ told noted. AreNoted changes.now told noted) replies.now place.old }
    ensures ask { IfOk result (λ ask. ask ≡ asked (after (programs.update changes.now) replies.now)) }
    ensures place { IsPlaceIn (λ told noted. AreNoted changes.now told noted) replies.now place.new }
{
    let mut heard = place.heard;
    let mut passed = passed_in(place);
    pass_changes(changes, replies, &mut heard, &mut passed);
    place.heard = heard;
    place.marks = [passed as u64, 0, 0, 0];
    if passed == changes.len() {
        return Ok(Ask::Done);
    }
    let (_, left) = replies.split_at(heard);
    let mut walk = Walk::new(alloc, Left::Replies(left));
    match walk.change_one(changes[passed]) {
        Err(stop) => ask_of(Err(stop)),
        Ok(_) => ask_whole(alloc, changes, replies),
    }
}

fn is_same_item(item: &Item, other: &Item) -> bool
    ensures { result ≡ programs.is_same_item item.now other.now }
{
    item.total == other.total
        && item.used == other.used
        && item.free == other.free
        && item.price == other.price
}
