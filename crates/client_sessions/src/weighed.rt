//! The candidates of a reservation, by the replies that name them.
ghost use Rattle.std.specs.Prelude.{◌≡◌, ◌≤◌, ◌<◌, ◌+◌, ℕ, List, Some, true, false, length, min, get_or, if◌then◌else◌};
ghost use Rattle.std.specs.Option.{option_copied};
ghost use Rattle.seq_model.specs.declared.call.Reply.{Reply as AReply};
ghost use Rattle.seq_model.specs.declared.call.Reply.TheVariants.{Nothing as NoReply, Value as AValue};
ghost use Rattle.seq_model.specs.declared.job.Ask.TheVariants.{GiveUp};
ghost use Rattle.seq_model.specs.Places.{IsPlaceIn};
ghost use Rattle.seq_model.specs.Programs.{after, asked};
ghost use Rattle.vac_model.specs.Actions as actions;
ghost use Rattle.vac_model.specs.declared.action.Ask.{Ask as AnAsk};
ghost use Rattle.client_sessions.specs.declared.entry.Entry.{Entry as AnEntry};
ghost use Rattle.client_sessions.specs.declared.entry.Entry.TheVariants.{Item as Stock};
ghost use Rattle.client_sessions.specs.Gets.{item_told, tells_item};
ghost use Rattle.client_sessions.specs.Sessions as programs;
ghost use Rattle.client_sessions.specs.Weighed.{AreFirst, AreWeighed, IsBetter, all_named, named, no_ask, weighed_in};

use crate::entry::Entry;
use seq_model::{JobPlace, Reply};
use vac_model::{Ask, Each, Item, Kind, is_item_sound};

/// To how many asks of a reservation the replies were weighed, and of each kind which of them names its candidate: one more than its
/// number, 0 where none does.
#[derive(Clone, Copy)]
pub(crate) struct Weighed {
    pub(crate) count: usize,
    pub(crate) car: u64,
    pub(crate) flight: u64,
    pub(crate) room: u64,
}

/// The item that a reply names.
fn item_of(reply: &Reply<Entry>) -> Option<&Item>
    ensures { option_copied result ≡ item_told reply.now }
{
    match reply {
        Reply::Value(Entry::Item(item)) => Some(item),
        _ => None,
    }
}

/// The candidate that the reply before this number names.
fn named(asks: &[Ask], replies: &[Reply<Entry>], number: u64) -> Option<(u64, Item)>
    requires asked { number ≤ length asks.now }
    requires told { number ≤ length replies.now }
    ensures { result ≡ named asks.now replies.now number }
{
    if number == 0 {
        return None;
    }
    let i = (number - 1) as usize;
    match item_of(&replies[i]) {
        Some(item) => Some((asks[i].id, *item)),
        None => None,
    }
}

/// Whether there is no candidate that the reply before this number names, or the item is dearer.
fn is_dearer(replies: &[Reply<Entry>], number: u64, item: &Item) -> bool
    requires told { number ≤ length replies.now }
    ensures { (asks : List AnAsk) (id : ℕ) → actions.dearer (named asks replies.now number) (Some (id, item.now))
        ≡ (if result then Some (id, item.now) else named asks replies.now number) }
{
    if number == 0 {
        return true;
    }
    let i = (number - 1) as usize;
    match item_of(&replies[i]) {
        Some(had) => had.price < item.price,
        None => true,
    }
}

/// The reply with this number, which names the item, names the candidate of its kind, unless the one so far is as dear.
fn weigh_item(best: &mut u64, replies: &[Reply<Entry>], i: usize, item: &Item)
    requires first { best.old ≤ i }
    requires told { i < length replies.now }
    requires names { get_or replies.now i NoReply ≡ AValue (Stock item.now) }
    ensures better { (asks : List AnAsk) → named asks replies.now best.new
        ≡ actions.dearer (named asks replies.now best.old) (Some ((get_or asks i no_ask).id, item.now)) }
    ensures first { best.new ≤ i + 1 }
{
    if is_dearer(replies, *best, item) {
        *best = i as u64 + 1;
    }
}

impl Weighed {
    /// The next reply, to an ask of this kind, names the item.
    fn weigh_found(&mut self, kind: Kind, replies: &[Reply<Entry>], item: &Item)
        requires first { AreFirst self.old.count self.old }
        requires told { self.old.count < length replies.now }
        requires names { get_or replies.now self.old.count NoReply ≡ AValue (Stock item.now) }
        ensures better { (asks : List AnAsk) → (get_or asks self.old.count no_ask).kind ≡ kind
            → IsBetter asks replies.now (get_or asks self.old.count no_ask) (Some item.now) self.old self.new }
        ensures first { AreFirst (self.old.count + 1) self.new }
        ensures count { self.new.count ≡ self.old.count }
    {
        let i = self.count;
        match kind {
            Kind::Car => weigh_item(&mut self.car, replies, i, item),
            Kind::Flight => weigh_item(&mut self.flight, replies, i, item),
            Kind::Room => weigh_item(&mut self.room, replies, i, item),
        }
    }

    /// The next reply, to an ask of this kind: whether it is an item, or says that there is none.
    fn weigh(&mut self, kind: Kind, replies: &[Reply<Entry>], reply: &Reply<Entry>) -> bool
        requires first { AreFirst self.old.count self.old }
        requires told { self.old.count < length replies.now }
        requires is { get_or replies.now self.old.count NoReply ≡ reply.now }
        ensures tells { result ≡ tells_item reply.now }
        ensures better { result ≡ true → (asks : List AnAsk) → (get_or asks self.old.count no_ask).kind ≡ kind
            → IsBetter asks replies.now (get_or asks self.old.count no_ask) (item_told reply.now) self.old self.new }
        ensures wrong { result ≡ false → self.new ≡ self.old }
        ensures first { AreFirst (self.old.count + 1) self.new }
        ensures count { self.new.count ≡ self.old.count }
    {
        match reply {
            Reply::Nothing => true,
            Reply::Value(Entry::Item(item)) => {
                let sound = is_item_sound(item);
                if sound {
                    self.weigh_found(kind, replies, item);
                }
                sound
            }
            _ => false,
        }
    }

    /// Weighs the replies to asks that were not weighed yet: whether each is an item, or says that there is none.
    pub(crate) fn weigh_all(&mut self, asks: &[Ask], replies: &[Reply<Entry>]) -> bool
        requires { AreWeighed asks.now replies.now self.old }
        ensures weighed { AreWeighed asks.now replies.now self.new }
        ensures all { result ≡ true → min (length asks.now) (length replies.now) ≤ self.new.count }
        ensures gives_up { result ≡ false → (c units : ℕ) → asked (after (programs.reserve c units asks.now) replies.now) ≡ GiveUp }
    {
        let end = asks.len().min(replies.len());
        'weighs: while self.count < end {
            let i = self.count;
            if !self.weigh(asks[i].kind, replies, &replies[i]) {
                return false;
            }
            self.count += 1;
        }
        true
    }

    /// The candidates.
    pub(crate) fn all_named(
        &self,
        asks: &[Ask],
        replies: &[Reply<Entry>],
    ) -> Each<Option<(u64, Item)>>
        requires { AreWeighed asks.now replies.now self.now }
        ensures { result ≡ all_named asks.now replies.now self.now }
    {
        Each {
            car: named(asks, replies, self.car),
            flight: named(asks, replies, self.flight),
            room: named(asks, replies, self.room),
        }
    }

    /// What a place notes.
    pub(crate) fn in_place(place: &JobPlace) -> Weighed
        ensures { (asks : List AnAsk) (replies : List (AReply AnEntry))
            → IsPlaceIn (λ told noted. AreWeighed asks told (weighed_in noted)) replies place.now → AreWeighed asks replies result }
    {
        if place.heard == 0 {
            return Weighed {
                count: 0,
                car: 0,
                flight: 0,
                room: 0,
            };
        }
        Weighed {
            count: place.heard,
            car: place.marks[0],
            flight: place.marks[1],
            room: place.marks[2],
        }
    }

    /// The place notes it.
    pub(crate) fn note(&self, place: &mut JobPlace)
        ensures { (asks : List AnAsk) (replies : List (AReply AnEntry)) → AreWeighed asks replies self.now
            → IsPlaceIn (λ told noted. AreWeighed asks told (weighed_in noted)) replies place.new }
    {
        place.heard = self.count;
        place.marks = [self.car, self.flight, self.room, 0];
    }
}
