//! What a call on a key changes, and where it reads and writes.
ghost use Rattle.std.specs.Prelude.{◌≡◌, ◌<◌, ◌≤◌, ◌^◌, ℕ, [], ◌∷◌, None, IfOk, IfSome, OnOk, option_to_list};
ghost use Rattle.seq_model.specs.Calls.{value_reply};
ghost use Rattle.seq_model.specs.declared.call.Reply.{Reply};
ghost use Rattle.base_bag.specs.Conflicts as bag;
ghost use Rattle.base_map.specs.Conflicts as of_map;
ghost use Rattle.replay_log.specs.Base.{changes_of, shown_of, writes_of};
ghost use Rattle.shadow.specs.KeyLocation.{written_there};
ghost use Rattle.shadow.specs.Memo.{blank_of, grown_after, known_entry, put_of};

use crate::memo::{KeyLocation, MemoKind};
use conflict::{Change, FewKeys, Outcome};
use seq_model::{Memory, Op, Reply, Value};

/// What an outcome changes is put into this place. Answers the location that it writes; without one it changes nothing.
pub(crate) fn put_change<V: Value>(
    change: &mut Option<Change<V>>,
    kind: MemoKind,
    stripes: u32,
    outcome: &Outcome<V>,
) -> Result<Option<u32>, Memory>
    requires { 0 < stripes }
    ensures change { OnOk result (option_to_list change.new ≡ changes_of outcome.now (shown_of (blank_of kind stripes))) }
    ensures written { IfOk result (λ written. option_to_list written ≡ writes_of stripes outcome.now (shown_of (blank_of kind stripes))) }
    ensures none { IfOk result (λ written. written ≡ None → change.new ≡ None) }
{
    match kind {
        MemoKind::Map => put_entry_change(change, stripes, outcome),
        MemoKind::Bag => put_copies_change(change, stripes, outcome),
    }
}

fn put_entry_change<V: Value>(
    change: &mut Option<Change<V>>,
    stripes: u32,
    outcome: &Outcome<V>,
) -> Result<Option<u32>, Memory>
    requires { 0 < stripes }
    ensures change { OnOk result (option_to_list change.new ≡ of_map.changes_of outcome.now) }
    ensures written { IfOk result (λ written. option_to_list written ≡ of_map.writes_of stripes outcome.now) }
    ensures none { IfOk result (λ written. written ≡ None → change.new ≡ None) }
{
    match (&outcome.op, &outcome.reply) {
        (Op::Put(key, _), _) | (Op::Remove(key), Reply::Value(_)) => {
            *change = base_map::change_in(outcome)?;
            Ok(Some(base_map::location_in(stripes, *key)))
        }
        _ => {
            no_change(change);
            Ok(None)
        }
    }
}

fn put_copies_change<V: Value>(
    change: &mut Option<Change<V>>,
    stripes: u32,
    outcome: &Outcome<V>,
) -> Result<Option<u32>, Memory>
    requires { 0 < stripes }
    ensures change { OnOk result (option_to_list change.new ≡ bag.changes_of outcome.now) }
    ensures written { IfOk result (λ written. option_to_list written ≡ bag.writes_of stripes outcome.now) }
    ensures none { IfOk result (λ written. written ≡ None → change.new ≡ None) }
{
    match (&outcome.op, &outcome.reply) {
        (Op::Add(element), Reply::Done) | (Op::Take(element), Reply::Yes) => {
            *change = base_bag::change_in(outcome)?;
            Ok(Some(base_bag::location_in(stripes, *element)))
        }
        _ => {
            no_change(change);
            Ok(None)
        }
    }
}

// There is seldom a change left from a call that was not made, and to let it go takes a function of its own.
fn no_change<V: Drop>(change: &mut Option<Change<V>>)
    ensures { change.new ≡ None }
{
    if change.is_some() {
        let_go(change);
    }
}

#[inline(never)]
fn let_go<V: Drop>(change: &mut Option<Change<V>>)
    ensures { change.new ≡ None }
{
    *change = None;
}

/// The location of the key of an outcome in so many stripes of a map, and whether it writes there.
pub(crate) fn entry_location<V>(stripes: u32, outcome: &Outcome<V>) -> Option<KeyLocation>
    requires { 0 < stripes }
    ensures reads { IfSome result (λ at. of_map.reads_of stripes outcome.now ≡ at.location ∷ []) }
    ensures writes { IfSome result (λ at. of_map.writes_of stripes outcome.now ≡ written_there at) }
{
    match (&outcome.op, &outcome.reply) {
        (Op::Put(key, _), _) | (Op::Remove(key), Reply::Value(_)) => Some(KeyLocation {
            location: base_map::location_in(stripes, *key),
            written: true,
        }),
        (Op::Get(key) | Op::Remove(key), _) => Some(KeyLocation {
            location: base_map::location_in(stripes, *key),
            written: false,
        }),
        _ => None,
    }
}

/// Likewise in a multiset.
pub(crate) fn copies_location<V>(stripes: u32, outcome: &Outcome<V>) -> Option<KeyLocation>
    requires { 0 < stripes }
    ensures reads { IfSome result (λ at. bag.reads_of stripes outcome.now ≡ at.location ∷ []) }
    ensures writes { IfSome result (λ at. bag.writes_of stripes outcome.now ≡ written_there at) }
{
    match (&outcome.op, &outcome.reply) {
        (Op::Add(element), Reply::Done) | (Op::Take(element), Reply::Yes) => Some(KeyLocation {
            location: base_bag::location_in(stripes, *element),
            written: true,
        }),
        (Op::Count(element) | Op::Add(element) | Op::Take(element), _) => Some(KeyLocation {
            location: base_bag::location_in(stripes, *element),
            written: false,
        }),
        _ => None,
    }
}

/// What a put on the key replies, for it to be kept and to be answered.
#[inline(always)]
pub(crate) fn entry_replies<V: Value>(
    entries: &FewKeys<Option<V>>,
    key: u64,
) -> Result<(Reply<V>, Reply<V>), Memory>
    ensures { IfOk result (λ replies. let had : Reply V = value_reply (known_entry entries.now.contents key) in
        (replies.0 ≡ had) × (replies.1 ≡ had)) }
{
    match entries.get(key) {
        Some(Some(value)) => Ok((
            Reply::Value(value.try_copy()?),
            Reply::Value(value.try_copy()?),
        )),
        _ => Ok((Reply::Nothing, Reply::Nothing)),
    }
}

/// Counts a put which this is the reply of.
pub(crate) fn count_put<V>(grown: &mut u64, reply: &Reply<V>)
    requires { grown.old < 2 ^ 63 }
    ensures grown { (key : ℕ) (value : V) → grown.new ≡ grown_after (put_of key value) reply.now grown.old }
    ensures small { grown.new ≤ 2 ^ 63 }
{
    if let Reply::Nothing = reply {
        *grown += 1;
    }
}
