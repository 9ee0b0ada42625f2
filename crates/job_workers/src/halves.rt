//! The halves of the lists, each by a seat of its own, and the second by a thread.
ghost use Rattle.std.specs.Prelude.{◌≡◌, ◌<◌, ◌≤◌, max};
ghost use Rattle.std.specs.Thread.{IsSend, IsSync};
ghost use Rattle.shared_table.specs.Seated.{actor, view};
ghost use Rattle.shared_table.specs.Shown.{both_of, left_of, right_of};
ghost use Rattle.tx_engine.specs.Ready.{IsReady};
ghost use Rattle.job_workers.specs.Trees.{AreOthers, CanRun, ComesBack, IsFresh, Ran, WasLeft, leaves};

use crate::tree::Tree;
use seq_model::{ACTOR_LIMIT, Job, Value};
use shared_table::TxTable;
use std::snapshot::Snapshot;
use std::sync::Wait;
use std::sync::atomic::{AtomicBool, Ordering};
use std::thread::{Promise, Threads};
use std::{mem, thread};
use tx_engine::{Pause, Priority, TxSeat};

/// A seat, and the lists that were run with it.
type Done<V, J> = (TxSeat<V>, Box<Tree<V, J>>);

/// How the half that a thread is given comes back.
#[derive(Drop)]
struct Half<V, J> {
    table: Snapshot<TxTable<V>>,
    seat: Snapshot<TxSeat<V>>,
    tree: Snapshot<Box<Tree<V, J>>>,
    tries: u64,
}

impl<V: Value, J: Job<V>> Promise<Done<V, J>> for Half<V, J> {
    ghost kept_by = { λ p r. ComesBack J.asks p.table.value p.tries p.seat.value r.0 p.tree.value.value r.1.value };
}

/// The lists as they came, none of their jobs started.
fn give_back<V: Value, J: Job<V>>(
    table: &TxTable<V>,
    seat: TxSeat<V>,
    mut tree: Box<Tree<V, J>>,
) -> Done<V, J>
    requires ready { IsReady table.now seat }
    requires fresh { IsFresh tree.value }
    requires others { AreOthers tree.value }
    ensures { WasLeft table.now seat result.0 tree.value result.1.value }
{
    let _ = table;
    tree.leave();
    (seat, tree)
}

/// A seat with so many shares, for the second half. It says what the halves need of `TxSeat::split`, and no more: the proofs of functions
/// that call each other would not end over all of it.
fn split_off<V: Value>(table: &TxTable<V>, seat: &mut TxSeat<V>, shares: u64) -> TxSeat<V>
    requires ready { IsReady table.now seat.old }
    requires some { 1 ≤ shares }
    requires fewer { shares < (view seat.old.seat).shares }
    ensures ready { IsReady table.now seat.new × IsReady table.now result }
    ensures same { actor seat.new.seat ≡ actor seat.old.seat }
    ensures left { (view seat.new.seat ≡ left_of shares (view seat.old.seat)) × (seat.new.seat.last ≡ seat.old.seat.last) }
    ensures right { view result.seat ≡ right_of shares (view seat.old.seat) }
{
    seat.split(table, shares)
}

/// The seat of the second half is joined again. Like `split_off`, it says what the halves need of `TxSeat::join`.
fn join_again<V: Value>(table: &TxTable<V>, seat: &mut TxSeat<V>, other: TxSeat<V>)
    requires ready { IsReady table.now seat.old }
    requires other { IsReady table.now other }
    ensures ready { IsReady table.now seat.new }
    ensures same { actor seat.new.seat ≡ actor seat.old.seat }
    ensures both { view seat.new.seat ≡ both_of (view seat.old.seat) (actor other.seat) (view other.seat) }
    ensures last { seat.new.seat.last ≡ max seat.old.seat.last other.seat.last }
{
    seat.join(table, other);
}

/// All lists of a tree: of two halves the second by a thread with a seat of its own, or not at all where none can be started.
#[cycle(trees)]
pub fn run_tree<
    R: Threads + Wait + Sync,
    V: Value + Send + Sync,
    J: Job<V> + Drop + Send + Sync,
    P: Pause + Sync,
>(
    rt: &R,
    tries: u64,
    pause: &P,
    priority: &Priority,
    table: &TxTable<V>,
    mut seat: TxSeat<V>,
    mut tree: Box<Tree<V, J>>,
) -> Done<V, J>
    requires some { 1 ≤ tries }
    requires ready { IsReady table.now seat }
    requires shares { leaves tree.value ≤ (view seat.seat).shares }
    requires few { leaves tree.value ≤ ACTOR_LIMIT }
    requires fresh { IsFresh tree.value }
    ensures { Ran J.asks table.now tries seat result.0 tree.value result.1.value }
{
    match mem::replace(&mut *tree, Tree::Taken) {
        Tree::Taken => (seat, tree),
        Tree::Leaf(mut task) => {
            task.work(table, &mut seat, tries, pause, priority);
            *tree = Tree::Leaf(task);
            (seat, tree)
        }
        Tree::Both(left, right) => {
            // Called for its contract alone: there is a list in the first half, too.
            let _left = left.count();
            let shares = right.count();
            let other = split_off(table, &mut seat, shares);
            let (first, second) = both(rt, tries, pause, priority, table, seat, left, other, right);
            let (mut seat, left) = first;
            let (other, right) = second;
            join_again(table, &mut seat, other);
            *tree = Tree::Both(left, right);
            (seat, tree)
        }
    }
}

/// Two halves, the second by a thread.
#[cycle(trees)]
fn both<
    R: Threads + Wait + Sync,
    V: Value + Send + Sync,
    J: Job<V> + Drop + Send + Sync,
    P: Pause + Sync,
>(
    rt: &R,
    tries: u64,
    pause: &P,
    priority: &Priority,
    table: &TxTable<V>,
    seat: TxSeat<V>,
    left: Box<Tree<V, J>>,
    other: TxSeat<V>,
    right: Box<Tree<V, J>>,
) -> (Done<V, J>, Done<V, J>)
    requires some { 1 ≤ tries }
    requires first { CanRun table.now seat left.value }
    requires second { CanRun table.now other right.value }
    requires others { AreOthers right.value }
    ensures first { Ran J.asks table.now tries seat result.0.0 left.value result.0.1.value }
    ensures second { ComesBack J.asks table.now tries other result.1.0 right.value result.1.1.value }
{
    let refused = AtomicBool::new(false);
    let refused = &refused;
    thread::scope(
        thread::scope_env(),
        rt,
        |scope| -> (Done<V, J>, Done<V, J>)
            requires sync { IsSync R.row × IsSync P.row × IsSend V.row × IsSync V.row × IsSend J.row × IsSync J.row }
            requires some { 1 ≤ tries }
            requires first { CanRun table.now seat left.value }
            requires second { CanRun table.now other right.value }
            requires others { AreOthers right.value }
            ensures first { Ran J.asks table.entry.now tries seat result.0.0 left.value result.0.1.value }
            ensures second { ComesBack J.asks table.entry.now tries other result.1.0 right.value result.1.1.value }
        {
            let promise = Half {
                table: Snapshot::of(table),
                seat: Snapshot::of(&other),
                tree: Snapshot::of(&right),
                tries,
            };
            let child = scope.spawn_with(
                promise,
                || -> Done<V, J>
                    requires sync { IsSync R.row × IsSync P.row × IsSend V.row × IsSync V.row × IsSend J.row × IsSync J.row }
                    requires some { 1 ≤ tries }
                    requires second { CanRun table.now other right.value }
                    requires others { AreOthers right.value }
                    ensures { ComesBack J.asks table.entry.now tries other result.0 right.value result.1.value }
                {
                    if refused.load(Ordering::SeqCst) {
                        give_back(table, other, right)
                    } else {
                        run_tree(rt, tries, pause, priority, table, other, right)
                    }
                },
            );
            match child {
                Ok(child) => {
                    let first = run_tree(rt, tries, pause, priority, table, seat, left);
                    (first, child.join(rt))
                }
                Err(not_started) => {
                    refused.store(true, Ordering::SeqCst);
                    let second = (not_started.value)();
                    (
                        run_tree(rt, tries, pause, priority, table, seat, left),
                        second,
                    )
                }
            }
        },
    )
}
