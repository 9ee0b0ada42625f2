//! Two clients that are lent: one is dropped once its lender was asked to end, the other one later. Two more serve sessions in threads of
//! their own. Then one is dropped after a body that has aborted, and as many are lent as there can be.
use crate::handles::{All, all_of, open};
use crate::numbers::Number;
use crate::scripts::{Ran, Script, run_at_client, run_at_lent, run_at_store};
use crate::steps::{Ended, first_word, number_of};
use std::alloc::Global;
use std::fmt::Write;
use std::thread::Threads;
use wolimevar::{Client, Failure, Lender, LentClient, Refusal, Scope, Session, StillLent, Store};

/// One more than the clients that may be lent at once.
const ONE_TOO_MANY: u64 = 64;

/// What counts a word, and replies first what it held.
const COUNT: &str = "a read; a increase";

/// How often a client counts the word.
const TIMES: u64 = 10;

/// What transactions that count a word have read: how many committed, and the sum of what the word held before each.
#[derive(Clone, Copy)]
struct Made {
    commits: u64,
    sum: u64,
}

/// What the first call of a transaction replied, and the transaction's number; or what refused it.
fn replied(ran: Ran) -> Result<(u64, u64), Refusal> {
    match ran {
        Ok((replies, number, _)) => {
            let (first, _) = first_word(replies.as_str());
            Ok((number_of(first), number))
        }
        Err(Failure::Refused(refusal)) => Err(refusal),
        Err(Failure::Aborted(Ended::Refused(refusal))) => Err(refusal),
        Err(Failure::Aborted(Ended::By(_))) => Err(Refusal::NotIdle),
    }
}

/// The client counts the word, and adds what it read to the sum.
fn work<V: Number>(client: &mut LentClient<V>, all: &All<V>, made: Made) -> Result<Made, Refusal> {
    let script = Script { all, steps: COUNT };
    let mut sum = made.sum;
    for _ in 0..TIMES {
        let (read, _) = replied(run_at_lent(client, &script))?;
        sum = sum.saturating_add(read);
    }
    let commits = made.commits.saturating_add(client.tally().committed);
    Ok(Made { commits, sum })
}

/// A lender that is asked to end while clients are out.
fn still_lent<V: Number>(lender: Lender<V>) -> Result<StillLent<V>, Refusal> {
    match lender.end() {
        Ok(store) => {
            drop(store);
            Err(Refusal::NotIdle)
        }
        Err(still) => Ok(still),
    }
}

/// What two clients made, and the lender, which was asked to end meanwhile.
fn run_both<V: Number>(
    text: &mut String,
    mut lender: Lender<V>,
    all: &All<V>,
) -> Result<(Made, Lender<V>), Refusal> {
    let mut first = lender.client()?;
    let mut second = lender.client()?;
    let none = Made { commits: 0, sum: 0 };
    let made = work(&mut first, all, none)?;
    let asked = still_lent(lender);
    drop(first);
    let made = work(&mut second, all, made)?;
    let StillLent { lender, clients } = asked?;
    let mut lender = lender;
    let out = lender.take_back();
    drop(second);
    writeln!(
        text,
        "two lent clients = no end, {clients} out, then {out} out"
    )?;
    Ok((made, lender))
}

/// A guest that counts the word, and owns the handles, as a thread of its own needs.
#[derive(Drop)]
struct Lodger<V> {
    all: All<V>,
}

impl<V: Number> Session<V> for Lodger<V> {
    type Out = Result<u64, Refusal>;

    fn serve<S: Scope<V>>(self, client: &mut Client<'_, V, S>) -> Result<u64, Refusal> {
        let script = Script {
            all: &self.all,
            steps: COUNT,
        };
        for _ in 0..TIMES {
            replied(run_at_client(client, "do", &script))?;
        }
        Ok(client.tally().committed)
    }
}

/// Two sessions are served in threads of their own.
fn serve_two<R: Threads, V: Number + Send + Sync + 'static>(
    rt: &R,
    text: &mut String,
    lender: &mut Lender<V>,
    all: &All<V>,
) -> Result<(), Refusal> {
    let first = lender.spawn(rt, Lodger { all: *all })?;
    let second = lender.spawn(rt, Lodger { all: *all })?;
    let (first, second) = (first.join(rt), second.join(rt));
    let out = lender.take_back();
    let commits = first?.saturating_add(second?);
    writeln!(
        text,
        "two sessions in threads = {commits} commits, then {out} out"
    )?;
    Ok(())
}

/// A client whose body aborts is dropped.
fn drop_after_abort<V: Number>(
    text: &mut String,
    lender: &mut Lender<V>,
    all: &All<V>,
) -> Result<(), Refusal> {
    let mut client = lender.client()?;
    let steps = "a write 99; abort 1";
    let undone = run_at_lent(&mut client, &Script { all, steps });
    let tally = client.tally();
    drop(client);
    let aborted = match undone {
        Err(Failure::Aborted(Ended::By(number))) => number == 1,
        ended => {
            replied(ended)?;
            false
        }
    };
    let out = lender.take_back();
    writeln!(
        text,
        "a lent client aborts = {aborted}, {} aborted, then {out} out",
        tally.aborted
    )?;
    Ok(())
}

fn lend_all<V: Number>(
    lender: &mut Lender<V>,
    clients: &mut Vec<LentClient<V>>,
) -> Result<(), Refusal> {
    for _ in 0..ONE_TOO_MANY {
        clients.push(lender.client()?)?;
    }
    Ok(())
}

/// Clients are lent up to a refusal, and then all are dropped.
fn lend_too_many<V: Number>(
    alloc: Global,
    text: &mut String,
    lender: &mut Lender<V>,
) -> Result<(), Refusal> {
    let mut clients = Vec::new(alloc);
    let refused = lend_all(lender, &mut clients);
    let (count, out) = (clients.len(), lender.take_back());
    drop(clients);
    let then = lender.take_back();
    if let Err(refusal) = refused {
        writeln!(
            text,
            "{count} clients = {refusal}, {out} out, then {then} out"
        )?;
    }
    Ok(())
}

/// The word is counted once more, by the store itself, which is closed then.
fn close<V: Number>(
    text: &mut String,
    mut store: Store<V>,
    all: &All<V>,
    made: Made,
) -> Result<(), Refusal> {
    let script = Script { all, steps: COUNT };
    let (word, number) = replied(run_at_store(&mut store, "do", &script))?;
    let is_last = store.last_number() == number;
    let contents = store.close()?;
    let left = contents.word(all.own.words[0]);
    drop(contents);
    let Made { commits, sum } = made;
    writeln!(
        text,
        "all lent clients = {commits} commits, sum {sum}, word {word}, its number the last {is_last}, left {left:?}"
    )?;
    Ok(())
}

/// What the lender's clients do one after another.
fn serve_all<R: Threads, V: Number + Send + Sync + 'static>(
    rt: &R,
    text: &mut String,
    lender: &mut Lender<V>,
    all: &All<V>,
) -> Result<(), Refusal> {
    serve_two(rt, text, lender, all)?;
    drop_after_abort(text, lender, all)?;
    lend_too_many(all.alloc, text, lender)
}

pub fn test<R: Threads, V: Number + Send + Sync + 'static>(
    rt: &R,
    alloc: Global,
    text: &mut String,
) -> Result<(), Refusal> {
    let all: All<V> = all_of(alloc, 0)?;
    let store = open(alloc, 0)?;
    let Ok(lender) = store.lend() else {
        return Err(Refusal::Memory);
    };
    let (made, mut lender) = run_both(text, lender, &all)?;
    serve_all(rt, text, &mut lender, &all)?;
    let Ok(store) = lender.end() else {
        return Err(Refusal::NotIdle);
    };
    close(text, store, &all, made)
}
