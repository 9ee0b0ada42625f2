//! Sessions that a row spells, each in a thread of its own.
use crate::handles::All;
use crate::numbers::Number;
use crate::scripts::{Ran, Script, print_ran, run_at_client};
use crate::steps::{first_word, number_of};
use std::alloc::AllocError;
use std::fmt::Write;
use std::thread::{Threads, yield_now};
use wolimevar::{Client, Refusal, Scope, Session, Store, Tally};

/// How often a client looks at most whether another one has committed, and after how many looks it lets others run. So it looks for some
/// tenths of a second, and where processors are shared for some seconds.
const LOOKS: u64 = 4_000_000;

const LOOKS_BETWEEN: u64 = 4_096;

/// How many commits of others it waits for at most.
const COMMITS: u64 = 1_000;

/// What a client does, part by part: a row of its own, `learn N`, `tally`, `quietly STEPS`, which prints only what refused them, or
/// `wait N STEP`, up to where the step answers N or more; where others commit no more before that, it prints a refusal.
#[derive(Drop)]
#[derive_where(Clone, Copy)]
pub struct Guest<'a, V> {
    pub all: &'a All<V>,
    pub parts: &'a str,
}

impl<V: Number> Session<V> for Guest<'_, V> {
    type Out = Result<String, AllocError>;

    fn serve<S: Scope<V>>(self, client: &mut Client<'_, V, S>) -> Result<String, AllocError> {
        let mut text = String::new(self.all.alloc);
        self.serve_all(&mut text, client)?;
        Ok(text)
    }
}

impl<V: Number> Guest<'_, V> {
    /// Does the parts, and prints what they print.
    pub fn serve_all<S: Scope<V>>(
        &self,
        text: &mut String,
        client: &mut Client<'_, V, S>,
    ) -> Result<(), AllocError> {
        for part in self.parts.split(" / ") {
            let before = text.len();
            self.serve_part(text, client, part)?;
            if text.len() > before {
                text.push_str(" / ")?;
            }
        }
        Ok(())
    }

    fn serve_part<S: Scope<V>>(
        &self,
        text: &mut String,
        client: &mut Client<'_, V, S>,
        part: &str,
    ) -> Result<(), AllocError> {
        let (verb, rest) = first_word(part);
        match verb {
            "learn" => {
                let learnt = client.learn(number_of(rest));
                print_learnt(text, learnt, client.last_number())
            }
            "tally" => print_tally(text, client.tally()),
            "wait" => self.wait(text, client, rest),
            "quietly" => match self.ran(client, "do", rest) {
                Ok(_) => Ok(()),
                ended => print_ran(text, &ended),
            },
            _ => print_ran(text, &self.ran(client, verb, rest)),
        }
    }

    fn ran<S: Scope<V>>(&self, client: &mut Client<'_, V, S>, verb: &str, steps: &str) -> Ran {
        let all = self.all;
        run_at_client(client, verb, &Script { all, steps })
    }

    fn wait<S: Scope<V>>(
        &self,
        text: &mut String,
        client: &mut Client<'_, V, S>,
        waited: &str,
    ) -> Result<(), AllocError> {
        let (number, step) = first_word(waited);
        for _ in 0..COMMITS {
            if self.shows(client, step, number_of(number)) {
                return Ok(());
            }
            if !sees_commit(client) {
                break;
            }
        }
        text.push_str("refused, waited in vain")
    }

    fn shows<S: Scope<V>>(&self, client: &mut Client<'_, V, S>, step: &str, number: u64) -> bool {
        match self.ran(client, "look", step) {
            Ok((replies, _, _)) => number_of(replies.trim()) >= number,
            Err(_) => false,
        }
    }
}

/// Whether another client commits while this one looks. Looking allocates nothing, so a run allocates no more where it waits longer.
fn sees_commit<V: Number, S: Scope<V>>(client: &mut Client<'_, V, S>) -> bool {
    let next = client.last_number().saturating_add(1);
    for look in 0..LOOKS {
        if client.learn(next).is_ok() {
            return true;
        }
        if look % LOOKS_BETWEEN == 0 {
            yield_now();
        }
    }
    false
}

/// Prints what a client or a store answers to a number that it is to learn, and the last number that it knows then.
pub fn print_learnt(
    text: &mut String,
    learnt: Result<(), Refusal>,
    last: u64,
) -> Result<(), AllocError> {
    match learnt {
        Ok(()) => write!(text, "learnt, last number {last}"),
        Err(refusal) => write!(text, "{refusal}, last number {last}"),
    }
}

/// Prints how attempts ended, counted.
pub fn print_tally(text: &mut String, tally: Tally) -> Result<(), AllocError> {
    let (committed, aborted, others) = (tally.committed, tally.aborted, tally.others);
    let (attempts, refusals) = (tally.attempts(), tally.refusals());
    write!(
        text,
        "{attempts} attempts, {committed} committed, {aborted} aborted, {refusals} refused, {others} by no conflict"
    )
}

fn guests<'a, V: Number>(guest: Guest<'a, V>, count: u64) -> Result<Vec<Guest<'a, V>>, AllocError> {
    let mut guests = Vec::new(guest.all.alloc);
    for _ in 0..count {
        guests.push(guest)?;
    }
    Ok(guests)
}

/// Runs so many sessions, and prints what they print, and how many print nothing.
pub fn answer_clients<R: Threads + Sync, V: Number + Send + Sync>(
    rt: &R,
    text: &mut String,
    store: &mut Store<V>,
    all: &All<V>,
    asked: &str,
) -> Result<(), AllocError> {
    let (count, parts) = first_word(asked);
    let guests = guests(Guest { all, parts }, number_of(count))?;
    match store.run(rt, guests) {
        Ok(outs) => {
            let printed = print_outs(text, outs.as_slice());
            drop(outs);
            printed
        }
        Err(refusal) => write!(text, "{refusal}"),
    }
}

fn print_outs(text: &mut String, outs: &[Result<String, AllocError>]) -> Result<(), AllocError> {
    let mut well = 0u64;
    for out in outs {
        match out {
            Ok(printed) if printed.is_empty() => well = well.saturating_add(1),
            Ok(printed) => text.push_str(printed.as_str())?,
            Err(_) => text.push_str("Memory / ")?,
        }
    }
    write!(text, "{well} well")
}
