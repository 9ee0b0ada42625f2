//! Transactions that a row spells.
use crate::handles::All;
use crate::numbers::Number;
use crate::steps::{Ended, take_all};
use std::alloc::AllocError;
use std::fmt::Write;
use wolimevar::{Body, Client, Failure, LentClient, Receipt, Scope, Store, Transaction};

/// How often a transaction is attempted at most.
const TRIES: u64 = 1_000_000;

/// The steps of a transaction, and what they are taken by.
#[derive(Drop)]
pub struct Script<'a, V> {
    pub all: &'a All<V>,
    pub steps: &'a str,
}

impl<V: Number> Body<V> for Script<'_, V> {
    type Out = String;

    type Error = Ended;

    fn run<S: Scope<V>>(&self, tx: &mut Transaction<'_, V, S>) -> Result<String, Ended> {
        let mut text = String::new(self.all.alloc);
        take_all(&mut text, tx, self.all, self.steps)?;
        Ok(text)
    }
}

/// What the steps answer, the number of the transaction, and how many calls it made; or why it has none.
pub type Ran = Result<(String, u64, usize), Failure<Ended>>;

fn ran<V: Number>(ended: Result<(String, Receipt<V>), Failure<Ended>>) -> Ran {
    match ended {
        Ok((replies, receipt)) => {
            let (number, calls) = (receipt.number, receipt.calls.len());
            drop(receipt);
            Ok((replies, number, calls))
        }
        Err(failure) => Err(failure),
    }
}

/// `do` may write, `look` only reads, and `once` asks for no attempt.
pub fn run_at_store<V: Number>(store: &mut Store<V>, verb: &str, script: &Script<'_, V>) -> Ran {
    let tries = if verb == "once" { 0 } else { TRIES };
    if verb == "look" {
        ran(store.look(tries, script))
    } else {
        ran(store.atomically(tries, script))
    }
}

pub fn run_at_client<V: Number, S: Scope<V>>(
    client: &mut Client<'_, V, S>,
    verb: &str,
    script: &Script<'_, V>,
) -> Ran {
    if verb == "look" {
        ran(client.look(TRIES, script))
    } else {
        ran(client.atomically(TRIES, script))
    }
}

pub fn run_at_lent<V: Number>(client: &mut LentClient<V>, script: &Script<'_, V>) -> Ran {
    ran(client.atomically(TRIES, script))
}

/// Prints how a transaction ended.
pub fn print_ran(text: &mut String, ended: &Ran) -> Result<(), AllocError> {
    match ended {
        Ok((replies, number, calls)) => write!(text, "{replies}in {calls} calls, number {number}"),
        Err(Failure::Aborted(ended)) => write!(text, "aborted by {ended}"),
        Err(Failure::Refused(refusal)) => write!(text, "refused {refusal}"),
    }
}
