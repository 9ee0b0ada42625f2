//! A queue of jobs: producers submit them, workers do the most urgent first, and a job that fails goes back with one try less.
#![tactic(auto)]

use std::alloc::Global;
use std::thread::{Threads, yield_now};
use wolimevar::{
    Bag, Body, Client, Counts, Entries, Lanes, Layout, Map, PriorityQueue, QueueItems, Refusal,
    Scope, Session, Transaction, Word,
};

const TRIES: u64 = 3; // how often a job is tried at most

/// Jobs that are ready, the most urgent first; how often each may be tried yet; how often each has ended; the dead; how many haven't ended.
#[derive(Clone, Copy)]
struct Jobs {
    ready: PriorityQueue,
    tries: Map<u64>,
    ended: Bag,
    dead: Lanes,
    left: Word,
}

/// A job is ready, to be tried so often; or it has ended, done or not.
#[derive(Drop)]
enum Change {
    Submit(Jobs, u64, u64),
    End(Jobs, u64, bool),
}

impl Body<u64> for Change {
    type Out = ();

    type Error = Refusal;

    fn run<S: Scope<u64>>(&self, tx: &mut Transaction<'_, u64, S>) -> Result<(), Refusal> {
        match *self {
            Change::Submit(jobs, number, tries) => {
                jobs.tries.put(tx, number, tries)?;
                Ok(jobs.ready.insert(tx, number)??)
            }
            Change::End(jobs, number, done) => {
                if !done {
                    jobs.dead.enqueue(tx, number)??;
                }
                jobs.ended.add(tx, number)??;
                let left = jobs.left.read(tx)?;
                jobs.left.write(tx, left.saturating_sub(1))
            }
        }
    }
}

/// What a worker finds: a job, and how often it may be tried; or none for now, and how many haven't ended.
#[derive(Drop)]
enum Found {
    Job(u64, u64),
    Nothing(u64),
}

/// The most urgent job is taken.
#[derive(Drop)]
struct Take(Jobs);

impl Body<u64> for Take {
    type Out = Found;

    type Error = Refusal;

    fn run<S: Scope<u64>>(&self, tx: &mut Transaction<'_, u64, S>) -> Result<Found, Refusal> {
        let jobs = self.0;
        let Some(number) = jobs.ready.take_least(tx)? else {
            return Ok(Found::Nothing(jobs.left.read(tx)?));
        };
        let tries = jobs.tries.remove(tx, number)?;
        Ok(Found::Job(number, tries.unwrap_or(0)))
    }
}

#[derive(Drop)]
enum Role {
    Producer(Jobs, u64),
    Worker(Jobs),
}

impl Session<u64> for Role {
    /// How many tries were made.
    type Out = Result<u64, Refusal>;

    fn serve<S: Scope<u64>>(self, client: &mut Client<'_, u64, S>) -> Result<u64, Refusal> {
        let mut made = 0u64;
        match self {
            Role::Producer(jobs, first) => for i in 0..100u64 {
                let submit = Change::Submit(jobs, first.wrapping_add(i), TRIES);
                client.atomically(u64::MAX, &submit)?;
            },
            // A worker that finds no job so often goes, too.
            Role::Worker(jobs) => for _ in 0..10_000_000u64 {
                match client.atomically(u64::MAX, &Take(jobs))? {
                    (Found::Job(number, tries), _) => {
                        let done = TRIES.saturating_sub(tries) >= number % 4; // none to three tries fail
                        let change = if done || tries <= 1 {
                            Change::End(jobs, number, done)
                        } else {
                            Change::Submit(jobs, number, tries.saturating_sub(1))
                        };
                        client.atomically(u64::MAX, &change)?;
                        made = made.saturating_add(1);
                    }
                    (Found::Nothing(0), _) => return Ok(made),
                    (Found::Nothing(_), _) => yield_now(),
                }
            },
        }
        Ok(made)
    }
}

fn serve<R: Threads + Sync>(rt: &R, alloc: Global) -> Result<String, Refusal> {
    let mut layout = Layout::new(alloc);
    let jobs = Jobs {
        ready: layout.priority_queue(1, Counts::new(alloc))?,
        tries: layout.map(4, Entries::new(alloc))?,
        ended: layout.bag(4, Counts::new(alloc))?,
        dead: layout.lanes(3, 1, QueueItems::new(alloc))?, // in no order: no worker waits for another
        left: layout.word(200)?,
    };
    let mut store = layout.open()?;
    let (give, work) = (|first| Role::Producer(jobs, first), || Role::Worker(jobs));
    let roles = vec![in alloc; give(0), give(100), work(), work(), work()]?;
    let (mut tries, mut once) = (0u64, 0u64);
    for made in store.run(rt, roles)? {
        tries = tries.saturating_add(made?);
    }
    let contents = store.close()?;
    let ended = contents.bag(jobs.ended).ok_or(Refusal::NoSuch)?;
    for (_, times) in ended.iter() {
        if *times == 1 {
            once = once.saturating_add(1);
        }
    }
    let dead = contents.lanes(jobs.dead).map_or(0, |lanes| lanes.len());
    Ok(format!(in alloc; "{tries} tries, {once} jobs ended just once, {dead} of them dead")?)
}

fn main(rt: HostRuntime) -> std::io::Result<()> {
    match serve(&rt, rt.alloc()) {
        Ok(text) => println!(rt; "{text}"),
        Err(refusal) => println!(rt; "{refusal}"),
    }
}
