//! The steps of a transaction, as a row spells them: calls, each with its reply or with what refuses it.
use crate::handles::All;
use crate::numbers::Number;
use std::alloc::{AllocError, Global};
use std::fmt;
use std::fmt::Write;
use wolimevar::{Bag, Full, Lanes, Map, PriorityQueue, Queue, Refusal, Scope, Transaction, Word};

/// How often a step after `until` is taken at most.
const TIMES: u64 = 5_000;

/// Why a body ends early.
#[derive(Clone, Copy)]
pub enum Ended {
    /// It aborts, with this number.
    By(u64),
    Refused(Refusal),
}

impl From<Refusal> for Ended {
    fn from(refusal: Refusal) -> Ended {
        Ended::Refused(refusal)
    }
}

impl From<AllocError> for Ended {
    fn from(_error: AllocError) -> Ended {
        Ended::Refused(Refusal::Memory)
    }
}

impl fmt::Display for Ended {
    fn fmt<W: fmt::Write>(&self, f: &mut fmt::Formatter<W>) -> fmt::Result {
        match self {
            Ended::By(number) => write!(f, "{number}"),
            Ended::Refused(refusal) => write!(f, "{refusal}"),
        }
    }
}

/// What a call answers.
#[derive(Clone, Copy)]
enum Reply {
    Done,
    Nothing,
    Number(u64),
    Full,
}

impl fmt::Display for Reply {
    fn fmt<W: fmt::Write>(&self, f: &mut fmt::Formatter<W>) -> fmt::Result {
        match self {
            Reply::Done => f.write_str("Ok"),
            Reply::Nothing => f.write_str("none"),
            Reply::Number(number) => write!(f, "{number}"),
            Reply::Full => f.write_str("Full"),
        }
    }
}

/// What a call of a handle answers.
trait Answer {
    fn reply(self) -> Reply;
}

impl Answer for () {
    fn reply(self) -> Reply {
        Reply::Done
    }
}

impl Answer for u64 {
    fn reply(self) -> Reply {
        Reply::Number(self)
    }
}

impl Answer for bool {
    fn reply(self) -> Reply {
        if self { Reply::Done } else { Reply::Nothing }
    }
}

impl<V: Number> Answer for Option<V> {
    fn reply(self) -> Reply {
        match self {
            Some(value) => Reply::Number(value.number()),
            None => Reply::Nothing,
        }
    }
}

impl Answer for Result<(), Full> {
    fn reply(self) -> Reply {
        match self {
            Ok(()) => Reply::Done,
            Err(Full) => Reply::Full,
        }
    }
}

fn replied<A: Answer>(called: Result<A, Refusal>) -> Result<Reply, Refusal> {
    match called {
        Ok(answer) => Ok(answer.reply()),
        Err(refusal) => Err(refusal),
    }
}

/// The first word, and what follows it.
pub fn first_word(text: &str) -> (&str, &str) {
    match text.split_once(' ') {
        Some(parts) => parts,
        None => (text, ""),
    }
}

/// The number that a word spells, or 0.
pub fn number_of(word: &str) -> u64 {
    match word.parse::<u64>() {
        Ok(number) => number,
        Err(_) => 0,
    }
}

fn on_word<V: Number, S: Scope<V>>(
    tx: &mut Transaction<'_, V, S>,
    word: Word,
    op: &str,
    number: u64,
) -> Result<Reply, Refusal> {
    let held = match op {
        "write" => number,
        _ => word.read(tx)?,
    };
    let next = match op {
        "read" => return Ok(Reply::Number(held)),
        "write" => held,
        _ => held.saturating_add(1),
    };
    replied(word.write(tx, next))
}

fn on_map<V: Number, S: Scope<V>>(
    tx: &mut Transaction<'_, V, S>,
    alloc: Global,
    map: Map<V>,
    op: &str,
    key: u64,
    number: u64,
) -> Result<Reply, Refusal> {
    match op {
        "put" => {
            let value = V::of(alloc, number)?;
            replied(map.put(tx, key, value))
        }
        "get" => replied(map.get(tx, key)),
        "remove" => replied(map.remove(tx, key)),
        _ => replied(map.len(tx)),
    }
}

fn on_bag<V: Number, S: Scope<V>>(
    tx: &mut Transaction<'_, V, S>,
    bag: Bag,
    op: &str,
    element: u64,
) -> Result<Reply, Refusal> {
    match op {
        "add" => replied(bag.add(tx, element)),
        "take" => replied(bag.take(tx, element)),
        _ => replied(bag.count(tx, element)),
    }
}

fn on_least<V: Number, S: Scope<V>>(
    tx: &mut Transaction<'_, V, S>,
    queue: PriorityQueue,
    op: &str,
    element: u64,
) -> Result<Reply, Refusal> {
    match op {
        "insert" => replied(queue.insert(tx, element)),
        "take" => replied(queue.take_least(tx)),
        _ => replied(queue.least(tx)),
    }
}

fn on_queue<V: Number, S: Scope<V>>(
    tx: &mut Transaction<'_, V, S>,
    queue: Queue,
    op: &str,
    item: u64,
) -> Result<Reply, Refusal> {
    match op {
        "enqueue" => replied(queue.enqueue(tx, item)),
        "dequeue" => replied(queue.dequeue(tx)),
        "peek" => replied(queue.peek(tx)),
        _ => replied(queue.len(tx)),
    }
}

fn on_lanes<V: Number, S: Scope<V>>(
    tx: &mut Transaction<'_, V, S>,
    lanes: Lanes,
    op: &str,
    item: u64,
) -> Result<Reply, Refusal> {
    match op {
        "enqueue" => replied(lanes.enqueue(tx, item)),
        "dequeue" => replied(lanes.dequeue(tx)),
        _ => replied(lanes.len(tx)),
    }
}

/// Makes the call that a step spells: a handle, what is done, and up to two numbers.
fn make<V: Number, S: Scope<V>>(
    tx: &mut Transaction<'_, V, S>,
    all: &All<V>,
    step: &str,
) -> Result<Reply, Refusal> {
    let (handle, call) = first_word(step);
    let (op, numbers) = first_word(call);
    let (first, second) = first_word(numbers);
    let (first, second) = (number_of(first), number_of(second));
    let (handles, name) = all.named(handle);
    match name {
        "map" => on_map(tx, all.alloc, handles.map, op, first, second),
        "bag" => on_bag(tx, handles.bag, op, first),
        "full_bag" => on_bag(tx, handles.full_bag, op, first),
        "least" => on_least(tx, handles.least, op, first),
        "full_least" => on_least(tx, handles.full_least, op, first),
        "queue" => on_queue(tx, handles.queue, op, first),
        "wide_map" => on_map(tx, all.alloc, handles.wide_map, op, first, second),
        "wide_bag" => on_bag(tx, handles.wide_bag, op, first),
        "lanes" => on_lanes(tx, handles.lanes, op, first),
        _ => on_word(tx, word_of(handles.words, name), op, first),
    }
}

fn word_of(words: [Word; 3], name: &str) -> Word {
    match name {
        "a" => words[0],
        "b" => words[1],
        _ => words[2],
    }
}

/// Takes a step as often as it is answered: how often that was, and what refused it then.
fn repeat<V: Number, S: Scope<V>>(
    text: &mut String,
    tx: &mut Transaction<'_, V, S>,
    all: &All<V>,
    step: &str,
) -> Result<(), AllocError> {
    for count in 0..TIMES {
        if let Err(refusal) = make(tx, all, step) {
            return write!(text, "{count} times, then {refusal} ");
        }
    }
    write!(text, "{TIMES} times ")
}

/// Takes a step. Where it ends in `?`, what refuses it ends the body.
fn take<V: Number, S: Scope<V>>(
    text: &mut String,
    tx: &mut Transaction<'_, V, S>,
    all: &All<V>,
    step: &str,
) -> Result<(), Ended> {
    if let Some(number) = step.strip_prefix("abort ") {
        return Err(Ended::By(number_of(number)));
    }
    if let Some(step) = step.strip_prefix("until refused ") {
        return Ok(repeat(text, tx, all, step)?);
    }
    let (step, ends) = match step.strip_suffix(" ?") {
        Some(step) => (step, true),
        None => (step, false),
    };
    match make(tx, all, step) {
        Ok(reply) => Ok(write!(text, "{reply} ")?),
        Err(refusal) if ends => Err(Ended::Refused(refusal)),
        Err(refusal) => Ok(write!(text, "{refusal} ")?),
    }
}

/// Takes all steps.
pub fn take_all<V: Number, S: Scope<V>>(
    text: &mut String,
    tx: &mut Transaction<'_, V, S>,
    all: &All<V>,
    steps: &str,
) -> Result<(), Ended> {
    for step in steps.split("; ") {
        take(text, tx, all, step)?;
    }
    Ok(())
}
