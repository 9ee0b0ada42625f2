//! The examples in the docs of `wolimevar`'s calls, line by line, run on stores with a word and a collection of each kind. Of what an
//! example says in a comment, it prints what came out.
use crate::handles::{All, Handles, all_of, open};
use std::alloc::Global;
use std::fmt::Write;
use std::thread::Threads;
use wolimevar::{
    Bag, Body, Client, Contents, Counts, Entries, Lanes, Layout, Lender, Map, PriorityQueue, Queue,
    QueueItems, Refusal, Scope, Session, Shared, Store, Tally, Text, Transaction, Value, Word,
};

/// A word holds one more. It gives what the word held.
#[derive(Drop)]
struct Count(Word);

impl Body<u64> for Count {
    type Out = u64;

    type Error = Refusal;

    fn run<S: Scope<u64>>(&self, tx: &mut Transaction<'_, u64, S>) -> Result<u64, Refusal> {
        let number = self.0.read(tx)?;
        self.0.write(tx, number.saturating_add(1))?;
        Ok(number)
    }
}

/// What a word holds.
#[derive(Drop)]
struct Held(Word);

impl Body<u64> for Held {
    type Out = u64;

    type Error = Refusal;

    fn run<S: Scope<u64>>(&self, tx: &mut Transaction<'_, u64, S>) -> Result<u64, Refusal> {
        self.0.read(tx)
    }
}

/// Each call of each handle, in one transaction. It gives what they answered.
#[derive(Drop)]
struct Calls {
    alloc: Global,
    handles: Handles<u64>,
}

impl Body<u64> for Calls {
    type Out = String;

    type Error = Refusal;

    fn run<S: Scope<u64>>(&self, tx: &mut Transaction<'_, u64, S>) -> Result<String, Refusal> {
        let mut text = String::new(self.alloc);
        call_word(&mut text, tx, self.handles.words[0])?;
        call_map(&mut text, tx, self.handles.map)?;
        call_bag(&mut text, tx, self.handles.bag)?;
        call_priorities(&mut text, tx, self.handles.least)?;
        call_queue(&mut text, tx, self.handles.queue)?;
        Ok(text)
    }
}

fn call_word<S: Scope<u64>>(
    text: &mut String,
    tx: &mut Transaction<'_, u64, S>,
    word: Word,
) -> Result<(), Refusal> {
    word.write(tx, 7)?;
    let held = word.read(tx)?; // 7
    word.write(tx, held.saturating_add(1))?;
    let then = word.read(tx)?; // 8
    Ok(writeln!(text, "a word's calls = {held} {then}")?)
}

fn call_map<S: Scope<u64>>(
    text: &mut String,
    tx: &mut Transaction<'_, u64, S>,
    map: Map<u64>,
) -> Result<(), Refusal> {
    let before = map.put(tx, 1, 10)?; // None
    let held = map.put(tx, 1, 20)?; // Some(10)
    let found = map.get(tx, 1)?; // Some(20)
    let keys = map.len(tx)?; // 1
    let removed = map.remove(tx, 1)?; // Some(20)
    let then = map.get(tx, 1)?; // None
    Ok(writeln!(
        text,
        "a map's calls = {before:?} {held:?} {found:?} {keys} {removed:?} {then:?}"
    )?)
}

fn call_bag<S: Scope<u64>>(
    text: &mut String,
    tx: &mut Transaction<'_, u64, S>,
    bag: Bag,
) -> Result<(), Refusal> {
    bag.add(tx, 3)??;
    bag.add(tx, 3)??;
    let copies = bag.count(tx, 3)?; // 2
    let taken = bag.take(tx, 3)?; // true
    let left = bag.count(tx, 3)?; // 1
    Ok(writeln!(text, "a multiset's calls = {copies} {taken} {left}")?)
}

fn call_priorities<S: Scope<u64>>(
    text: &mut String,
    tx: &mut Transaction<'_, u64, S>,
    priorities: PriorityQueue,
) -> Result<(), Refusal> {
    priorities.insert(tx, 5)??;
    priorities.insert(tx, 4)??;
    let least = priorities.least(tx)?; // Some(4)
    let taken = priorities.take_least(tx)?; // Some(4)
    let then = priorities.least(tx)?; // Some(5)
    Ok(writeln!(
        text,
        "a priority queue's calls = {least:?} {taken:?} {then:?}"
    )?)
}

fn call_queue<S: Scope<u64>>(
    text: &mut String,
    tx: &mut Transaction<'_, u64, S>,
    queue: Queue,
) -> Result<(), Refusal> {
    queue.enqueue(tx, 6)??;
    queue.enqueue(tx, 7)??;
    let first = queue.peek(tx)?; // Some(6)
    let taken = queue.dequeue(tx)?; // Some(6)
    let items = queue.len(tx)?; // 1
    Ok(writeln!(text, "a queue's calls = {first:?} {taken:?} {items}")?)
}

/// What a client does in its thread. It gives what its calls answered.
#[derive(Drop)]
struct Visit {
    alloc: Global,
    word: Word,
}

impl Session<u64> for Visit {
    type Out = Result<String, Refusal>;

    fn serve<S: Scope<u64>>(self, client: &mut Client<'_, u64, S>) -> Result<String, Refusal> {
        let mut text = String::new(self.alloc);
        call_client(&mut text, client, self.word)?;
        Ok(text)
    }
}

fn call_client<S: Scope<u64>>(
    text: &mut String,
    client: &mut Client<'_, u64, S>,
    word: Word,
) -> Result<(), Refusal> {
    let first = client.last_number(); // 0
    let (held, receipt) = client.atomically(1_000, &Count(word))?;
    let last = client.last_number() == receipt.number; // true
    let (then, reader) = client.look(1_000, &Held(word))?;
    let writes = reader.writes; // false
    let learnt = client.learn(receipt.number); // Ok(())
    let committed = client.tally().committed; // 2
    Ok(writeln!(
        text,
        "a client's calls = {first} {held} {last} {then} {writes} {learnt:?} {committed}"
    )?)
}

fn call_store(text: &mut String, store: &mut Store<u64>, word: Word) -> Result<(), Refusal> {
    let (held, receipt) = store.atomically(1_000, &Count(word))?;
    let (number, calls) = (receipt.number, receipt.calls.len()); // 1, 2
    let (then, reader) = store.look(1_000, &Held(word))?;
    let same = reader.number == receipt.number; // true
    let last = store.last_number(); // 1
    let learnt = store.learn(last); // Ok(())
    let ahead = store.learn(99); // Err(Ahead { clock: 1 })
    let tally = store.tally();
    let (attempts, committed) = (tally.attempts(), tally.committed); // 2, 2
    Ok(writeln!(
        text,
        "a store's calls = {held} {number} {calls} {then} {same} {last} {learnt:?} {ahead:?} {attempts} {committed}"
    )?)
}

/// Each call of each handle, at the store.
fn call_handles(
    text: &mut String,
    store: &mut Store<u64>,
    handles: Handles<u64>,
) -> Result<(), Refusal> {
    let alloc = *text.allocator();
    let (answers, _) = store.atomically(1_000, &Calls { alloc, handles })?;
    Ok(text.push_str(answers.as_str())?)
}

fn print_visits(text: &mut String, outs: &[Result<String, Refusal>]) -> Result<(), Refusal> {
    for out in outs {
        match out {
            Ok(answers) => text.push_str(answers.as_str())?,
            Err(refusal) => return Err(*refusal),
        }
    }
    Ok(())
}

fn serve_visits<R: Threads + Sync>(
    rt: &R,
    text: &mut String,
    store: &mut Store<u64>,
    word: Word,
) -> Result<(), Refusal> {
    let alloc = *text.allocator();
    let visits = vec![in alloc; Visit { alloc, word }]?;
    let outs = store.run(rt, visits)?;
    let printed = print_visits(text, outs.as_slice());
    drop(outs);
    printed
}

fn spawn_visit<R: Threads>(
    rt: &R,
    text: &mut String,
    lender: &mut Lender<u64>,
    word: Word,
) -> Result<(), Refusal> {
    let alloc = *text.allocator();
    let serving = lender.spawn(rt, Visit { alloc, word })?;
    let answers = serving.join(rt);
    let out = lender.take_back(); // 0
    text.push_str(answers?.as_str())?;
    Ok(writeln!(text, "then {out} out")?)
}

/// A client is lent, and the store is closed once it is back.
fn lend<R: Threads>(
    rt: &R,
    text: &mut String,
    store: Store<u64>,
    word: Word,
) -> Result<(), Refusal> {
    let Ok(mut lender) = store.lend() else {
        return Err(Refusal::Memory);
    };
    let mut client = lender.client()?;
    let (held, written) = client.atomically(1_000, &Count(word))?;
    let (then, read) = client.look(1_000, &Held(word))?;
    let same = read.number == written.number; // true
    let last = client.last_number() == read.number; // true
    let ahead = client.learn(99); // Err(Ahead { clock: 4 })
    let refusals = client.tally().refusals(); // 0
    drop(written);
    drop(read);
    drop(client);
    let out = lender.take_back(); // 0
    let printed = writeln!(
        text,
        "a lent client's calls = {held} {then} {same} {last} {ahead:?} {refusals}"
    );
    let visited = spawn_visit(rt, text, &mut lender, word);
    let left = end_lender(lender, word)?; // Some(11)
    printed?;
    visited?;
    Ok(writeln!(text, "a lender's calls = {out} {left:?}")?)
}

fn end_lender(lender: Lender<u64>, word: Word) -> Result<Option<u64>, Refusal> {
    let Ok(store) = lender.end() else {
        return Err(Refusal::NotIdle);
    };
    let contents = store.close()?;
    let left = contents.word(word); // Some(11)
    drop(contents);
    Ok(left)
}

/// A collection of each kind, with something in it.
fn fill(
    alloc: Global,
    layout: &mut Layout<u64>,
) -> Result<(Map<u64>, Bag, PriorityQueue, Queue), Refusal> {
    let mut entries = Entries::new(alloc);
    entries.insert(1, 10)?;
    let map = layout.map(64, entries)?;
    let mut counts = Counts::new(alloc);
    counts.set_copies(3, 2)?;
    let bag = layout.bag(64, counts)?;
    let mut counts = Counts::new(alloc);
    counts.set_copies(5, 1)?;
    let priorities = layout.priority_queue(1, counts)?;
    let mut items = QueueItems::new(alloc);
    items.push(6)?;
    let queue = layout.queue(8, items)?;
    Ok((map, bag, priorities, queue))
}

fn print_filled(text: &mut String) -> Result<(), Refusal> {
    let alloc = *text.allocator();
    let mut layout = Layout::numbered(alloc, 1);
    let word = layout.word(7)?;
    let (map, bag, priorities, queue) = fill(alloc, &mut layout)?;
    let store = layout.open()?;
    let contents = store.close()?;
    let held = contents.word(word); // Some(7)
    let entries = contents.map(map);
    let value = entries.and_then(|entries| entries.get(1)); // Some(10)
    let counts = contents.bag(bag);
    let copies = counts.map(|counts| counts.copies(3)); // Some(2)
    let counts = contents.priority_queue(priorities);
    let least = counts.and_then(|counts| counts.least()); // Some(5)
    let items = contents.queue(queue);
    let first = items.and_then(|items| items.first()); // Some(6)
    let printed = writeln!(
        text,
        "contents = {held:?} {value:?} {copies:?} {least:?} {first:?}"
    );
    drop(contents);
    Ok(printed?)
}

/// Items go into lanes and out again. It gives what the calls answered.
#[derive(Drop)]
struct Work(Lanes);

impl Body<u64> for Work {
    type Out = (Option<u64>, u64);

    type Error = Refusal;

    fn run<S: Scope<u64>>(
        &self,
        tx: &mut Transaction<'_, u64, S>,
    ) -> Result<(Option<u64>, u64), Refusal> {
        let jobs = self.0;
        jobs.enqueue(tx, 6)??;
        jobs.enqueue(tx, 7)??;
        let taken = jobs.dequeue(tx)?; // Some(6)
        let left = jobs.len(tx)?; // 1
        Ok((taken, left))
    }
}

fn lay_over_gates(
    alloc: Global,
    layout: &mut Layout<u64>,
) -> Result<(Map<u64>, Bag, Lanes), Refusal> {
    layout.seed(20_251);
    let mut entries = Entries::new(alloc);
    entries.insert(1, 10)?;
    let map = layout.map_over(8, 8, entries)?;
    let mut counts = Counts::new(alloc);
    counts.set_copies(3, 2)?;
    let bag = layout.bag_over(8, 8, counts)?;
    let jobs = layout.lanes(4, 8, QueueItems::new(alloc))?;
    Ok((map, bag, jobs))
}

fn call_lanes(text: &mut String, store: &mut Store<u64>, jobs: Lanes) -> Result<(), Refusal> {
    let ((taken, left), _) = store.atomically(1_000, &Work(jobs))?;
    Ok(writeln!(text, "a queue in lanes = {taken:?} {left}")?)
}

fn work_over_gates(text: &mut String) -> Result<(), Refusal> {
    let alloc = *text.allocator();
    let mut layout: Layout<u64> = Layout::new(alloc);
    let (map, bag, jobs) = lay_over_gates(alloc, &mut layout)?;
    let store = layout.open()?;
    let mut store = store;
    call_lanes(text, &mut store, jobs)?;
    let contents = match store.close() {
        Ok(contents) => contents,
        Err(unread) => unread.read()?,
    };
    let printed = print_over_gates(text, &contents, map, bag, jobs);
    drop(contents);
    printed
}

fn print_over_gates(
    text: &mut String,
    contents: &Contents<u64>,
    map: Map<u64>,
    bag: Bag,
    jobs: Lanes,
) -> Result<(), Refusal> {
    let Some(entries) = contents.map(map) else {
        return Err(Refusal::NoSuch);
    };
    let keys = entries.len(); // 1
    let value = entries.get(1); // Some(10)
    for (key, value) in entries.iter() {
        writeln!(text, "{key} {value}")?;
    }
    let Some(counts) = contents.bag(bag) else {
        return Err(Refusal::NoSuch);
    };
    let copies = counts.copies(3); // 2
    for (element, copies) in counts.iter() {
        writeln!(text, "{element} {copies}")?;
    }
    let lanes = contents.lanes(jobs);
    let Some(lanes) = lanes else {
        return Err(Refusal::NoSuch);
    };
    let first = lanes.lane(0).and_then(|items| items.first()); // Some(7)
    let items = lanes.len(); // 1
    Ok(writeln!(
        text,
        "over gates = {keys} {value:?} {copies} {first:?} {items}"
    )?)
}

fn print_values(text: &mut String) -> Result<(), Refusal> {
    let alloc = *text.allocator();
    let name = Text::of(alloc, "Ada")?;
    let bytes = name.as_str().len(); // 3
    let shared = Shared::new(alloc, name)?;
    let copy = shared.try_copy()?;
    let same = copy.get().same(shared.get()); // true
    let tally = Tally::new();
    let attempts = tally.attempts(); // 0
    Ok(writeln!(text, "values = {bytes} {same} {attempts}")?)
}

/// The calls of a store, of its handles, and of its clients.
fn call_all<R: Threads + Sync>(
    rt: &R,
    text: &mut String,
    store: &mut Store<u64>,
    handles: Handles<u64>,
) -> Result<(), Refusal> {
    call_store(text, store, handles.words[0])?;
    call_handles(text, store, handles)?;
    serve_visits(rt, text, store, handles.words[0])
}

pub fn test<R: Threads + Sync>(rt: &R, alloc: Global, text: &mut String) -> Result<(), Refusal> {
    let all: All<u64> = all_of(alloc, 0)?;
    let mut store = open(alloc, 0)?;
    call_all(rt, text, &mut store, all.own)?;
    lend(rt, text, store, all.own.words[0])?;
    print_filled(text)?;
    work_over_gates(text)?;
    print_values(text)
}
