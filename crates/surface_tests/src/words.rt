//! Lock words, the sets of a transaction, and a world of words.
use crate::rows::ensure;
use seq_model::Refusal;
use std::alloc::Global;
use step_core::{WordRefusal, WordRequest, Words};
use tx_sets::{AccessSet, ReadSet, SetRefusal, WriteSet};
use vlock_word::LockWord;

/// The actor that asks here.
const ACTOR: u32 = 1;

/// More steps than a request here has.
const STEPS: u32 = 100;

const REQUESTS: [WordRequest; 13] = [
    WordRequest::Begin,
    WordRequest::Read(0),
    WordRequest::Write(1, 9),
    WordRequest::Lock,
    WordRequest::Store,
    WordRequest::Release,
    WordRequest::BeginRead,
    WordRequest::Close,
    WordRequest::Begin,
    WordRequest::Write(0, 1),
    WordRequest::Lock,
    WordRequest::Cancel,
    WordRequest::Abort,
];

pub fn call(alloc: Global) -> Result<(), Refusal> {
    let word = LockWord::read(LockWord::locked(7).bits());
    let is = word.is_locked() && word.version() == 7 && LockWord::free(7).usable(7);
    let read = call_set(&mut ReadSet::new(alloc)).is_ok();
    let written = call_set(&mut WriteSet::new(alloc)).is_ok();
    match Words::new(alloc, 0, vec![in alloc; 5, 6]?) {
        Ok(mut words) => {
            let asked = ask_all(&mut words).is_ok();
            drop(words);
            ensure(is && read && written && asked)
        }
        Err(_) => Err(Refusal::Memory),
    }
}

fn call_set<Role>(set: &mut AccessSet<Role>) -> Result<(), SetRefusal> {
    set.reserve(1)?;
    set.put(3, 7)?;
    let _ = set.find(3);
    let _ = set.len();
    let _ = set.in_order();
    Ok(())
}

fn ask_all(words: &mut Words) -> Result<(), WordRefusal> {
    for request in &REQUESTS {
        let mut answer = words.ask(ACTOR, *request)?;
        for _ in 0..STEPS {
            if answer.is_none() {
                answer = words.step(ACTOR)?;
            }
        }
    }
    let _ = words.is_declared(ACTOR);
    let _ = words.snapshot(ACTOR);
    let _ = words.history();
    Ok(())
}
