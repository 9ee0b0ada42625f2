//! Rows that spell a script, and what a script's header says.
use seq_model::{Held, Items, Memory, Refusal, Shape, State};
use std::alloc::Global;
use text_formats::{Script, parse_steps};

/// The script of lines with `; ` between.
pub fn script_of(alloc: Global, row: &str) -> Result<Script, Refusal> {
    let mut lines = String::new(alloc);
    for line in row.split("; ") {
        lines.push_str(line)?;
        lines.push('\n')?;
    }
    parse_steps(alloc, lines.as_bytes())
}

/// The state that a script's header says, whose queues begin at this index.
pub fn state_of(alloc: Global, script: &Script, index: u64) -> Result<State<u64>, Refusal> {
    let words = Vec::from_slice(alloc, script.words.as_slice())?;
    let held = held_of(alloc, script, index)?;
    State::new(words, held)
}

fn held_of(alloc: Global, script: &Script, index: u64) -> Result<Vec<Held<u64>>, Memory> {
    let mut held = Vec::new(alloc);
    for collection in script.collections.as_slice() {
        let copy = collection.held.try_copy(alloc)?;
        held.push(from_index(copy, index))?;
    }
    Ok(held)
}

/// The same, but a queue begins at this index.
pub fn from_index(held: Held<u64>, index: u64) -> Held<u64> {
    match held {
        Held::Queue { head: _, items } => Held::Queue { head: index, items },
        other => other,
    }
}

/// The stripes of the collections, and the clock.
pub fn shape_of(alloc: Global, script: &Script) -> Result<Shape, Memory> {
    let mut stripes = Vec::new(alloc);
    for collection in script.collections.as_slice() {
        stripes.push(collection.stripes)?;
    }
    Ok(Shape {
        stripes: Items::from_vec(stripes),
        clock: script.clock,
    })
}
