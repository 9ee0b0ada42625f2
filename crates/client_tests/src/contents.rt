//! What a closed store holds, read by handle.
use crate::handles::{All, Handles};
use crate::numbers::Number;
use std::alloc::AllocError;
use std::fmt::Write;
use wolimevar::{Bag, Contents, Map, PriorityQueue, Queue, Unread};

fn value_in<V: Number>(contents: &Contents<V>, map: Map<V>) -> Option<u64> {
    Some(contents.map(map)?.get(2)?.number())
}

fn copies_in<V: Number>(contents: &Contents<V>, bag: Bag) -> Option<u64> {
    Some(contents.bag(bag)?.copies(3))
}

fn least_in<V: Number>(contents: &Contents<V>, queue: PriorityQueue) -> Option<u64> {
    contents.priority_queue(queue)?.least()
}

fn first_in<V: Number>(contents: &Contents<V>, queue: Queue) -> Option<u64> {
    contents.queue(queue)?.first()
}

/// Prints what these handles find: the first word, key 2 of the map, the copies of 3, the least element and the first item.
fn print_found<V: Number>(
    text: &mut String,
    name: &str,
    contents: &Contents<V>,
    handles: &Handles<V>,
) -> Result<(), AllocError> {
    let word = contents.word(handles.words[0]);
    let value = value_in(contents, handles.map);
    let copies = copies_in(contents, handles.bag);
    let least = least_in(contents, handles.least);
    let first = first_in(contents, handles.queue);
    writeln!(
        text,
        "{name} = {word:?} {value:?} {copies:?} {least:?} {first:?}"
    )
}

/// Prints what collections over several gates hold: how many keys a map has, their sum, the value at key 2, the copies of 3, how many
/// elements a multiset has, and how many items all lanes have.
fn print_wide<V: Number>(
    text: &mut String,
    contents: &Contents<V>,
    handles: &Handles<V>,
) -> Result<(), AllocError> {
    let (mut len, mut keys) = (0, 0u64);
    if let Some(entries) = contents.map(handles.wide_map) {
        len = entries.len();
        for (key, _) in entries.iter() {
            keys = keys.saturating_add(*key);
        }
    }
    let value = value_in(contents, handles.wide_map);
    let (mut copies, mut elements) = (0, 0u64);
    if let Some(counts) = contents.bag(handles.wide_bag) {
        copies = counts.copies(3);
        for (_, _) in counts.iter() {
            elements = elements.saturating_add(1);
        }
    }
    let items = match contents.lanes(handles.lanes) {
        Some(lanes) => lanes.len(),
        None => 0,
    };
    writeln!(
        text,
        "over gates = {len} {keys} {value:?} {copies} {elements} {items}"
    )
}

fn print_all<V: Number>(
    text: &mut String,
    contents: &Contents<V>,
    all: &All<V>,
) -> Result<(), AllocError> {
    print_found(text, "contents", contents, &all.own)?;
    print_wide(text, contents, &all.own)?;
    print_found(text, "contents beyond the layout", contents, &all.beyond)?;
    print_found(text, "contents of another store", contents, &all.other)
}

/// Prints what a store held as it was closed. Where memory was out, it is read once more.
pub fn print_closed<V: Number>(
    text: &mut String,
    closed: Result<Contents<V>, Unread<V>>,
    all: &All<V>,
) -> Result<(), AllocError> {
    let read = match closed {
        Ok(contents) => Ok(contents),
        Err(unread) => unread.read(),
    };
    match read {
        Ok(contents) => {
            let printed = print_all(text, &contents, all);
            drop(contents);
            printed
        }
        Err(unread) => {
            drop(unread);
            writeln!(text, "contents = refused Memory twice")
        }
    }
}
