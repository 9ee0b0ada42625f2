//! What collections hold, as text.
use replay_log::Base;
use seq_model::{Held, Memory, Refusal};
use std::alloc::AllocError;
use std::collections::btree_map::Iter;
use std::fmt::{Display, Write};

/// Prints what the collection holds.
pub fn print_base(text: &mut String, base: &Base<u64>) -> Result<(), Refusal> {
    let held = base.held()?;
    print_held(text, &held)?;
    Ok(())
}

/// Prints what a collection holds: keys with values, elements with their numbers, or the items of a queue from an index.
pub fn print_held(text: &mut String, held: &Held<u64>) -> Result<(), Memory> {
    match held {
        Held::Map(entries) => print_pairs(text, "map", entries.iter())?,
        Held::Bag(counts) => print_pairs(text, "bag", counts.iter())?,
        Held::Pq(counts) => print_pairs(text, "pq", counts.iter())?,
        Held::Queue { head, items } => {
            write!(text, "queue from {head}:")?;
            let (front, back) = items.as_slices();
            print_all(text, "", front)?;
            print_all(text, "", back)?;
        }
    }
    Ok(())
}

fn print_pairs(text: &mut String, kind: &str, pairs: Iter<'_, u64, u64>) -> Result<(), AllocError> {
    text.push_str(kind)?;
    for (key, value) in pairs {
        write!(text, " {key}:{value}")?;
    }
    Ok(())
}

/// Prints a name, and these after it.
pub fn print_all<T: Display>(text: &mut String, name: &str, all: &[T]) -> Result<(), AllocError> {
    text.push_str(name)?;
    for one in all {
        write!(text, " {one}")?;
    }
    Ok(())
}
