//! Layouts within their limits and beyond.
use crate::steps::{first_word, number_of};
use std::alloc::Global;
use wolimevar::{Counts, Entries, Layout, QueueItems, Refusal};

fn add_bags(alloc: Global, layout: &mut Layout<u64>, count: u64) -> Result<(), Refusal> {
    for _ in 0..count {
        layout.bag(1, Counts::new(alloc))?;
    }
    Ok(())
}

fn add_words(layout: &mut Layout<u64>, count: u64) -> Result<(), Refusal> {
    for number in 0..count {
        layout.word(number)?;
    }
    Ok(())
}

fn add_copies(alloc: Global, layout: &mut Layout<u64>, count: u64) -> Result<(), Refusal> {
    let mut counts = Counts::new(alloc);
    counts.set_copies(7, count)?;
    layout.bag(1, counts)?;
    Ok(())
}

fn lay_out(alloc: Global, layout: &mut Layout<u64>, asked: &str) -> Result<(), Refusal> {
    let (kind, number) = first_word(asked);
    let number = number_of(number);
    let stripes = u32::try_from(number).unwrap_or(0);
    match kind {
        "bags" => return add_bags(alloc, layout, number),
        "words" => return add_words(layout, number),
        "copies" => return add_copies(alloc, layout, number),
        "stripes" => drop(layout.map(stripes, Entries::new(alloc))?),
        "gates" => drop(layout.map_over(stripes, 1, Entries::new(alloc))?),
        "lanes" => drop(layout.lanes(stripes, 1, QueueItems::new(alloc))?),
        _ => drop(layout.queue(stripes, QueueItems::new(alloc))?),
    }
    Ok(())
}

/// Opens such a layout: so many `bags` or `words`, a map of so many `stripes`, a `queue` of so many, a map over so many `gates`, so many
/// `lanes`, or so many `copies` of an element.
pub fn opens(alloc: Global, asked: &str) -> Result<(), Refusal> {
    let mut layout = Layout::new(alloc);
    lay_out(alloc, &mut layout, asked)?;
    let store = layout.open()?;
    drop(store);
    Ok(())
}
