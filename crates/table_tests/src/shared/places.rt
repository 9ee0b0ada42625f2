//! Where a table has its words and collections, and what the collections are once it is closed.
ghost use Rattle.std.specs.Prelude.{◌≡◌, ◌<◌};

use super::answers::Answer;
use super::pages::Page;
use super::told::Told;
use seq_model::Refusal;
use shared_table::{Closed, TxTable};
use text_formats::number;

/// Answers each row `the words`, how many there are, and `the block 0`, where this collection is stored.
pub fn say_places<V: Told>(page: &mut Page<V>, table: &TxTable<V>, rows: &str) {
    for row in rows.lines() {
        if let Some(asked) = row.strip_prefix("the ") {
            page.begin_row(row);
            page.hear(Ok(place_of(table, asked)));
            page.end_row();
        }
    }
}

fn place_of<V: Told>(table: &TxTable<V>, asked: &str) -> Answer<V> {
    match asked.strip_prefix("block ") {
        Some(digits) => match table.block(collection_of(digits)) {
            Some(block) => Answer::Stored(block),
            None => Answer::Said("none"),
        },
        None => Answer::Number(table.words() as u64),
    }
}

// What is no number of a collection names none.
fn collection_of(digits: &str) -> u32 {
    match number(digits) {
        Some(collection) if collection < 256 => collection as u32,
        _ => u32::MAX,
    }
}

/// Answers each row `left 0`, what this collection holds.
pub fn say_left<V: Told>(page: &mut Page<V>, closed: &Closed<V>, rows: &str) {
    for row in rows.lines() {
        if let Some(digits) = row.strip_prefix("left ") {
            page.begin_row(row);
            let printed = print_left(&mut page.text, closed, collection_of(digits));
            if let Err(refusal) = printed {
                page.hear(Err(refusal));
            }
            page.end_row();
        }
    }
}

fn print_left<V: Told>(
    text: &mut String,
    closed: &Closed<V>,
    collection: u32,
) -> Result<(), Refusal> {
    if (collection as usize) < closed.collections() {
        V::print_base(text, closed.collection(collection))
    } else {
        Err(Refusal::NoSuch)
    }
}
