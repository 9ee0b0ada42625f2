//! The lines of a script.
ghost use Rattle.std.specs.Prelude.{◌≡◌, ◌↔◌, ℕ, List, IsTrue, IfOk, IfSome, Some};
ghost use Rattle.std.specs.Ordering.{nat_cmp};
ghost use Rattle.std.specs.FinMap as map;
ghost use Rattle.seq_model.specs.declared.held.Held.{Held};
ghost use Rattle.text_formats.specs.declared.script_line.ScriptLine.{ScriptLine};
ghost use Rattle.text_formats.specs.declared.script.Collection.{Collection};
ghost use Rattle.text_formats.specs.Tokens.{texts};
ghost use Rattle.text_formats.specs.ScriptLines.{AreNumbers, IsAbove, IsClock, IsCollection, IsHeld};
ghost use Rattle.text_formats.specs.ScriptLines.{IsKind, IsLine, IsMap, IsMultiset, IsWords};

use crate::decimal::number;
use crate::event::read_event;
use crate::pairs::{clamped, pair};
use crate::script::{Collection, EventLine};
use seq_model::{Counts, Entries, Held, Items, Memory, QueueItems};
use std::alloc::Global;

/// One line of a script.
#[derive(Drop)]
pub enum ScriptLine {
    /// What the words open with.
    Words(Items<u64>),
    /// What the clock opens at.
    Clock(u64),
    /// A collection.
    Holds(Collection),
    Event(EventLine),
}

/// The line that these tokens spell.
#[tactic(auto, using(crate::proofs::LineLemmas::words_line, crate::proofs::LineLemmas::clock_line, crate::proofs::LineLemmas::collection_line, crate::proofs::LineLemmas::event_line))]
pub fn read_line(alloc: Global, tokens: &[&str]) -> Result<Option<ScriptLine>, Memory>
    ensures found { IfOk result (λ read. IfSome read (IsLine (texts tokens.now))) }
    ensures only { IfOk result (λ read. (line : ScriptLine) → IsLine (texts tokens.now) line → read ≡ Some line) }
{
    let Some(first) = tokens.first() else {
        return Ok(None);
    };
    match *first {
        "words" => match read_words(alloc, tokens)? {
            Some(words) => Ok(Some(ScriptLine::Words(words))),
            None => Ok(None),
        },
        "clock" => match read_clock(tokens) {
            Some(clock) => Ok(Some(ScriptLine::Clock(clock))),
            None => Ok(None),
        },
        kind if is_kind(kind) => match read_collection(alloc, tokens)? {
            Some(collection) => Ok(Some(ScriptLine::Holds(collection))),
            None => Ok(None),
        },
        _ => match read_event(tokens) {
            Some(event) => Ok(Some(ScriptLine::Event(event))),
            None => Ok(None),
        },
    }
}

fn is_kind(token: &str) -> bool
    ensures { IsTrue result ↔ IsKind token.now }
{
    matches!(token, "map" | "bag" | "pq" | "queue")
}

fn read_words(alloc: Global, tokens: &[&str]) -> Result<Option<Items<u64>>, Memory>
    ensures found { IfOk result (λ read. IfSome read (IsWords (texts tokens.now))) }
    ensures only { IfOk result (λ read. (values : List ℕ) → IsWords (texts tokens.now) values → read ≡ Some values) }
{
    match tokens {
        ["words", values @ ..] if !values.is_empty() => read_numbers(alloc, values),
        _ => Ok(None),
    }
}

fn read_clock(tokens: &[&str]) -> Option<u64>
    ensures found { IfSome result (IsClock (texts tokens.now)) }
    ensures only { (clock : ℕ) → IsClock (texts tokens.now) clock → result ≡ Some clock }
{
    match tokens {
        ["clock", clock] => number(clock),
        _ => None,
    }
}

fn read_collection(alloc: Global, tokens: &[&str]) -> Result<Option<Collection>, Memory>
    ensures found { IfOk result (λ read. IfSome read (IsCollection (texts tokens.now))) }
    ensures only { IfOk result (λ read. (c : Collection) → IsCollection (texts tokens.now) c → read ≡ Some c) }
{
    let [kind, stripes, items @ ..] = tokens else {
        return Ok(None);
    };
    let Some(stripes) = number(stripes) else {
        return Ok(None);
    };
    let Some(held) = read_held(alloc, kind, items)? else {
        return Ok(None);
    };
    let stripes = clamped(stripes);
    Ok(Some(Collection { stripes, held }))
}

fn read_held(alloc: Global, kind: &str, tokens: &[&str]) -> Result<Option<Held<u64>>, Memory>
    ensures found { IfOk result (λ read. IfSome read (IsHeld kind.now (texts tokens.now))) }
    ensures only { IfOk result (λ read. (held : Held ℕ) → IsHeld kind.now (texts tokens.now) held → read ≡ Some held) }
{
    match kind {
        "map" => match read_entries(alloc, tokens)? {
            Some(entries) => Ok(Some(Held::Map(entries))),
            None => Ok(None),
        },
        "bag" => match read_counts(alloc, tokens)? {
            Some(counts) => Ok(Some(Held::Bag(counts))),
            None => Ok(None),
        },
        "pq" => match read_counts(alloc, tokens)? {
            Some(counts) => Ok(Some(Held::Pq(counts))),
            None => Ok(None),
        },
        "queue" => match read_numbers(alloc, tokens)? {
            Some(items) => Ok(Some(Held::Queue {
                head: 0,
                items: QueueItems::from_vec(items.into_vec()),
            })),
            None => Ok(None),
        },
        _ => Ok(None),
    }
}

fn read_numbers(alloc: Global, tokens: &[&str]) -> Result<Option<Items<u64>>, Memory>
    ensures found { IfOk result (λ read. IfSome read (AreNumbers (texts tokens.now))) }
    ensures only { IfOk result (λ read. (ns : List ℕ) → AreNumbers (texts tokens.now) ns → read ≡ Some ns) }
{
    let mut numbers = Items::new(alloc);
    for token in tokens {
        let Some(number) = number(token) else {
            return Ok(None);
        };
        numbers.push(number)?;
    }
    Ok(Some(numbers))
}

fn read_entries(alloc: Global, tokens: &[&str]) -> Result<Option<Entries<u64>>, Memory>
    ensures found { IfOk result (λ read. IfSome read (IsMap (texts tokens.now))) }
    ensures only { IfOk result (λ read. (m : map.FinMap nat_cmp ℕ) → IsMap (texts tokens.now) m → read ≡ Some m) }
{
    let mut entries = Entries::new(alloc);
    let mut last = None;
    for token in tokens {
        let Some((key, value)) = pair(token) else {
            return Ok(None);
        };
        if !is_above(last, key) {
            return Ok(None);
        }
        last = Some(key);
        entries.insert(key, value)?;
    }
    Ok(Some(entries))
}

fn read_counts(alloc: Global, tokens: &[&str]) -> Result<Option<Counts>, Memory>
    ensures found { IfOk result (λ read. IfSome read (IsMultiset (texts tokens.now))) }
    ensures only { IfOk result (λ read. (m : map.FinMap nat_cmp ℕ) → IsMultiset (texts tokens.now) m → read ≡ Some m) }
{
    let mut counts = Counts::new(alloc);
    let mut last = None;
    for token in tokens {
        let Some((element, count)) = pair(token) else {
            return Ok(None);
        };
        if count == 0 || !is_above(last, element) {
            return Ok(None);
        }
        last = Some(element);
        counts.set_copies(element, count)?;
    }
    Ok(Some(counts))
}

fn is_above(last: Option<u64>, key: u64) -> bool
    ensures { IsTrue result ↔ IsAbove last key }
{
    match last {
        Some(last) => last < key,
        None => true,
    }
}
