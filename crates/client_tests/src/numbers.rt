//! The values that the maps of these stores hold, each spelled by a number.
use std::alloc::Global;
use wolimevar::{Entries, Memory, Shared, Text, Value};

/// A value that a number spells.
pub trait Number: Value {
    fn of(alloc: Global, number: u64) -> Result<Self, Memory>;

    fn number(&self) -> u64;

    /// What the maps of a store hold at first.
    fn entries(alloc: Global) -> Result<Entries<Self>, Memory>;
}

impl Number for u64 {
    fn of(_alloc: Global, number: u64) -> Result<u64, Memory> {
        Ok(number)
    }

    fn number(&self) -> u64 {
        *self
    }

    fn entries(alloc: Global) -> Result<Entries<u64>, Memory> {
        Ok(Entries::new(alloc))
    }
}

/// Values of the other types that maps may hold.
pub type Others = (
    ((u32, bool), ((), ((u64, bool), Option<u32>))),
    (Text, Shared<Text>),
);

/// A number that can't be copied where it is 13, beside values of each other type.
#[derive(Drop)]
pub struct Brittle {
    pub number: u64,
    pub others: Others,
}

impl Value for Brittle {
    fn try_copy(&self) -> Result<Brittle, Memory> {
        if self.number == 13 {
            return Err(Memory);
        }
        let others = self.others.try_copy()?;
        Ok(Brittle {
            number: self.number,
            others,
        })
    }

    fn same(&self, other: &Brittle) -> bool {
        self.number == other.number && self.others.same(&other.others)
    }
}

fn texts(alloc: Global) -> Result<(Text, Shared<Text>), Memory> {
    let shared = Text::from(format!(in alloc; "shared by {}", 2)?);
    let shared = Shared::new(alloc, shared)?;
    Ok((Text::of(alloc, "Ada")?, shared))
}

fn put(entries: &mut Entries<Brittle>, alloc: Global, key: u64, number: u64) -> Result<(), Memory> {
    entries.insert(key, Brittle::of(alloc, number)?)?;
    Ok(())
}

impl Number for Brittle {
    fn of(alloc: Global, number: u64) -> Result<Brittle, Memory> {
        let texts = texts(alloc)?;
        let others = (((7, true), ((), ((7, false), Some(7)))), texts);
        Ok(Brittle { number, others })
    }

    fn number(&self) -> u64 {
        self.number
    }

    fn entries(alloc: Global) -> Result<Entries<Brittle>, Memory> {
        let mut entries = Entries::new(alloc);
        put(&mut entries, alloc, 1, 13)?;
        put(&mut entries, alloc, 2, 5)?;
        Ok(entries)
    }
}
