//! Values one of whose copies is refused, or one of which waits as it is dropped.
ghost use Rattle.std.specs.Prelude.{◌≡◌, ℕ, IfOk};

use crate::shared::{Meeting, Order};
use seq_model::{Call, Entries, Held, Items, Memory, Op, Refusal, Shape, State, Value};
use std::alloc::Global;
use std::marker::Model;
use std::sync::Arc;
use std::sync::atomic::{AtomicBool, AtomicU64, Ordering};
use tx_engine::Pause;

/// The position of a copy that no run makes.
const NEVER: u64 = u64::MAX;

/// Which copy is the refused one, of all that are made from some moment on; and for how many steps a value waits as it is dropped.
#[derive(Drop)]
struct Copies {
    made: AtomicU64,
    refused: AtomicU64,
    has_refused: AtomicBool,
    waits: AtomicU64,
    steps: Meeting,
}

/// Where values come from one of whose copies is refused, or one of which waits as it is dropped.
#[derive(Drop)]
pub struct Ration {
    copies: Arc<Copies>,
}

/// A number, one of whose copies may be refused.
pub struct Rationed {
    number: u64,
    ration: Ration,
}

impl Ration {
    pub fn new(alloc: Global) -> Result<Ration, Memory> {
        let copies = Copies {
            made: AtomicU64::new(0),
            refused: AtomicU64::new(NEVER),
            has_refused: AtomicBool::new(false),
            waits: AtomicU64::new(0),
            steps: Meeting::new(2, Order::RowByRow),
        };
        Ok(Ration {
            copies: Arc::new(alloc, copies)?,
        })
    }

    /// From now on the copy at this position is refused, counted from 0.
    pub fn refuse(&self, place: u64) {
        self.copies.made.store(0, Ordering::SeqCst);
        self.copies.refused.store(place, Ordering::SeqCst);
    }

    /// No copy is refused from now on. Whether one was.
    pub fn lift(&self) -> bool {
        self.copies.refused.store(NEVER, Ordering::SeqCst);
        self.copies.has_refused.load(Ordering::SeqCst)
    }

    /// The steps of workers.
    pub fn steps(&self) -> &Meeting {
        &self.copies.steps
    }

    /// The same ration, for another owner.
    pub fn share(&self) -> Result<Ration, Memory> {
        let copies = Arc::try_clone(&self.copies)?;
        Ok(Ration { copies })
    }

    pub fn value(&self, number: u64) -> Result<Rationed, Memory>
        ensures { IfOk result (λ value. value ≡ number) }
    {
        let ration = self.share()?;
        Ok(Rationed { number, ration })
    }

    /// `put KEY 60` on the first collection.
    pub fn put(&self, key: u64) -> Result<Call<Rationed>, Memory> {
        Ok(Call {
            target: 0,
            op: Op::Put(key, self.value(60)?),
        })
    }

    /// A word, and a map that holds such a value at the key 5.
    pub fn opening(&self, alloc: Global) -> Result<State<Rationed>, Refusal> {
        let mut map = Entries::new(alloc);
        let _ = map.insert(5, self.value(50)?)?;
        State::new(vec![in alloc; 0u64]?, vec![in alloc; Held::Map(map)]?)
    }
}

// The first worker's commit is held: the next drop of a value is a step, and then waits until there are three. So is a refusal, and a
// receipt.
impl Pause for Ration {
    fn before_commit(&self, worker: u64) {
        if worker == 1 {
            self.copies.waits.store(3, Ordering::SeqCst);
        }
    }

    fn after_receipt(&self, _worker: u64, _number: u64) {
        self.steps().end_row(0);
    }

    fn after_refusal(&self, _worker: u64, cause: Refusal) {
        if matches!(cause, Refusal::Memory) {
            self.steps().leave();
        }
        self.steps().end_row(0);
    }
}

impl Drop for Rationed {
    fn drop(self) {
        let Rationed { number: _, ration } = self;
        let steps = ration.copies.waits.swap(0, Ordering::SeqCst);
        if steps > 0 {
            ration.steps().end_row(0);
            ration.steps().wait_for_row(steps);
        }
        drop(ration);
    }
}

impl Model for Rationed {
    ghost Value = { ℕ };

    ghost view = { λ value. value.number };
}

impl Value for Rationed {
    fn try_copy(&self) -> Result<Rationed, Memory> {
        let copies = &self.ration.copies;
        let made = copies.made.fetch_add(1, Ordering::SeqCst);
        if made == copies.refused.load(Ordering::SeqCst) {
            copies.has_refused.store(true, Ordering::SeqCst);
            return Err(Memory);
        }
        self.ration.value(self.number)
    }

    fn same(&self, other: &Rationed) -> bool {
        self.number == other.number
    }
}

/// `get KEY` on the first collection.
pub fn get(key: u64) -> Call<Rationed> {
    Call {
        target: 0,
        op: Op::Get(key),
    }
}

/// One stripe for the one collection, at clock 0.
pub fn one_stripe(alloc: Global) -> Result<Shape, Memory> {
    Ok(Shape {
        stripes: Items::from_vec(vec![in alloc; 1u32]?),
        clock: 0,
    })
}
