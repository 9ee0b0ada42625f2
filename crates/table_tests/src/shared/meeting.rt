//! Workers that wait for one another.
use seq_model::Refusal;
use std::sync::atomic::{AtomicBool, AtomicU64, Ordering};
use std::thread::yield_now;
use tx_engine::Pause;

/// A worker is held for at most so many turns.
const TURNS: u64 = 10_000_000;

/// In which order workers continue.
#[derive(Clone, Copy)]
pub enum Order {
    /// Before a commit the first is held until all others have a receipt.
    FirstIsLast,
    /// Before a commit each is held until all after it have a receipt.
    LastIsFirst,
    /// Each row of a worker is held until all rows above it are answered, or the one that is under way lets it pass.
    RowByRow,
}

/// Where a row stands: whose it is, and below how many others.
#[derive(Clone, Copy)]
pub struct Stand {
    pub worker: u64,
    pub above: u64,
}

/// So many workers that are held before their commits until all stand there, and then as their order says. None is held once one of
/// them has left.
#[derive(Drop)]
pub struct Meeting {
    all: u64,
    order: Order,
    standing: AtomicU64,
    received: AtomicU64,
    answered: AtomicU64,
    admitted: AtomicU64,
    has_left: AtomicBool,
    is_missed: AtomicBool,
}

impl Meeting {
    pub fn new(all: u64, order: Order) -> Meeting {
        Meeting {
            all,
            order,
            standing: AtomicU64::new(0),
            received: AtomicU64::new(0),
            answered: AtomicU64::new(0),
            admitted: AtomicU64::new(0),
            has_left: AtomicBool::new(false),
            is_missed: AtomicBool::new(false),
        }
    }

    /// A worker has left before its end.
    pub fn leave(&self) {
        self.has_left.store(true, Ordering::SeqCst);
    }

    /// Whether a worker was held in vain.
    pub fn is_missed(&self) -> bool {
        self.is_missed.load(Ordering::SeqCst)
    }

    /// Holds a worker until all others have a receipt.
    pub fn wait_for_receipts(&self) {
        self.wait(&self.received, self.all.saturating_sub(1));
    }

    /// Holds a worker before the row that stands below so many others, where rows go one by one.
    pub fn wait_for_row(&self, above: u64) {
        if matches!(self.order, Order::RowByRow) {
            self.wait(&self.admitted, above);
        }
    }

    /// The row below so many others is answered. After one that was let pass, the row continues that let it pass.
    pub fn end_row(&self, above: u64) {
        let before = self.answered.fetch_add(1, Ordering::SeqCst);
        if above <= before {
            self.admitted
                .store(before.saturating_add(1), Ordering::SeqCst);
        }
    }

    /// A row that is under way lets the one pass that stands below so many others, and is held until that is answered. It was not let pass
    /// itself.
    pub fn let_by(&self, above: u64) {
        self.admitted.store(above, Ordering::SeqCst);
        if matches!(self.order, Order::RowByRow) {
            self.wait(&self.answered, above);
        } else {
            self.is_missed.store(true, Ordering::SeqCst);
        }
    }

    // Holds a worker until this count has come so far, or one of them has left. What that one did before it left is seen by the load after
    // that.
    fn wait(&self, count: &AtomicU64, least: u64) {
        for _ in 0..TURNS {
            let has_left = self.has_left.load(Ordering::SeqCst);
            if least <= count.load(Ordering::SeqCst) {
                return;
            }
            if has_left {
                break;
            }
            yield_now();
        }
        self.is_missed.store(true, Ordering::SeqCst);
    }
}

impl Pause for Meeting {
    fn before_commit(&self, worker: u64) {
        self.standing.fetch_add(1, Ordering::SeqCst);
        self.wait(&self.standing, self.all);
        let behind = match self.order {
            Order::FirstIsLast if worker > 1 => 0,
            _ => self.all.saturating_sub(worker),
        };
        self.wait(&self.received, behind);
    }

    fn after_receipt(&self, _worker: u64, _number: u64) {
        self.received.fetch_add(1, Ordering::SeqCst);
    }

    // Such a worker may never stand where others wait for it.
    fn after_refusal(&self, _worker: u64, cause: Refusal) {
        if matches!(cause, Refusal::Memory) {
            self.leave();
        }
    }
}
