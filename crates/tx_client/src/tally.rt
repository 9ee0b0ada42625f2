//! Counts of attempts, by how they ended.
ghost use Rattle.std.specs.Prelude.{◌≡◌, ◌-◌, ◌^◌, min};
ghost use Rattle.tx_client.specs.Tallies.{attempts, counts, one_more, refusals, with_end, with_refusal};

use seq_model::{Failure, Refusal};

/// How many attempts ended in each way. A count that is the greatest `u64` is not raised further.
#[derive(Clone, Copy, Debug, PartialEq, Eq)]
pub struct Tally {
    pub committed: u64,
    /// The body returned an error of its own.
    pub aborted: u64,
    /// Refused as `Moved`; the next five likewise, as `Busy` to `Memory`.
    pub moved: u64,
    pub busy: u64,
    pub stale: u64,
    pub gate_busy: u64,
    pub invalid: u64,
    pub out_of_memory: u64,
    /// Refused as anything else.
    pub others: u64,
}

fn one_more(count: u64) -> u64
    ensures { result ≡ one_more count }
{
    count.saturating_add(1)
}

impl Tally {
    /// No attempts.
    ///
    /// ```
    /// let tally = Tally::new();
    /// let attempts = tally.attempts(); // 0
    /// ```
    pub fn new() -> Tally
        ensures { result ≡ counts 0 0 0 0 0 0 0 0 0 }
    {
        Tally {
            committed: 0,
            aborted: 0,
            moved: 0,
            busy: 0,
            stale: 0,
            gate_busy: 0,
            invalid: 0,
            out_of_memory: 0,
            others: 0,
        }
    }

    /// How many attempts there were in all, or the greatest `u64` if there were more.
    ///
    /// ```
    /// let tally = store.tally();
    /// let (attempts, committed) = (tally.attempts(), tally.committed); // 2, 2
    /// ```
    pub fn attempts(&self) -> u64
        ensures { result ≡ min (attempts self.now) (2 ^ 64 - 1) }
    {
        self.committed
            .saturating_add(self.aborted)
            .saturating_add(self.refusals())
    }

    /// How many of them were refused, or the greatest `u64` if there were more.
    ///
    /// ```
    /// let (held, written) = client.atomically(1_000, &Count(word))?;
    /// let refusals = client.tally().refusals(); // 0
    /// ```
    pub fn refusals(&self) -> u64
        ensures { result ≡ min (refusals self.now) (2 ^ 64 - 1) }
    {
        self.moved
            .saturating_add(self.busy)
            .saturating_add(self.stale)
            .saturating_add(self.gate_busy)
            .saturating_add(self.invalid)
            .saturating_add(self.out_of_memory)
            .saturating_add(self.others)
    }

    fn with_refusal(mut self, cause: Refusal) -> Tally
        ensures { result ≡ with_refusal self cause }
    {
        match cause {
            Refusal::Moved { .. } => self.moved = one_more(self.moved),
            Refusal::Busy { .. } => self.busy = one_more(self.busy),
            Refusal::Stale { .. } => self.stale = one_more(self.stale),
            Refusal::GateBusy { .. } => self.gate_busy = one_more(self.gate_busy),
            Refusal::Invalid { .. } => self.invalid = one_more(self.invalid),
            Refusal::Memory => self.out_of_memory = one_more(self.out_of_memory),
            _ => self.others = one_more(self.others),
        }
        self
    }

    /// With one attempt more, which ended so.
    pub(crate) fn with_end<T, E>(mut self, ended: &Result<T, Failure<E>>) -> Tally
        ensures { result ≡ with_end self ended.now }
    {
        match ended {
            Ok(_) => self.committed = one_more(self.committed),
            Err(Failure::Refused(cause)) => return self.with_refusal(*cause),
            Err(Failure::Aborted(_)) => self.aborted = one_more(self.aborted),
        }
        self
    }
}
