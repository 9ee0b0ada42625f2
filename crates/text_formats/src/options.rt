//! What is to be drawn.
ghost use Rattle.std.specs.Prelude.{◌≡◌, ◌≤◌, ◌↔◌, IsTrue};
ghost use Rattle.text_formats.specs.Options.{AreWithin, count_of, greatest_id};

/// How many sessions are drawn, for how many clients, and from what.
#[derive(Clone, Copy, Debug, PartialEq, Eq)]
pub struct Options {
    /// Workers, each with its own list of sessions: 1 to 64.
    pub clients: u32,
    /// Asks of a reservation, and changes of an update: 1 to 100.
    pub queries: u32,
    /// The share of the ids that sessions name, in percent: 1 to 100.
    pub percent_queried: u32,
    /// Ids of each kind, from 1: 1 to 10,000.
    pub relations: u32,
    /// Sessions of all workers together: 1 to 100,000.
    pub transactions: u32,
    /// The share of reservations among the sessions, in percent: 0 to 100.
    pub percent_user: u32,
}

impl Options {
    /// Whether each option is within its range.
    pub fn are_within(&self) -> bool
        ensures { IsTrue result ↔ AreWithin self.now }
    {
        (1..=64).contains(&self.clients)
            && (1..=100).contains(&self.queries)
            && (1..=100).contains(&self.percent_queried)
            && (1..=10_000).contains(&self.relations)
            && (1..=100_000).contains(&self.transactions)
            && self.percent_user <= 100
    }

    /// The greatest id, and the greatest customer, that a session names.
    pub(crate) fn greatest_id(&self) -> u64
        requires { AreWithin self.now }
        ensures greatest { result ≡ greatest_id self.now }
        ensures some { 1 ≤ result }
    {
        let share = u64::from(self.relations) * u64::from(self.percent_queried) / 100;
        share.max(1)
    }

    /// How many sessions a worker makes: the first workers make one more where they don't come out even.
    pub(crate) fn count_of(&self, worker: u64) -> u32
        requires { AreWithin self.now }
        ensures { result ≡ count_of self.now worker }
    {
        let share = self.transactions / self.clients;
        if worker <= u64::from(self.transactions % self.clients) {
            share + 1
        } else {
            share
        }
    }
}
