//! Seats, transactions and attempts: rows at two seats of 32 shares each.
//!
//! They are answered in turn; after the row `at once` those of each seat in a thread of its own, and after `row by row` likewise, but
//! each row once all above it are answered. After `four at once` and `four row by row` there are four seats, in as many threads; each gets
//! half of the shares of the one before it. Where threads answer, the rows of the first seat stand before those of the second, and so on.
//! What is refused is answered by the refusal.
//!
//! - `1 do begin`, `2 do call 0 get 5`: a request at a seat, like one of a script, and what it is answered.
//! - `1 attempts 1 do read 0; 1 do write 0 1`: an attempt of the job that asks these calls, and then is done. `1 gives up`: of one
//!   that aborts at once.
//! - `1 meets 1 do read 0`: such an attempt, which is held before its commit until those of all other seats are, too, and until each seat
//!   after it has its receipt. `1 waits for a receipt`: until each other seat has one of an attempt.
//! - `1 leaves 1 do write 0 5`: a transaction begins, makes these calls, and is left open. `1 repeats 4095 1 do read 0`: the open
//!   transaction makes these calls so often.
//! - `1 commits 1 do read 0; 1 do write 0 5`, `1 aborts ..`, `1 drops ..`: a transaction borrows the seat, makes these calls, and ends so,
//!   be it dropped while it is open. `1 reads ..`: a declared reader, which commits. `1 typed commits ..`: likewise by typed calls; what is
//!   asked for its length is a queue, and after `typed_map` a map. Where rows go one by one, a call of another seat among them lets the
//!   next row pass, which is that seat's, before the transaction continues.
//! - `1 learn 4`, `1 last number`: what the seat learns, and its last number.
pub mod requests;
pub mod rows;
pub mod turns;
