//! Workers, and attempts of a job up to a receipt.
//!
//! The rows are jobs: `1 runs 1 do read 0; 1 do write 0 1` one that asks these calls, `1 gives up` one that aborts at once,
//! `1 wants memory` one that has none.
//!
//! - `workers 1 2 on words 0 0`: the number before a job is that of a worker, to whose list it is given; `2 rests` is a worker without
//!   jobs. Each job is attempted at most so often, and so many workers meet: each is held before its commit until all stand there, and the
//!   first until all others have their receipts. `0`: none is held. What comes of them is the receipts of the first worker, where workers
//!   meet or it is alone, the numbers of all receipts, rising, and what was missed, by worker and position. Where a job ran out of memory,
//!   the seat commits a write after it.
//! - `workers 9 2 in order on words 0 0`: each is held until all after it have their receipts.
//! - `workers 9 crowd on words 0 0`: none is held, and in place of the numbers, which depend on how the workers stand in each other's way,
//!   it is printed how many receipts there are; nor is the clock printed.
//! - `retries 3 on words 0 0`: the jobs are run by one seat, each in up to so many attempts.
pub mod lists;
pub mod reports;
pub mod retries;
pub mod runs;
