//! What test rows on the shared table are made of.
//!
//! A row opens a table as a step script's header does; a job is spelled by the calls that it asks; and once the table is closed, the audit
//! of all receipts has to be Ok. Workers may be held before their commits until all stand there, or their rows be answered one by one. Who
//! runs the transactions stands in the modules beside this one.
mod answers;
mod ends;
mod listed;
mod meeting;
mod openings;
mod pages;
mod places;
mod told;

pub use answers::{Answer, print_receipt};
pub use ends::{audit_receipts, close, keep_all, print_closed};
pub use listed::{Listed, job_of};
pub use meeting::{Meeting, Order, Stand};
pub use openings::open;
pub use pages::Page;
pub use places::{say_left, say_places};
pub use told::Told;
