//! What a transaction sees of a collection between its calls and its commit.
//!
//! A *shadow* (Proust, 2017) is a copy of a base with the changes of the transaction's own calls, beside the log of these
//! changes. A call is answered from it: the outcome is the sequential one at the copied view after the own calls, since the
//! copy has them. At the commit the log goes to the base that all transactions share. A [`Memo`] has what a call touches alone.
//!
//! A call is made in three moves, as its locations have to be read between its outcome and its acceptance:
//! [`Shadow::answer`] gives the outcome and changes nothing; [`Shadow::ready`] asks for the memory; [`Shadow::accept`] takes
//! the outcome in, without memory and without refusal. Of a memo likewise, once it holds what the call touches ([`Memo::add`]).
#![tactic(auto)]

mod changes;
pub mod laws;
mod memo;
mod shadow;

pub use memo::{KeyLocation, Memo, MemoKind};
pub use shadow::Shadow;
