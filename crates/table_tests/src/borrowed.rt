//! Transactions that borrow their seats, by typed calls or not: what a row of [`crate::engine`] asks for.
pub mod calls;
pub mod ends;
pub mod lists;
pub mod transacted;
