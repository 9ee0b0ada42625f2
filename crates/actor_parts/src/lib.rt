//! What a running actor is made of, and the table that it runs on in a world of one thread.
//!
//! - The *next* step of an actor, and how the locations of a world lie ([`Blocks`]), are known by its seat and its word actor alone
//!   ([`word_laws`]).
//! - Of each collection that its calls touched the transaction has a *copy*, with the changes of its accepted calls. A call on a copy is
//!   *weighed* before anything is read for it: its outcome, the locations that are to be judged, the writes of its acceptance
//!   ([`copy_laws`]). A large value that goes from function to function moves as a pointer ([`Boxed`]).
//! - The [`Table`] of a world on one thread has its words, the gates of its collections, and their bases. An actor's step is a load, a
//!   store, a compare_exchange or a fetch_add of one word of it, or an exchange of one gate with its base. The contracts say so of every
//!   world of the definitions that has this table.
#![tactic(auto)]

mod auditing;
mod blocks;
mod boxed;
mod calls;
mod copied;
mod copies;
pub mod copy_laws;
mod ending;
mod first;
mod footprints;
mod homes;
mod judged;
mod known;
mod layout;
mod next;
mod notice;
mod opening;
mod puts;
mod requests;
mod room;
mod sizes;
mod spares;
mod staying;
mod table;
mod taking;
mod weighed;
pub mod word_laws;
mod writes;

pub use auditing::audit_records;
pub use blocks::{Blocks, COLLECTION_LIMIT, TABLE_LIMIT};
pub use boxed::Boxed;
pub use calls::{has_room, has_room_below};
pub use copied::{
    copies_go_on, copies_put_back, excerpts_as_worlds, forgetting_leaves_pieces,
    taking_adds_a_piece,
};
pub use copies::{BaseExcerpt, CopyOfCollection, PrivateCopy, find};
pub use ending::{abort, cancel, release};
pub use first::first_copy;
pub use footprints::position_of;
pub use homes::written_homes;
pub use judged::{Judged, go_on, judge};
pub use known::{is_change, is_known};
pub use layout::lay;
pub use next::{Next, at_place, next_home, next_load, next_put, next_try};
pub use notice::{WordNotice, of_told};
pub use requests::{
    close_words, fits_one, lock_words, read_word, seek_word, store_words, write_word,
};
pub use room::surely_fits;
pub use sizes::sizes_copies;
pub use spares::Spares;
pub use staying::copies_stay;
pub use table::Table;
pub use taking::{fits_base, take, take_back, take_from, taken_back};
pub use weighed::weigh;
pub use writes::{Writes, reserve_words, write_all};
