//! Transactional Locking II on words, and collections boosted on it, as machines that a contract can speak of.
//!
//! # Words
//!
//! Transactions read and write words that several actors share. Each location has a value word and,
//! beside it, a *versioned lock*: a number that says at which commit the value was written, and
//! whether a commit holds it just now. One more word is the *version clock*.
//!
//! A transaction begins by a load of the clock, its *read version* (`rv`). It reads a location by
//! three loads, of the lock word, the value, and the lock word again; the value counts only if the
//! lock was free, unchanged, and not newer than `rv`. What it writes it keeps in its *write set*.
//! Its commit locks the write set in the order of the locations, advances the clock to its *write
//! version* (`wv`), checks that nothing that it read is newer than `rv`, stores its values, and
//! releases its locks with the version `wv`. The check is left out where no other commit took a
//! number since the transaction began, where `rv + 1` is `wv`. A transaction that writes nothing
//! takes no lock: it commits by one load of the clock, and counts as of `rv`. One that is *declared
//! a reader* as it begins keeps no read set either, and loads a location as often as it reads it.
//!
//! An *event* is a request of an actor, or its next *atomic step*: one load, store,
//! compare_exchange or fetch_add of one word. A *schedule* is a list of events, and any such list
//! may happen. `specs/Actor.antt` has an actor's own record and what each step makes of it by the
//! word that it found, `specs/Requests.antt` what a request makes of it, and `specs/World.antt` the
//! words, the actors and the history. There are no limits in it: neither on actors and locations
//! nor on the sizes of sets, and what a running machine refuses is no event.
//!
//! The module [`laws`] says what holds after every schedule: *opacity*, that the committed
//! transactions are a serial run and that no transaction, committed or not, ever saw anything but
//! the memory of one moment of that run.
//!
//! # Collections
//!
//! A collection's location is a word, and its value an *edition*: how many commits have changed the
//! part of the collection that the location covers. Beside the words stand the *bases*, which hold
//! the parts with their editions, a *gate* for each collection, and for each actor a *shadow*: the
//! parts that its transaction has copied, and the outcomes of its calls.
//!
//! A call takes the gate of its collection, copies the base, puts the gate back, and then reads the
//! words of the locations that it reads. Where an edition read is the one that was copied, the
//! copied part is the part that the history had at the transaction's number; so the outcome, taken
//! from the copies and the changes of the transaction's own calls, is the sequential one. A commit
//! is that of the words, where the new editions are what is stored, and the bases are put back with
//! the changes between the value stores and the releases.
//!
//! Each action of this machine (`specs/Boosted.antt`) is at most one atomic step, and has a guard:
//! an action whose guard fails changes nothing. What holds of every list of actions, for any
//! collections that keep the frame laws (`specs/Content.antt`), is in [`boosted_laws`].
//!
//! Sources: Dice, Shalev and Shavit, Transactional Locking II, DISC 2006; for opacity, Guerraoui and
//! Kapałka, On the Correctness of Transactional Memory, PPoPP 2008; for the replay log and the
//! shadow, Proust, 2017, with this library's own rules.
#![tactic(auto)]

pub mod boosted_laws;
pub mod laws;
