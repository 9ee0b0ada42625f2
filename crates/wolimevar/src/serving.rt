//! A session that a lent client serves in a thread of its own.
//!
//! The thread owns the client and the session. What the session returned comes back by the thread's handle, which carries the promise that
//! the session serves so; the client is put back.
ghost use Rattle.std.specs.Prelude.{◌≡◌, []};

use crate::lent::LentClient;
use crate::sessions::Session;
use seq_model::Value;
use std::marker::{Model, PhantomData};
use std::snapshot::Snapshot;
use std::thread;
use std::thread::{Promise, PromisedHandle, Threads};

/// A thread's promise: it serves this session for values of this type.
#[derive(Drop)]
struct Serves<V, N> {
    session: Snapshot<N>,
    values: PhantomData<V>,
}

impl<V: Value, N: Session<V>> Promise<N::Out> for Serves<V, N> {
    ghost kept_by = { λ p out. (receipts : _) × N.serves p.session.value out receipts };
}

/// A session that a client of a lender serves in a thread of its own ([`crate::Lender::spawn`]). Dropped, it lets the thread run on.
///
/// Contracts see the session.
pub struct Serving<V: Value, N: Session<V>> {
    session: Snapshot<N>,
    /// `Err` where no thread could be started, and it was served at once.
    thread: Result<PromisedHandle<N::Out, Serves<V, N>>, N::Out>,
}

impl<V: Value, N: Session<V> + Drop> Drop for Serving<V, N> {
    fn drop(self) {
        let Serving {
            session: _,
            thread: _,
        } = self;
    }
}

impl<V: Value, N: Session<V>> Model for Serving<V, N> {
    ghost use Rattle.std.specs.Prelude.{◌≡◌, IfErr, IfOk};

    ghost Value = { N };

    ghost view = { λ a. a.session.value };

    ghost invariant = { λ a. IfOk a.thread (λ handle. handle.promise.session.value ≡ a.session.value)
        × IfErr a.thread (λ out. (receipts : _) × N.serves a.session.value out receipts) };
}

impl<V: Value, N: Session<V> + Drop> Serving<V, N> {
    /// Starts a thread in which the client serves the session. Where none can be started, it serves it here.
    pub(crate) fn start<R: Threads>(rt: &R, client: LentClient<V>, session: N) -> Serving<V, N>
    where
        V: Send + Sync + 'static,
        N: Send + 'static,
        N::Out: Send + 'static,
        requires new { client.receipts ≡ [] }
        ensures session { result ≡ session }
    {
        let known = Snapshot::of(&session);
        let promise = Serves {
            session: Snapshot::of(&session),
            values: PhantomData,
        };
        let started = thread::spawn_with(
            rt,
            promise,
            move || -> N::Out
                requires { client.receipts ≡ [] }
                ensures { (receipts : _) × N.serves session result receipts }
            { client.serve(session) },
        );
        match started {
            Ok(thread) => Serving {
                session: known,
                thread: Ok(thread),
            },
            Err(refused) => Serving {
                session: known,
                thread: Err((refused.value)()),
            },
        }
    }

    /// Waits until the session has ended, and returns what it returned. Its client has come back by then, so that
    /// [`crate::Lender::take_back`] finds it, with the session's receipts.
    ///
    /// ```
    /// let answers = serving.join(rt);
    /// let out = lender.take_back(); // 0
    /// ```
    pub fn join<R: Threads>(self, rt: &R) -> N::Out
        ensures served { (receipts : _) × N.serves self result receipts }
    {
        let Serving { session: _, thread } = self;
        match thread {
            Ok(thread) => thread.join(rt),
            Err(out) => out,
        }
    }
}
