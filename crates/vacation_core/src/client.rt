//! A client of the world: its session that is under way, and those that it has committed.
ghost use Rattle.std.specs.Prelude.{◌≡◌, None, [], IfOk, OnOk};
ghost use Rattle.vacation_core.specs.Clients.{asks_next, begun, failed, fault_of, finished, has_open, joined, left};

use client_sessions::{Entry, Session};
use seq_model::{Ask, Items, Job, Memory, Refusal, Reply};
use std::alloc::Global;

/// A session that is under way.
#[derive(Drop)]
pub struct OpenSession {
    pub session: Session,
    /// The replies to its calls so far.
    pub replies: Items<Reply<Entry>>,
    /// Why it aborts its transaction, where a call of it was refused.
    pub fault: Option<Refusal>,
}

/// A client of the world.
#[derive(Drop)]
pub struct Client {
    pub current: Option<OpenSession>,
    /// Its sessions that have committed, in their order.
    pub done: Items<Session>,
}

impl Client {
    pub fn new(alloc: Global) -> Client
        ensures { result ≡ record { current = None; done = [] } }
    {
        Client {
            current: None,
            done: Items::new(alloc),
        }
    }

    pub fn is_busy(&self) -> bool
        ensures { result ≡ has_open self.now }
    {
        self.current.is_some()
    }

    pub fn begin(&mut self, alloc: Global, session: Session)
        ensures { self.new ≡ begun session self.old }
    {
        self.current = Some(OpenSession {
            session,
            replies: Items::new(alloc),
            fault: None,
        });
    }

    /// What the session that is under way asks next.
    pub fn next(&self) -> Result<Ask<Entry>, Memory>
        ensures { IfOk result (λ ask. ask ≡ asks_next self.now) }
    {
        match &self.current {
            Some(open) => open.session.ask(open.replies.as_slice()),
            None => Ok(Ask::Done),
        }
    }

    /// A call of the session was answered. The replies before it are unchanged.
    pub fn join(&mut self, reply: Reply<Entry>) -> Result<(), Memory>
        ensures { OnOk result (self.new ≡ joined reply self.old) }
    {
        match &mut self.current {
            Some(open) => open.replies.push(reply),
            None => Ok(()),
        }
    }

    /// A call of the session was refused, for which it aborts its transaction.
    pub fn fail(&mut self, cause: Refusal)
        ensures { self.new ≡ failed cause self.old }
    {
        if let Some(open) = &mut self.current {
            open.fault = Some(cause);
        }
    }

    /// The session has committed.
    pub fn finish(&mut self) -> Result<(), Memory>
        ensures { OnOk result (self.new ≡ finished self.old) }
    {
        match self.current.take() {
            Some(open) => self.done.push(open.session),
            None => Ok(()),
        }
    }

    /// The session has ended without a commit: why it aborted its transaction, where it did.
    pub fn leave(&mut self) -> Option<Refusal>
        ensures fault { result ≡ fault_of self.old }
        ensures rest { self.new ≡ left self.old }
    {
        match self.current.take() {
            Some(open) => open.fault,
            None => None,
        }
    }
}
