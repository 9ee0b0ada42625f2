//! What a request makes of an actor's record. It makes the room that its steps will need.
ghost use Rattle.std.specs.Prelude.{◌≡◌, ◌≢◌, ℕ, ◌<◌, ◌≤◌, Ok, Err, Option, Some, None, true, false, IsOk, OnOk, OnErr, IfOk, IfErr};
ghost use Rattle.tx_machine.specs.Requests.{AskBegin, AskBeginRead, AskRelease, AskRead, AskWrite, AskLock, AskStore, AskCancel};
ghost use Rattle.tx_machine.specs.Requests.{AskAbort, AskClose};
ghost use Rattle.step_core.specs.Answers.{request_of};
ghost use Rattle.step_core.specs.Phases.{phase_of, opens, takes_memory, if_full, if_new, location_refusal, refusal_at};
ghost use Rattle.tx_sets.specs.Entries.{lookup};
ghost use Rattle.step_core.specs.Shown.{actor_of, asked, snapshot_of, IsAllowed, Replies};
ghost use Rattle.step_core.specs.Sound.{Fits, IsWithin, owed, due};
ghost use Rattle.step_core.specs.declared.answer.WordRefusal.TheVariants.{Memory as OutOfMemory};

use crate::actor::{Actor, Place};
use crate::answer::{WordAnswer, WordRefusal, WordRequest};
use crate::phase::Phase;
use crate::record::WordCall;
use tx_sets::{AccessSet, LOCATION_LIMIT, ReadSet, SetRefusal};

/// Why a new location is refused, if a set has its most locations.
fn if_full<Role>(set: &AccessSet<Role>) -> Option<WordRefusal>
    ensures { result ≡ if_full set.now.entries }
{
    if set.len() < LOCATION_LIMIT {
        None
    } else {
        Some(WordRefusal::TooLong)
    }
}

/// Makes room for a read that is to be kept. A declared reader keeps none.
fn reserve_read(reads: &mut ReadSet, declared: bool) -> Result<(), SetRefusal>
    ensures entries { reads.new.entries ≡ reads.old.entries }
    ensures room { OnOk result (declared ≡ false → 0 < reads.new.room) }
    ensures none { declared ≡ true → IsOk result }
{
    if declared {
        return Ok(());
    }
    reads.reserve(1)
}

impl Actor {
    /// What may be asked of it.
    pub fn phase(&self) -> Phase
        ensures { result ≡ phase_of (actor_of self.now) (actor_of self.now).place }
    {
        match self.place {
            Place::Idle => Phase::Idle,
            Place::Open => {
                if self.writes.len() == 0 {
                    Phase::Reader
                } else {
                    Phase::Writer
                }
            }
            Place::Begin => Phase::Waiting,
            Place::Look(_) => Phase::Waiting,
            Place::Fetch(_, _) => Phase::Waiting,
            Place::Again(_, _, _) => Phase::Waiting,
            Place::Close => Phase::Waiting,
            Place::Lock(_) => Phase::Locking,
            Place::Take(_, _, _) => Phase::Locking,
            Place::Check(i) => {
                if i < self.reads.len() {
                    Phase::Locking
                } else {
                    Phase::Locked
                }
            }
            Place::Broken => Phase::Broken,
            Place::Store(i) => {
                if i < self.writes.len() {
                    Phase::Busy
                } else {
                    Phase::Stored
                }
            }
            Place::Undo => {
                if self.held.is_empty() {
                    Phase::Ended
                } else {
                    Phase::Busy
                }
            }
            Place::First => Phase::Busy,
            Place::Release => Phase::Busy,
            Place::Leave => Phase::Busy,
        }
    }

    /// The reading of the clock with which its open transaction began.
    pub fn snapshot(&self) -> Option<u64>
        ensures { result ≡ snapshot_of (actor_of self.now) (actor_of self.now).place }
    {
        match self.place {
            Place::Idle => None,
            Place::Begin => None,
            Place::Store(_) => None,
            Place::Release => None,
            Place::Open => Some(self.rv),
            Place::Look(_) => Some(self.rv),
            Place::Fetch(_, _) => Some(self.rv),
            Place::Again(_, _, _) => Some(self.rv),
            Place::Lock(_) => Some(self.rv),
            Place::Take(_, _, _) => Some(self.rv),
            Place::Check(_) => Some(self.rv),
            Place::Broken => Some(self.rv),
            Place::First => Some(self.rv),
            Place::Undo => Some(self.rv),
            Place::Leave => Some(self.rv),
            Place::Close => Some(self.rv),
        }
    }

    /// Why a read of a location is refused, if it is in neither set and the read set is full.
    fn read_refusal(&self, location: u32) -> Option<WordRefusal>
        ensures { result ≡ if_new (lookup self.now.writes.entries location) (lookup self.now.reads.entries location)
            self.now.reads.entries }
    {
        if self.writes.contains(location) {
            return None;
        }
        if self.reads.contains(location) {
            return None;
        }
        if_full(&self.reads)
    }

    /// Why a write to a location is refused, if it is not in the write set and that is full.
    fn write_refusal(&self, location: u32) -> Option<WordRefusal>
        ensures { result ≡ if_new (lookup self.now.writes.entries location) None self.now.writes.entries }
    {
        if self.writes.contains(location) {
            return None;
        }
        if_full(&self.writes)
    }

    /// Why a request is refused for its location, where there are so many locations.
    fn location_refusal(&self, locations: usize, request: WordRequest) -> Option<WordRefusal>
        ensures { result ≡ location_refusal locations (actor_of self.now) (request_of request) }
    {
        match request {
            WordRequest::Read(location) => {
                if (location as usize) < locations {
                    self.read_refusal(location)
                } else {
                    Some(WordRefusal::NoSuch)
                }
            }
            WordRequest::Write(location, _) => {
                if (location as usize) < locations && !self.declared {
                    self.write_refusal(location)
                } else {
                    Some(WordRefusal::NoSuch)
                }
            }
            WordRequest::Begin => None,
            WordRequest::BeginRead => None,
            WordRequest::Lock => None,
            WordRequest::Store => None,
            WordRequest::Release => None,
            WordRequest::Cancel => None,
            WordRequest::Abort => None,
            WordRequest::Close => None,
        }
    }

    /// Why a request is refused, memory aside, where there are so many locations.
    pub fn refusal(&self, locations: usize, request: WordRequest) -> Option<WordRefusal>
        ensures { result ≡ refusal_at locations (actor_of self.now) (actor_of self.now).place (request_of request) }
    {
        let phase = self.phase();
        if phase.allows(request) {
            self.location_refusal(locations, request)
        } else {
            Some(phase.refusal(request))
        }
    }

    /// A read: a set answers, or else the steps begin, with their room.
    fn ask_read(&mut self, location: u32) -> Result<Option<WordAnswer>, WordRefusal>
        requires allowed { IsAllowed self.old (AskRead location) }
        requires limit { if_new (lookup self.old.writes.entries location) (lookup self.old.reads.entries location)
            self.old.reads.entries ≡ None }
        ensures ok { OnOk result (actor_of self.new ≡ asked self.old (AskRead location)) }
        ensures answer { IfOk result (Replies self.old (AskRead location)) }
        ensures refused { IfErr result (λ refusal. refusal ≡ OutOfMemory) }
        ensures err { OnErr result (actor_of self.new ≡ actor_of self.old) }
        ensures keeps { (n : ℕ) → IsWithin n (AskRead location) → Fits n self.old → Fits n self.new }
        ensures owed { owed self.new.place ≤ owed self.old.place }
        ensures due { due self.new.place ≤ due self.old.place }
    {
        if let Err(_) = self.calls.reserve(1) {
            return Err(WordRefusal::Memory);
        }
        if let Some(value) = self.writes.find(location) {
            self.calls.push_reserved(WordCall::Read(location, value));
            return Ok(Some(WordAnswer::Number(value)));
        }
        if let Some(value) = self.reads.seek(location) {
            self.calls.push_reserved(WordCall::Read(location, value));
            return Ok(Some(WordAnswer::Number(value)));
        }
        if let Err(_) = reserve_read(&mut self.reads, self.declared) {
            return Err(WordRefusal::Memory);
        }
        self.place = Place::Look(location);
        Ok(None)
    }

    /// A write: the write set keeps the value.
    fn ask_write(&mut self, location: u32, value: u64) -> Result<Option<WordAnswer>, WordRefusal>
        requires allowed { IsAllowed self.old (AskWrite location value) }
        requires limit { if_new (lookup self.old.writes.entries location) None self.old.writes.entries ≡ None }
        requires writer { self.old.declared ≡ false }
        ensures ok { OnOk result (actor_of self.new ≡ asked self.old (AskWrite location value)) }
        ensures answer { IfOk result (Replies self.old (AskWrite location value)) }
        ensures refused { IfErr result (λ refusal. refusal ≡ OutOfMemory) }
        ensures err { OnErr result (actor_of self.new ≡ actor_of self.old) }
        ensures keeps { (n : ℕ) → IsWithin n (AskWrite location value) → Fits n self.old → Fits n self.new }
        ensures owed { owed self.new.place ≤ owed self.old.place }
        ensures due { due self.new.place ≤ due self.old.place }
    {
        if let Err(_) = self.calls.reserve(1) {
            return Err(WordRefusal::Memory);
        }
        if let Err(_) = self.writes.put(location, value) {
            return Err(WordRefusal::Memory);
        }
        self.calls.push_reserved(WordCall::Write(location, value));
        Ok(Some(WordAnswer::Done))
    }

    /// The locks of a writer, from the first.
    fn ask_lock(&mut self) -> Result<Option<WordAnswer>, WordRefusal>
        requires allowed { IsAllowed self.old AskLock }
        ensures ok { OnOk result (actor_of self.new ≡ asked self.old AskLock) }
        ensures answer { IfOk result (Replies self.old AskLock) }
        ensures refused { IfErr result (λ refusal. refusal ≡ OutOfMemory) }
        ensures err { OnErr result (actor_of self.new ≡ actor_of self.old) }
        ensures keeps { (n : ℕ) → Fits n self.old → Fits n self.new }
        ensures owed { owed self.new.place ≤ owed self.old.place }
        ensures due { due self.new.place ≤ due self.old.place }
    {
        if let Err(_) = self.held.reserve(self.writes.len()) {
            return Err(WordRefusal::Memory);
        }
        self.place = Place::Lock(0);
        Ok(None)
    }

    /// The values of a writer, whose record is made ready.
    fn ask_store(&mut self) -> Result<Option<WordAnswer>, WordRefusal>
        requires allowed { IsAllowed self.old AskStore }
        ensures ok { OnOk result (actor_of self.new ≡ asked self.old AskStore) }
        ensures answer { IfOk result (Replies self.old AskStore) }
        ensures refused { IfErr result (λ refusal. refusal ≡ OutOfMemory) }
        ensures err { OnErr result (actor_of self.new ≡ actor_of self.old) }
        ensures keeps { (n : ℕ) → Fits n self.old → Fits n self.new }
        ensures owed { owed self.new.place ≤ owed self.old.place }
        ensures due { due self.new.place ≤ due self.old.place }
    {
        self.ready.clear();
        if let Err(_) = self.ready.extend_from_slice(&self.calls) {
            return Err(WordRefusal::Memory);
        }
        self.place = Place::First;
        Ok(None)
    }

    /// The end of a reader, whose record is made ready.
    fn ask_close(&mut self) -> Result<Option<WordAnswer>, WordRefusal>
        requires allowed { IsAllowed self.old AskClose }
        ensures ok { OnOk result (actor_of self.new ≡ asked self.old AskClose) }
        ensures answer { IfOk result (Replies self.old AskClose) }
        ensures refused { IfErr result (λ refusal. refusal ≡ OutOfMemory) }
        ensures err { OnErr result (actor_of self.new ≡ actor_of self.old) }
        ensures keeps { (n : ℕ) → Fits n self.old → Fits n self.new }
        ensures owed { owed self.new.place ≤ owed self.old.place }
        ensures due { due self.new.place ≤ due self.old.place }
    {
        self.ready.clear();
        if let Err(_) = self.ready.extend_from_slice(&self.calls) {
            return Err(WordRefusal::Memory);
        }
        self.place = Place::Close;
        Ok(None)
    }

    /// The locks given back with their old versions, which is done where none was taken.
    fn ask_cancel(&mut self) -> Option<WordAnswer>
        requires allowed { IsAllowed self.old AskCancel }
        ensures actor { actor_of self.new ≡ asked self.old AskCancel }
        ensures answer { Replies self.old AskCancel result }
        ensures keeps { (n : ℕ) → Fits n self.old → Fits n self.new }
        ensures owed { owed self.new.place ≤ owed self.old.place }
        ensures due { due self.new.place ≤ due self.old.place }
    {
        self.place = Place::Undo;
        if self.held.is_empty() {
            Some(WordAnswer::Cancelled)
        } else {
            None
        }
    }

    /// The end of a transaction, or of a begin that was not answered.
    fn ask_abort(&mut self) -> Option<WordAnswer>
        requires allowed { IsAllowed self.old AskAbort }
        ensures actor { actor_of self.new ≡ asked self.old AskAbort }
        ensures answer { Replies self.old AskAbort result }
        ensures keeps { (n : ℕ) → Fits n self.old → Fits n self.new }
        ensures owed { owed self.new.place ≤ owed self.old.place }
        ensures due { due self.new.place ≤ due self.old.place }
    {
        match self.place {
            Place::Begin => {
                self.place = Place::Idle;
                Some(WordAnswer::Ended)
            }
            _ => {
                self.place = Place::Leave;
                None
            }
        }
    }

    /// A new transaction.
    fn ask_begin(&mut self) -> Option<WordAnswer>
        requires allowed { IsAllowed self.old AskBegin }
        ensures actor { actor_of self.new ≡ asked self.old AskBegin }
        ensures answer { Replies self.old AskBegin result }
        ensures keeps { (n : ℕ) → Fits n self.old → Fits n self.new }
        ensures owed { owed self.new.place ≤ owed self.old.place }
    {
        self.place = Place::Begin;
        self.declared = false;
        None
    }

    /// A new transaction of a declared reader.
    fn ask_begin_read(&mut self) -> Option<WordAnswer>
        requires allowed { IsAllowed self.old AskBeginRead }
        ensures actor { actor_of self.new ≡ asked self.old AskBeginRead }
        ensures answer { Replies self.old AskBeginRead result }
        ensures keeps { (n : ℕ) → Fits n self.old → Fits n self.new }
        ensures owed { owed self.new.place ≤ owed self.old.place }
    {
        self.place = Place::Begin;
        self.declared = true;
        None
    }

    /// The locks given back with the number of the commit.
    fn ask_release(&mut self) -> Option<WordAnswer>
        requires allowed { IsAllowed self.old AskRelease }
        ensures actor { actor_of self.new ≡ asked self.old AskRelease }
        ensures answer { Replies self.old AskRelease result }
        ensures keeps { (n : ℕ) → Fits n self.old → Fits n self.new }
        ensures owed { owed self.new.place ≤ owed self.old.place }
        ensures due { due self.new.place ≤ due self.old.place }
    {
        self.place = Place::Release;
        None
    }

    /// A request that is refused only as Memory, where there are so many locations.
    pub fn ask(
        &mut self,
        locations: usize,
        request: WordRequest,
    ) -> Result<Option<WordAnswer>, WordRefusal>
        requires allowed { IsAllowed self.old (request_of request) }
        requires limit { location_refusal locations (actor_of self.old) (request_of request) ≡ None }
        ensures ok { OnOk result (actor_of self.new ≡ asked self.old (request_of request)) }
        ensures answer { IfOk result (Replies self.old (request_of request)) }
        ensures refused { IfErr result (λ refusal. refusal ≡ OutOfMemory) }
        ensures err { OnErr result (actor_of self.new ≡ actor_of self.old) }
        ensures keeps { Fits locations self.old → Fits locations self.new }
        ensures owed { owed self.new.place ≤ owed self.old.place }
        ensures due { opens (request_of request) ≡ false → due self.new.place ≤ due self.old.place }
        ensures served { takes_memory (request_of request) ≡ false → IsOk result }
    {
        match request {
            WordRequest::Begin => Ok(self.ask_begin()),
            WordRequest::BeginRead => Ok(self.ask_begin_read()),
            WordRequest::Read(location) => self.ask_read(location),
            WordRequest::Write(location, value) => self.ask_write(location, value),
            WordRequest::Lock => self.ask_lock(),
            WordRequest::Store => self.ask_store(),
            WordRequest::Release => Ok(self.ask_release()),
            WordRequest::Cancel => Ok(self.ask_cancel()),
            WordRequest::Abort => Ok(self.ask_abort()),
            WordRequest::Close => self.ask_close(),
        }
    }
}
