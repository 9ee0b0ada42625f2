//! Runs a script.
ghost use Rattle.std.specs.Prelude.{◌≡◌, ℕ, map, All, IsOk, IfOk, IfErr, OnOk};
ghost use Rattle.seq_model.specs.Calls.{IsWithinLimits};
ghost use Rattle.seq_model.specs.Contents.{Contents};
ghost use Rattle.replay_log.specs.Worlds.{World as PureWorld};
ghost use Rattle.step_world.specs.Parts.{IsWorld};
ghost use Rattle.step_world.specs.Reached.{IsReached};
ghost use Rattle.step_world.specs.Serial.{IsFrom};
ghost use Rattle.step_world.specs.Traces.{IsSerialTrace, IsTraceOf};
ghost use Rattle.session_text.specs.Scripts as opens;
ghost use Rattle.session_text.specs.Scripts.{HasRefusedCollections, IsOpeningOf, IsRefusedScript, world_in};
ghost use Rattle.session_text.specs.Plays.{ArePlays, AreSteps, AreTurns, HasPlayed, IsKeptRun, IsOne, IsPlay, IsRunBy, IsRunOf, Keeps};
ghost use Rattle.session_text.specs.Plays.{is_request, noted, waits, whose, with_event};
ghost use Rattle.text_formats.specs.declared.script.TheConstants.{STEP_LIMIT};

use seq_model::{Event, Items, Memory, Notice, Refusal, Request, SEATS, Shape, State};
use std::alloc::Global;
use step_world::{Trace, World};
use text_formats::{EventLine, STEP_LIMIT, Script};

/// The result of a script.
pub struct ScriptRun {
    /// The notices other than `Quiet`, in their order.
    pub notices: Items<Notice<u64>>,
    pub opening: State<u64>,
    pub trace: Trace<u64>,
}

impl Drop for ScriptRun {
    fn drop(self) {
        let ScriptRun {
            notices: _,
            opening: _,
            trace: _,
        } = self;
    }
}

/// Opens the script's world, and feeds it the script's events.
///
/// `TooLong` where a collection of the header is beyond a limit, else as `World::open`, and `Memory` where an allocation
/// failed.
pub fn run_script(alloc: Global, script: &Script) -> Result<ScriptRun, Refusal>
    ensures opening { IfOk result (λ run. IsOpeningOf script.now run.opening) }
    ensures serial { IfOk result (λ run. IsSerialTrace run.opening run.trace) }
    ensures run { IfOk result (IsRunOf script.now) }
    ensures refused { IfErr result (IsRefusedScript script.now) }
{
    let (made, _events) = run_kept(alloc, script, false)?;
    Ok(made)
}

/// The same, with the events that the lines made happen.
pub fn run_script_with_events(
    alloc: Global,
    script: &Script,
) -> Result<(ScriptRun, Items<Event<u64>>), Refusal>
    ensures opening { IfOk result (λ made. IsOpeningOf script.now made.0.opening) }
    ensures serial { IfOk result (λ made. IsSerialTrace made.0.opening made.0.trace) }
    ensures run { IfOk result (λ made. IsRunBy script.now made.1 made.0) }
    ensures refused { IfErr result (IsRefusedScript script.now) }
{
    let made = run_kept(alloc, script, true)?;
    Ok(made)
}

// The events are kept only where they are asked for.
fn run_kept(
    alloc: Global,
    script: &Script,
    keeps: bool,
) -> Result<(ScriptRun, Items<Event<u64>>), Refusal>
    ensures opening { IfOk result (λ made. IsOpeningOf script.now made.0.opening) }
    ensures serial { IfOk result (λ made. IsSerialTrace made.0.opening made.0.trace) }
    ensures run { IfOk result (IsKeptRun script.now keeps) }
    ensures refused { IfErr result (IsRefusedScript script.now) }
{
    let opening = opening_of(alloc, script)?;
    run_from(alloc, script, opening, keeps)
}

fn run_from(
    alloc: Global,
    script: &Script,
    opening: State<u64>,
    keeps: bool,
) -> Result<(ScriptRun, Items<Event<u64>>), Refusal>
    requires opening { IsOpeningOf script.now opening }
    requires within { All IsWithinLimits (opens.opening_of script.now).held }
    ensures opening { IfOk result (λ made. IsOpeningOf script.now made.0.opening) }
    ensures serial { IfOk result (λ made. IsSerialTrace made.0.opening made.0.trace) }
    ensures run { IfOk result (IsKeptRun script.now keeps) }
    ensures refused { IfErr result (IsRefusedScript script.now) }
{
    let waiting = vec![in alloc; false; SEATS]?;
    let world = open(alloc, script, &opening)?;
    let mut runner = Runner {
        world,
        transcript: Transcript {
            notices: Items::new(alloc),
            events: Items::new(alloc),
            keeps,
        },
        waiting,
    };
    runner.run_lines(script.lines.as_slice())?;
    let made = runner.into_run(opening)?;
    Ok(made)
}

/// The state that the script's header lays out.
///
/// `TooLong` where a collection is beyond a limit, and `Memory` where an allocation failed.
pub fn opening_of(alloc: Global, script: &Script) -> Result<State<u64>, Refusal>
    ensures opening { IfOk result (IsOpeningOf script.now) }
    ensures within { IsOk result → All IsWithinLimits (opens.opening_of script.now).held }
    ensures refused { IfErr result (HasRefusedCollections script.now) }
{
    let words = Vec::from_slice(alloc, script.words.as_slice())?;
    let mut held = Vec::new(alloc);
    for collection in script.collections.as_slice() {
        held.push(collection.held.try_copy(alloc)?)?;
    }
    State::new(words, held)
}

/// How the world of the script's header is laid out.
pub fn shape_of(alloc: Global, script: &Script) -> Result<Shape, Memory>
    ensures stripes { IfOk result (λ shape. shape.stripes ≡ map (λ c. c.stripes) script.now.collections) }
    ensures clock { IfOk result (λ shape. shape.clock ≡ script.now.clock) }
{
    let mut stripes = Vec::new(alloc);
    for collection in script.collections.as_slice() {
        stripes.push(collection.stripes)?;
    }
    Ok(Shape {
        stripes: Items::from_vec(stripes),
        clock: script.clock,
    })
}

// The world of the script's header, which opens on this state.
fn open(alloc: Global, script: &Script, opening: &State<u64>) -> Result<World<u64>, Refusal>
    requires opening { IsOpeningOf script.now opening.now }
    requires within { All IsWithinLimits (opens.opening_of script.now).held }
    ensures world { IfOk result (λ world. IsWorld world.parts (world_in script.now opening.now)) }
    ensures reached { IsOk result → IsReached opening.now (world_in script.now opening.now) }
    ensures refused { IfErr result (IsRefusedScript script.now) }
{
    let shape = shape_of(alloc, script)?;
    let state = opening.try_copy(alloc)?;
    World::open(alloc, &shape, state)
}

/// What a world answered, and what it was fed.
#[derive(Drop)]
struct Transcript {
    /// The notices other than `Quiet`.
    notices: Items<Notice<u64>>,
    /// The events, where they are kept.
    events: Items<Event<u64>>,
    keeps: bool,
}

impl Transcript {
    fn keep(&mut self, event: &Event<u64>) -> Result<(), Memory>
        ensures { OnOk result (self.new ≡ with_event self.old event.now) }
    {
        if self.keeps {
            self.events.push(event.try_copy()?)?;
        }
        Ok(())
    }
}

#[derive(Drop)]
struct Runner {
    world: World<u64>,
    transcript: Transcript,
    /// By actor: whether a request of it is unanswered.
    waiting: Vec<bool>,
}

impl Runner {
    fn run_lines(&mut self, lines: &[EventLine]) -> Result<(), Memory>
        ensures { OnOk result (HasPlayed (Keeps (ArePlays self.old.waiting.items lines.now) self.old.waiting.items self.new.waiting.items)
            self.old.world.parts self.old.transcript self.new.world.parts self.new.transcript) }
    {
        for line in lines {
            self.run_line(line)?;
        }
        Ok(())
    }

    fn into_run(self, opening: State<u64>) -> Result<(ScriptRun, Items<Event<u64>>), Memory>
        ensures opening { IfOk result (λ made. made.0.opening ≡ opening) }
        ensures notices { IfOk result (λ made. made.0.notices ≡ self.transcript.notices) }
        ensures events { IfOk result (λ made. made.1 ≡ self.transcript.events) }
        ensures trace { IfOk result (λ made. (o : Contents ℕ) (w : PureWorld ℕ) → IsReached o w → IsWorld self.world.parts w
            → IsTraceOf w made.0.trace) }
        ensures serial { IfOk result (λ made. (o : Contents ℕ) → IsFrom o self.world.parts → IsSerialTrace o made.0.trace) }
    {
        let Runner {
            world,
            transcript,
            waiting: _,
        } = self;
        let Transcript {
            notices,
            events,
            keeps: _,
        } = transcript;
        let trace = world.into_trace()?;
        let run = ScriptRun {
            notices,
            opening,
            trace,
        };
        Ok((run, events))
    }

    fn run_line(&mut self, line: &EventLine) -> Result<(), Memory>
        ensures { OnOk result (HasPlayed (Keeps (IsPlay self.old.waiting.items line.now) self.old.waiting.items self.new.waiting.items)
            self.old.world.parts self.old.transcript self.new.world.parts self.new.transcript) }
    {
        match line {
            EventLine::Ask(actor, request) => {
                self.ask(*actor, request)?;
                Ok(())
            }
            EventLine::Do(actor, request) => {
                if self.ask(*actor, request)? {
                    self.steps(*actor, STEP_LIMIT)?;
                }
                Ok(())
            }
            EventLine::Steps(actor, count) => self.steps(*actor, *count),
            EventLine::Starve(actor) => {
                self.happen(Event::Starve(*actor))?;
                Ok(())
            }
            EventLine::Alternate(first, second) => self.alternate(*first, *second),
        }
    }

    // Whether the event answered nothing: its notice is `Quiet`.
    fn happen(&mut self, event: Event<u64>) -> Result<bool, Memory>
        ensures { IfOk result (λ quiet. HasPlayed (Keeps (IsOne event quiet) self.old.waiting.items self.new.waiting.items)
            self.old.world.parts self.old.transcript self.new.world.parts self.new.transcript) }
    {
        let actor = whose(&event);
        let asks = is_request(&event);
        self.transcript.keep(&event)?;
        let notice = self.world.feed(event)?;
        if let Notice::Quiet = notice {
            self.note(actor, asks, true);
            return Ok(true);
        }
        self.transcript.notices.push(notice)?;
        self.note(actor, asks, false);
        Ok(false)
    }

    fn ask(&mut self, actor: u32, request: &Request<u64>) -> Result<bool, Memory>
        ensures { IfOk result (λ quiet. HasPlayed
            (Keeps (IsOne (Event.Ask actor request.now) quiet) self.old.waiting.items self.new.waiting.items)
            self.old.world.parts self.old.transcript self.new.world.parts self.new.transcript) }
    {
        self.happen(Event::Ask(actor, request.try_copy()?))
    }

    fn steps(&mut self, actor: u32, count: u64) -> Result<(), Memory>
        ensures { OnOk result (HasPlayed (Keeps (AreSteps actor count) self.old.waiting.items self.new.waiting.items)
            self.old.world.parts self.old.transcript self.new.world.parts self.new.transcript) }
    {
        for _taken in 0..count {
            if !self.happen(Event::Step(actor))? {
                return Ok(());
            }
        }
        Ok(())
    }

    fn alternate(&mut self, first: u32, second: u32) -> Result<(), Memory>
        ensures { OnOk result (HasPlayed
            (Keeps (AreTurns STEP_LIMIT first second self.old.waiting.items) self.old.waiting.items self.new.waiting.items)
            self.old.world.parts self.old.transcript self.new.world.parts self.new.transcript) }
    {
        let mut actor = first;
        let mut other = second;
        for _taken in 0..STEP_LIMIT {
            if self.is_waiting(actor) {
                self.happen(Event::Step(actor))?;
                (actor, other) = (other, actor);
            } else if self.is_waiting(other) {
                self.happen(Event::Step(other))?;
            } else {
                return Ok(());
            }
        }
        Ok(())
    }

    fn is_waiting(&self, actor: u32) -> bool
        ensures { result ≡ waits self.now.waiting.items actor }
    {
        self.waiting.get(actor as usize).copied().unwrap_or(false)
    }

    // An event of this actor, a request or not, answered nothing (`quiet`) or something.
    fn note(&mut self, actor: u32, asks: bool, quiet: bool)
        ensures world { self.new.world ≡ self.old.world }
        ensures transcript { self.new.transcript ≡ self.old.transcript }
        ensures waiting { self.new.waiting.items ≡ noted self.old.waiting.items actor asks quiet }
    {
        if asks == quiet && (actor as usize) < self.waiting.len() {
            self.waiting[actor as usize] = quiet;
        }
    }
}

pub(crate) fn whose(event: &Event<u64>) -> u32
    ensures { result ≡ whose event.now }
{
    match event {
        Event::Ask(actor, _) | Event::Step(actor) | Event::Starve(actor) => *actor,
    }
}

fn is_request(event: &Event<u64>) -> bool
    ensures { result ≡ is_request event.now }
{
    matches!(event, Event::Ask(_, _))
}
