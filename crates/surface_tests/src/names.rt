//! Values of types that have few or no calls, by the names of their variants and fields. That this is compiled is what it is for.
use base_bag::BagBase;
use base_map::MapBase;
use base_pq::PqBase;
use base_queue::QueueBase;
use client_sessions::SharedCustomer;
use conflict::{Note, Outcome};
use replay_log::{Base, Touch, TouchedKey};
use seq_model::{AuditFault, Call, Items, Op, Record, Refusal, Reply};
use session_text::Line;
use step_core::{WordAnswer, WordRecord};
use step_world::{Answer, Ended, Event, Notice, Request, Trace};
use tx_engine::{Attempt, Receipt};
use vac_model::{
    Action, ActionReply, Ask, Booking, Change, ChangeReply, Customer, Each, Item, Kind, KindReply,
    Queue, Ticket, Wait,
};
use vacation_core::{Entry, Ordered, VacEvent, VacTrace};
use workers::{LastAbort, Report, Served};

pub const REFUSALS: &[Refusal] = &[
    Refusal::Moved {
        location: 1,
        word: 2,
    },
    Refusal::Busy {
        location: 1,
        word: 2,
    },
    Refusal::Stale {
        location: 1,
        base_edition: 2,
        word_edition: 3,
    },
    Refusal::GateBusy { collection: 1 },
    Refusal::Invalid {
        location: 1,
        word: 2,
    },
    Refusal::Memory,
    Refusal::Exhausted { clock: 1 },
    Refusal::NoSuch,
    Refusal::TooLong,
    Refusal::Ahead { clock: 1 },
    Refusal::NotIdle,
    Refusal::NoTransaction,
    Refusal::BadText { line: 1 },
];

pub const FAULTS: &[AuditFault] = &[
    AuditFault::DoubleNumber(1),
    AuditFault::WrongReply { entry: 1, call: 2 },
    AuditFault::WrongState,
    AuditFault::Memory,
];

pub const NOTES: &[Note] = &[Note::Plain, Note::Least(Some(5)), Note::Index(1)];

pub const OUTCOME: Outcome<u64> = Outcome {
    op: Op::Len,
    reply: Reply::Number(1),
    note: Note::Plain,
};

pub const TOUCHED: [TouchedKey<u64>; 2] = [
    TouchedKey::Entry(1, Some(10)),
    TouchedKey::Copies(5, 1),
];

pub const REPLIES: &[Reply<u64>] = &[
    Reply::Done,
    Reply::Full,
    Reply::Nothing,
    Reply::Value(20),
    Reply::Found(5),
    Reply::Number(1),
    Reply::Yes,
    Reply::No,
];

pub const ANSWERS: &[Answer<u64>] = &[
    Answer::Begun(1),
    Answer::Replied(Reply::Done),
    Answer::Committed(2),
    Answer::Aborted,
];

pub const EVENTS: &[Event<u64>] = &[
    Event::Ask(1, Request::Begin),
    Event::Ask(1, Request::BeginRead),
    Event::Ask(1, Request::Commit),
    Event::Ask(1, Request::Abort),
    Event::Step(1),
    Event::Starve(1),
];

pub const NOTICES: &[Notice<u64>] = &[
    Notice::Quiet,
    Notice::Answered(1, Answer::Aborted),
    Notice::Refused(1, Refusal::NoSuch),
];

pub const WORD_ANSWERS: &[WordAnswer] = &[
    WordAnswer::Begun(1),
    WordAnswer::Number(2),
    WordAnswer::Done,
    WordAnswer::Locked(3),
    WordAnswer::Stored,
    WordAnswer::Released,
    WordAnswer::Cancelled,
    WordAnswer::Ended,
];

pub const GIVEN_UP: Attempt<u64> = Attempt::GivenUp;

/// The actions that hold no list.
pub const ACTIONS: [Action; 3] = [
    Action::Delete(7),
    Action::QueryItem(Kind::Flight, 1),
    Action::QueryBill(7),
];

pub const ASK: Ask = Ask {
    kind: Kind::Car,
    id: 1,
};

pub const CHANGES: &[Change] = &[
    Change::Add(Kind::Car, 1, 2, 50),
    Change::TakeCar(1, 2),
    Change::TakeRoom(1, 2),
    Change::DropFlight(1),
];

/// A booking of all units of an item.
pub const BOOKING: Booking = Booking {
    kind: Kind::Car,
    id: 1,
    units: 2,
    price: 50,
};

const ITEM: Item = Item {
    total: 2,
    used: 2,
    free: 0,
    price: 50,
};

/// A wait, and the ticket that stands for it.
pub const WAIT: Wait = Wait {
    kind: Kind::Room,
    id: 1,
    units: 2,
    ticket: 0,
};

const TICKET: Ticket = Ticket {
    customer: 7,
    kind: Kind::Room,
    id: 1,
    units: 2,
};

/// The entries that hold no list.
pub const ENTRIES: [Entry; 2] = [Entry::Item(ITEM), Entry::Ticket(TICKET)];

pub const CHANGED: &[ChangeReply] = &[ChangeReply::Done, ChangeReply::Refused];

/// The replies that hold no list.
pub const ACTION_REPLIES: [ActionReply; 6] = [
    ActionReply::Reserved(Each {
        car: KindReply::Nothing,
        flight: KindReply::Already(1),
        room: KindReply::Full(1),
    }),
    ActionReply::Reserved(Each {
        car: KindReply::Booked(1, 2, 50),
        flight: KindReply::NoFree(1),
        room: KindReply::Waits(1, 0),
    }),
    ActionReply::Deleted(50, 2),
    ActionReply::Found(ITEM),
    ActionReply::Bill(50),
    ActionReply::Absent,
];

/// What happens to a client's session.
pub const CLIENT_EVENTS: [VacEvent; 3] = [
    VacEvent::Start(1, Action::QueryBill(7)),
    VacEvent::Step(1),
    VacEvent::Starve(1),
];

/// The lines of sessions with a receipt and without.
pub const LINES: [Line; 4] = [
    Line::Done(1, ActionReply::Absent),
    Line::Missed(LastAbort::Refused(Refusal::NoSuch)),
    Line::Missed(LastAbort::GivenUp),
    Line::Missed(LastAbort::NotStarted),
];

/// An attempt that committed these calls.
pub fn committed(calls: Items<(Call<u64>, Reply<u64>)>) -> Attempt<u64> {
    let receipt: Receipt<u64> = Record {
        number: 1,
        writes: true,
        calls,
    };
    Attempt::Committed(receipt)
}

/// Actions that ask for these items and make these changes, and what the second one answers.
pub fn actions(
    asks: Items<Ask>,
    changes: Items<Change>,
    changed: Items<ChangeReply>,
) -> ([Action; 2], ActionReply) {
    let actions = [Action::Reserve(7, 1, asks), Action::Update(changes)];
    (actions, ActionReply::Updated(changed))
}

/// A customer, the entry of one, and how many keys stripes have.
pub fn held(
    bookings: Items<Booking>,
    waits: Items<Wait>,
    shared: SharedCustomer,
    counts: Items<u64>,
) -> (Customer, Entry, TouchedKey<u64>) {
    let customer = Customer { bookings, waits };
    (
        customer,
        Entry::Customer(shared),
        TouchedKey::Counts(counts),
    )
}

pub fn bases(map: MapBase<u64>, bag: BagBase, pq: PqBase, queue: QueueBase) -> [Base<u64>; 4] {
    [
        Base::Map(map),
        Base::Bag(bag),
        Base::Pq(pq),
        Base::Queue(queue),
    ]
}

/// The fields of what transactions and calls leave.
pub fn fields(
    record: &WordRecord,
    ended: &Ended<u64>,
    trace: &Trace<u64>,
    touch: &Touch<u64>,
    queue: &Queue,
) {
    let WordRecord {
        actor: _,
        number: _,
        writes: _,
        calls: _,
    } = record;
    let Ended {
        actor: _,
        rv: _,
        calls: _,
        cause: _,
    } = ended;
    let Trace {
        records: _,
        aborted: _,
        state: _,
        half: _,
    } = trace;
    let Touch {
        editions: _,
        held: _,
    } = touch;
    let Queue {
        head: _,
        tickets: _,
    } = queue;
}

/// The fields of what sessions leave.
pub fn session_fields(
    trace: &VacTrace,
    ordered: &Ordered,
    served: &Served,
    report: &Report<Entry>,
) {
    let VacTrace {
        done: _,
        aborted: _,
        tables: _,
        half: _,
    } = trace;
    let Ordered {
        receipts: _,
        state: _,
    } = ordered;
    let Served {
        report: _,
        tables: _,
        state: _,
    } = served;
    let Report {
        receipts: _,
        missed: _,
    } = report;
}
