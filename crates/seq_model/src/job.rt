//! What runs as one transaction.
ghost use Rattle.std.specs.Prelude.{IfOk};
ghost use Rattle.seq_model.specs.Places.{IsPlaceIn};

use crate::call::{Call, Reply};
use crate::place::JobPlace;
use crate::refusal::Memory;

/// What a job asks next.
#[derive(Drop)]
pub enum Ask<V> {
    /// The next call.
    Call(Call<V>),
    /// All calls are made: the transaction is to commit.
    Done,
    /// The transaction is to end without a commit.
    GiveUp,
}

/// What runs as one transaction. For a proof of its receipts a job states what it asks (`asks`): their contracts say as much as that
/// relation does. Left out, it says nothing.
///
/// `ask` is all that a job has to have. A job of many calls, whose `ask` looks at each reply so far, may have `ask_on` besides: it notes in
/// its place how many replies it has looked at, and what of them it needs again, and so is asked in the same time at each call. For its
/// proof it says what the marks mean (`stands`): after just these replies they may be these.
pub trait Job<V> {
    ghost use Rattle.std.specs.Prelude.{List, ⊤};
    ghost use Rattle.seq_model.specs.declared.call.Reply.{Reply as AReply};
    ghost use Rattle.seq_model.specs.declared.job.Ask.{Ask as AnAsk};
    ghost use Rattle.seq_model.specs.declared.place.JobPlace.{JobPlace as AJobPlace};

    ghost asks: { Self → List (AReply V) → AnAsk V → Type 0 } = { λ _ _ _. ⊤ };

    ghost stands: { Self → List (AReply V) → AJobPlace → Type 0 } = { λ _ _ _. ⊤ };

    /// What the job asks after these replies, one for each call that it asked before. It depends on them alone.
    fn ask(&self, replies: &[Reply<V>]) -> Result<Ask<V>, Memory>
        ensures { IfOk result (λ ask. asks self.now replies.now ask) };

    /// The same, by what the job noted when it was asked before. The place is new before the first call of a transaction, and afterwards as
    /// the job left it; the replies are those that it noted something of, and further ones. By default nothing is noted.
    fn ask_on(&self, replies: &[Reply<V>], place: &mut JobPlace) -> Result<Ask<V>, Memory>
        requires place { IsPlaceIn (λ told noted. stands self.now told noted) replies.now place.old }
        ensures ask { IfOk result (λ ask. asks self.now replies.now ask) }
        ensures place { IsPlaceIn (λ told noted. stands self.now told noted) replies.now place.new }
    {
        self.ask(replies)
    }
}
