//! What a step of the words answered, in one enum.
ghost use Rattle.std.specs.Prelude.{◌≡◌};
ghost use Rattle.actor_parts.specs.Dispatch.{answer_told, notice_told, refusal_told, shown_notice};

use step_core::{WordAnswer, WordRefusal};

/// What a step of the words answered.
#[derive(Clone, Copy)]
pub enum WordNotice {
    Quiet,
    /// There was no step to take.
    NoTransaction,
    Begun(u64),
    Number(u64),
    Locked(u64),
    Written,
    Stored,
    Released,
    Cancelled,
    Closed,
    Moved(u32, u64),
    Busy(u32, u64),
    Invalid(u32, u64),
    Exhausted(u64),
}

fn of_answer(answer: WordAnswer) -> WordNotice
    ensures { shown_notice result ≡ answer_told answer }
{
    match answer {
        WordAnswer::Begun(rv) => WordNotice::Begun(rv),
        WordAnswer::Number(value) => WordNotice::Number(value),
        WordAnswer::Done => WordNotice::Written,
        WordAnswer::Locked(number) => WordNotice::Locked(number),
        WordAnswer::Stored => WordNotice::Stored,
        WordAnswer::Released => WordNotice::Released,
        WordAnswer::Cancelled => WordNotice::Cancelled,
        WordAnswer::Ended => WordNotice::Closed,
    }
}

fn of_refusal(refusal: WordRefusal) -> WordNotice
    ensures { shown_notice result ≡ refusal_told refusal }
{
    match refusal {
        WordRefusal::Moved { location, word } => WordNotice::Moved(location, word),
        WordRefusal::Busy { location, word } => WordNotice::Busy(location, word),
        WordRefusal::Invalid { location, word } => WordNotice::Invalid(location, word),
        WordRefusal::Exhausted { clock } => WordNotice::Exhausted(clock),
        WordRefusal::NoSuch => WordNotice::NoTransaction,
        WordRefusal::TooLong => WordNotice::NoTransaction,
        WordRefusal::NotIdle => WordNotice::NoTransaction,
        WordRefusal::NoTransaction => WordNotice::NoTransaction,
        WordRefusal::Memory => WordNotice::NoTransaction,
    }
}

/// What was answered. The refusals that no step has count as no step.
pub fn of_told(told: Result<Option<WordAnswer>, WordRefusal>) -> WordNotice
    ensures { shown_notice result ≡ notice_told told }
{
    match told {
        Ok(None) => WordNotice::Quiet,
        Ok(Some(answer)) => of_answer(answer),
        Err(refusal) => of_refusal(refusal),
    }
}
