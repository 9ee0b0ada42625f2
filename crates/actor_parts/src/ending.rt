//! The end of a transaction that is aborted and holds no gate.
ghost use Rattle.std.specs.Prelude.{◌≡◌};
ghost use Rattle.tx_machine.specs.Requests.{ask, AskCancel, AskAbort, AskRelease};
ghost use Rattle.step_core.specs.Shown.{actor_of};
ghost use Rattle.step_core.specs.Sound.{Keeps};
ghost use Rattle.actor_parts.specs.Shows.{cancelled};

use step_core::{Actor, Place, WordRequest};

/// The locks are to be given back, where this may be asked.
pub fn cancel_locks(words: &mut Actor, locations: usize)
    ensures actor { actor_of words.new ≡ ask (actor_of words.old) (actor_of words.old).place AskCancel }
    ensures keeps { Keeps words.old words.new }
{
    if words.refusal(locations, WordRequest::Cancel).is_none() {
        words.place = Place::Undo;
    }
}

/// The transaction is to end, where this may be asked.
pub fn abort(words: &mut Actor, locations: usize)
    ensures actor { actor_of words.new ≡ ask (actor_of words.old) (actor_of words.old).place AskAbort }
    ensures keeps { Keeps words.old words.new }
{
    if words.refusal(locations, WordRequest::Abort).is_none() {
        match words.place {
            Place::Begin => words.place = Place::Idle,
            _ => words.place = Place::Leave,
        }
    }
}

/// The word actor gives its locks back, where there are some, or leaves.
pub fn cancel(words: &mut Actor, locations: usize)
    ensures actor { actor_of words.new ≡ cancelled (actor_of words.old) }
    ensures keeps { Keeps words.old words.new }
{
    cancel_locks(words, locations);
    abort(words, locations);
}

/// The locks are to be given back with the number of the commit, where this may be asked.
pub fn release(words: &mut Actor, locations: usize)
    ensures actor { actor_of words.new ≡ ask (actor_of words.old) (actor_of words.old).place AskRelease }
    ensures keeps { Keeps words.old words.new }
{
    if words.refusal(locations, WordRequest::Release).is_none() {
        words.place = Place::Release;
    }
}
