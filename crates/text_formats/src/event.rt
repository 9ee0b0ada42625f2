//! The events of a script.
ghost use Rattle.std.specs.Prelude.{◌≡◌, ℕ, IfSome, Some, map, codes, ◌∷◌, []};
ghost use Rattle.text_formats.specs.declared.script.EventLine.{EventLine};
ghost use Rattle.text_formats.specs.Events.{IsActor, IsAlternation, IsEvent, IsEventOf};

use crate::decimal::number;
use crate::request::read_request;
use crate::script::{EventLine, STEP_LIMIT};
use seq_model::ACTOR_LIMIT;

/// The event that these tokens spell.
#[tactic(auto, using(crate::proofs::EventLemmas::actor_event))]
pub fn read_event(tokens: &[&str]) -> Option<EventLine>
    ensures found { IfSome result (IsEvent (map (λ token. token.now) tokens.now)) }
    ensures only { (line : EventLine) → IsEvent (map (λ token. token.now) tokens.now) line → result ≡ Some line }
{
    match tokens {
        ["alt", first, second] => read_alternation(first, second),
        [actor, event @ ..] => read_event_of(read_actor(actor)?, event),
        [] => None,
    }
}

fn read_alternation(first: &str, second: &str) -> Option<EventLine>
    ensures found { IfSome result (IsAlternation (codes "alt" ∷ first.now ∷ second.now ∷ [])) }
    ensures only { (line : EventLine) → IsAlternation (codes "alt" ∷ first.now ∷ second.now ∷ []) line → result ≡ Some line }
{
    let first = read_actor(first)?;
    let second = read_actor(second)?;
    if first == second {
        return None;
    }
    Some(EventLine::Alternate(first, second))
}

fn read_event_of(actor: u32, tokens: &[&str]) -> Option<EventLine>
    ensures found { IfSome result (IsEventOf actor (map (λ token. token.now) tokens.now)) }
    ensures only { (line : EventLine) → IsEventOf actor (map (λ token. token.now) tokens.now) line → result ≡ Some line }
{
    match tokens {
        ["do", request @ ..] => Some(EventLine::Do(actor, read_request(request)?)),
        ["step"] => Some(EventLine::Steps(actor, 1)),
        ["step", count] => {
            let count = number(count)?;
            if count == 0 || count > STEP_LIMIT {
                return None;
            }
            Some(EventLine::Steps(actor, count))
        }
        ["go"] => Some(EventLine::Steps(actor, STEP_LIMIT)),
        ["starve"] => Some(EventLine::Starve(actor)),
        request => Some(EventLine::Ask(actor, read_request(request)?)),
    }
}

fn read_actor(token: &str) -> Option<u32>
    ensures found { IfSome result (IsActor token.now) }
    ensures only { (actor : ℕ) → IsActor token.now actor → result ≡ Some actor }
{
    let actor = u32::try_from(number(token)?).ok()?;
    if actor == 0 || actor > ACTOR_LIMIT {
        return None;
    }
    Some(actor)
}
