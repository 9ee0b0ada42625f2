//! The lines of a session file.
ghost use Rattle.std.specs.Prelude.{◌≡◌, ◌<◌, ◌∷◌, [], ℕ, List, IfOk, IfSome, Some, MatchOption, codes};
ghost use Rattle.vac_model.specs.declared.action.Action.{Action};
ghost use Rattle.vac_model.specs.declared.action.Action.TheVariants.{Reserve};
ghost use Rattle.vac_model.specs.declared.action.Ask.{Ask};
ghost use Rattle.vac_model.specs.declared.action.Change.{Change};
ghost use Rattle.vac_model.specs.declared.item.Kind.{Kind};
ghost use Rattle.text_formats.specs.Tokens.{IsNumber, texts};
ghost use Rattle.text_formats.specs.declared.session_line.SessionLine.{SessionLine};
ghost use Rattle.text_formats.specs.SessionLines.{AreAsks, AreChanges, Begins, IsAction, IsChange, IsHave, IsLine, IsReserve, kind_token};

use crate::decimal::number;
use seq_model::{Items, Memory};
use std::alloc::Global;
use vac_model::{AMOUNT_LIMIT, Action, Ask, Change, Kind};

/// One line of a session file.
#[derive(Drop)]
pub enum SessionLine {
    /// An item that there is from the start, all its units free.
    Have {
        kind: Kind,
        id: u64,
        total: u64,
        price: u64,
    },
    /// What a session does.
    Does(Action),
}

/// The line that these tokens spell.
pub(crate) fn read_line(alloc: Global, tokens: &[&str]) -> Result<Option<SessionLine>, Memory>
    ensures found { IfOk result (λ read. IfSome read (IsLine (texts tokens.now))) }
    ensures only { IfOk result (λ read. (line : SessionLine) → IsLine (texts tokens.now) line → read ≡ Some line) }
{
    if let ["have", kind, id, total, price] = tokens {
        return Ok(read_have(kind, id, total, price));
    }
    let Some(action) = read_action(alloc, tokens)? else {
        return Ok(None);
    };
    if action.is_allowed() {
        return Ok(Some(SessionLine::Does(action)));
    }
    Ok(None)
}

fn read_have(kind: &str, id: &str, total: &str, price: &str) -> Option<SessionLine>
    ensures found { IfSome result (IsHave (codes "have" ∷ kind.now ∷ id.now ∷ total.now ∷ price.now ∷ [])) }
    ensures only { (line : SessionLine) → IsHave (codes "have" ∷ kind.now ∷ id.now ∷ total.now ∷ price.now ∷ []) line
        → result ≡ Some line }
{
    let kind = read_kind(kind)?;
    let id = number(id)?;
    let total = number(total)?;
    let price = number(price)?;
    if total == 0 || total > AMOUNT_LIMIT || price > AMOUNT_LIMIT {
        return None;
    }
    Some(SessionLine::Have {
        kind,
        id,
        total,
        price,
    })
}

fn read_action(alloc: Global, tokens: &[&str]) -> Result<Option<Action>, Memory>
    ensures found { IfOk result (λ read. IfSome read (IsAction (texts tokens.now))) }
    ensures only { IfOk result (λ read. (action : Action) → IsAction (texts tokens.now) action → read ≡ Some action) }
{
    match tokens {
        ["reserve", customer, rest @ ..] => read_reserve(alloc, customer, rest),
        ["delete", customer] => Ok(read_delete(customer)),
        ["update", changes @ ..] => read_update(alloc, changes),
        ["item", kind, id] => Ok(read_query_item(kind, id)),
        ["bill", customer] => Ok(read_query_bill(customer)),
        _ => Ok(None),
    }
}

fn read_delete(customer: &str) -> Option<Action>
    ensures found { IfSome result (IsAction (codes "delete" ∷ customer.now ∷ [])) }
    ensures only { (action : Action) → IsAction (codes "delete" ∷ customer.now ∷ []) action → result ≡ Some action }
{
    let customer = number(customer)?;
    Some(Action::Delete(customer))
}

fn read_query_item(kind: &str, id: &str) -> Option<Action>
    ensures found { IfSome result (IsAction (codes "item" ∷ kind.now ∷ id.now ∷ [])) }
    ensures only { (action : Action) → IsAction (codes "item" ∷ kind.now ∷ id.now ∷ []) action → result ≡ Some action }
{
    let kind = read_kind(kind)?;
    let id = number(id)?;
    Some(Action::QueryItem(kind, id))
}

fn read_query_bill(customer: &str) -> Option<Action>
    ensures found { IfSome result (IsAction (codes "bill" ∷ customer.now ∷ [])) }
    ensures only { (action : Action) → IsAction (codes "bill" ∷ customer.now ∷ []) action → result ≡ Some action }
{
    let customer = number(customer)?;
    Some(Action::QueryBill(customer))
}

fn read_reserve(alloc: Global, customer: &str, tokens: &[&str]) -> Result<Option<Action>, Memory>
    ensures found { IfOk result (λ read. IfSome read (IsAction (codes "reserve" ∷ customer.now ∷ texts tokens.now))) }
    ensures only { IfOk result (λ read. (action : Action) → IsAction (codes "reserve" ∷ customer.now ∷ texts tokens.now) action
        → read ≡ Some action) }
{
    let Some(customer) = number(customer) else {
        return Ok(None);
    };
    let Some((units, asks)) = read_units(tokens) else {
        return Ok(None);
    };
    let Some(asks) = read_asks(alloc, asks)? else {
        return Ok(None);
    };
    Ok(Some(Action::Reserve(customer, units, asks)))
}

// The units of a reservation, and its asks: where no units are written, the first token is a kind, and there is 1.
#[tactic(auto, using(crate::proofs::AskLemmas::no_units))]
fn read_units<'a, 'b>(tokens: &'a [&'b str]) -> Option<(u64, &'a [&'b str])>
    ensures found { IfSome result (λ r. (asks : List Ask) → AreAsks (texts r.1.now) asks → IsReserve (texts tokens.now) r.0 asks) }
    ensures only { (units : ℕ) (asks : List Ask) → IsReserve (texts tokens.now) units asks
        → MatchOption result ⊥ (λ r. (r.0 ≡ units) × AreAsks (texts r.1.now) asks) }
{
    match tokens {
        [] => Some((1, tokens)),
        [first, asks @ ..] => match read_kind(first) {
            Some(_kind) => Some((1, tokens)),
            None => Some((number(first)?, asks)),
        },
    }
}

fn read_asks(alloc: Global, tokens: &[&str]) -> Result<Option<Items<Ask>>, Memory>
    ensures found { IfOk result (λ read. IfSome read (AreAsks (texts tokens.now))) }
    ensures only { IfOk result (λ read. (asks : List Ask) → AreAsks (texts tokens.now) asks → read ≡ Some asks) }
{
    let mut asks = Items::new(alloc);
    let mut rest = tokens;
    while let [kind, id, behind @ ..] = rest {
        let Some(ask) = read_ask(kind, id) else {
            return Ok(None);
        };
        asks.push(ask)?;
        rest = behind;
    }
    if rest.is_empty() {
        return Ok(Some(asks));
    }
    Ok(None)
}

fn read_ask(kind: &str, id: &str) -> Option<Ask>
    ensures found { IfSome result (λ ask. (kind.now ≡ kind_token ask.kind) × IsNumber id.now ask.id) }
    ensures only { (ask : Ask) → kind.now ≡ kind_token ask.kind → IsNumber id.now ask.id → result ≡ Some ask }
{
    let kind = read_kind(kind)?;
    let id = number(id)?;
    Some(Ask { kind, id })
}

fn read_update(alloc: Global, tokens: &[&str]) -> Result<Option<Action>, Memory>
    ensures found { IfOk result (λ read. IfSome read (IsAction (codes "update" ∷ texts tokens.now))) }
    ensures only { IfOk result (λ read. (action : Action) → IsAction (codes "update" ∷ texts tokens.now) action → read ≡ Some action) }
{
    let Some(changes) = read_changes(alloc, tokens)? else {
        return Ok(None);
    };
    Ok(Some(Action::Update(changes)))
}

fn read_changes(alloc: Global, tokens: &[&str]) -> Result<Option<Items<Change>>, Memory>
    ensures found { IfOk result (λ read. IfSome read (AreChanges (texts tokens.now))) }
    ensures only { IfOk result (λ read. (changes : List Change) → AreChanges (texts tokens.now) changes → read ≡ Some changes) }
{
    let Some((first, mut rest)) = read_change(tokens) else {
        return Ok(None);
    };
    let mut changes = Items::new(alloc);
    changes.push(first)?;
    while let ["and", more @ ..] = rest {
        let Some((change, behind)) = read_change(more) else {
            return Ok(None);
        };
        changes.push(change)?;
        rest = behind;
    }
    if rest.is_empty() {
        return Ok(Some(changes));
    }
    Ok(None)
}

// The change that these tokens begin with, and what stands after it.
#[tactic(auto, using(crate::proofs::ChangeLemmas::add_only, crate::proofs::ChangeLemmas::take_only, crate::proofs::ChangeLemmas::drop_only))]
fn read_change<'a, 'b>(tokens: &'a [&'b str]) -> Option<(Change, &'a [&'b str])>
    ensures found { IfSome result (λ r. Begins (texts tokens.now) r.0 (texts r.1.now)) }
    ensures only { (change : Change) (behind : List (List ℕ)) → Begins (texts tokens.now) change behind
        → MatchOption result ⊥ (λ r. (r.0 ≡ change) × (texts r.1.now ≡ behind)) }
{
    match tokens {
        ["add", kind, id, units, price, behind @ ..] => {
            let change = read_add(kind, id, units, price)?;
            Some((change, behind))
        }
        ["take", kind, id, units, behind @ ..] => {
            let change = read_take(kind, id, units)?;
            Some((change, behind))
        }
        ["drop", id, behind @ ..] => {
            let change = read_drop(id)?;
            Some((change, behind))
        }
        _ => None,
    }
}

fn read_add(kind: &str, id: &str, units: &str, price: &str) -> Option<Change>
    ensures found { IfSome result (IsChange (codes "add" ∷ kind.now ∷ id.now ∷ units.now ∷ price.now ∷ [])) }
    ensures only { (change : Change) → IsChange (codes "add" ∷ kind.now ∷ id.now ∷ units.now ∷ price.now ∷ []) change
        → result ≡ Some change }
{
    let kind = read_kind(kind)?;
    let id = number(id)?;
    let units = number(units)?;
    let price = number(price)?;
    Some(Change::Add(kind, id, units, price))
}

fn read_take(kind: &str, id: &str, units: &str) -> Option<Change>
    ensures found { IfSome result (IsChange (codes "take" ∷ kind.now ∷ id.now ∷ units.now ∷ [])) }
    ensures only { (change : Change) → IsChange (codes "take" ∷ kind.now ∷ id.now ∷ units.now ∷ []) change
        → result ≡ Some change }
{
    let id = number(id)?;
    let units = number(units)?;
    match kind {
        "car" => Some(Change::TakeCar(id, units)),
        "room" => Some(Change::TakeRoom(id, units)),
        _ => None,
    }
}

fn read_drop(id: &str) -> Option<Change>
    ensures found { IfSome result (IsChange (codes "drop" ∷ id.now ∷ [])) }
    ensures only { (change : Change) → IsChange (codes "drop" ∷ id.now ∷ []) change → result ≡ Some change }
{
    let id = number(id)?;
    Some(Change::DropFlight(id))
}

fn read_kind(token: &str) -> Option<Kind>
    ensures found { IfSome result (λ kind. token.now ≡ kind_token kind) }
    ensures only { (kind : Kind) → token.now ≡ kind_token kind → result ≡ Some kind }
{
    match token {
        "car" => Some(Kind::Car),
        "flight" => Some(Kind::Flight),
        "room" => Some(Kind::Room),
        _ => None,
    }
}
