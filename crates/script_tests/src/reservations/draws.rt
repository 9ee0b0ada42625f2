//! Sessions and tables that are drawn from a seed.
use super::prints::name_of;
use row_parts::{location, print_all};
use seq_model::Refusal;
use std::alloc::{AllocError, Global};
use std::fmt::Write;
use text_formats::{Options, generate, opening};
use vac_model::{Action, Change, Tables};

fn options_of(numbers: &[u64]) -> Result<Options, Refusal> {
    let [clients, queries, queried, relations, transactions, user] = numbers else {
        return Err(Refusal::NoSuch);
    };
    Ok(Options {
        clients: location(*clients)?,
        queries: location(*queries)?,
        percent_queried: location(*queried)?,
        relations: location(*relations)?,
        transactions: location(*transactions)?,
        percent_user: location(*user)?,
    })
}

/// The tables that are drawn from a seed.
pub fn opened_by_draws(alloc: Global, seed: u64, options: &[u64]) -> Result<Tables, Refusal> {
    let options = options_of(options)?;
    if !options.are_within() {
        return Err(Refusal::TooLong);
    }
    Ok(opening(alloc, seed, &options)?)
}

/// The sessions of a worker.
pub fn answer_drawn(text: &mut String, numbers: &[u64]) -> Result<(), Refusal> {
    let [seed, worker, options @ ..] = numbers else {
        return Err(Refusal::NoSuch);
    };
    let options = options_of(options)?;
    if !options.are_within() || *worker == 0 || *worker > u64::from(options.clients) {
        return Err(Refusal::TooLong);
    }
    let actions = generate(*text.allocator(), *seed, *worker, &options)?;
    for action in actions.as_slice() {
        text.push('\n')?;
        print_action(text, action)?;
    }
    Ok(())
}

fn print_action(text: &mut String, action: &Action) -> Result<(), AllocError> {
    match action {
        Action::Reserve(customer, units, asks) => {
            print_all(text, "reserve", &[*customer, *units])?;
            for ask in asks.as_slice() {
                let (kind, id) = (name_of(ask.kind), ask.id);
                write!(text, " {kind} {id}")?;
            }
            Ok(())
        }
        Action::Delete(customer) => print_all(text, "delete", &[*customer]),
        Action::Update(changes) => print_changes(text, changes.as_slice()),
        Action::QueryItem(_, id) => print_all(text, "item", &[*id]),
        Action::QueryBill(customer) => print_all(text, "bill", &[*customer]),
    }
}

fn print_changes(text: &mut String, changes: &[Change]) -> Result<(), AllocError> {
    let mut first = true;
    for change in changes {
        text.push_str(if first { "update " } else { " and " })?;
        first = false;
        let printed = match change {
            Change::Add(kind, id, units, price) => {
                let kind = name_of(*kind);
                write!(text, "add {kind} {id} {units} {price}")
            }
            Change::TakeCar(id, units) => print_all(text, "take car", &[*id, *units]),
            Change::TakeRoom(id, units) => print_all(text, "take room", &[*id, *units]),
            Change::DropFlight(id) => print_all(text, "drop", &[*id]),
        };
        printed?;
    }
    Ok(())
}
