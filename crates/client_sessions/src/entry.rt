//! What the maps hold.

use crate::shared::SharedCustomer;
use seq_model::{Memory, Value};
use vac_model::{Item, Ticket};

/// An entry of one of the maps.
#[derive(Drop)]
pub enum Entry {
    Item(Item),
    Customer(SharedCustomer),
    Ticket(Ticket),
}

impl Value for Entry {
    fn try_copy(&self) -> Result<Entry, Memory> {
        Ok(match self {
            Entry::Item(item) => Entry::Item(*item),
            Entry::Customer(customer) => Entry::Customer(customer.try_copy()?),
            Entry::Ticket(ticket) => Entry::Ticket(*ticket),
        })
    }

    fn same(&self, other: &Entry) -> bool {
        match (self, other) {
            (Entry::Item(mine), Entry::Item(theirs)) => *mine == *theirs,
            (Entry::Customer(mine), Entry::Customer(theirs)) => mine.same(theirs),
            (Entry::Ticket(mine), Entry::Ticket(theirs)) => *mine == *theirs,
            _ => false,
        }
    }
}
