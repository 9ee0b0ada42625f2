//! A bank: four tellers transfer money, each in a thread of its own, while a reader beside them sums all accounts.
#![tactic(auto)]

use std::alloc::Global;
use std::thread::Threads;
use wolimevar::{
    Body, Client, Counts, Entries, Layout, Map, Memory, PriorityQueue, Queue, QueueItems, Refusal,
    Scope, Session, Text, Transaction, Value,
};

#[derive(Drop)]
struct Account {
    owner: Text,
    balance: u64,
}

impl Value for Account {
    fn try_copy(&self) -> Result<Account, Memory> {
        let (owner, balance) = (self.owner.try_copy()?, self.balance);
        Ok(Account { owner, balance })
    }

    fn same(&self, other: &Account) -> bool {
        self.owner.same(&other.owner) && self.balance == other.balance
    }
}

/// The accounts by number, the amounts transferred, and the accounts that were low.
#[derive(Clone, Copy)]
struct Bank {
    accounts: Map<Account>,
    audit: Queue,
    alerts: PriorityQueue,
}

#[derive(Drop)]
enum Declined {
    Absent,
    NoMoney,
    Refused(Refusal),
}

impl From<Refusal> for Declined {
    fn from(refusal: Refusal) -> Declined {
        Declined::Refused(refusal)
    }
}

#[derive(Drop)]
struct Transfer {
    bank: Bank,
    from: u64,
    to: u64,
    amount: u64,
}

impl Body<Account> for Transfer {
    type Out = ();

    type Error = Declined;

    fn run<S: Scope<Account>>(&self, tx: &mut Transaction<'_, Account, S>) -> Result<(), Declined> {
        let (bank, from, to) = (self.bank, self.from, self.to);
        let Account { owner, balance } = bank.accounts.get(tx, from)?.ok_or(Declined::Absent)?;
        let balance = balance.checked_sub(self.amount).ok_or(Declined::NoMoney)?;
        if balance < 60 {
            bank.alerts.insert(tx, from)?.map_err(Refusal::from)?; // refused where it is full
        }
        bank.accounts.put(tx, from, Account { owner, balance })?;
        let Account { owner, balance } = bank.accounts.get(tx, to)?.ok_or(Declined::Absent)?;
        let balance = balance.saturating_add(self.amount);
        bank.accounts.put(tx, to, Account { owner, balance })?;
        Ok(bank.audit.enqueue(tx, self.amount)?.map_err(Refusal::from)?)
    }
}

impl Body<Account> for Bank {
    type Out = u64; // the sum of all accounts

    type Error = Refusal;

    fn run<S: Scope<Account>>(&self, tx: &mut Transaction<'_, Account, S>) -> Result<u64, Refusal> {
        let mut total = 0u64;
        for i in 0..6u64 {
            total = total.saturating_add(self.accounts.get(tx, i)?.map_or(0, |one| one.balance));
        }
        Ok(total)
    }
}

#[derive(Clone, Copy)]
enum Desk {
    Teller(Bank),
    Reader(Bank),
}

impl Session<Account> for Desk {
    type Out = u64; // how many transfers were made, or how many sums were right

    fn serve<S: Scope<Account>>(self, client: &mut Client<'_, Account, S>) -> u64 {
        let mut done = 0u64;
        match self {
            Desk::Teller(bank) => for i in 0..24u64 {
                let transfer = Transfer {
                    bank,
                    from: i % 3,
                    to: i % 4 + 3, // account 6 isn't there
                    amount: i % 5,
                };
                let made = client.atomically(u64::MAX, &transfer).is_ok();
                done = done.saturating_add(u64::from(made));
            },
            Desk::Reader(bank) => for _ in 0..50u64 {
                let right = matches!(client.look(u64::MAX, &bank), Ok((600, _)));
                done = done.saturating_add(u64::from(right));
            },
        }
        done
    }
}

/// What the desks did, how many transfers were made, and the first account that was low.
fn serve<R: Threads + Sync>(rt: &R, alloc: Global) -> Result<(Vec<u64>, usize, u64), Refusal> {
    let mut accounts = Entries::new(alloc);
    for number in 0..6u64 {
        let (owner, balance) = (Text::from(format!(in alloc; "owner {number}")?), 100);
        accounts.insert(number, Account { owner, balance })?;
    }
    let mut layout = Layout::new(alloc);
    let bank = Bank {
        accounts: layout.map_over(4, 4, accounts)?, // over four gates: tellers seldom meet at one
        audit: layout.queue(1, QueueItems::new(alloc))?,
        alerts: layout.priority_queue(1, Counts::new(alloc))?,
    };
    let mut store = layout.open()?;
    let (teller, reader) = (Desk::Teller(bank), Desk::Reader(bank));
    let done = store.run(rt, vec![in alloc; teller, teller, teller, teller, reader]?)?;
    let contents = store.close()?;
    let made = contents.queue(bank.audit).map_or(0, |items| items.len());
    let alerts = contents.priority_queue(bank.alerts);
    let low = alerts.and_then(|alerts| alerts.least()).unwrap_or(6);
    Ok((done, made, low))
}

fn main(rt: HostRuntime) -> std::io::Result<()> {
    match serve(&rt, rt.alloc()) {
        Ok((done, made, low)) => println!(rt; "{done:?}, {made} transfers, {low} is low"),
        Err(refusal) => println!(rt; "{refusal}"),
    }
}
