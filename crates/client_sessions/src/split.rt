//! Customers whose earlier bookings stand in a list that copies share.
ghost use Rattle.std.specs.Prelude.{◌≡◌, ◌+◌, ◌++◌, ◌∷◌, ◌<◌, ◌≤◌, ◌↔◌, [], IsTrue, IfNone, IfOk, IfSome, OnOk, drop, get_or};
ghost use Rattle.std.specs.Prelude.{length, nat_le, true};
ghost use Rattle.std.specs.List.{list_all, list_any};
ghost use Rattle.std.specs.Arc.{arc_value};
ghost use Rattle.vac_model.specs.Actions as actions;
ghost use Rattle.vac_model.specs.Holdings.{newcomer, same_kind};
ghost use Rattle.vac_model.specs.declared.item.Booking.{Booking as ABooking};
ghost use Rattle.vac_model.specs.declared.item.Customer.{Customer as ACustomer};
ghost use Rattle.client_sessions.specs.Within.{is_booking_within, is_customer_within};

use seq_model::{Items, Memory, Value};
use std::alloc::Global;
use std::marker::Model;
use std::sync::Arc;
use vac_model::{
    AMOUNT_LIMIT, Booking, Customer, Kind, PLACE_LIMIT, Wait, are_same, are_units, awaits, bill,
    has_kind, holds, waits_without,
};

/// With so many bookings of its own a customer's next copy has them among those that are shared.
const LATER: usize = 16;

fn is_booking_within(booking: &Booking) -> bool
    ensures { result ≡ is_booking_within booking.now }
{
    are_units(booking.units) && booking.price <= AMOUNT_LIMIT
}

fn are_bookings_within(bookings: &[Booking]) -> bool
    ensures { result ≡ list_all is_booking_within bookings.now }
{
    for booking in bookings {
        if !is_booking_within(booking) {
            return false;
        }
    }
    true
}

/// A list with room for further bookings, so that these don't move it.
fn joined(
    alloc: Global,
    first: &[Booking],
    then: &[Booking],
    more: usize,
) -> Result<Items<Booking>, Memory>
    ensures { IfOk result (λ all. all ≡ first.now ++ then.now) }
{
    let count = first.len().saturating_add(then.len());
    let mut all = Vec::with_capacity(alloc, count.saturating_add(more))?;
    all.extend_from_slice(first)?;
    all.extend_from_slice(then)?;
    Ok(Items::from_vec(all))
}

/// Bookings that are changed no more. Whether all are within their limits was looked at once.
#[derive(Drop)]
struct Earlier {
    bookings: Items<Booking>,
    are_within: bool,
}

impl Model for Earlier {
    ghost use Rattle.std.specs.Prelude.{◌≡◌, List};
    ghost use Rattle.std.specs.List.{list_all};
    ghost use Rattle.vac_model.specs.declared.item.Booking.{Booking as ABooking};
    ghost use Rattle.client_sessions.specs.Within.{is_booking_within};

    ghost Value = { List ABooking };

    ghost view = { λ earlier. earlier.bookings };

    ghost invariant = { λ earlier. earlier.are_within ≡ list_all is_booking_within earlier.bookings };
}

impl Earlier {
    fn new(bookings: Items<Booking>) -> Earlier
        ensures { result ≡ bookings }
    {
        let are_within = are_bookings_within(bookings.as_slice());
        Earlier {
            bookings,
            are_within,
        }
    }

    fn as_slice(&self) -> &[Booking]
        ensures { result.now ≡ self.now }
    {
        self.bookings.as_slice()
    }

    fn are_within(&self) -> bool
        ensures { result ≡ list_all is_booking_within self.now }
    {
        self.are_within
    }
}

/// A customer whose bookings are those of a list that its copies share, and after them some of its own. So who books once more copies few
/// bookings, however many there are.
#[derive(Drop)]
pub struct SplitCustomer {
    earlier: Arc<Earlier>,
    later: Items<Booking>,
    waits: Items<Wait>,
}

impl Model for SplitCustomer {
    ghost use Rattle.std.specs.Prelude.{◌++◌};
    ghost use Rattle.std.specs.Arc.{arc_value};
    ghost use Rattle.vac_model.specs.declared.item.Customer.{Customer as ACustomer};

    ghost Value = { ACustomer };

    ghost view = { λ who. record { bookings = arc_value who.earlier ++ who.later; waits = who.waits } };
}

impl SplitCustomer {
    /// One who has nothing yet, with room for so many bookings.
    pub(crate) fn new(alloc: Global, room: usize) -> Result<SplitCustomer, Memory>
        ensures { IfOk result (λ who. who ≡ newcomer) }
    {
        let later = Vec::with_capacity(alloc, room)?;
        let earlier = Arc::new(alloc, Earlier::new(Items::new(alloc)))?;
        Ok(SplitCustomer {
            earlier,
            later: Items::from_vec(later),
            waits: Items::new(alloc),
        })
    }

    /// The same customer, all of whose bookings are shared from now on.
    pub fn of(alloc: Global, customer: Customer) -> Result<SplitCustomer, Memory>
        ensures { IfOk result (λ who. who ≡ customer) }
    {
        let Customer { bookings, waits } = customer;
        let earlier = Arc::new(alloc, Earlier::new(bookings))?;
        Ok(SplitCustomer {
            earlier,
            later: Items::new(alloc),
            waits,
        })
    }

    /// The same customer, with all bookings in one list.
    pub fn whole(&self, alloc: Global) -> Result<Customer, Memory>
        ensures { IfOk result (λ whole. whole ≡ self.now) }
    {
        let (earlier, later) = self.bookings();
        Ok(Customer {
            bookings: joined(alloc, earlier, later, 0)?,
            waits: self.waits.try_copy()?,
        })
    }

    /// A copy to be changed, with room for so many further bookings.
    pub(crate) fn to_change(&self, alloc: Global, more: usize) -> Result<SplitCustomer, Memory>
        ensures { IfOk result (λ copy. copy ≡ self.now) }
    {
        let waits = self.waits.try_copy()?;
        if self.later.len() < LATER {
            return Ok(SplitCustomer {
                earlier: Arc::try_clone(&self.earlier)?,
                later: joined(alloc, self.later.as_slice(), &[], more)?,
                waits,
            });
        }
        let all = joined(alloc, self.earlier.as_slice(), self.later.as_slice(), 0)?;
        Ok(SplitCustomer {
            earlier: Arc::new(alloc, Earlier::new(all))?,
            later: Items::from_vec(Vec::with_capacity(alloc, more)?),
            waits,
        })
    }

    /// The bookings: those that are shared, and after them the others.
    pub fn bookings(&self) -> (&[Booking], &[Booking])
        ensures { result.0.now ++ result.1.now ≡ self.now.bookings }
    {
        (self.earlier.as_slice(), self.later.as_slice())
    }

    /// The same, from the one with this number on.
    pub(crate) fn bookings_from(&self, from: usize) -> (&[Booking], &[Booking])
        ensures { result.0.now ++ result.1.now ≡ drop from self.now.bookings }
    {
        let (earlier, later) = self.bookings();
        let passed = from.min(earlier.len());
        let (_, first) = earlier.split_at(passed);
        let (_, then) = later.split_at((from - passed).min(later.len()));
        (first, then)
    }

    /// The booking with this number.
    pub(crate) fn booking(&self, i: usize) -> Option<Booking>
        ensures none { IfNone result (length self.now.bookings ≤ i) }
        ensures few { IfSome result (λ booking. i < length self.now.bookings) }
        ensures booking { IfSome result (λ booking. (d : ABooking) → get_or self.now.bookings i d ≡ booking) }
    {
        let (earlier, later) = self.bookings();
        if i < earlier.len() {
            return Some(earlier[i]);
        }
        let behind = i - earlier.len();
        if behind < later.len() {
            Some(later[behind])
        } else {
            None
        }
    }

    pub fn waits(&self) -> &[Wait]
        ensures { result.now ≡ self.now.waits }
    {
        self.waits.as_slice()
    }

    /// Whether the customer holds or awaits the item.
    pub fn has(&self, kind: Kind, id: u64) -> bool
        ensures { result ≡ actions.has self.now kind id }
    {
        let (earlier, later) = self.bookings();
        holds(earlier, kind, id) || holds(later, kind, id) || awaits(self.waits(), kind, id)
    }

    /// Whether as many bookings and waits are still to be had.
    pub(crate) fn has_places(&self, count: u64) -> bool
        ensures { result ≡ nat_le (actions.places self.now + count) PLACE_LIMIT }
    {
        let earlier = self.earlier.as_slice().len() as u64;
        let later = self.later.len() as u64;
        let waits = self.waits.len() as u64;
        count <= PLACE_LIMIT
            && earlier <= PLACE_LIMIT - count
            && later <= PLACE_LIMIT - count - earlier
            && waits <= PLACE_LIMIT - count - earlier - later
    }

    /// Whether a session continues with it.
    pub(crate) fn is_within(&self) -> bool
        ensures { result ≡ is_customer_within self.now }
    {
        self.has_places(0)
            && self.earlier.are_within()
            && are_bookings_within(self.later.as_slice())
    }

    /// Whether there is a booking of this kind.
    pub(crate) fn has_kind(&self, kind: Kind) -> bool
        ensures { result ≡ list_any (λ booking. same_kind booking.kind kind) self.now.bookings }
    {
        let (earlier, later) = self.bookings();
        has_kind(earlier, kind) || has_kind(later, kind)
    }

    /// What the bookings cost.
    pub(crate) fn bill(&self) -> u64
        requires { is_customer_within self.now ≡ true }
        ensures { result ≡ actions.bill self.now.bookings }
    {
        let (earlier, later) = self.bookings();
        bill(earlier) + bill(later)
    }

    pub(crate) fn book(&mut self, booking: Booking) -> Result<(), Memory>
        ensures { OnOk result (self.new ≡ record self.old { bookings = self.old.bookings ++ booking ∷ [] }) }
    {
        self.later.push(booking)
    }

    pub(crate) fn wait(&mut self, wait: Wait) -> Result<(), Memory>
        ensures { OnOk result (self.new ≡ record self.old { waits = self.old.waits ++ wait ∷ [] }) }
    {
        self.waits.push(wait)
    }

    /// The wait that a ticket stands for ends.
    pub(crate) fn end_wait(&mut self, alloc: Global, ticket: u64) -> Result<(), Memory>
        ensures { OnOk result (self.new ≡ actions.without_wait ticket self.old) }
    {
        self.waits = waits_without(alloc, self.waits.as_slice(), ticket)?;
        Ok(())
    }
}

/// Whether a list is two lists, one after the other.
fn is_joined(all: &[Booking], first: &[Booking], then: &[Booking]) -> bool
    ensures { IsTrue result ↔ (all.now ≡ first.now ++ then.now) }
{
    if all.len() < first.len() {
        return false;
    }
    let (begins, ends) = all.split_at(first.len());
    are_same(begins, first) && are_same(ends, then)
}

/// Whether two lists that stand one after the other are two others that do.
fn are_joined_same(
    first: &[Booking],
    then: &[Booking],
    other_first: &[Booking],
    other_then: &[Booking],
) -> bool
    requires { length first.now ≤ length other_first.now }
    ensures { IsTrue result ↔ (first.now ++ then.now ≡ other_first.now ++ other_then.now) }
{
    let (begins, ends) = other_first.split_at(first.len());
    are_same(first, begins) && is_joined(then, ends, other_then)
}

impl SplitCustomer {
    /// Whether both have the same bookings and waits.
    pub(crate) fn is_same(&self, other: &SplitCustomer) -> bool
        ensures { IsTrue result ↔ (self.now ≡ other.now) }
    {
        are_same(self.waits(), other.waits()) && self.has_same_bookings(other)
    }

    fn has_same_bookings(&self, other: &SplitCustomer) -> bool
        ensures { IsTrue result ↔ (self.now.bookings ≡ other.now.bookings) }
    {
        let (first, then) = self.bookings();
        let (other_first, other_then) = other.bookings();
        if first.len() <= other_first.len() {
            are_joined_same(first, then, other_first, other_then)
        } else {
            are_joined_same(other_first, other_then, first, then)
        }
    }
}
