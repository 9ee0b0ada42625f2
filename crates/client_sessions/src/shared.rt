//! Customers that maps, calls and replies share.
ghost use Rattle.std.specs.Prelude.{◌≡◌, IfOk};
ghost use Rattle.std.specs.Arc.{arc_value};
ghost use Rattle.vac_model.specs.declared.item.Customer.{Customer as ACustomer};
ghost use Rattle.client_sessions.specs.Within.{is_customer_within};

use crate::split::SplitCustomer;
use seq_model::{Memory, Value};
use std::alloc::Global;
use std::marker::Model;
use std::sync::Arc;

/// A customer that is changed no more. A copy is one owner more of the same list of bookings, and takes no memory.
#[derive(Drop)]
pub struct SharedCustomer {
    customer: Arc<SplitCustomer>,
    is_within: bool,
}

impl Model for SharedCustomer {
    ghost Value = { ACustomer };

    ghost view = { λ shared. arc_value shared.customer };

    ghost invariant = { λ shared. shared.is_within ≡ is_customer_within (arc_value shared.customer) };
}

impl SharedCustomer {
    pub fn new(alloc: Global, customer: SplitCustomer) -> Result<SharedCustomer, Memory>
        ensures { IfOk result (λ shared. shared ≡ customer) }
    {
        let is_within = customer.is_within();
        let customer = Arc::new(alloc, customer)?;
        Ok(SharedCustomer {
            customer,
            is_within,
        })
    }

    pub fn get(&self) -> &SplitCustomer
        ensures { result.now ≡ self.now }
    {
        &self.customer
    }

    /// Whether a session continues with it. It was looked at once, as it was made.
    pub fn is_within(&self) -> bool
        ensures { result ≡ is_customer_within self.now }
    {
        self.is_within
    }
}

impl Value for SharedCustomer {
    fn try_copy(&self) -> Result<SharedCustomer, Memory> {
        let customer = Arc::try_clone(&self.customer)?;
        Ok(SharedCustomer {
            customer,
            is_within: self.is_within,
        })
    }

    fn same(&self, other: &SharedCustomer) -> bool {
        self.customer.is_same(&other.customer)
    }
}
