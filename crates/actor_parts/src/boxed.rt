//! A large value that moves as a pointer.
ghost use Rattle.std.specs.Prelude.{◌≡◌, IfErr, IfOk};
ghost use Rattle.std.specs.Borrow.{Lends, sem};
ghost use Rattle.actor_parts.specs.contracts.boxed.Boxed.{the_row};

use std::alloc::{AllocError, Global};
use std::marker::Model;

/// A value in a box of its own. Contracts see the value.
#[derive(Drop)]
pub struct Boxed<T> {
    place: Box<T>,
}

impl<T> Model for Boxed<T> {
    ghost use Rattle.std.specs.Prelude.{◌≡◌};

    ghost Value = { T };

    ghost view = { λ a. a.place.value };
}

impl<T> Boxed<T> {
    /// The value.
    pub fn get(&self) -> &T
        ensures { result.now ≡ self.now }
    {
        &self.place
    }

    /// The value, to be changed in place.
    pub fn get_mut(&mut self) -> &mut T
        ensures* writes_back { sem 𝓛 (Lends (the_row T.row) T.row self.entry result (λ w. w)) }
        ensures value { result.now ≡ self.old }
    {
        &mut self.place
    }

    /// A box for the value. Where an allocation fails, the value comes back.
    #[cold]
    #[inline(never)]
    pub fn try_new(alloc: Global, value: T) -> Result<Boxed<T>, T>
        ensures boxed { IfOk result (λ boxed. boxed ≡ value) }
        ensures back { IfErr result (λ back. back ≡ value) }
    {
        match Box::new(alloc, value) {
            Ok(place) => Ok(Boxed { place }),
            Err(refused) => Err(refused.value),
        }
    }
}

impl<T: Drop> Boxed<T> {
    /// A box for the value. `Memory`, where an allocation fails, drops the value.
    #[cold]
    #[inline(never)]
    pub fn new(alloc: Global, value: T) -> Result<Boxed<T>, AllocError>
        ensures { IfOk result (λ boxed. boxed ≡ value) }
    {
        let place = Box::new(alloc, value)?;
        Ok(Boxed { place })
    }

    /// The value, out of its box, whose memory is given back.
    pub fn into_inner(self) -> T
        ensures { result ≡ self }
    {
        let Boxed { place } = self;
        Box::into_inner(place)
    }
}
