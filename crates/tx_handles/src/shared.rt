//! Values that are shared, not copied.
ghost use Rattle.std.specs.Prelude.{◌≡◌, IfOk};

use seq_model::{Memory, Value};
use std::alloc::Global;
use std::marker::Model;
use std::sync::Arc;

/// A value that is never changed. A copy is one more owner of it, and allocates nothing; so it is cheap to put a large value into a map,
/// and to get it. Contracts see the value.
#[derive(Debug)]
pub struct Shared<T> {
    value: Arc<T>,
}

impl<T: Drop> Drop for Shared<T> {
    fn drop(self) {
        let Shared { value: _ } = self;
    }
}

impl<T> Model for Shared<T> {
    ghost use Rattle.std.specs.Arc.{arc_value};

    ghost Value = { T };

    ghost view = { λ a. arc_value a.value };
}

impl<T: Value> Shared<T> {
    /// Allocates the one place for the value. `Memory` where that fails.
    ///
    /// ```
    /// let name = Text::of(alloc, "Ada")?;
    /// let shared = Shared::new(alloc, name)?;
    /// let copy = shared.try_copy()?;
    /// ```
    pub fn new(alloc: Global, value: T) -> Result<Shared<T>, Memory>
        ensures { IfOk result (λ shared. shared ≡ value) }
    {
        let value = Arc::new(alloc, value)?;
        Ok(Shared { value })
    }

    /// The value.
    ///
    /// ```
    /// let copy = shared.try_copy()?;
    /// let same = copy.get().same(shared.get()); // true
    /// ```
    pub fn get(&self) -> &T
        ensures { result.now ≡ self.now }
    {
        &self.value
    }
}

impl<T: Value> Value for Shared<T> {
    fn try_copy(&self) -> Result<Shared<T>, Memory> {
        let value = Arc::try_clone(&self.value)?;
        Ok(Shared { value })
    }

    fn same(&self, other: &Shared<T>) -> bool {
        let mine: &T = &self.value;
        let theirs: &T = &other.value;
        mine.same(theirs)
    }
}
