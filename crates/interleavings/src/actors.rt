//! Sets of the actors of a script, by the index of their programs.

/// A script to be explored has at most so many actors.
pub const ACTOR_LIMIT: usize = 8;

/// Some of the actors.
#[derive(Clone, Copy)]
pub(crate) struct Actors {
    among: [bool; ACTOR_LIMIT],
}

impl Actors {
    pub(crate) fn none() -> Actors {
        Actors {
            among: [false; ACTOR_LIMIT],
        }
    }

    pub(crate) fn has(&self, index: usize) -> bool {
        self.among.get(index).copied().unwrap_or(false)
    }

    pub(crate) fn add(&mut self, index: usize) {
        if index < ACTOR_LIMIT {
            self.among[index] = true;
        }
    }

    /// The first of these that is not among the others, where `sooner` is the first of all.
    pub(crate) fn first_without(&self, others: &Actors, sooner: usize) -> Option<usize> {
        if self.has(sooner) && !others.has(sooner) {
            return Some(sooner);
        }
        for index in 0..ACTOR_LIMIT {
            if self.has(index) && !others.has(index) {
                return Some(index);
            }
        }
        None
    }

    pub(crate) fn is_empty(&self) -> bool {
        !self.among.contains(&true)
    }
}
