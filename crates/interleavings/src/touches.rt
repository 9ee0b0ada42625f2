//! What a step touches.
use session_text::Deed;

/// What a step may touch of a world.
#[derive(Clone, Copy, PartialEq, Eq)]
enum Object {
    Nothing,
    Clock,
    Lock(u32),
    Value(u32),
    /// The gate of a collection, with its base.
    Gate(u32),
}

/// Whether two steps that do this leave the same in either order.
pub(crate) fn are_apart(first: Deed, second: Deed) -> bool {
    let (first_object, first_changes) = touch_of(first);
    let (second_object, second_changes) = touch_of(second);
    first_object != second_object || !(first_changes || second_changes)
}

/// Whether it is a try of a gate that another holds.
pub(crate) fn is_waiting(deed: Deed) -> bool {
    matches!(deed, Deed::TryGate(_, holder) if holder != 0)
}

/// What a step touches, and whether it may change it.
fn touch_of(deed: Deed) -> (Object, bool) {
    match deed {
        Deed::Nothing => (Object::Nothing, false),
        Deed::LoadClock(_) => (Object::Clock, false),
        Deed::AddClock(_) => (Object::Clock, true),
        Deed::LoadLock(location, _) => (Object::Lock(location), false),
        Deed::TakeLock(location, _, _) | Deed::StoreLock(location, _) => {
            (Object::Lock(location), true)
        }
        Deed::LoadWord(location, _) | Deed::LoadEdition(location, _) => {
            (Object::Value(location), false)
        }
        Deed::StoreWord(location, _) | Deed::StoreEdition(location, _) => {
            (Object::Value(location), true)
        }
        Deed::TryGate(collection, holder) => (Object::Gate(collection), holder == 0),
        Deed::CopyAtGate(collection) | Deed::ChangeAtGate(collection) | Deed::PutGate(collection) =>
            (Object::Gate(collection), true),
    }
}
