//! What a call changes in a collection. A list of changes is replayed on the collection when its transaction commits.
/// One change to a collection.
#[derive(Drop)]
pub enum Change<V> {
    /// In a map, the key gets the value.
    Put(u64, V),
    /// In a map, the key becomes absent.
    Remove(u64),
    /// In a multiset or a priority queue, the element gets one copy more.
    Add(u64),
    /// In a multiset or a priority queue, the element gets one copy fewer.
    Take(u64),
    /// In a priority queue, the stored least element becomes this one, or none.
    SetLeast(Option<u64>),
    /// In a queue, the item goes to this index, and the next one after it.
    Enqueue(u64, u64),
    /// In a queue, the item at this index goes, and the next one becomes the first.
    Dequeue(u64),
}

/// Changes, in order.
pub type Changes<V> = Vec<Change<V>>;
