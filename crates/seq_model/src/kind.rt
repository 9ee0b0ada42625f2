/// What a collection is.
#[derive(Clone, Copy, Debug, PartialEq, Eq)]
pub enum Kind {
    Map,
    Bag,
    /// A priority queue.
    Pq,
    Queue,
}
