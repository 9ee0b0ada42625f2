//! How many stripes a collection has.
ghost use Rattle.std.specs.Prelude.{◌↔◌, IsTrue};
ghost use Rattle.conflict.specs.Refusals.{IsPqStripeCount, IsStripeCount, IsStripeCountOf};

use seq_model::Held;

/// A map, a multiset or a queue has at most this many stripes.
pub const STRIPE_LIMIT: u32 = 4096;

/// A priority queue has at most this many. Taking its least reads them all, and the least beside them: a read set holds just that.
pub const PQ_STRIPE_LIMIT: u32 = STRIPE_LIMIT - 1;

/// Whether a map, a multiset or a queue may have so many stripes, which is 1 to `STRIPE_LIMIT`.
pub fn is_stripe_count(stripes: u32) -> bool
    ensures { IsTrue result ↔ IsStripeCount stripes }
{
    0 < stripes && stripes <= STRIPE_LIMIT
}

/// Whether a priority queue may have so many stripes, which is 1 to `PQ_STRIPE_LIMIT`.
pub fn is_pq_stripe_count(stripes: u32) -> bool
    ensures { IsTrue result ↔ IsPqStripeCount stripes }
{
    0 < stripes && stripes <= PQ_STRIPE_LIMIT
}

/// Whether a collection that holds this may have so many stripes.
pub fn is_stripe_count_of<V>(held: &Held<V>, stripes: u32) -> bool
    ensures { IsTrue result ↔ IsStripeCountOf held.now stripes }
{
    match held {
        Held::Pq(_) => is_pq_stripe_count(stripes),
        Held::Map(_) | Held::Bag(_) | Held::Queue { .. } => is_stripe_count(stripes),
    }
}
