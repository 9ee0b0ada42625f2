//! Who runs transactions.
ghost use Rattle.std.specs.Prelude.{◌≡◌};

/// Who runs transactions: at a store of this number, with a lane of its own ([`tx_handles::Lanes`]).
#[derive(Clone, Copy)]
pub struct Caller {
    pub store: u32,
    pub lane: u64,
}

impl Caller {
    pub fn new(store: u32, lane: u64) -> Caller
        ensures store { result.store ≡ store }
        ensures lane { result.lane ≡ lane }
    {
        Caller { store, lane }
    }
}
