//! A put on a key of a map that a transaction has: it is accepted without an outcome, which would be a copy of the call.
ghost use Rattle.std.specs.Prelude.{◌≡◌, [], ◌∷◌, IfOk, IfSome, OnErr, OnOk, true};
ghost use Rattle.shadow.specs.Memo.{put_of};
ghost use Rattle.actor_parts.specs.PrivateCopy.{IsAccepted, IsKept, holds_call};
ghost use Rattle.actor_parts.specs.Footprints.{writes_in};
ghost use Rattle.actor_parts.specs.Puts.{IsPutAt, put_on};

use crate::copies::PrivateCopy;
use seq_model::{Memory, Reply, Value};

impl<V: Value> PrivateCopy<V> {
    /// Of a map's key its location, and the edition with which that was copied, if it was.
    #[inline(always)]
    pub fn entry_edition(&self, key: u64) -> Option<(u32, u64)>
        ensures { IfSome result (λ at. (value : V) → holds_call self.now (put_of key value) ≡ true → IsPutAt self.now key value at) }
    {
        match self {
            PrivateCopy::Keys(memo, editions) => {
                let location = memo.get().entry_location(key);
                match editions.get().get(location as u64) {
                    Some(edition) => Some((location, *edition)),
                    None => None,
                }
            }
            PrivateCopy::Whole(_) => None,
        }
    }

    /// Accepts the put of the value on the key, which it has, with the location of the key. Answers its reply twice. `Memory`, where an
    /// allocation fails, leaves what there is.
    #[inline(always)]
    pub fn put(
        &mut self,
        key: u64,
        value: &V,
        location: u32,
    ) -> Result<(Reply<V>, Reply<V>), Memory>
        requires held { holds_call self.old (put_of key value.now) ≡ true }
        requires location { writes_in self.old (put_on self.old key value.now) ≡ location ∷ [] }
        ensures accepted { OnOk result (IsAccepted (put_on self.old key value.now) self.old self.new) }
        ensures replies { IfOk result (λ replies. let o = put_on self.old key value.now in (replies.0 ≡ o.reply) × (replies.1 ≡ o.reply)) }
        ensures err { OnErr result (IsKept self.old self.new) }
    {
        match self {
            PrivateCopy::Keys(memo, _) => memo.get_mut().put_entry(key, value, location),
            PrivateCopy::Whole(_) => Err(Memory),
        }
    }
}
