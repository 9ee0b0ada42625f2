//! The first copy of a collection, by what was found of it for a call.
ghost use Rattle.std.specs.Prelude.{◌≡◌, IfOk};
ghost use Rattle.actor_parts.specs.declared.copies.BaseExcerpt.TheVariants as found;
ghost use Rattle.actor_parts.specs.First.{IsFirst, IsFirstTouch, memo_kind};
ghost use Rattle.actor_parts.specs.Taking.{key_touch};

use crate::copies::{BaseExcerpt, PrivateCopy};
use crate::spares::Spares;
use replay_log::{Touch, TouchedKey};
use seq_model::{Refusal, Value};
use shadow::MemoKind;
use std::alloc::Global;

/// The kind of the collection that was touched.
fn memo_kind<V>(held: &TouchedKey<V>) -> MemoKind
    ensures { result ≡ memo_kind held.now }
{
    if let TouchedKey::Copies(_, _) = held {
        return MemoKind::Bag;
    }
    MemoKind::Map
}

fn first_touch<V: Value>(
    spares: &mut Spares<V>,
    alloc: Global,
    stripes: u32,
    touch: Touch<V>,
) -> Result<PrivateCopy<V>, Refusal>
    ensures { IfOk result (λ copied. IsFirstTouch stripes touch copied) }
{
    let blank = spares.blank(alloc, stripes, memo_kind(&touch.held))?;
    let mut copied = PrivateCopy::Keys(blank.memo, blank.editions);
    let editions = copied.learn(touch)?;
    spares.keep_editions(editions);
    Ok(copied)
}

/// What there is of a map in so many stripes once a key was found to have this value, if it has one, and its location this edition.
pub(crate) fn first_key<V: Value>(
    spares: &mut Spares<V>,
    alloc: Global,
    stripes: u32,
    key: u64,
    value: Option<V>,
    location: u32,
    edition: u64,
) -> Result<PrivateCopy<V>, Refusal>
    ensures { IfOk result (λ copied. IsFirstTouch stripes (key_touch key value location edition) copied) }
{
    let blank = spares.blank(alloc, stripes, MemoKind::Map)?;
    let mut copied = PrivateCopy::Keys(blank.memo, blank.editions);
    copied.learn_key(key, value, location, edition)?;
    Ok(copied)
}

/// What there is of a collection in so many stripes once this was found of it, and no call is accepted yet, in spare memory where there is
/// some. A number of stripes outside 1 to `STRIPE_LIMIT` is refused there as TooLong.
pub fn first_copy<V: Value>(
    spares: &mut Spares<V>,
    alloc: Global,
    stripes: u32,
    found: BaseExcerpt<V>,
) -> Result<PrivateCopy<V>, Refusal>
    ensures { IfOk result (λ copied. IsFirst stripes found copied) }
{
    match found {
        BaseExcerpt::Keys(touch) => first_touch(spares, alloc, stripes, touch),
        BaseExcerpt::Whole(shadow) => {
            let mut shadow = shadow;
            shadow.get_mut().renew(spares.log(alloc));
            Ok(PrivateCopy::Whole(shadow))
        }
    }
}
