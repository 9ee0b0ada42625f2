//! Numbers and kinds that are drawn.
ghost use Rattle.std.specs.Prelude.{◌<◌, ◌≤◌};
ghost use Rattle.rand.specs.Draw.{Gives};
ghost use Rattle.text_formats.specs.Draws as draws;
ghost use Rattle.text_formats.specs.Openings as openings;
ghost use Rattle.text_formats.specs.DrawnActions as sessions;

use rand::RngExt;
use rand_core::Rng;
use vac_model::Kind;

/// A number below this one.
pub fn below<R: Rng>(random: &mut R, bound: u64) -> u64
    requires { 0 < bound }
    ensures within { result < bound }
    ensures drawn { Gives (draws.below bound) (R.stream random.old) result (R.stream random.new) }
{
    random.random_range(0..bound)
}

/// A number from 1 to this one.
pub fn up_to<R: Rng>(random: &mut R, last: u64) -> u64
    requires { 0 < last }
    ensures { Gives (draws.up_to last) (R.stream random.old) result (R.stream random.new) }
{
    random.random_range(1..=last)
}

/// A price: 50, 60, 70, 80 or 90.
pub fn price<R: Rng>(random: &mut R) -> u64
    ensures within { result ≤ 90 }
    ensures drawn { Gives openings.price_drawn (R.stream random.old) result (R.stream random.new) }
{
    50 + 10 * below(random, 5)
}

/// A car, a flight or a room.
pub fn kind<R: Rng>(random: &mut R) -> Kind
    ensures { Gives sessions.kind_drawn (R.stream random.old) result (R.stream random.new) }
{
    match below(random, 3) {
        0 => Kind::Car,
        1 => Kind::Flight,
        _ => Kind::Room,
    }
}
