//! Pairs of numbers, and numbers of 32 bits.
ghost use Rattle.std.specs.Prelude.{◌≡◌, ℕ, IfSome, Some};
ghost use Rattle.text_formats.specs.ScriptTokens.{IsPair, narrowed};

use crate::decimal::number;

/// Two numbers with a colon between.
pub fn pair(token: &str) -> Option<(u64, u64)>
    ensures found { IfSome result (IsPair token.now) }
    ensures only { (p : ℕ × ℕ) → IsPair token.now p → result ≡ Some p }
{
    let (first, second) = token.split_once(':')?;
    number(first).zip(number(second))
}

/// A number as a `u32`. A greater one becomes the greatest, which is above each limit of its kind.
pub fn clamped(number: u64) -> u32
    ensures { result ≡ narrowed number }
{
    u32::try_from(number).unwrap_or(u32::MAX)
}
