//! Decimal numbers.
ghost use Rattle.std.specs.Prelude.{◌≡◌, ℕ, IfSome, Some};
ghost use Rattle.text_formats.specs.Tokens.{IsNumber};

/// The number of a token: decimal, within `u64`, with no sign and no leading zero but that of `0` itself.
#[tactic(auto, using(crate::proofs::NumberLemmas::parsed, crate::proofs::NumberLemmas::lead_digit, crate::proofs::NumberLemmas::parses))]
pub fn number(token: &str) -> Option<u64>
    ensures found { IfSome result (IsNumber token.now) }
    ensures only { (n : ℕ) → IsNumber token.now n → result ≡ Some n }
{
    if token == "0" {
        return Some(0);
    }
    match token.as_bytes() {
        [b'1'..=b'9', ..] => token.parse().ok(),
        _ => None,
    }
}
