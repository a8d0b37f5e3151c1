//! Numbers as words.

ghost use Rattle.std.specs.Prelude.{◌≡◌, ◌^◌, ◌<◌, ℕ, decimal, IfSome, IfNone};

use itoa::Buffer;

/// The number that the word is, in decimal digits without a sign and without a leading zero.
pub(crate) fn number_of(word: &str) -> Option<u8>
    ensures found { IfSome result (λ n. word.now ≡ decimal n) }
    ensures none { IfNone result ((n : ℕ) → n < 256 → word.now ≡ decimal n → ⊥) }
{
    let number: u8 = word.parse().ok()?;
    let mut buffer = Buffer::new();
    if buffer.format(number) == word {
        Some(number)
    } else {
        None
    }
}
