//! Decimal numbers, read from words.
#![tactic(auto)]

ghost use Rattle.std.specs.Prelude.{◌≡◌, ◌≢◌, ℕ, ◌+◌, ◌-◌, ◌*◌, ◌^◌, ◌<◌, ◌≤◌, ◌⊎◌, true, false, IfNone, IfSome, MatchOption, decimal};
ghost use Rattle.std.specs.Str.{all_ascii_digits};
ghost use Rattle.decimals.specs.Decimals.{number_in, number_of, small_number_in};

#[cfg(test)]
mod tests;

/// The number below 2^64 that a word is in decimal: digits, at least one, and no zero in front of another. `None`
/// exactly where it is none.
pub fn read_u64(word: &[u8]) -> Option<u64>
    ensures is { result ≡ number_in word.now }
    ensures found { IfSome result (λ n. word.now ≡ decimal n) }
    ensures none { IfNone result ((n : ℕ) → n < 2 ^ 64 → word.now ≢ decimal n) }
{
    number(word)
}

/// The number below 2^32 that a word is in decimal: digits, at least one, and no zero in front of another. `None`
/// exactly where it is none.
pub fn read_u32(word: &[u8]) -> Option<u32>
    ensures is { result ≡ small_number_in word.now }
    ensures found { IfSome result (λ n. word.now ≡ decimal n) }
    ensures none { IfNone result ((n : ℕ) → n < 2 ^ 32 → word.now ≢ decimal n) }
{
    let n = number(word)?;
    if n > 0xffff_ffff {
        return None;
    }
    Some(n as u32)
}

// The number below 2^64 that a word is in decimal.
#[tactic(auto, using(crate::proofs::Numbers::is_number, crate::proofs::Numbers::is_no_number, crate::proofs::Numbers::is_empty_word, crate::proofs::Numbers::starts_with_zero))]
fn number(word: &[u8]) -> Option<u64>
    ensures { result ≡ number_in word.now }
{
    let number = digits_in(word)?;
    if word.is_empty() {
        return None;
    }
    if word.len() > 1 && word[0] == b'0' {
        return None;
    }
    Some(number)
}

// The number that digits tell.
#[tactic(auto, using(crate::proofs::Numbers::number_grows))]
fn digits_in(word: &[u8]) -> Option<u64>
    ensures { MatchOption result ((all_ascii_digits word.now ≡ false) ⊎ (2 ^ 64 ≤ number_of word.now)) (λ n. (all_ascii_digits word.now ≡ true) × (number_of word.now ≡ n)) }
{
    let mut number: u64 = 0;
    for c in word {
        if !c.is_ascii_digit() {
            return None;
        }
        number = with_digit(number, *c)?;
    }
    Some(number)
}

// The number with one more digit.
fn with_digit(number: u64, digit: u8) -> Option<u64>
    requires { 48 ≤ digit }
    ensures { MatchOption result (2 ^ 64 ≤ 10 * number + (digit - 48)) (λ n. n ≡ 10 * number + (digit - 48)) }
{
    number.checked_mul(10)?.checked_add(u64::from(digit - b'0'))
}
