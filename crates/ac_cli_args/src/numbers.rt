ghost use Rattle.std.specs.Prelude.{◌≡◌, ◌<◌, ◌^◌, ℕ, ℤ, option_map, decimal, FitsSigned, MatchOption};
ghost use Rattle.std.specs.Fmt.{signed_decimal};
ghost use Rattle.std.specs.Int.{w64};
ghost use Rattle.ac_cli_args.specs.DecimalNumbers.{IsInteger, IsNumberIn, IsLimitOr, IsSeed, IsSize};

use itoa::Buffer;

/// The integer that a text spells with no minus before a zero.
fn canonical(text: &str) -> Option<i64>
    ensures { MatchOption result ((v : ℤ) → FitsSigned w64 v → ¬ (text.now ≡ signed_decimal v)) (λ v. (text.now ≡ signed_decimal v) × FitsSigned w64 v) }
{
    let value = text.parse::<i64>().ok()?;
    let mut buffer = Buffer::new();
    if buffer.format(value) == text {
        Some(value)
    } else {
        None
    }
}

/// The integer of 64 bits that a text spells, in digits without leading zeros, with or without a minus.
pub fn integer(text: &[u8]) -> Option<i64>
    ensures { MatchOption result ((v : ℤ) → ¬ (IsInteger text.now v)) (IsInteger text.now) }
{
    if text == b"-0".as_slice() {
        return Some(0);
    }
    match str::from_utf8(text) {
        Ok(spelled) => canonical(spelled),
        Err(_) => None,
    }
}

/// The number of 64 bits that a text spells in digits without leading zeros.
fn natural(text: &str) -> Option<u64>
    ensures { MatchOption result ((n : ℕ) → n < 2 ^ 64 → ¬ (text.now ≡ decimal n)) (λ n. text.now ≡ decimal n) }
{
    let value = text.parse::<u64>().ok()?;
    let mut buffer = Buffer::new();
    if buffer.format(value) == text {
        Some(value)
    } else {
        None
    }
}

/// The number that a text spells, from one number to another.
fn number_in(text: &str, least: u64, greatest: u64) -> Option<u64>
    ensures { MatchOption result ((n : ℕ) → ¬ (IsNumberIn least greatest text.now n)) (IsNumberIn least greatest text.now) }
{
    match natural(text) {
        Some(n) if least <= n && n <= greatest => Some(n),
        _ => None,
    }
}

/// The limit that a text spells, from 1 to 1,000,000, or what stands where there is no text.
pub fn limit_or(text: Option<&str>, otherwise: u64) -> Option<u64>
    ensures { MatchOption result ((n : ℕ) → ¬ (IsLimitOr otherwise (option_map (λ w. w.now) text.entry) n)) (IsLimitOr otherwise (option_map (λ w. w.now) text.entry)) }
{
    match text {
        Some(text) => number_in(text, 1, 1_000_000),
        None => Some(otherwise),
    }
}

/// The seed that a text spells, of 64 bits.
pub fn seed(text: &str) -> Option<u64>
    ensures { MatchOption result ((n : ℕ) → ¬ (IsSeed text.now n)) (IsSeed text.now) }
{
    number_in(text, 0, u64::MAX)
}

/// The size that a text spells, from 1 to 12.
pub fn size(text: &str) -> Option<u32>
    ensures { MatchOption result ((n : ℕ) → ¬ (IsSize text.now n)) (IsSize text.now) }
{
    let size = number_in(text, 1, 12)?;
    Some(size as u32)
}
