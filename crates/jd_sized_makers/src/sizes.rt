//! Sizes of wholes, at most `u64::MAX`.

ghost use Rattle.std.specs.Prelude.{◌≡◌, ◌+◌, ℕ};
ghost use Rattle.jd_sized_makers.specs.Made.{capped};

/// One more than the part.
pub(crate) fn over_one(a: u64) -> u64
    ensures { (m : ℕ) → a ≡ capped m → result ≡ capped (1 + m) }
{
    a.saturating_add(1)
}

/// One more than two parts.
pub(crate) fn over_two(a: u64, b: u64) -> u64
    ensures { (m n : ℕ) → a ≡ capped m → b ≡ capped n → result ≡ capped (1 + (m + n)) }
{
    a.saturating_add(b).saturating_add(1)
}

/// One more than three parts.
pub(crate) fn over_three(a: u64, b: u64, c: u64) -> u64
    ensures { (m n k : ℕ) → a ≡ capped m → b ≡ capped n → c ≡ capped k → result ≡ capped (1 + ((m + n) + k)) }
{
    a.saturating_add(b).saturating_add(c).saturating_add(1)
}
