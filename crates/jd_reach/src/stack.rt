//! Numbers in rising order, at whose end others are put and taken off.

ghost use Rattle.std.specs.Prelude.{◌≡◌, ℕ, ◌<◌, ◌≤◌, ◌↔◌, ◌++◌, ◌∷◌, [], List, length, Contains, IfSome, IsSome, IsTrue};
ghost use Rattle.jd_reach.specs.Searches.{EndsIn, IsRising};

// Whether a number is the last.
pub(crate) fn ends_in(numbers: &[usize], number: usize) -> bool
    ensures { IsTrue result ↔ EndsIn numbers.now number }
{
    match numbers.last() {
        Some(last) => *last == number,
        None => false,
    }
}

// The last number.
pub(crate) fn last_of(numbers: &[usize]) -> Option<usize>
    ensures last { IfSome result (EndsIn numbers.now) }
    ensures some { 0 < length numbers.now → IsSome result }
{
    numbers.last().copied()
}

// Takes the last number off.
pub(crate) fn drop_last(numbers: &mut Vec<usize>)
    ensures { (front : List ℕ) (last : ℕ) → numbers.old.items ≡ front ++ last ∷ [] → numbers.new.items ≡ front }
{
    numbers.pop();
}

// Takes the numbers above a limit off the end.
pub(crate) fn pop_above(numbers: &mut Vec<usize>, limit: usize)
    requires { IsRising numbers.old.items }
    ensures rising { IsRising numbers.new.items }
    ensures fewer { (n : ℕ) → Contains numbers.new.items n → Contains numbers.old.items n × (n ≤ limit) }
    ensures kept { (n : ℕ) → Contains numbers.old.items n → n ≤ limit → Contains numbers.new.items n }
{
    while let Some(last) = last_of(numbers) {
        if last <= limit {
            return;
        }
        drop_last(numbers);
    }
}
