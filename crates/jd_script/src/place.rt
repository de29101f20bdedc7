ghost use Rattle.std.specs.Prelude.{◌≡◌, [], IfOk, option_map};
ghost use Rattle.jd_model.specs.Sequents.{place_view};
ghost use Rattle.jd_scripts.specs.ReadPlaces as plain;

use jd_base::NoMemory;
use jd_sequent::{Place, Side};
use std::alloc::Global;

// The number with one digit more; none for a zero in front or a tenth digit.
fn with_digit(number: u32, byte: u8) -> Option<u32>
    ensures { result ≡ plain.with_digit number byte }
{
    if byte < b'0' || b'9' < byte {
        return None;
    }
    let more = u64::from(number) * 10 + u64::from(byte - b'0');
    if more == 0 || 999_999_999 < more {
        return None;
    }
    Some(more as u32)
}

// The numbers, with dots between them.
fn numbers(alloc: Global, bytes: &[u8]) -> Result<Option<Vec<u32>>, NoMemory>
    ensures { IfOk result (λ r. option_map (λ v. v.items) r ≡ plain.numbers bytes.now [] 0) }
{
    let mut done = Vec::new(alloc);
    let mut number = 0u32;
    for byte in bytes {
        if *byte == b'.' {
            if number == 0 {
                return Ok(None);
            }
            done.push(number)?;
            number = 0;
        } else {
            match with_digit(number, *byte) {
                None => return Ok(None),
                Some(more) => number = more,
            }
        }
    }
    if number == 0 {
        return Ok(None);
    }
    done.push(number)?;
    Ok(Some(done))
}

fn only_one(numbers: &[u32]) -> Option<u32>
    ensures { result ≡ plain.only_one numbers.now }
{
    match numbers {
        [number] => Some(*number),
        _ => None,
    }
}

/// The number that the bytes write.
#[tactic(auto, unfolding(jd_scripts::specs::ReadPlaces::read_number))]
pub(crate) fn read_number(alloc: Global, bytes: &[u8]) -> Result<Option<u32>, NoMemory>
    ensures { IfOk result (λ r. r ≡ plain.read_number bytes.now) }
{
    match numbers(alloc, bytes)? {
        None => Ok(None),
        Some(numbers) => Ok(only_one(&numbers)),
    }
}

fn place_at(side: Side, mut numbers: Vec<u32>) -> Option<Place>
    ensures { option_map (λ p. Some (place_view p)) result ≡ plain.place_at side numbers.items }
{
    if numbers.is_empty() {
        return None;
    }
    let index = numbers.remove(0);
    Some(Place {
        side,
        index,
        path: numbers,
    })
}

fn sided(alloc: Global, side: Side, bytes: &[u8]) -> Result<Option<Option<Place>>, NoMemory>
    ensures { IfOk result (λ r. option_map (option_map place_view) r ≡ plain.sided side bytes.now) }
{
    match numbers(alloc, bytes)? {
        None => Ok(None),
        Some(numbers) => match place_at(side, numbers) {
            None => Ok(None),
            Some(place) => Ok(Some(Some(place))),
        },
    }
}

/// The place that a word writes, where `-` writes none.
#[tactic(auto, unfolding(jd_scripts::specs::ReadPlaces::read_place))]
pub(crate) fn read_place(alloc: Global, word: &[u8]) -> Result<Option<Option<Place>>, NoMemory>
    ensures { IfOk result (λ r. option_map (option_map place_view) r ≡ plain.read_place word.now) }
{
    match word {
        [b'-'] => Ok(Some(None)),
        [b'L', rest @ ..] => sided(alloc, Side::Left, rest),
        [b'R', rest @ ..] => sided(alloc, Side::Right, rest),
        _ => Ok(None),
    }
}
