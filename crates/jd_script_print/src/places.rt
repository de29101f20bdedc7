//! The text of places.

ghost use Rattle.std.specs.Prelude.{◌≡◌, ◌++◌, OnOk, map, option_map};
ghost use Rattle.jd_model.specs.Sequents.{place_view};
ghost use Rattle.jd_scripts.specs.Places as plain;
ghost use Rattle.jd_scripts.specs.Places.{decimal, written_path};
ghost use Rattle.jd_scripts.specs.Scripts.{spell_place};
ghost use Rattle.jd_written.specs.Written.{write};
ghost use Rattle.jd_script_print.specs.Writing as writing;

use jd_base::NoMemory;
use jd_model::{Place, Side};
use jd_written::{Written, add_number};
use std::alloc::Global;

// Adds the digits of a positive number; 0, which stands in no place, has none.
#[tactic(auto, using(crate::proofs::Decimals::digits))]
fn add_decimal(word: &mut Vec<u8>, n: u32) -> Result<(), NoMemory>
    ensures { OnOk result (word.new.items ≡ word.old.items ++ decimal n) }
{
    if n == 0 {
        return Ok(());
    }
    add_number(word, u64::from(n))
}

// Adds numbers of children, each behind a dot.
fn add_path(word: &mut Vec<u8>, path: &[u32]) -> Result<(), NoMemory>
    ensures { OnOk result (word.new.items ≡ word.old.items ++ written_path path.now) }
{
    for child in path {
        word.push(b'.')?;
        add_decimal(word, *child)?;
    }
    Ok(())
}

fn letter_of(side: &Side) -> u8
    ensures { result ≡ plain.letter_of side.now }
{
    match side {
        Side::Left => b'L',
        Side::Right => b'R',
    }
}

// `-`, or a place as `R1.4.2`.
pub(crate) fn write_place(
    alloc: Global,
    out: &mut Written,
    place: &Option<Place>,
) -> Result<(), NoMemory>
    ensures { OnOk result (out.new ≡ write out.old (spell_place (option_map place_view place.now))) }
{
    let Some(place) = place else {
        return out.word(b"-");
    };
    let mut word = Vec::new(alloc);
    word.push(letter_of(&place.side))?;
    add_decimal(&mut word, place.index)?;
    add_path(&mut word, &place.path)?;
    out.word(&word)
}

#[tactic(auto, using(jd_syntax::proofs::Lists::rest))]
pub(crate) fn write_places(
    alloc: Global,
    out: &mut Written,
    places: &[Option<Place>],
) -> Result<(), NoMemory>
    ensures { OnOk result (out.new ≡ writing.put_places out.old (map (option_map place_view) places.now)) }
{
    for place in places {
        write_place(alloc, out, place)?;
    }
    Ok(())
}
