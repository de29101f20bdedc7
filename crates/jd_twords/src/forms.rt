//! Which expressions have a form at a place.

ghost use Rattle.std.specs.Prelude.{◌≡◌, [], ◌∷◌, length, map, option_map};
ghost use Rattle.jd_syntax.specs.Sxs.{bracketed_list, sx_view};
ghost use Rattle.jd_tforms.specs.Forms as plain;
ghost use Rattle.jd_tforms.specs.HasForm as plain_forms;
ghost use Rattle.jd_twords.specs.Places.{at_number, form_view, place_at, place_view, row_form};

use crate::places::{Form, Place, Row};
use crate::shapes::word_fits;
use crate::table::{
    ARRAY_FORM, CODE_FORM, EXPR_FORMS, FORMULA_FORMS, LOC_FORMS, MOST_FORMS, PAIR_FORM, PAIRS_FORM,
    STMT_FORMS, TERM_FORMS,
};
use jd_syntax::Sx;

// The form in the row of that number.
fn form_in<'a, H: Copy>(rows: &'a [Row<'a, H>], number: usize) -> Option<Form<'a>>
    ensures { option_map form_view result ≡ at_number number (map (λ r. row_form r.1.now r.2.now r.3) rows.now) }
{
    if number < rows.len() {
        let (_, word, parts, rest) = rows[number];
        Some(Form {
            word: Some(word),
            parts,
            rest,
        })
    } else {
        None
    }
}

// The same where there is no other.
fn only<'a>(form: Form<'a>, number: usize) -> Option<Form<'a>>
    ensures { option_map form_view result ≡ at_number number (form_view form.entry ∷ []) }
{
    if number == 0 { Some(form) } else { None }
}

// The form of that number at the place.
fn form_at(place: Place<'_>, number: usize) -> Option<Form<'static>>
    ensures { option_map form_view result ≡ at_number number (plain.forms (place_view place.entry)) }
{
    match place {
        Place::Term => form_in(&TERM_FORMS, number),
        Place::Loc => form_in(&LOC_FORMS, number),
        Place::Formula => form_in(&FORMULA_FORMS, number),
        Place::Expr => form_in(&EXPR_FORMS, number),
        Place::Stmt => form_in(&STMT_FORMS, number),
        Place::Code => only(CODE_FORM, number),
        Place::Pairs => only(PAIRS_FORM, number),
        Place::Pair => only(PAIR_FORM, number),
        Place::Array => only(ARRAY_FORM, number),
        Place::Sort
        | Place::Kind
        | Place::Name
        | Place::Result
        | Place::Loop
        | Place::Label
        | Place::Word(_) => None,
    }
}

// What has to stand at that number.
fn place_at<'a>(
    places: &'a [Place<'a>],
    number: usize,
    rest: Option<Place<'a>>,
) -> Option<Place<'a>>
    ensures { option_map place_view result ≡ place_at (map place_view places.now) number (option_map place_view rest.entry) }
{
    if number < places.len() {
        Some(places[number])
    } else {
        rest
    }
}

// The same of a form, with its word.
fn place_in<'a>(form: Form<'a>, number: usize) -> Option<Place<'a>>
    ensures { option_map place_view result ≡ place_at (form_view form.entry).parts number (form_view form.entry).rest }
{
    match form.word {
        None => place_at(form.parts, number, form.rest),
        Some(word) => {
            if number == 0 {
                Some(Place::Word(word))
            } else {
                place_at(form.parts, number - 1, form.rest)
            }
        }
    }
}

// How many parts a form has at the least, with its word.
fn part_count(form: Form<'_>) -> usize
    ensures { result ≡ length (form_view form.entry).parts }
{
    match form.word {
        None => form.parts.len(),
        Some(_) => form.parts.len() + 1,
    }
}

// Whether the parts are those of the form.
#[cycle(has_form)]
fn have_form(parts: &[Sx], form: Form<'_>) -> bool
    ensures { result ≡ plain_forms.have_forms (bracketed_list (map sx_view parts.now)) (form_view form.entry).parts (form_view form.entry).rest }
{
    let count = part_count(form);
    if parts.len() < count {
        return false;
    }
    for (number, part) in parts.iter().enumerate() {
        let Some(place) = place_in(form, number) else {
            return false
        };
        if !has_form(part, place) {
            return false;
        }
    }
    true
}

// Whether what stands in brackets has a form at the place.
#[cycle(has_form)]
fn list_form(parts: &[Sx], place: Place<'_>) -> bool
    ensures { result ≡ plain_forms.any_form (plain_forms.have_forms (bracketed_list (map sx_view parts.now))) (plain.forms (place_view place.entry)) }
{
    for number in 0..MOST_FORMS {
        let Some(form) = form_at(place, number) else {
            return false
        };
        if have_form(parts, form) {
            return true;
        }
    }
    false
}

/// Whether the expression has a form at the place, whatever the names in it stand for.
#[cycle(has_form)]
pub fn has_form(x: &Sx, place: Place<'_>) -> bool
    ensures { result ≡ plain_forms.has_form (sx_view x.now) (place_view place.entry) }
{
    match x {
        Sx::Atom(word) => word_fits(place, word),
        Sx::List(parts) => list_form(parts, place),
    }
}
