//! Sets of locations (JML Reference Manual, 12.7).

ghost use Rattle.std.specs.Prelude.{◌≡◌, map};
ghost use Rattle.jd_jml_formulas.specs.Meant.{location_meant, locations_meant, term_meant};
ghost use Rattle.jd_jml_formulas.specs.Spellings.{spelling_view, when_view};
ghost use Rattle.jd_jml_known.specs.Members.{FieldsHaveSorts};
ghost use Rattle.jd_jml_known.specs.Scopes.{visible};
ghost use Rattle.jd_model.specs.Programs.{Program};
ghost use Rattle.jd_specifications.specs.Resolution as resolution;
ghost use Rattle.jd_syntax.specs.SpecTrees.{location_view, spec_view};
ghost use Rattle.jd_term.specs.Makers.{GivesLoc, GivesTerm};
ghost use Rattle.jd_term.specs.Terms as terms;
ghost use Rattle.jd_term.specs.Terms.{PlainTerm};

use crate::making::{Making, When};
use crate::terms::term_of;
use jd_base::{FieldId, NoMemory};
use jd_bodies::{ValueType, Variable};
use jd_jml_known::{Names, Sight, static_type};
use jd_naming::Declares;
use jd_sized_makers::MadeTerm;
use jd_syntax::{LocExpr, LocForm, SpecExpr};
use jd_term::{Loc, Term, element_range, single, union, with_object, with_one};
use std::alloc::Global;

// The number of a field.
fn field_number<D: Declares>(w: &Sight<'_, D>, class: u32, name: &[u8]) -> u32
    ensures { result ≡ resolution.field_number (D.declarations w.now.declared.now) w.now.class w.now.result ((D.declarations w.now.declared.now).variable class name.now) }
{
    match w.declared.variable(class, name) {
        Some(Variable::Field(f, _)) => f,
        Some(Variable::Constant(_)) => 0,
        None => 0,
    }
}

// The number of a field of a value of the type.
fn number_in<D: Declares>(w: &Sight<'_, D>, name: &[u8], t: ValueType) -> u32
    ensures { result ≡ resolution.number_in (D.declarations w.now.declared.now) w.now.class w.now.result name.now t }
{
    match t {
        ValueType::Class(c) => field_number(w, c, name),
        ValueType::Int
        | ValueType::Boolean
        | ValueType::Null
        | ValueType::IntArray
        | ValueType::Missing => 0,
    }
}

// A field of an object.
fn field_location(alloc: Global, o: Result<Term, NoMemory>, field: u32) -> Result<Loc, NoMemory>
    ensures { (x : PlainTerm) → GivesTerm o x → GivesLoc result (terms.Single x (terms.NamedField field)) }
{
    single(alloc, o, Ok(Term::NamedField(FieldId(field))))
}

// An element of an array.
fn element(
    alloc: Global,
    a: Result<Term, NoMemory>,
    i: Result<Term, NoMemory>,
) -> Result<Loc, NoMemory>
    ensures { (x y : PlainTerm) → GivesTerm a x → GivesTerm i y → GivesLoc result (terms.Single x (terms.ElementField y)) }
{
    single(alloc, a, with_one(alloc, &Term::NullTerm, i))
}

// All fields of an object.
fn all_fields(alloc: Global, o: Result<Term, NoMemory>) -> Result<Loc, NoMemory>
    ensures { (x : PlainTerm) → GivesTerm o x → GivesLoc result (terms.ObjectFields x) }
{
    Ok(Loc::ObjectFields(Box::new(alloc, o?)?))
}

// All elements of an array.
fn all_elements(alloc: Global, a: Result<Term, NoMemory>) -> Result<Loc, NoMemory>
    ensures { (x : PlainTerm) → GivesTerm a x → GivesLoc result (terms.ArrayElements x) }
{
    with_object(alloc, &Loc::NoLocations, a)
}

// The term of an expression in a location.
fn part<'n, D: Declares>(
    m: &Making<'_, D>,
    t: When,
    e: &'n SpecExpr,
    names: &'n Names<'n>,
) -> Result<Term, NoMemory>
    ensures { (p : Program) → FieldsHaveSorts (D.declarations m.now.sight.declared.now) p → GivesTerm result (term_meant p (D.declarations m.now.sight.declared.now) m.now.sight.class m.now.sight.result (spelling_view m.now.spelled.now) (when_view t) (visible names.now) (spec_view e.now)) }
{
    let MadeTerm { tree, size: _ } = term_of(m, t, e, names);
    tree
}

// A set of locations.
fn location<'n, D: Declares>(
    m: &Making<'_, D>,
    t: When,
    l: &'n LocExpr,
    names: &'n Names<'n>,
) -> Result<Loc, NoMemory>
    ensures { (p : Program) → FieldsHaveSorts (D.declarations m.now.sight.declared.now) p → GivesLoc result (location_meant p (D.declarations m.now.sight.declared.now) m.now.sight.class m.now.sight.result (spelling_view m.now.spelled.now) (when_view t) (visible names.now) (location_view l.now)) }
{
    match &l.form {
        LocForm::Nothing => Ok(Loc::NoLocations),
        LocForm::Everything => Ok(Loc::AllLocations),
        LocForm::Own(x) => {
            let field = field_number(&m.sight, m.sight.class, x);
            field_location(m.alloc, m.spelled.this.copy(m.alloc), field)
        }
        LocForm::Field(o, x) => {
            let field = number_in(&m.sight, &x.name, static_type(&m.sight, o, names));
            field_location(m.alloc, part(m, t, o, names), field)
        }
        LocForm::AllFields(o) => all_fields(m.alloc, part(m, t, o, names)),
        LocForm::Element(a, i) => {
            let array = part(m, t, a, names);
            element(m.alloc, array, part(m, t, i, names))
        }
        LocForm::Range(a, i, j) => {
            let array = part(m, t, a, names);
            let first = part(m, t, i, names);
            element_range(m.alloc, array, first, part(m, t, j, names))
        }
        LocForm::AllElements(a) => all_elements(m.alloc, part(m, t, a, names)),
    }
}

/// What is in one of the sets.
pub(crate) fn locations_of<'n, D: Declares>(
    m: &Making<'_, D>,
    t: When,
    ls: &'n [LocExpr],
    names: &'n Names<'n>,
) -> Result<Loc, NoMemory>
    ensures { (p : Program) → FieldsHaveSorts (D.declarations m.now.sight.declared.now) p → GivesLoc result (locations_meant p (D.declarations m.now.sight.declared.now) m.now.sight.class m.now.sight.result (spelling_view m.now.spelled.now) (when_view t) (visible names.now) (map location_view ls.now)) }
{
    if ls.is_empty() {
        return Ok(Loc::NoLocations);
    }
    let mut left = ls.len() - 1;
    let mut made = location(m, t, &ls[left], names);
    while left > 0 {
        left -= 1;
        made = union(m.alloc, location(m, t, &ls[left], names), made);
    }
    made
}
