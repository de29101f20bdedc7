//! The terms of expressions. No term has a part of its expression twice.

ghost use Rattle.std.specs.Prelude.{◌≡◌, ℕ, neg_ℤ};
ghost use Rattle.jd_base.specs.declared.sort.Sort.TheVariants as sorts;
ghost use Rattle.jd_jml_formulas.specs.Meant.{term_meant};
ghost use Rattle.jd_jml_formulas.specs.Spellings.{spelling_view, when_view};
ghost use Rattle.jd_jml_known.specs.Members.{FieldsHaveSorts, HasItsSort, read_of};
ghost use Rattle.jd_jml_known.specs.Scopes.{at_most_32, meaning_view, saturated, visible};
ghost use Rattle.jd_jml_meaning.specs.Resolved.{JmlExpr};
ghost use Rattle.jd_jml_meaning.specs.Translation as translation;
ghost use Rattle.jd_model.specs.Programs.{Program};
ghost use Rattle.jd_sized_makers.specs.Made.{IsTerm};
ghost use Rattle.jd_specifications.specs.Resolution as resolution;
ghost use Rattle.jd_syntax.specs.JavaTypes.{identifier_view};
ghost use Rattle.jd_syntax.specs.SpecTrees.{spec_view};
ghost use Rattle.jd_term.specs.Terms as terms;
ghost use Rattle.jd_term.specs.Terms.{PlainTerm};

use crate::making::{Making, When, argument, heap};
use crate::operators::arithmetic_of;
use jd_base::{NoMemory, Sort};
use jd_bodies::ValueType;
use jd_jml_known::{
    Meaning, Member, Names, bound, class_before, class_member, literal, looked_up, member_read,
    sort_of_value, static_type,
};
use jd_lists::discard;
use jd_naming::Declares;
use jd_sized_makers::{
    MadeTerm, OnePart, arithmetic, boolean, bound_variable, copied, leaf, named_field, null,
    number, one_part, select, sum, variable,
};
use jd_syntax::{Identifier, Quantifier, SpecExpr, SpecForm, SpecPrefix};

// A member of what the term stands for.
fn member_term<D: Declares>(
    m: &Making<'_, D>,
    t: When,
    member: Member,
    object: MadeTerm,
) -> MadeTerm
    ensures { (p : Program) (o : JmlExpr) → HasItsSort p member → IsTerm object (translation.term p (spelling_view m.now.spelled.now) (when_view t) o) → IsTerm result (translation.term p (spelling_view m.now.spelled.now) (when_view t) (read_of member o)) }
{
    match member {
        Member::Constant(n) => {
            discard(object);
            number(n)
        }
        Member::Field(f, value) => {
            select(
                m.alloc,
                sort_of_value(value),
                heap(m, t),
                object,
                named_field(f),
            )
        }
        Member::Length => one_part(m.alloc, OnePart::Length, object),
        Member::Nothing => {
            discard(object);
            null()
        }
    }
}

// A bound variable; want of memory where 32 bits cannot count the binders between.
fn bound_term(inside: u32, sort: Sort) -> MadeTerm
    ensures { (k : ℕ) → inside ≡ at_most_32 k → IsTerm result (terms.Bound k sort) }
{
    if inside < 4_294_967_295 {
        bound_variable(inside, sort)
    } else {
        leaf(Err(NoMemory))
    }
}

// What a name in scope stands for.
fn meant<D: Declares>(m: &Making<'_, D>, t: When, meaning: Meaning<'_>) -> MadeTerm
    ensures { (p : Program) (j : JmlExpr) → meaning_view meaning.entry ≡ saturated j → IsTerm result (translation.term p (spelling_view m.now.spelled.now) (when_view t) j) }
{
    match meaning {
        Meaning::Argument(position) => argument(m, t, position),
        Meaning::Variable(x) => variable(m.alloc, x),
        Meaning::Exception => copied(m.alloc, &m.spelled.thrown),
        Meaning::Bound(inside, value) => bound_term(inside, sort_of_value(value)),
    }
}

// What a name stands for.
fn named<D: Declares>(m: &Making<'_, D>, t: When, x: &[u8], names: &Names<'_>) -> MadeTerm
    ensures { (p : Program) → FieldsHaveSorts (D.declarations m.now.sight.declared.now) p → IsTerm result (translation.term p (spelling_view m.now.spelled.now) (when_view t) (resolution.named (resolution.looked_up 0 (visible names.now) x.now) ((D.declarations m.now.sight.declared.now).variable m.now.sight.class x.now))) }
{
    match looked_up(names, 0, x) {
        Some(meaning) => meant(m, t, meaning),
        None => {
            let member = class_member(m.sight.declared, m.sight.class, x);
            member_term(m, t, member, copied(m.alloc, &m.spelled.this))
        }
    }
}

/// What a name behind an expression or a class stands for.
pub(crate) fn member_of<D: Declares>(
    m: &Making<'_, D>,
    o: &SpecExpr,
    x: &Identifier,
    names: &Names<'_>,
) -> Member
    ensures read { (j : JmlExpr) → read_of result j ≡ resolution.field (D.declarations m.now.sight.declared.now) m.now.sight.class m.now.sight.result (identifier_view x.now).name (resolution.class_before (D.declarations m.now.sight.declared.now) m.now.sight.class m.now.sight.result (visible names.now) (spec_view o.now)) (resolution.static_type (D.declarations m.now.sight.declared.now) m.now.sight.class m.now.sight.result (visible names.now) (spec_view o.now)) j }
    ensures sorted { (p : Program) → FieldsHaveSorts (D.declarations m.now.sight.declared.now) p → HasItsSort p result }
{
    let class = class_before(&m.sight, o, names);
    let t = static_type(&m.sight, o, names);
    member_read(&m.sight, &x.name, class, t)
}

// The number with the other sign; want of memory for the least of 128 bits, which no constant is.
fn negative(n: i128) -> MadeTerm
    ensures { IsTerm result (terms.Number (neg_ℤ n)) }
{
    if n > -170141183460469231731687303715884105728 {
        number(-n)
    } else {
        leaf(Err(NoMemory))
    }
}

// An element of the array in the heap.
fn element<D: Declares>(m: &Making<'_, D>, t: When, array: MadeTerm, index: MadeTerm) -> MadeTerm
    ensures { (x y : PlainTerm) → IsTerm array x → IsTerm index y → IsTerm result (terms.Select sorts.Int ((spelling_view m.now.spelled.now).heap (when_view t)) x (terms.ElementField y)) }
{
    let field = one_part(m.alloc, OnePart::Element, index);
    select(m.alloc, Sort::Int, heap(m, t), array, field)
}

/// The term of an expression that is not refused; of one that has none, as a call, any.
pub(crate) fn term_of<'n, D: Declares>(
    m: &Making<'_, D>,
    t: When,
    e: &'n SpecExpr,
    names: &'n Names<'n>,
) -> MadeTerm
    ensures { (p : Program) → FieldsHaveSorts (D.declarations m.now.sight.declared.now) p → IsTerm result (term_meant p (D.declarations m.now.sight.declared.now) m.now.sight.class m.now.sight.result (spelling_view m.now.spelled.now) (when_view t) (visible names.now) (spec_view e.now)) }
{
    match &e.form {
        SpecForm::Integer(n) => number(*n),
        SpecForm::Boolean(truth) => boolean(*truth),
        SpecForm::Null | SpecForm::Call(_, _) | SpecForm::MethodCall(_, _, _) => null(),
        SpecForm::This => copied(m.alloc, &m.spelled.this),
        SpecForm::Result => copied(m.alloc, &m.spelled.value),
        SpecForm::Name(x) => named(m, t, x, names),
        SpecForm::Field(o, x) => {
            let member = member_of(m, o, x, names);
            member_term(m, t, member, term_of(m, t, o, names))
        }
        SpecForm::Parenthesized(o) => term_of(m, t, o, names),
        SpecForm::Cast(_, o) => term_of(m, t, o, names),
        SpecForm::Old(o) => term_of(m, When::Before, o, names),
        SpecForm::Index(a, i) => {
            let array = term_of(m, t, a, names);
            element(m, t, array, term_of(m, t, i, names))
        }
        SpecForm::Prefix(operator, o) => match *operator {
            SpecPrefix::Plus => term_of(m, t, o, names),
            SpecPrefix::Minus => match literal(&m.sight, o, names) {
                Some(n) => negative(n),
                None => one_part(m.alloc, OnePart::Negation, term_of(m, t, o, names)),
            },
            SpecPrefix::Not => boolean(false),
        },
        SpecForm::Infix(operator, a, b) => match arithmetic_of(*operator) {
            Some(operation) => {
                let first = term_of(m, t, a, names);
                arithmetic(m.alloc, operation, first, term_of(m, t, b, names))
            }
            None => boolean(false),
        },
        SpecForm::Sum(x, a, b, o) => {
            let inner = bound(names, x, ValueType::Int);
            let first = term_of(m, t, a, names);
            let second = term_of(m, t, b, names);
            sum(m.alloc, first, second, term_of(m, t, o, &inner))
        }
        SpecForm::Quantified(q, _, _, _) => match *q {
            Quantifier::ForAll => boolean(false),
            Quantifier::Exists => boolean(false),
        },
        SpecForm::QuantifiedIn(q, _, _, _, _) => match *q {
            Quantifier::ForAll => boolean(false),
            Quantifier::Exists => boolean(false),
        },
        SpecForm::InstanceOf(_, _)
        | SpecForm::Conditional(_, _, _)
        | SpecForm::Implies(_, _)
        | SpecForm::Equivalent(_, _)
        | SpecForm::Fresh(_)
        | SpecForm::InvariantFor(_) => boolean(false),
    }
}
