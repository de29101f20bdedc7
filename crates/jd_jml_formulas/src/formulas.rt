//! The formulas of expressions.

ghost use Rattle.jd_jml_formulas.specs.Meant.{formula_meant};
ghost use Rattle.jd_jml_formulas.specs.Spellings.{spelling_view, when_view};
ghost use Rattle.jd_jml_known.specs.Members.{FieldsHaveSorts};
ghost use Rattle.jd_jml_known.specs.Scopes.{visible};
ghost use Rattle.jd_model.specs.Programs.{Program};
ghost use Rattle.jd_sized_makers.specs.Made.{IsFormula};
ghost use Rattle.jd_syntax.specs.SpecTrees.{spec_view};

use crate::making::{Making, When, heap};
use crate::operators::{
    Operands, choice, fresh_now, is_true, of_truths, of_values, quantified, ranged, sides_of,
};
use crate::terms::term_of;
use jd_jml_known::{Names, bound, bound_value, is_boolean, kind_of, over_type, static_type};
use jd_judging::type_by;
use jd_naming::Declares;
use jd_sized_makers::{
    Comparison, Connective, MadeFormula, compared, connected, instance, not, truth,
};
use jd_syntax::{SpecExpr, SpecForm, SpecPrefix};

/// The formula of an expression that is not refused; of one that has none, any.
pub(crate) fn formula_of<'n, D: Declares>(
    m: &Making<'_, D>,
    t: When,
    e: &'n SpecExpr,
    names: &'n Names<'n>,
) -> MadeFormula
    ensures { (p : Program) → FieldsHaveSorts (D.declarations m.now.sight.declared.now) p → IsFormula result (formula_meant p (D.declarations m.now.sight.declared.now) m.now.sight.class m.now.sight.result (spelling_view m.now.spelled.now) (when_view t) (visible names.now) (spec_view e.now)) }
{
    match &e.form {
        SpecForm::Boolean(holds) => truth(*holds),
        SpecForm::Parenthesized(o) => formula_of(m, t, o, names),
        SpecForm::Cast(_, o) => formula_of(m, t, o, names),
        SpecForm::Old(o) => formula_of(m, When::Before, o, names),
        SpecForm::Prefix(operator, o) => match *operator {
            SpecPrefix::Not => not(m.alloc, formula_of(m, t, o, names)),
            SpecPrefix::Plus => is_true(term_of(m, t, e, names)),
            SpecPrefix::Minus => is_true(term_of(m, t, e, names)),
        },
        SpecForm::Infix(operator, a, b) => {
            let of_boolean = is_boolean(static_type(&m.sight, a, names));
            match sides_of(*operator, of_boolean) {
                Operands::Truths => {
                    let first = formula_of(m, t, a, names);
                    of_truths(m.alloc, *operator, first, formula_of(m, t, b, names))
                }
                Operands::Values => {
                    let first = term_of(m, t, a, names);
                    of_values(m.alloc, *operator, first, term_of(m, t, b, names))
                }
                Operands::Numbers => is_true(term_of(m, t, e, names)),
            }
        }
        SpecForm::InstanceOf(o, w) => {
            let kind = kind_of(type_by(m.sight.declared, &w.written));
            instance(kind, term_of(m, t, o, names))
        }
        SpecForm::Conditional(c, a, b) => {
            let condition = formula_of(m, t, c, names);
            let first = formula_of(m, t, a, names);
            choice(
                m.alloc,
                m.limit,
                condition,
                first,
                formula_of(m, t, b, names),
            )
        }
        SpecForm::Implies(a, b) => {
            let first = formula_of(m, t, a, names);
            connected(
                m.alloc,
                Connective::Implies,
                first,
                formula_of(m, t, b, names),
            )
        }
        SpecForm::Equivalent(a, b) => {
            let first = formula_of(m, t, a, names);
            connected(m.alloc, Connective::Iff, first, formula_of(m, t, b, names))
        }
        SpecForm::Fresh(o) => fresh_now(m, term_of(m, t, o, names)),
        SpecForm::InvariantFor(o) => {
            compared(Comparison::Invariant, heap(m, t), term_of(m, t, o, names))
        }
        SpecForm::Quantified(q, u, x, o) => {
            let inner = bound(names, x, bound_value(m.sight.declared, u));
            let over = over_type(m.sight.declared, u);
            quantified(m, t, *q, over, formula_of(m, t, o, &inner))
        }
        SpecForm::QuantifiedIn(q, u, x, r, o) => {
            let inner = bound(names, x, bound_value(m.sight.declared, u));
            let over = over_type(m.sight.declared, u);
            let range = formula_of(m, t, r, &inner);
            let whole = ranged(m.alloc, *q, range, formula_of(m, t, o, &inner));
            quantified(m, t, *q, over, whole)
        }
        SpecForm::Integer(_) => is_true(term_of(m, t, e, names)),
        SpecForm::Null => is_true(term_of(m, t, e, names)),
        SpecForm::This => is_true(term_of(m, t, e, names)),
        SpecForm::Result => is_true(term_of(m, t, e, names)),
        SpecForm::Name(_) => is_true(term_of(m, t, e, names)),
        SpecForm::Field(_, _) => is_true(term_of(m, t, e, names)),
        SpecForm::Call(_, _) => is_true(term_of(m, t, e, names)),
        SpecForm::MethodCall(_, _, _) => is_true(term_of(m, t, e, names)),
        SpecForm::Index(_, _) => is_true(term_of(m, t, e, names)),
        SpecForm::Sum(_, _, _, _) => is_true(term_of(m, t, e, names)),
    }
}
