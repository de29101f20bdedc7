//! What stands for an expression or locations as a whole.

ghost use Rattle.std.specs.Prelude.{◌≡◌, ◌≤◌, IfErr, IfOk, OnOk, map};
ghost use Rattle.jd_sized_makers.specs.Made.{IsFormula};
ghost use Rattle.jd_jml_formulas.specs.Meant.{formula_meant, locations_meant, term_meant};
ghost use Rattle.jd_jml_formulas.specs.Spellings.{spelling_view, when_view};
ghost use Rattle.jd_jml_formulas.specs.Limits.{Tells};
ghost use Rattle.jd_jml_known.specs.Members.{FieldsHaveSorts};
ghost use Rattle.jd_jml_known.specs.Scopes.{visible};
ghost use Rattle.jd_model.specs.Programs.{Program};
ghost use Rattle.jd_syntax.specs.SpecTrees.{location_view, spec_view};
ghost use Rattle.jd_term.specs.Formulas.{PlainFormula, formula_view};
ghost use Rattle.jd_term.specs.FormulaSizes.{formula_size};
ghost use Rattle.jd_term.specs.Makers.{GivesLoc, GivesTerm};

use crate::formulas::formula_of;
use crate::making::{Making, When};
use crate::places::locations_of;
use crate::terms::term_of;
use jd_base::NoMemory;
use jd_jml_known::Names;
use jd_lists::discard;
use jd_naming::Declares;
use jd_sized_makers::{MadeFormula, MadeTerm};
use jd_syntax::{LocExpr, SpecExpr};
use jd_term::{Formula, Loc, Term};

/// Why a formula is not made.
#[derive(Clone, Copy, PartialEq, Eq, Debug)]
pub enum Unmade {
    /// It would have more nodes than it may.
    TooLarge,
    /// Memory ran out.
    NoMemory,
}

// The formula, where it may have so many nodes.
#[tactic(auto, using(crate::proofs::Bounds::too_many, crate::proofs::Bounds::few))]
fn within(limit: u32, made: MadeFormula) -> Result<Formula, Unmade>
    ensures made { (x : PlainFormula) → IsFormula made x → IfOk result (λ f. formula_view f ≡ x) }
    ensures fits { (x : PlainFormula) → IsFormula made x → OnOk result (formula_size x ≤ limit) }
    ensures why { (x : PlainFormula) → IsFormula made x → IfErr result (λ e. Tells limit (formula_size x) e) }
{
    let MadeFormula { tree, size } = made;
    if size > u64::from(limit) {
        discard(tree);
        return Err(Unmade::TooLarge);
    }
    match tree {
        Ok(f) => Ok(f),
        Err(NoMemory) => Err(Unmade::NoMemory),
    }
}

/// The formula that stands for an expression in which no token is refused, at this time, where the program's fields have the sorts of their
/// types. Time and memory grow with the tree and the limit: a condition that passes the limit is counted and not copied.
///
/// # Errors
///
/// `TooLarge` where the formula has more nodes than `limit`, whatever memory there is, and `NoMemory`, also where a bound variable stands
/// inside of more than `u32::MAX` binders.
pub fn formula<'n, D: Declares>(
    m: &Making<'_, D>,
    t: When,
    e: &'n SpecExpr,
    names: &'n Names<'n>,
) -> Result<Formula, Unmade>
    ensures made { (p : Program) → FieldsHaveSorts (D.declarations m.now.sight.declared.now) p → IfOk result (λ f. formula_view f ≡ formula_meant p (D.declarations m.now.sight.declared.now) m.now.sight.class m.now.sight.result (spelling_view m.now.spelled.now) (when_view t) (visible names.now) (spec_view e.now)) }
    ensures fits { (p : Program) → FieldsHaveSorts (D.declarations m.now.sight.declared.now) p → OnOk result (formula_size (formula_meant p (D.declarations m.now.sight.declared.now) m.now.sight.class m.now.sight.result (spelling_view m.now.spelled.now) (when_view t) (visible names.now) (spec_view e.now)) ≤ m.now.limit) }
    ensures why { (p : Program) → FieldsHaveSorts (D.declarations m.now.sight.declared.now) p → IfErr result (λ u. Tells m.now.limit (formula_size (formula_meant p (D.declarations m.now.sight.declared.now) m.now.sight.class m.now.sight.result (spelling_view m.now.spelled.now) (when_view t) (visible names.now) (spec_view e.now))) u) }
{
    within(m.limit, formula_of(m, t, e, names))
}

/// The term that stands for an expression in which no token is refused, at this time, where the program's fields have the sorts of their
/// types. It is no larger than its tree but for what the names in it stand for.
///
/// # Errors
///
/// `NoMemory`, also where a bound variable stands inside of more than `u32::MAX` binders.
pub fn term<'n, D: Declares>(
    m: &Making<'_, D>,
    t: When,
    e: &'n SpecExpr,
    names: &'n Names<'n>,
) -> Result<Term, NoMemory>
    ensures { (p : Program) → FieldsHaveSorts (D.declarations m.now.sight.declared.now) p → GivesTerm result (term_meant p (D.declarations m.now.sight.declared.now) m.now.sight.class m.now.sight.result (spelling_view m.now.spelled.now) (when_view t) (visible names.now) (spec_view e.now)) }
{
    let MadeTerm { tree, size: _ } = term_of(m, t, e, names);
    tree
}

/// The location set that stands for those of a clause in which no token is refused, at this time, where the program's fields have the sorts
/// of their types.
///
/// # Errors
///
/// `NoMemory`, also where a bound variable stands inside of more than `u32::MAX` binders.
pub fn locations<'n, D: Declares>(
    m: &Making<'_, D>,
    t: When,
    ls: &'n [LocExpr],
    names: &'n Names<'n>,
) -> Result<Loc, NoMemory>
    ensures { (p : Program) → FieldsHaveSorts (D.declarations m.now.sight.declared.now) p → GivesLoc result (locations_meant p (D.declarations m.now.sight.declared.now) m.now.sight.class m.now.sight.result (spelling_view m.now.spelled.now) (when_view t) (visible names.now) (map location_view ls.now)) }
{
    locations_of(m, t, ls, names)
}
