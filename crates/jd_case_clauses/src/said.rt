//! The formulas of clauses that say one expression each.

ghost use Rattle.std.specs.Prelude.{◌≡◌, ◌++◌, ◌∷◌, [], ℕ, IfErr, IfOk, OnOk, map, option_map};
ghost use Rattle.std.specs.Borrow.{Bor};
ghost use Rattle.jd_case_clauses.specs.Said.{TellsOfOne, ensured_in, listed, made_of, required_in, said_in};
ghost use Rattle.jd_jml_formulas.specs.Meant.{formula_meant};
ghost use Rattle.jd_jml_formulas.specs.Limits.{Tells};
ghost use Rattle.jd_jml_formulas.specs.Spellings.{spelling_view, when_view};
ghost use Rattle.jd_jml_known.specs.Members.{FieldsHaveSorts};
ghost use Rattle.jd_jml_known.specs.Scopes.{known_of};
ghost use Rattle.jd_model.specs.Programs.{Program};
ghost use Rattle.jd_syntax.specs.SpecTrees.{clause_view, spec_view};
ghost use Rattle.jd_syntax.specs.declared.spec.SpecExpr.{SpecExpr};
ghost use Rattle.jd_term.specs.Formulas.{PlainFormula, formula_view};
ghost use Rattle.jd_term.specs.FormulaSizes.{formula_size};

use jd_base::NoMemory;
use jd_jml_formulas::{Making, Unmade, When, formula};
use jd_jml_known::{KnownNames, of_method};
use jd_lists::put;
use jd_naming::Declares;
use jd_syntax::{ClauseForm, SpecClause, SpecExpr};
use jd_term::Formula;

/// Which clauses are looked for.
#[derive(Clone, Copy)]
pub enum Kind {
    /// `requires`
    Requires,
    /// `ensures`
    Ensures,
}

// What a clause `requires`.
fn required(c: &SpecClause) -> Option<&SpecExpr>
    ensures { option_map (λ (e : Bor SpecExpr). spec_view e.now) result ≡ required_in (clause_view c.now) }
{
    match &c.form {
        ClauseForm::Requires(e) => Some(e),
        _ => None,
    }
}

// What a clause `ensures`.
fn ensured(c: &SpecClause) -> Option<&SpecExpr>
    ensures { option_map (λ (e : Bor SpecExpr). spec_view e.now) result ≡ ensured_in (clause_view c.now) }
{
    match &c.form {
        ClauseForm::Ensures(e) => Some(e),
        _ => None,
    }
}

// What the clause says, if it is of the kind.
fn said(kind: Kind, c: &SpecClause) -> Option<&SpecExpr>
    ensures { option_map (λ (e : Bor SpecExpr). spec_view e.now) result ≡ said_in kind (clause_view c.now) }
{
    match kind {
        Kind::Requires => required(c),
        Kind::Ensures => ensured(c),
    }
}

/// Puts a formula that has been made behind others.
pub(crate) fn add(to: &mut Vec<Formula>, f: Result<Formula, Unmade>) -> Result<(), Unmade>
    ensures made { (x : PlainFormula) → IfOk f (λ g. formula_view g ≡ x) → OnOk result (map formula_view to.new.items ≡ map formula_view to.old.items ++ x ∷ []) }
    ensures why { (limit : ℕ) (x : PlainFormula) → IfErr f (Tells limit (formula_size x)) → IfErr result (TellsOfOne limit (x ∷ [])) }
    ensures of_one { (limit : ℕ) (x : PlainFormula) → IfErr f (TellsOfOne limit (x ∷ [])) → IfErr result (TellsOfOne limit (x ∷ [])) }
{
    let f = f?;
    match put(to, f) {
        Ok(()) => Ok(()),
        Err(NoMemory) => Err(Unmade::NoMemory),
    }
}

// Adds the formula of what a clause says, if it is of the kind.
fn add_said<D: Declares>(
    m: &Making<'_, D>,
    t: When,
    kind: Kind,
    names: &KnownNames,
    to: &mut Vec<Formula>,
    c: &SpecClause,
) -> Result<(), Unmade>
    ensures made { (p : Program) → FieldsHaveSorts (D.declarations m.now.sight.declared.now) p
        → OnOk result (map formula_view to.new.items ≡ map formula_view to.old.items ++ map (formula_meant p (D.declarations m.now.sight.declared.now) m.now.sight.class m.now.sight.result (spelling_view m.now.spelled.now) (when_view t) (known_of names.now)) (listed (said_in kind (clause_view c.now)))) }
    ensures why { (p : Program) → FieldsHaveSorts (D.declarations m.now.sight.declared.now) p
        → IfErr result (TellsOfOne m.now.limit (map (formula_meant p (D.declarations m.now.sight.declared.now) m.now.sight.class m.now.sight.result (spelling_view m.now.spelled.now) (when_view t) (known_of names.now)) (listed (said_in kind (clause_view c.now))))) }
{
    match said(kind, c) {
        None => Ok(()),
        Some(e) => {
            let scope = of_method(names);
            add(to, formula(m, t, e, &scope))
        }
    }
}

/// The formulas of the clauses of a kind, in their order, where no token is refused.
///
/// # Errors
///
/// `TooLarge` where one of them has more nodes than it may; else `NoMemory`.
pub fn formulas<D: Declares>(
    m: &Making<'_, D>,
    t: When,
    kind: Kind,
    names: &KnownNames,
    cs: &[SpecClause],
) -> Result<Vec<Formula>, Unmade>
    ensures made { (p : Program) → FieldsHaveSorts (D.declarations m.now.sight.declared.now) p
        → IfOk result (λ v. map formula_view v.items ≡ made_of (formula_meant p (D.declarations m.now.sight.declared.now) m.now.sight.class m.now.sight.result (spelling_view m.now.spelled.now) (when_view t) (known_of names.now)) kind (map clause_view cs.now)) }
    ensures why { (p : Program) → FieldsHaveSorts (D.declarations m.now.sight.declared.now) p
        → IfErr result (TellsOfOne m.now.limit (made_of (formula_meant p (D.declarations m.now.sight.declared.now) m.now.sight.class m.now.sight.result (spelling_view m.now.spelled.now) (when_view t) (known_of names.now)) kind (map clause_view cs.now))) }
{
    let mut made = Vec::new(m.alloc);
    for c in cs {
        add_said(m, t, kind, names, &mut made, c)?;
    }
    Ok(made)
}
