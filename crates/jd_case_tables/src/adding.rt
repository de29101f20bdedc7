//! The rows of what runs, one behind the other.

ghost use Rattle.std.specs.Prelude.{◌≡◌, ◌+◌, ◌++◌, ◌∷◌, ℕ, [], IfErr, IfOk, List, OnOk, Some, flat_map, length, map};
ghost use Rattle.jd_case_heads.specs.Parameters.{decl_name};
ghost use Rattle.jd_case_tables.specs.Large.{TellsOfCases, TellsOfContracts};
ghost use Rattle.jd_case_tables.specs.Numbered.{rows_from};
ghost use Rattle.jd_case_clauses.specs.Whole.{TellsOfCase};
ghost use Rattle.jd_case_tables.specs.Placed.{MarksStand, place_at, written_view};
ghost use Rattle.jd_case_tables.specs.Spelled.{contract_for};
ghost use Rattle.jd_case_tables.specs.Running.{cases_of_run, run_view};
ghost use Rattle.jd_case_tables.specs.Worlds.{AreListed, IsKnown};
ghost use Rattle.jd_check.specs.Building.{body_view};
ghost use Rattle.jd_classes.specs.Tables.{AreTables};
ghost use Rattle.jd_jml_cases.specs.Laws.{contract_of_case};
ghost use Rattle.jd_jml_cases.specs.Trees.{AreTrees};
ghost use Rattle.jd_jml_formulas.specs.declared.whole.Unmade.TheVariants as causes;
ghost use Rattle.jd_jml_written.specs.Views as views;
ghost use Rattle.jd_jmlcheck.specs.Views.{method_spec_view};
ghost use Rattle.jd_listed_tables.specs.Listed.{rows_of};
ghost use Rattle.jd_jml_written.specs.Marked.{marks_of};
ghost use Rattle.jd_model.specs.Cases.{Contract};
ghost use Rattle.jd_model.specs.ContractForms.{PlainCase, case_view};
ghost use Rattle.jd_model.specs.Programs.{Body, Program};
ghost use Rattle.jd_row_makers.specs.Heads.{field_view};
ghost use Rattle.jd_row_makers.specs.Rows.{FieldsAre, row_with};
ghost use Rattle.jd_specifications.specs.WrittenCases as plain;
ghost use Rattle.jd_syntax.specs.JavaTrees.{JavaUnit, method_view};

use crate::fields::fields_along;
use crate::listed::{Lists, cases_at, parameters_among, variables_at, written_at};
use crate::row::{Rows, Written, builds, case_row};
use crate::runs::Run;
use jd_base::NoMemory;
use jd_jml_formulas::Unmade;
use jd_lists::put;
use jd_model::CaseForm;
use jd_naming::Declares;
use jd_row_makers::{CaseNumber, FieldSort};
use jd_syntax::{SpecCase, VarDecl};

// The fields of a new object, where this is a constructor.
fn new_fields<D: Declares>(
    rows: &Rows<'_, D>,
    l: Lists<'_>,
    written: Written<'_>,
) -> Result<Vec<FieldSort>, NoMemory>
    requires { (units : List JavaUnit) × AreTables units l.classes.now }
    ensures { (units : List JavaUnit) (p : Program) (fields : ℕ → List ℕ) (m : ℕ) → AreTables units l.entry.classes.now → IsKnown units (D.declarations rows.now.declared.now) p fields rows.now.throwable.0 → place_at units m ≡ Some (written_view written.entry)
        → IfOk result (λ v. FieldsAre p fields (plain.role (D.declarations rows.now.declared.now) written.entry.class.0 (method_view written.entry.tree.now)) (map field_view v.items)) }
{
    if builds(&written.tree.result) {
        fields_along(rows.alloc, rows.declared, l.classes, written.class)
    } else {
        Ok(Vec::new(rows.alloc))
    }
}

// The row of a case that is written at this declaration.
fn row_at<D: Declares>(
    rows: &Rows<'_, D>,
    l: Lists<'_>,
    id: CaseNumber,
    written: Written<'_>,
    case: &SpecCase,
    variables: &[VarDecl],
) -> Result<CaseForm, Unmade>
    requires { (units : List JavaUnit) × AreTables units l.classes.now }
    ensures made { (units : List JavaUnit) (p : Program) (fields : ℕ → List ℕ) (b : Body) (m : ℕ) → AreTables units l.entry.classes.now → IsKnown units (D.declarations rows.now.declared.now) p fields rows.now.throwable.0 → place_at units m ≡ Some (written_view written.entry)
        → (views.case_view case.now).marks ≡ marks_of (method_view written.entry.tree.now) → b.parameters ≡ map decl_name variables.now
        → IfOk result (λ f. case_view f ≡ row_with p fields id.method.0 id.class.0 id.number (contract_for p b (D.declarations rows.now.declared.now) written.entry.class.0 (method_view written.entry.tree.now) (views.case_view case.now))) }
    ensures why { (units : List JavaUnit) (p : Program) (fields : ℕ → List ℕ) (b : Body) → AreTables units l.entry.classes.now → IsKnown units (D.declarations rows.now.declared.now) p fields rows.now.throwable.0
        → (views.case_view case.now).marks ≡ marks_of (method_view written.entry.tree.now) → b.parameters ≡ map decl_name variables.now
        → IfErr result (TellsOfCase rows.now.limit (contract_for p b (D.declarations rows.now.declared.now) written.entry.class.0 (method_view written.entry.tree.now) (views.case_view case.now))) }
{
    match new_fields(rows, l, written) {
        Err(NoMemory) => Err(Unmade::NoMemory),
        Ok(fields) => case_row(rows, id, written, case, variables, &fields),
    }
}

// The number behind this one; memory holds not so many cases that a number would not do.
fn next(number: u32) -> Result<u32, Unmade>
    ensures made { IfOk result (λ n. n ≡ number + 1) }
    ensures why { IfErr result (λ u. u ≡ causes.NoMemory) }
{
    match number.checked_add(1) {
        Some(n) => Ok(n),
        None => Err(Unmade::NoMemory),
    }
}

// Puts a row behind others, and gives the number of the next.
fn add_row(
    made: &mut Vec<CaseForm>,
    row: Result<CaseForm, Unmade>,
    number: u32,
) -> Result<u32, Unmade>
    ensures made { (x : PlainCase) → IfOk row (λ f. case_view f ≡ x) → OnOk result (map case_view made.new.items ≡ map case_view made.old.items ++ x ∷ []) }
    ensures number { IfOk result (λ n. n ≡ number + 1) }
    ensures why { (limit : ℕ) (k : Contract) → IfErr row (TellsOfCase limit k) → IfErr result (TellsOfCase limit k) }
{
    match row {
        Err(cause) => Err(cause),
        Ok(row) => match put(made, row) {
            Err(NoMemory) => Err(Unmade::NoMemory),
            Ok(()) => next(number),
        },
    }
}

// Adds the row of a case, where its declaration is there, and gives the number of the next.
fn add_case<D: Declares>(
    rows: &Rows<'_, D>,
    l: Lists<'_>,
    made: &mut Vec<CaseForm>,
    id: CaseNumber,
    case: &SpecCase,
    variables: &[VarDecl],
) -> Result<u32, Unmade>
    requires { (units : List JavaUnit) × AreTables units l.classes.now }
    ensures made { (units : List JavaUnit) (p : Program) (fields : ℕ → List ℕ) (b : Body) → AreTables units l.entry.classes.now → AreTrees units l.entry.trees.now → IsKnown units (D.declarations rows.now.declared.now) p fields rows.now.throwable.0
        → MarksStand units (views.case_view case.now ∷ []) → b.parameters ≡ map decl_name variables.now
        → OnOk result (map case_view made.new.items ≡ map case_view made.old.items ++ rows_from p fields b id.class.0 id.method.0 id.number (contract_of_case units (D.declarations rows.now.declared.now) (views.case_view case.now))) }
    ensures number { (units : List JavaUnit) → AreTables units l.entry.classes.now → AreTrees units l.entry.trees.now
        → IfOk result (λ n. n ≡ id.number + length (contract_of_case units (D.declarations rows.now.declared.now) (views.case_view case.now))) }
    ensures why { (units : List JavaUnit) (p : Program) (fields : ℕ → List ℕ) (b : Body) → AreTables units l.entry.classes.now → AreTrees units l.entry.trees.now → IsKnown units (D.declarations rows.now.declared.now) p fields rows.now.throwable.0
        → MarksStand units (views.case_view case.now ∷ []) → b.parameters ≡ map decl_name variables.now
        → IfErr result (TellsOfContracts rows.now.limit p b (contract_of_case units (D.declarations rows.now.declared.now) (views.case_view case.now))) }
{
    match written_at(l, case.declared) {
        None => Ok(id.number),
        Some(written) => add_row(
            made,
            row_at(rows, l, id, written, case, variables),
            id.number,
        ),
    }
}

// Adds the rows of cases, which are numbered from 1.
fn add_cases<D: Declares>(
    rows: &Rows<'_, D>,
    l: Lists<'_>,
    made: &mut Vec<CaseForm>,
    run: Run,
    cases: &[SpecCase],
    variables: &[VarDecl],
) -> Result<(), Unmade>
    requires { (units : List JavaUnit) × AreTables units l.classes.now }
    ensures made { (units : List JavaUnit) (p : Program) (fields : ℕ → List ℕ) (b : Body) → AreTables units l.entry.classes.now → AreTrees units l.entry.trees.now → IsKnown units (D.declarations rows.now.declared.now) p fields rows.now.throwable.0
        → MarksStand units (map views.case_view cases.now) → b.parameters ≡ map decl_name variables.now
        → OnOk result (map case_view made.new.items ≡ map case_view made.old.items ++ rows_from p fields b run.class.0 run.method.0 1 (flat_map (contract_of_case units (D.declarations rows.now.declared.now)) (map views.case_view cases.now))) }
    ensures why { (units : List JavaUnit) (p : Program) (fields : ℕ → List ℕ) (b : Body) → AreTables units l.entry.classes.now → AreTrees units l.entry.trees.now → IsKnown units (D.declarations rows.now.declared.now) p fields rows.now.throwable.0
        → MarksStand units (map views.case_view cases.now) → b.parameters ≡ map decl_name variables.now
        → IfErr result (TellsOfContracts rows.now.limit p b (flat_map (contract_of_case units (D.declarations rows.now.declared.now)) (map views.case_view cases.now))) }
{
    let mut number = 1;
    for case in cases {
        let id = CaseNumber {
            method: run.method,
            class: run.class,
            number,
        };
        number = add_case(rows, l, made, id, case, variables)?;
    }
    Ok(())
}

// Adds the rows of a method or constructor that runs for a class.
fn add_run<D: Declares>(
    rows: &Rows<'_, D>,
    l: Lists<'_>,
    made: &mut Vec<CaseForm>,
    run: &Run,
) -> Result<(), Unmade>
    requires { (units : List JavaUnit) × AreTables units l.classes.now }
    ensures made { (units : List JavaUnit) (p : Program) (fields : ℕ → List ℕ) → AreTables units l.entry.classes.now → AreTrees units l.entry.trees.now → IsKnown units (D.declarations rows.now.declared.now) p fields rows.now.throwable.0
        → AreListed units p (map method_spec_view l.entry.specs.now) (map body_view l.entry.bodies.now)
        → OnOk result (map case_view made.new.items ≡ map case_view made.old.items ++ rows_of p fields (cases_of_run units (D.declarations rows.now.declared.now) (run_view run.now))) }
    ensures why { (units : List JavaUnit) (p : Program) (fields : ℕ → List ℕ) → AreTables units l.entry.classes.now → AreTrees units l.entry.trees.now → IsKnown units (D.declarations rows.now.declared.now) p fields rows.now.throwable.0
        → AreListed units p (map method_spec_view l.entry.specs.now) (map body_view l.entry.bodies.now)
        → IfErr result (TellsOfCases rows.now.limit p (cases_of_run units (D.declarations rows.now.declared.now) (run_view run.now))) }
{
    match written_at(l, run.method) {
        None => Ok(()),
        Some(written) => add_cases(
            rows,
            l,
            made,
            *run,
            cases_at(l.specs, run.method),
            parameters_among(written.tree, variables_at(l.bodies, run.method)),
        ),
    }
}

/// Adds the rows of all that run, one behind the other.
pub(crate) fn add_runs<D: Declares>(
    rows: &Rows<'_, D>,
    l: Lists<'_>,
    made: &mut Vec<CaseForm>,
    runs: &[Run],
) -> Result<(), Unmade>
    requires { (units : List JavaUnit) × AreTables units l.classes.now }
    ensures made { (units : List JavaUnit) (p : Program) (fields : ℕ → List ℕ) → AreTables units l.entry.classes.now → AreTrees units l.entry.trees.now → IsKnown units (D.declarations rows.now.declared.now) p fields rows.now.throwable.0
        → AreListed units p (map method_spec_view l.entry.specs.now) (map body_view l.entry.bodies.now)
        → OnOk result (map case_view made.new.items ≡ map case_view made.old.items ++ rows_of p fields (flat_map (cases_of_run units (D.declarations rows.now.declared.now)) (map run_view runs.now))) }
    ensures why { (units : List JavaUnit) (p : Program) (fields : ℕ → List ℕ) → AreTables units l.entry.classes.now → AreTrees units l.entry.trees.now → IsKnown units (D.declarations rows.now.declared.now) p fields rows.now.throwable.0
        → AreListed units p (map method_spec_view l.entry.specs.now) (map body_view l.entry.bodies.now)
        → IfErr result (TellsOfCases rows.now.limit p (flat_map (cases_of_run units (D.declarations rows.now.declared.now)) (map run_view runs.now))) }
{
    for run in runs {
        add_run(rows, l, made, run)?;
    }
    Ok(())
}
