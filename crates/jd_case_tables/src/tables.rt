//! The rows of all cases of a program.

ghost use Rattle.std.specs.Prelude.{◌≡◌, ℕ, IfErr, IfOk, List, flat_map, map};
ghost use Rattle.jd_bodies.specs.Bodies as made;
ghost use Rattle.jd_case_tables.specs.Large.{TellsOfCases};
ghost use Rattle.jd_case_tables.specs.Running.{cases_of_run, run_view};
ghost use Rattle.jd_case_tables.specs.Worlds.{AreListed, IsKnown};
ghost use Rattle.jd_check.specs.Building.{body_view};
ghost use Rattle.jd_classes.specs.Tables.{AreTables};
ghost use Rattle.jd_jml_cases.specs.Trees.{AreTrees};
ghost use Rattle.jd_jml_meaning.specs.JmlCases.{JmlProgram};
ghost use Rattle.jd_jmlcheck.specs.Specified.{specs_of};
ghost use Rattle.jd_jmlcheck.specs.Views.{method_spec_view};
ghost use Rattle.jd_listed_tables.specs.Listed as listed;
ghost use Rattle.jd_listed_tables.specs.Listed.{rows_of};
ghost use Rattle.jd_model.specs.ContractForms.{case_view};
ghost use Rattle.jd_model.specs.Programs.{Program};
ghost use Rattle.jd_programs.specs.Cases.{all_cases};
ghost use Rattle.jd_programs.specs.Programs.{IsProgram};
ghost use Rattle.jd_syntax.specs.JavaTrees.{JavaUnit};

use crate::adding::add_runs;
use crate::listed::Lists;
use crate::row::Rows;
use crate::runs::{Run, runs};
use jd_base::{ClassId, NoMemory, both};
use jd_body_variables::bodies_begin_with_parameters;
use jd_check::Body;
use jd_classes::Classes;
use jd_field_sorts::fields_have_sorts;
use jd_inherited_cases::{inherited_cases_are_those, seen_methods_are_methods};
use jd_jml_cases::{cases_are_contracts, lineages_are_classes_up, method_trees};
use jd_jml_formulas::Unmade;
use jd_jmlcheck::MethodSpec;
use jd_model::CaseForm;
use jd_naming::Declares;
use std::alloc::Global;

// The rows of all that run.
fn rows_for<D: Declares>(
    rows: &Rows<'_, D>,
    l: Lists<'_>,
    runs: &[Run],
) -> Result<Vec<CaseForm>, Unmade>
    requires { (units : List JavaUnit) × AreTables units l.classes.now }
    ensures made { (units : List JavaUnit) (p : Program) (fields : ℕ → List ℕ) → AreTables units l.entry.classes.now → AreTrees units l.entry.trees.now → IsKnown units (D.declarations rows.now.declared.now) p fields rows.now.throwable.0
        → AreListed units p (map method_spec_view l.entry.specs.now) (map body_view l.entry.bodies.now)
        → IfOk result (λ v. map case_view v.items ≡ rows_of p fields (flat_map (cases_of_run units (D.declarations rows.now.declared.now)) (map run_view runs.now))) }
    ensures why { (units : List JavaUnit) (p : Program) (fields : ℕ → List ℕ) → AreTables units l.entry.classes.now → AreTrees units l.entry.trees.now → IsKnown units (D.declarations rows.now.declared.now) p fields rows.now.throwable.0
        → AreListed units p (map method_spec_view l.entry.specs.now) (map body_view l.entry.bodies.now)
        → IfErr result (TellsOfCases rows.now.limit p (flat_map (cases_of_run units (D.declarations rows.now.declared.now)) (map run_view runs.now))) }
{
    let mut made = Vec::new(rows.alloc);
    match add_runs(rows, l, &mut made, runs) {
        Ok(()) => Ok(made),
        Err(cause) => Err(cause),
    }
}

/// The rows of all cases of a program, in the order of its obligations, where no token of its bodies and JML is refused (The KeY Book, 8.2;
/// JML Reference Manual, 8.2 and 9): of each class those of the constructors that run for it, then of its methods. A formula has at most
/// `limit` nodes. Time grows as what is listed.
///
/// # Errors
///
/// `TooLarge` where a formula of one of the cases has more nodes or levels than it may, or what may be assigned has more levels; else
/// `NoMemory`.
pub fn case_rows<D: Declares>(
    alloc: Global,
    d: &D,
    classes: &Classes,
    specs: &[MethodSpec],
    bodies: &[Body],
    limit: u32,
) -> Result<Vec<CaseForm>, Unmade>
    requires { (units : List JavaUnit) × AreTables units classes.now }
    ensures made { (units : List JavaUnit) (j : JmlProgram) (is : IsProgram units j) → AreTables units classes.now → is.declarations ≡ D.declarations d.now
        → map method_spec_view specs.now ≡ (specs_of units).methods → map body_view bodies.now ≡ made.bodies (D.declarations d.now) units
        → IfOk result (λ v. map case_view v.items ≡ listed.case_rows units (D.declarations d.now) j.program j.own) }
    ensures why { (units : List JavaUnit) (j : JmlProgram) (is : IsProgram units j) → AreTables units classes.now → is.declarations ≡ D.declarations d.now
        → map method_spec_view specs.now ≡ (specs_of units).methods → map body_view bodies.now ≡ made.bodies (D.declarations d.now) units
        → IfErr result (TellsOfCases limit j.program (all_cases units j.program.superclasses (D.declarations d.now) (λ m. m))) }
{
    bodies_begin_with_parameters();
    fields_have_sorts();
    inherited_cases_are_those();
    seen_methods_are_methods();
    cases_are_contracts();
    lineages_are_classes_up();
    let rows = Rows {
        alloc,
        declared: d,
        throwable: ClassId(1),
        limit,
    };
    match both(method_trees(alloc, classes), runs(alloc, d, classes)) {
        Err(NoMemory) => Err(Unmade::NoMemory),
        Ok((trees, runs)) => {
            let l = Lists {
                classes,
                trees: &trees,
                specs,
                bodies,
            };
            rows_for(&rows, l, &runs)
        }
    }
}
