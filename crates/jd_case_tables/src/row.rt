//! The row of one case.

ghost use Rattle.std.specs.Prelude.{◌≡◌, ℕ, IfErr, IfOk, List, map};
ghost use Rattle.jd_bodies.specs.Declarations.{Declarations};
ghost use Rattle.jd_case_clauses.specs.Whole.{SaysClauses, TellsOfCase};
ghost use Rattle.jd_case_heads.specs.Parameters.{decl_name};
ghost use Rattle.jd_case_tables.specs.Spelled.{contract_for};
ghost use Rattle.jd_jml_formulas.specs.Spellings.{spelling_view};
ghost use Rattle.jd_jml_known.specs.Members.{FieldsHaveSorts};
ghost use Rattle.jd_jml_known.specs.Scopes.{known_of};
ghost use Rattle.jd_jml_meaning.specs.ContractFormulas.{contract_of};
ghost use Rattle.jd_jml_meaning.specs.JmlContracts.{JmlContract};
ghost use Rattle.jd_jml_written.specs.Marked.{marks_of};
ghost use Rattle.jd_jml_written.specs.Views as views;
ghost use Rattle.jd_model.specs.Cases.{Contract};
ghost use Rattle.jd_model.specs.ContractForms.{case_view};
ghost use Rattle.jd_model.specs.Programs.{Body, Program};
ghost use Rattle.jd_row_makers.specs.Heads.{field_view};
ghost use Rattle.jd_row_makers.specs.Rows.{AreClauses, FieldsAre, IsHead, row_with};
ghost use Rattle.jd_specifications.specs.WrittenCases as plain;
ghost use Rattle.jd_syntax.specs.JavaTrees.{method_view, result_view};

use jd_base::{ClassId, NoMemory, both};
use jd_bodies::ValueType;
use jd_case_clauses::{clauses, method_names, spelled};
use jd_case_heads::head;
use jd_jml_formulas::{Making, Spelled, Unmade};
use jd_jml_known::{KnownNames, Sight};
use jd_judging::type_by;
use jd_model::CaseForm;
use jd_naming::Declares;
use jd_row_makers::{CaseNumber, Clauses, FieldSort, Head, case_form};
use jd_syntax::{MethodDecl, ResultType, SpecCase, VarDecl};
use std::alloc::Global;

/// What rows are made with.
#[derive(Clone, Copy)]
pub struct Rows<'a, D> {
    /// Where memory is taken.
    pub alloc: Global,
    /// What the program declares.
    pub declared: &'a D,
    /// The class of all that is thrown.
    pub throwable: ClassId,
    /// How many nodes a formula may have.
    pub limit: u32,
}

/// A declaration at which cases are written.
#[derive(Clone, Copy)]
pub struct Written<'a> {
    /// The class that has it.
    pub class: ClassId,
    /// The method or constructor.
    pub tree: &'a MethodDecl,
}

// The type of `\result`.
fn result_value<D: Declares>(d: &D, gives: &ResultType) -> ValueType
    ensures { result ≡ plain.result_value (D.declarations d.now) (result_view gives.now) }
{
    match gives {
        ResultType::Void => ValueType::Missing,
        ResultType::Gives(w) => type_by(d, &w.written),
        ResultType::Constructor => ValueType::Missing,
    }
}

/// Whether it is a constructor.
pub(crate) fn builds(gives: &ResultType) -> bool
    ensures { (d : Declarations) → result ≡ plain.builds d (result_view gives.now) }
{
    match gives {
        ResultType::Void => false,
        ResultType::Gives(_) => false,
        ResultType::Constructor => true,
    }
}

// The clauses of a case, over the names in scope and the terms of what they speak of.
fn clauses_over<D: Declares>(
    rows: &Rows<'_, D>,
    written: Written<'_>,
    case: &SpecCase,
    names: &KnownNames,
    spelled: &Spelled,
) -> Result<Clauses, Unmade>
    ensures made { (p : Program) (c : JmlContract) → FieldsHaveSorts (D.declarations rows.now.declared.now) p
        → SaysClauses (D.declarations rows.now.declared.now) written.entry.class.0 (plain.result_value (D.declarations rows.now.declared.now) (method_view written.entry.tree.now).result) (known_of names.now) (spelling_view spelled.entry.now) (views.case_view case.now).marks.is_pure (plain.builds (D.declarations rows.now.declared.now) (method_view written.entry.tree.now).result) (views.case_view case.now).clauses c
        → IfOk result (λ v. AreClauses v (contract_of p c)) }
    ensures why { (p : Program) (c : JmlContract) → FieldsHaveSorts (D.declarations rows.now.declared.now) p
        → SaysClauses (D.declarations rows.now.declared.now) written.entry.class.0 (plain.result_value (D.declarations rows.now.declared.now) (method_view written.entry.tree.now).result) (known_of names.now) (spelling_view spelled.entry.now) (views.case_view case.now).marks.is_pure (plain.builds (D.declarations rows.now.declared.now) (method_view written.entry.tree.now).result) (views.case_view case.now).clauses c
        → IfErr result (TellsOfCase rows.now.limit (contract_of p c)) }
{
    let tree = written.tree;
    let sight = Sight {
        declared: rows.declared,
        class: written.class.0,
        result: result_value(rows.declared, &tree.result),
    };
    let m = Making {
        alloc: rows.alloc,
        sight,
        spelled,
        limit: rows.limit,
    };
    clauses(
        &m,
        names,
        &case.clauses,
        case.marks.is_pure,
        builds(&tree.result),
    )
}

// The clauses of a case of which this is the head.
fn clauses_below<D: Declares>(
    rows: &Rows<'_, D>,
    written: Written<'_>,
    case: &SpecCase,
    head: &Head,
) -> Result<Clauses, Unmade>
    ensures made { (p : Program) (b : Body) → FieldsHaveSorts (D.declarations rows.now.declared.now) p → (views.case_view case.now).marks ≡ marks_of (method_view written.entry.tree.now)
        → IsHead head.now (contract_for p b (D.declarations rows.now.declared.now) written.entry.class.0 (method_view written.entry.tree.now) (views.case_view case.now))
        → IfOk result (λ v. AreClauses v (contract_for p b (D.declarations rows.now.declared.now) written.entry.class.0 (method_view written.entry.tree.now) (views.case_view case.now))) }
    ensures why { (p : Program) (b : Body) → FieldsHaveSorts (D.declarations rows.now.declared.now) p → (views.case_view case.now).marks ≡ marks_of (method_view written.entry.tree.now)
        → IsHead head.now (contract_for p b (D.declarations rows.now.declared.now) written.entry.class.0 (method_view written.entry.tree.now) (views.case_view case.now))
        → IfErr result (TellsOfCase rows.now.limit (contract_for p b (D.declarations rows.now.declared.now) written.entry.class.0 (method_view written.entry.tree.now) (views.case_view case.now))) }
{
    let tree = written.tree;
    let spoken = both(
        method_names(rows.alloc, rows.declared, &tree.parameters),
        spelled(rows.alloc, &head.parameters, head.result),
    );
    match spoken {
        Err(NoMemory) => Err(Unmade::NoMemory),
        Ok((names, terms)) => clauses_over(rows, written, case, &names, &terms),
    }
}

// The row of a head and of what clauses were made.
fn formed<D: Declares>(
    rows: &Rows<'_, D>,
    id: CaseNumber,
    fields: &[FieldSort],
    head: &Head,
    made: Result<Clauses, Unmade>,
) -> Result<CaseForm, Unmade>
    ensures made { (p : Program) (own : ℕ → List ℕ) (k : Contract) → p.throwable ≡ rows.now.throwable.0 → IsHead head.now k → FieldsAre p own k.role (map field_view fields.now) → IfOk made (λ v. AreClauses v k)
        → IfOk result (λ f. case_view f ≡ row_with p own id.method.0 id.class.0 id.number k) }
    ensures why { (k : Contract) → IfErr made (TellsOfCase rows.now.limit k) → IfErr result (TellsOfCase rows.now.limit k) }
{
    match made {
        Err(cause) => Err(cause),
        Ok(said) => match case_form(rows.alloc, id, rows.throwable, fields, head, said) {
            Err(NoMemory) => Err(Unmade::NoMemory),
            Ok(row) => Ok(row),
        },
    }
}

/// The row of a case in the names of the body that runs, whose parameters are these variables, where no token of the case is refused (The
/// KeY Book, 8.2; JML Reference Manual, 8.2 and 9). The fields are those that a new object of the constructor's class has; of another
/// method none matter.
///
/// # Errors
///
/// `TooLarge` where a formula of its clauses has more nodes or levels than it may, or what may be assigned has more levels; else `NoMemory`.
pub fn case_row<D: Declares>(
    rows: &Rows<'_, D>,
    id: CaseNumber,
    written: Written<'_>,
    case: &SpecCase,
    variables: &[VarDecl],
    fields: &[FieldSort],
) -> Result<CaseForm, Unmade>
    ensures made { (p : Program) (own : ℕ → List ℕ) (b : Body) → FieldsHaveSorts (D.declarations rows.now.declared.now) p → p.throwable ≡ rows.now.throwable.0
        → (views.case_view case.now).marks ≡ marks_of (method_view written.entry.tree.now) → b.parameters ≡ map decl_name variables.now
        → FieldsAre p own (plain.role (D.declarations rows.now.declared.now) written.entry.class.0 (method_view written.entry.tree.now)) (map field_view fields.now)
        → IfOk result (λ f. case_view f ≡ row_with p own id.method.0 id.class.0 id.number (contract_for p b (D.declarations rows.now.declared.now) written.entry.class.0 (method_view written.entry.tree.now) (views.case_view case.now))) }
    ensures why { (p : Program) (b : Body) → FieldsHaveSorts (D.declarations rows.now.declared.now) p
        → (views.case_view case.now).marks ≡ marks_of (method_view written.entry.tree.now) → b.parameters ≡ map decl_name variables.now
        → IfErr result (TellsOfCase rows.now.limit (contract_for p b (D.declarations rows.now.declared.now) written.entry.class.0 (method_view written.entry.tree.now) (views.case_view case.now))) }
{
    match head(
        rows.alloc,
        rows.declared,
        written.class,
        written.tree,
        case,
        variables,
    ) {
        Err(NoMemory) => Err(Unmade::NoMemory),
        Ok(head) => formed(
            rows,
            id,
            fields,
            &head,
            clauses_below(rows, written, case, &head),
        ),
    }
}
