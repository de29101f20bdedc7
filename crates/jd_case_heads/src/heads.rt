//! What a declaration says of a case.

ghost use Rattle.std.specs.Prelude.{◌≡◌, IfOk, map, option_map};
ghost use Rattle.jd_bodies.specs.Declarations.{Declarations};
ghost use Rattle.jd_case_heads.specs.Parameters.{decl_name};
ghost use Rattle.jd_case_heads.specs.Roles.{method_role};
ghost use Rattle.jd_case_rows.specs.Rows.{spelled_for};
ghost use Rattle.jd_jml_meaning.specs.ContractFormulas.{contract_of};
ghost use Rattle.jd_jml_written.specs.Marked.{marks_of};
ghost use Rattle.jd_jml_written.specs.Views.{marks_view};
ghost use Rattle.jd_model.specs.Programs.{Body, Program};
ghost use Rattle.jd_row_makers.specs.Heads.{declared_view, role_view};
ghost use Rattle.jd_row_makers.specs.Rows.{IsHead};
ghost use Rattle.jd_specifications.specs.WrittenCases as plain;
ghost use Rattle.jd_specifications.specs.WrittenCases.{contract};
ghost use Rattle.jd_syntax.specs.JavaTrees.{method_view, result_view};
ghost use Rattle.jd_syntax.specs.SpecTrees.{clause_view};

use crate::parameters::{declared_type, parameters};
use crate::words::{behaviour, diverges};
use jd_base::{ClassId, NoMemory};
use jd_naming::Declares;
use jd_row_makers::{DeclaredType, Head, Role};
use jd_syntax::{Marks, MethodDecl, ResultType, SpecCase, VarDecl};
use std::alloc::Global;

// Whose the cases of a declaration are.
fn role(class: ClassId, tree: &MethodDecl, marks: &Marks) -> Role
    ensures { (d : Declarations) → marks_view marks.now ≡ marks_of (method_view tree.now) → role_view result ≡ plain.role d class.0 (method_view tree.now) }
{
    match &tree.result {
        ResultType::Constructor => Role::Constructor(class),
        ResultType::Void => method_role(tree, marks),
        ResultType::Gives(_) => method_role(tree, marks),
    }
}

// Of a method.
fn method_role(tree: &MethodDecl, marks: &Marks) -> Role
    ensures { marks_view marks.now ≡ marks_of (method_view tree.now) → role_view result ≡ method_role (method_view tree.now) }
{
    if tree.is_static {
        Role::Static
    } else if marks.is_helper {
        Role::Helper
    } else {
        Role::Ordinary
    }
}

// What a method gives, with its mark.
fn outcome<D: Declares>(d: &D, gives: &ResultType, nullable: bool) -> Option<DeclaredType>
    ensures { option_map declared_view result ≡ plain.result (D.declarations d.now) (result_view gives.now) nullable }
{
    match gives {
        ResultType::Void => None,
        ResultType::Gives(w) => Some(declared_type(d, w, nullable)),
        ResultType::Constructor => None,
    }
}

/// What a declaration says of a case beside its clauses, with the constants of the parameters of the body that runs, whose variables these are
/// (JML Reference Manual, 6.2, 9).
///
/// # Errors
///
/// `NoMemory` if memory runs out.
pub fn head<D: Declares>(
    alloc: Global,
    d: &D,
    class: ClassId,
    tree: &MethodDecl,
    case: &SpecCase,
    variables: &[VarDecl],
) -> Result<Head, NoMemory>
    ensures { (p : Program) (b : Body) → marks_view case.now.marks ≡ marks_of (method_view tree.now) → b.parameters ≡ map decl_name variables.now
        → IfOk result (λ h. IsHead h (contract_of p (spelled_for b (contract (D.declarations d.now) class.0 (method_view tree.now) (map clause_view case.now.clauses.items))))) }
{
    let parameters = parameters(
        alloc,
        d,
        &tree.parameters,
        &case.marks.nullable_params,
        variables,
    )?;
    Ok(Head {
        role: role(class, tree, &case.marks),
        parameters,
        result: outcome(d, &tree.result, case.marks.nullable_result),
        behaviour: behaviour(&case.clauses),
        diverges: diverges(&case.clauses),
    })
}
