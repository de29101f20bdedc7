//! What is listed of methods and constructors by their numbers.

ghost use Rattle.std.specs.Prelude.{◌≡◌, List, cond, drop, map, option_map, take};
ghost use Rattle.std.specs.List.{slice_get};
ghost use Rattle.jd_case_tables.specs.Placed.{among_parameters, cases_in, place_at, variables_in, written_view};
ghost use Rattle.jd_check.specs.Building.{body_view};
ghost use Rattle.jd_classes.specs.Tables.{AreTables};
ghost use Rattle.jd_jml_cases.specs.Trees.{AreTrees};
ghost use Rattle.jd_jml_written.specs.Views as views;
ghost use Rattle.jd_jmlcheck.specs.Views.{method_spec_view};
ghost use Rattle.jd_syntax.specs.JavaTrees.{JavaUnit, method_view};
ghost use Rattle.jd_syntax.specs.Names.{decl_view};

use crate::row::Written;
use jd_base::MethodId;
use jd_check::Body;
use jd_classes::Classes;
use jd_jml_cases::tree_at;
use jd_jmlcheck::MethodSpec;
use jd_syntax::{MethodDecl, SpecCase, VarDecl};

/// What methods and constructors are looked up in.
#[derive(Clone, Copy)]
pub(crate) struct Lists<'a> {
    /// The tables of the program's classes.
    pub(crate) classes: &'a Classes,
    /// Declarations by the numbers of methods.
    pub(crate) trees: &'a [&'a MethodDecl],
    /// What JML says of each.
    pub(crate) specs: &'a [MethodSpec],
    /// The body of each.
    pub(crate) bodies: &'a [Body],
}

/// The declaration of a method or constructor, with its class.
pub(crate) fn written_at<'a>(l: Lists<'a>, m: MethodId) -> Option<Written<'a>>
    ensures { (units : List JavaUnit) → AreTables units l.entry.classes.now → AreTrees units l.entry.trees.now → option_map written_view result ≡ place_at units m.0 }
{
    match tree_at(l.trees, m.0 as usize) {
        None => None,
        Some(tree) => {
            if (m.0 as usize) < l.classes.method_count() {
                let class = l.classes.method(m).class;
                Some(Written { class, tree })
            } else {
                None
            }
        }
    }
}

/// The cases of a method or constructor.
pub(crate) fn cases_at(specs: &[MethodSpec], m: MethodId) -> &[SpecCase]
    ensures { map views.case_view result.now ≡ cases_in (slice_get (map method_spec_view specs.now) m.0) }
{
    let number = m.0 as usize;
    if number < specs.len() {
        &specs[number].cases
    } else {
        &[]
    }
}

/// The variables of the body of a method or constructor.
pub(crate) fn variables_at(bodies: &[Body], m: MethodId) -> &[VarDecl]
    ensures { map decl_view result.now ≡ variables_in (slice_get (map body_view bodies.now) m.0) }
{
    let number = m.0 as usize;
    if number < bodies.len() {
        &bodies[number].vars
    } else {
        &[]
    }
}

// Those behind the receiver.
fn behind_receiver(is_static: bool, variables: &[VarDecl]) -> &[VarDecl]
    ensures { result.now ≡ drop (cond is_static 0 1) variables.now }
{
    if is_static {
        return variables;
    }
    match variables {
        [] => variables,
        [_, rest @ ..] => rest,
    }
}

// The first so many.
fn first_of(count: usize, variables: &[VarDecl]) -> &[VarDecl]
    ensures { result.now ≡ take count variables.now }
{
    if count < variables.len() {
        let (first, _rest) = variables.split_at(count);
        first
    } else {
        variables
    }
}

/// Those of the parameters.
pub(crate) fn parameters_among<'a>(tree: &MethodDecl, variables: &'a [VarDecl]) -> &'a [VarDecl]
    ensures { result.now ≡ among_parameters (method_view tree.now) variables.now }
{
    first_of(
        tree.parameters.len(),
        behind_receiver(tree.is_static, variables),
    )
}
