//! The form of a program.

ghost use Rattle.std.specs.Prelude.{◌≡◌, ◌&&◌, List, [], get_or, length, map};
ghost use Rattle.std.specs.List.{list_all};
ghost use Rattle.jd_bodies.specs.Bodies as made;
ghost use Rattle.jd_bodies.specs.Declarations.{Declarations};
ghost use Rattle.jd_check.specs.Building.{body_view};
ghost use Rattle.jd_classes.specs.Tables.{AreTables};
ghost use Rattle.jd_first_form.specs.Forms as plain;
ghost use Rattle.jd_first_form.specs.Shapes.{are_form_of, clauses_of_case, is_class_form_of, is_form_of};
ghost use Rattle.jd_jinfos.specs.Views.{class_info_view};
ghost use Rattle.jd_jml_written.specs.Views.{case_view};
ghost use Rattle.jd_jmlcheck.specs.Specified.{specs_of};
ghost use Rattle.jd_jmlcheck.specs.Views.{method_spec_view, specs_view};
ghost use Rattle.jd_syntax.specs.CodeViews.{code_view};
ghost use Rattle.jd_syntax.specs.JavaTrees.{JavaUnit, member_view, method_view, parameter_view, result_view};
ghost use Rattle.jd_syntax.specs.JavaTypes.{type_view};

use crate::conditions::are_conditions;
use crate::steps::is_straight;
use jd_base::ClassId;
use jd_check::Body;
use jd_classes::{ClassInfo, Classes};
use jd_jmlcheck::{MethodSpec, Specs};
use jd_syntax::{Code, JavaType, Member, MethodDecl, Parameter, ResultType, SpecCase};

/// How many parameters the method has at most.
const PARAMETER_LIMIT: usize = 20;

/// How many comparisons its case has at most.
const COMPARISON_LIMIT: u32 = 100;

fn is_int(t: &JavaType) -> bool
    ensures { result ≡ plain.is_int (type_view t.now) }
{
    matches!(t, JavaType::Int)
}

fn take_ints(xs: &[Parameter]) -> bool
    ensures { result ≡ list_all plain.takes_int (map parameter_view xs.now) }
{
    for x in xs {
        if !is_int(&x.ty.written) {
            return false;
        }
    }
    true
}

fn gives_int(r: &ResultType) -> bool
    ensures { result ≡ plain.gives_int (result_view r.now) }
{
    match r {
        ResultType::Void => false,
        ResultType::Gives(w) => is_int(&w.written),
        ResultType::Constructor => false,
    }
}

fn has_signature(m: &MethodDecl) -> bool
    ensures { result ≡ plain.has_signature (method_view m.now) }
{
    m.is_static
        && (gives_int(&m.result)
            && (m.parameters.len() <= PARAMETER_LIMIT && take_ints(&m.parameters)))
}

fn are_one_case(cases: &[SpecCase]) -> bool
    ensures { result ≡ plain.are_one_case (map clauses_of_case (map case_view cases.now)) }
{
    match cases {
        [case] => are_conditions(&case.clauses, COMPARISON_LIMIT),
        _ => false,
    }
}

fn fits(m: &MethodDecl, cases: &[SpecCase], code: &Code) -> bool
    ensures { result ≡ (plain.has_signature (method_view m.now) && (plain.are_one_case (map clauses_of_case (map case_view cases.now)) && plain.is_straight (code_view code.now))) }
{
    has_signature(m) && (are_one_case(cases) && is_straight(code))
}

// Of the first method's specification and body.
fn is_form(m: &MethodDecl, specs: &[MethodSpec], bodies: &[Body]) -> bool
    ensures { result ≡ is_form_of (method_view m.now) (map method_spec_view specs.now) (map body_view bodies.now) }
{
    match specs {
        [] => false,
        [spec, ..] => match bodies {
            [] => false,
            [body, ..] => fits(m, &spec.cases, &body.code),
        },
    }
}

fn are_form(members: &[Member], specs: &[MethodSpec], bodies: &[Body]) -> bool
    ensures { result ≡ are_form_of (map member_view members.now) (map method_spec_view specs.now) (map body_view bodies.now) }
{
    match members {
        [Member::Method(m)] => is_form(m, specs, bodies),
        _ => false,
    }
}

// Of a class with so many invariants.
fn is_class_form(info: &ClassInfo, invariants: usize, specs: &[MethodSpec], bodies: &[Body]) -> bool
    ensures { result ≡ is_class_form_of ((class_info_view info.now).decl) invariants (map method_spec_view specs.now) (map body_view bodies.now) }
{
    match &info.decl {
        None => false,
        Some(tree) => invariants == 0 && are_form(&tree.members, specs, bodies),
    }
}

// How many invariants the class of the number has; none where there is no such class.
fn invariant_count(specs: &Specs, class: usize) -> usize
    ensures { result ≡ length (get_or (specs_view specs.now).classes class []) }
{
    if class < specs.classes.len() {
        specs.classes[class].len()
    } else {
        0
    }
}

/// Whether a program of so many files has an obligation by now: it is one class in one file, with one static method, of ints, at most 20, whose
/// body assigns and returns literals and variables, in at most 100 statements, and which has one case that requires and ensures comparisons, at
/// most 100. Takes no memory.
pub fn is_first_form(files: usize, classes: &Classes, bodies: &[Body], specs: &Specs) -> bool
    requires { (units : List JavaUnit) × AreTables units classes.now }
    ensures { (units : List JavaUnit) (d : Declarations) → AreTables units classes.now → files ≡ length units
        → map body_view bodies.now ≡ made.bodies d units → specs_view specs.now ≡ specs_of units → result ≡ plain.is_first_form d units }
{
    if files != 1 {
        return false;
    }
    if classes.class_count() != 11 {
        return false;
    }
    is_class_form(
        classes.class(ClassId(10)),
        invariant_count(specs, 10),
        &specs.methods,
        bodies,
    )
}
