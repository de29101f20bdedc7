//! The specifications of methods and classes.

ghost use Rattle.std.specs.Prelude.{◌≡◌, ◌<◌, IfOk, List, map, length, option_map};
ghost use Rattle.std.specs.List.{range_with_len};
ghost use Rattle.jd_classes.specs.Tables.{AreTables, method_count_of};
ghost use Rattle.jd_jclasses.specs.Methods.{routines};
ghost use Rattle.jd_jinfos.specs.Infos.{class_infos};
ghost use Rattle.jd_jinfos.specs.Views.{class_info_view};
ghost use Rattle.jd_jml_cases.specs.Trees.{AreTrees, tree_view};
ghost use Rattle.jd_jml_written.specs.Views.{loop_view};
ghost use Rattle.jd_jmlcheck.specs.Specified as plain;
ghost use Rattle.jd_jmlcheck.specs.Views.{invariants_view, method_spec_view, specs_view};
ghost use Rattle.jd_syntax.specs.JavaTrees.{JavaUnit};

use jd_base::{ClassId, MethodId, NoMemory, both};
use jd_classes::{ClassInfo, Classes};
use jd_jml_cases::{Source, method_cases, method_trees, tree_at};
use jd_jml_written::{LoopAnn, body_loops, class_invariants};
use jd_lists::put;
use jd_syntax::{MethodDecl, SpecCase, SpecExpr};
use std::alloc::Global;

/// What JML says of a method or constructor.
#[derive(Drop)]
pub struct MethodSpec {
    /// The cases of its contract by their numbers: those of the methods that it overrides, the topmost class first, and its own.
    pub cases: Vec<SpecCase>,
    /// What is said of the loops in its body, by their numbers.
    pub loops: Vec<LoopAnn>,
}

/// The specifications of a program.
#[derive(Drop)]
pub struct Specs {
    /// One for each method and constructor, by their numbers.
    pub methods: Vec<MethodSpec>,
    /// The invariants that each class declares itself, those of its fields included, by the classes' numbers.
    pub classes: Vec<Vec<SpecExpr>>,
}

// What is said of the loops in a body, where there is one.
fn loops_of_tree(alloc: Global, tree: Option<&MethodDecl>) -> Result<Vec<LoopAnn>, NoMemory>
    ensures { IfOk result (λ v. map loop_view v.items ≡ plain.loops_of_tree (option_map tree_view tree.entry)) }
{
    match tree {
        None => Ok(Vec::new(alloc)),
        Some(tree) => body_loops(alloc, &tree.body),
    }
}

// What is said of the loops of a method or constructor.
fn loops_at(alloc: Global, p: Source<'_>, m: MethodId) -> Result<Vec<LoopAnn>, NoMemory>
    ensures { (units : List JavaUnit) → AreTrees units p.entry.trees.now → IfOk result (λ v. map loop_view v.items ≡ plain.loops_at units m.0) }
{
    loops_of_tree(alloc, tree_at(p.trees, m.0 as usize))
}

// The specification of a method or constructor.
fn method_spec(alloc: Global, p: Source<'_>, m: MethodId) -> Result<MethodSpec, NoMemory>
    requires tables { (units : List JavaUnit) × AreTables units p.classes.now }
    requires m { m.0 < method_count_of p.classes.now }
    ensures { (units : List JavaUnit) → AreTables units p.entry.classes.now → AreTrees units p.entry.trees.now → IfOk result (λ s. method_spec_view s ≡ plain.method_spec units m.0) }
{
    let (cases, loops) = both(method_cases(alloc, p, m), loops_at(alloc, p, m))?;
    Ok(MethodSpec { cases, loops })
}

// The method or constructor of the number; memory holds not so many that a number would not do.
fn id_of(number: usize) -> Result<MethodId, NoMemory>
    ensures { IfOk result (λ m. m.0 ≡ number) }
{
    match u32::try_from(number) {
        Ok(number) => Ok(MethodId(number)),
        Err(_) => Err(NoMemory),
    }
}

// The specification of the method or constructor of a number.
fn spec_at(alloc: Global, p: Source<'_>, number: usize) -> Result<MethodSpec, NoMemory>
    requires tables { (units : List JavaUnit) × AreTables units p.classes.now }
    requires number { number < method_count_of p.classes.now }
    ensures { (units : List JavaUnit) → AreTables units p.entry.classes.now → AreTrees units p.entry.trees.now → IfOk result (λ s. method_spec_view s ≡ plain.method_spec units number) }
{
    let id = id_of(number)?;
    method_spec(alloc, p, id)
}

// The same of all.
fn method_specs(alloc: Global, p: Source<'_>) -> Result<Vec<MethodSpec>, NoMemory>
    requires { (units : List JavaUnit) × AreTables units p.classes.now }
    ensures { (units : List JavaUnit) → AreTables units p.entry.classes.now → AreTrees units p.entry.trees.now
        → IfOk result (λ v. map method_spec_view v.items ≡ map (plain.method_spec units) (range_with_len 0 (length (routines units)))) }
{
    let mut made = Vec::new(alloc);
    for m in 0..p.classes.method_count() {
        put(&mut made, spec_at(alloc, p, m)?)?;
    }
    Ok(made)
}

// The invariants of a class.
fn class_spec(alloc: Global, info: &ClassInfo) -> Result<Vec<SpecExpr>, NoMemory>
    ensures { IfOk result (λ v. invariants_view v ≡ plain.class_spec (class_info_view info.now)) }
{
    match &info.decl {
        None => Ok(Vec::new(alloc)),
        Some(declared) => class_invariants(alloc, declared),
    }
}

// The same of all classes.
fn class_specs(alloc: Global, classes: &Classes) -> Result<Vec<Vec<SpecExpr>>, NoMemory>
    ensures { (units : List JavaUnit) → AreTables units classes.now → IfOk result (λ v. map invariants_view v.items ≡ map plain.class_spec (class_infos units)) }
{
    let mut made = Vec::new(alloc);
    for class in 0..classes.class_count() {
        put(&mut made, class_spec(alloc, classes.class(ClassId(class)))?)?;
    }
    Ok(made)
}

/// The specifications of a program, whether its JML is refused or not.
pub(crate) fn specs_of(alloc: Global, classes: &Classes) -> Result<Specs, NoMemory>
    requires { (units : List JavaUnit) × AreTables units classes.now }
    ensures { (units : List JavaUnit) → AreTables units classes.now → IfOk result (λ s. specs_view s ≡ plain.specs_of units) }
{
    let trees = method_trees(alloc, classes)?;
    let p = Source {
        classes,
        trees: &trees,
    };
    let (methods, invariants) = both(method_specs(alloc, p), class_specs(alloc, classes))?;
    Ok(Specs {
        methods,
        classes: invariants,
    })
}
