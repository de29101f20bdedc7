//! The declarations of methods and constructors by their numbers.

ghost use Rattle.std.specs.Prelude.{◌≡◌, ◌++◌, List, IfOk, OnOk, flat_map, map};
ghost use Rattle.jd_classes.specs.Tables.{AreTables};
ghost use Rattle.jd_jinfos.specs.Views.{class_info_view};
ghost use Rattle.jd_jml_cases.specs.Trees.{AreTrees, method_in, methods_of_info, tree_view};
ghost use Rattle.jd_syntax.specs.JavaTrees.{JavaUnit, member_view};

use jd_base::{ClassId, NoMemory};
use jd_classes::{ClassInfo, Classes};
use jd_syntax::{Member, MethodDecl};
use std::alloc::Global;

fn add_member<'a>(trees: &mut Vec<&'a MethodDecl>, m: &'a Member) -> Result<(), NoMemory>
    ensures { OnOk result (map tree_view trees.new.items ≡ map tree_view trees.old.items ++ method_in (member_view m.now)) }
{
    match m {
        Member::Field(_) | Member::Constant(_) => Ok(()),
        Member::Method(method) => {
            trees.push(method)?;
            Ok(())
        }
    }
}

#[tactic(auto, using(jd_syntax::proofs::Lists::rest))]
fn add_members<'a>(trees: &mut Vec<&'a MethodDecl>, ms: &'a [Member]) -> Result<(), NoMemory>
    ensures { OnOk result (map tree_view trees.new.items ≡ map tree_view trees.old.items ++ flat_map method_in (map member_view ms.now)) }
{
    for m in ms {
        add_member(trees, m)?;
    }
    Ok(())
}

fn add_class<'a>(trees: &mut Vec<&'a MethodDecl>, info: &'a ClassInfo) -> Result<(), NoMemory>
    ensures { OnOk result (map tree_view trees.new.items ≡ map tree_view trees.old.items ++ methods_of_info (class_info_view info.now)) }
{
    match &info.decl {
        None => Ok(()),
        Some(declared) => add_members(trees, &declared.members),
    }
}

/// The declarations of the methods and constructors of a program, by their numbers (JLS 8.4, 8.8).
///
/// # Errors
///
/// `NoMemory`.
pub fn method_trees<'a>(
    alloc: Global,
    classes: &'a Classes,
) -> Result<Vec<&'a MethodDecl>, NoMemory>
    ensures { (units : List JavaUnit) → AreTables units classes.now → IfOk result (λ v. AreTrees units v.items) }
{
    let mut trees = Vec::new(alloc);
    for class in 0..classes.class_count() {
        add_class(&mut trees, classes.class(ClassId(class)))?;
    }
    Ok(trees)
}
