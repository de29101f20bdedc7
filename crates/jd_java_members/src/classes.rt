//! Classes.

ghost use Rattle.std.specs.Prelude.{[], List, map};
ghost use Rattle.jd_java_tokens.specs.Lexemes.{lexeme_view};
ghost use Rattle.jd_syntax.specs.JavaTrees.{JavaClass, class_view};
ghost use Rattle.jd_java_values.specs.Values.{Classes};
ghost use Rattle.jd_java_values.specs.Views.{Gives, backwards, parts_view, value_view};
ghost use Rattle.jd_java_members.specs.Meaning as plain;
ghost use Rattle.jd_java_members.specs.declared.action.Action.TheVariants as actions;

use jd_base::NoMemory;
use jd_grammar::NodeParts;
use jd_java_tokens::{Lexeme, place_of};
use jd_java_values::{Value, alone, appended, body, classes, in_order, name, some_name, taken};
use jd_syntax::ClassDecl;
use std::alloc::Global;

// Classes, if they have been made.
fn classes_given(classes: Result<Vec<ClassDecl>, NoMemory>) -> Result<Value, NoMemory>
    ensures { (x : List JavaClass) → Gives (backwards class_view) classes x → Gives value_view result (Classes x) }
{
    Ok(Value::Classes(classes?))
}

/// Classes before others.
#[tactic(auto, using(jd_lists::proofs::Backwards::reversed_append))]
pub fn classes_before(alloc: Global, parts: &mut NodeParts<Value>) -> Result<Value, NoMemory>
    ensures { Gives value_view result (plain.meaning actions.Classes [] (parts_view parts.old)) }
{
    let before = classes(alloc, taken(&mut parts.first));
    let behind = classes(alloc, taken(&mut parts.second));
    classes_given(appended(behind, before))
}

/// A class.
#[tactic(auto, using(jd_lists::proofs::Backwards::map_reverse))]
pub fn class(
    alloc: Global,
    tokens: &[Lexeme<'_>],
    parts: &mut NodeParts<Value>,
) -> Result<Value, NoMemory>
    ensures { Gives value_view result (plain.meaning actions.Class (map lexeme_view tokens.now) (parts_view parts.old)) }
{
    let at = place_of(0, tokens);
    let name = name(alloc, taken(&mut parts.second));
    let parent = some_name(taken(&mut parts.third));
    let (members, end) = body(alloc, taken(&mut parts.fourth));
    let members = in_order(members);
    classes_given(alone(
        alloc,
        ClassDecl {
            at,
            name,
            parent,
            members,
            end,
        },
    ))
}
