//! What a part of one word stands for.

ghost use Rattle.std.specs.Prelude.{◌≡◌, IfOk, option_map};
ghost use Rattle.jd_syntax.specs.CodeViews.{kind_view};
ghost use Rattle.jd_syntax.specs.Names.{var_view};
ghost use Rattle.jd_syntax.specs.Sxs.{sx_view};
ghost use Rattle.jd_tgrammar.specs.NameTables.{NameTable};
ghost use Rattle.jd_tforms.specs.Naming as naming;
ghost use Rattle.jd_tforms.specs.Reading as plain;
ghost use Rattle.jd_tforms.specs.Shapes as shapes;
ghost use Rattle.jd_tcode.specs.Words.{seen_view};

use jd_base::{ClassId, FieldId, MethodId, NoMemory};
use jd_syntax::{Kind, Sx, VarId};
use jd_twords::{NameMeanings, is_word, label_of, loop_of};
use std::alloc::Global;

// The word that it is.
pub(crate) fn word_in(x: &Sx) -> Option<&[u8]>
    ensures { (names : NameTable) → option_map (λ w. w.now) result ≡ (plain.read names (sx_view x.now)).word }
{
    match x {
        Sx::Atom(word) => Some(word.as_slice()),
        Sx::List(_) => None,
    }
}

/// The variable of that name.
pub fn variable_in<N: NameMeanings>(
    alloc: Global,
    names: &N,
    x: &Sx,
) -> Result<Option<VarId>, NoMemory>
    ensures { IfOk result (λ o. option_map var_view o ≡ plain.variable (N.table names.now) (plain.read (N.table names.now) (sx_view x.now))) }
{
    match x {
        Sx::Atom(word) => names.variable_of(alloc, word),
        Sx::List(_) => Ok(None),
    }
}

// The variable that takes a result, or none where the word says so.
pub(crate) fn result_in<N: NameMeanings>(
    alloc: Global,
    names: &N,
    x: &Sx,
) -> Result<Option<Option<VarId>>, NoMemory>
    ensures { IfOk result (λ o. option_map (option_map var_view) o ≡ plain.wording (naming.result_of (N.table names.now)) (plain.read (N.table names.now) (sx_view x.now))) }
{
    match x {
        Sx::Atom(word) => {
            if is_word(b"-", word) {
                return Ok(Some(None));
            }
            match names.variable_of(alloc, word)? {
                None => Ok(None),
                Some(variable) => Ok(Some(Some(variable))),
            }
        }
        Sx::List(_) => Ok(None),
    }
}

// The class of that name.
pub(crate) fn class_in<N: NameMeanings>(names: &N, x: &Sx) -> Option<ClassId>
    ensures { option_map (λ c. c.0) result ≡ plain.wording (naming.class_of (N.table names.now)) (plain.read (N.table names.now) (sx_view x.now)) }
{
    match x {
        Sx::Atom(word) => names.class_of(word),
        Sx::List(_) => None,
    }
}

/// The class of that name, or `int[]`.
pub fn kind_in<N: NameMeanings>(names: &N, x: &Sx) -> Option<Kind>
    ensures { option_map kind_view result ≡ plain.wording (naming.kind_of (N.table names.now)) (plain.read (N.table names.now) (sx_view x.now)) }
{
    match x {
        Sx::Atom(word) => {
            if is_word(b"int[]", word) {
                return Some(Kind::IntArray);
            }
            match names.class_of(word) {
                None => None,
                Some(class) => Some(Kind::Class(class)),
            }
        }
        Sx::List(_) => None,
    }
}

// The field of that name.
pub(crate) fn field_in<N: NameMeanings>(names: &N, x: &Sx) -> Option<FieldId>
    ensures { option_map (λ f. f.0) result ≡ plain.wording (naming.field_of (N.table names.now)) (plain.read (N.table names.now) (sx_view x.now)) }
{
    match x {
        Sx::Atom(word) => names.field_of(word),
        Sx::List(_) => None,
    }
}

// The method of that name that is not static, with the class that sees it.
pub(crate) fn method_in<N: NameMeanings>(names: &N, x: &Sx) -> Option<(ClassId, MethodId)>
    ensures { option_map seen_view result ≡ plain.wording (naming.method_of (N.table names.now)) (plain.read (N.table names.now) (sx_view x.now)) }
{
    match x {
        Sx::Atom(word) => names.method_of(word),
        Sx::List(_) => None,
    }
}

// The static method of that name.
pub(crate) fn static_in<N: NameMeanings>(names: &N, x: &Sx) -> Option<MethodId>
    ensures { option_map (λ m. m.0) result ≡ plain.wording (naming.static_of (N.table names.now)) (plain.read (N.table names.now) (sx_view x.now)) }
{
    match x {
        Sx::Atom(word) => names.static_of(word),
        Sx::List(_) => None,
    }
}

// The constructor of the class of that name.
pub(crate) fn constructor_in<N: NameMeanings>(names: &N, x: &Sx) -> Option<MethodId>
    ensures { option_map (λ m. m.0) result ≡ plain.wording (naming.constructor_of (N.table names.now)) (plain.read (N.table names.now) (sx_view x.now)) }
{
    match x {
        Sx::Atom(word) => names.constructor_of(word),
        Sx::List(_) => None,
    }
}

// The number of a loop.
pub(crate) fn loop_in(x: &Sx) -> Option<u32>
    ensures { (names : NameTable) → result ≡ plain.wording shapes.loop_of (plain.read names (sx_view x.now)) }
{
    match x {
        Sx::Atom(word) => loop_of(word),
        Sx::List(_) => None,
    }
}

// A label.
pub(crate) fn label_in(x: &Sx) -> Option<u32>
    ensures { (names : NameTable) → result ≡ plain.wording shapes.label_of (plain.read names (sx_view x.now)) }
{
    match x {
        Sx::Atom(word) => label_of(word),
        Sx::List(_) => None,
    }
}
