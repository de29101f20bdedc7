//! What is a schema variable or given against parts.

ghost use Rattle.std.specs.Prelude.{◌≡◌, IfOk, option_map};
ghost use Rattle.jd_syntax.specs.CodeViews.{kind_view};
ghost use Rattle.jd_syntax.specs.Names.{var_view};
ghost use Rattle.jd_patterns.specs.Matching.{match_class, match_kind, match_modality, match_name, match_result, match_sort};
ghost use Rattle.jd_schema_trees.specs.HeadViews.{class_pattern, kind_pattern, modality_pattern, name_pattern, result_pattern, sort_pattern};
ghost use Rattle.jd_schema_matching.specs.Bound.{answered};
ghost use Rattle.jd_schema_matching.specs.PartViews.{bindings};
ghost use Rattle.jd_schema_matching.specs.Tested.{tests};

use crate::found::{Found, bind};
use crate::parts::PartRef;
use crate::tests::{same_kind, same_modality, same_name, same_sort};
use jd_base::{ClassId, NoMemory, Sort};
use jd_schema_trees::{SClass, SKind, SModality, SName, SResult, SSort};
use jd_syntax::{Kind, VarId};
use jd_term::Modality;

/// Whether the pattern can stand for the sort, with what was found.
pub fn match_sort<'t>(p: &'t SSort, s: Sort, found: &mut Found<'t>) -> Result<bool, NoMemory>
    ensures { IfOk result (λ b. answered b (bindings found.new) ≡ match_sort tests (sort_pattern p.now) s (bindings found.old)) }
{
    match p {
        SSort::Variable(n) => bind(n, PartRef::Sort(s), found),
        SSort::Given(r) => Ok(same_sort(*r, s)),
    }
}

/// Whether the pattern can stand for the class or `int[]`, with what was found.
pub fn match_kind<'t>(p: &'t SKind, k: Kind, found: &mut Found<'t>) -> Result<bool, NoMemory>
    ensures { IfOk result (λ b. answered b (bindings found.new) ≡ match_kind tests (kind_pattern p.now) (kind_view k) (bindings found.old)) }
{
    match p {
        SKind::Variable(n) => bind(n, PartRef::Kind(k), found),
        SKind::Given(l) => Ok(same_kind(*l, k)),
    }
}

/// Whether the pattern can stand for the modality, with what was found.
pub fn match_modality<'t>(
    p: &'t SModality,
    m: Modality,
    found: &mut Found<'t>,
) -> Result<bool, NoMemory>
    ensures { IfOk result (λ b. answered b (bindings found.new) ≡ match_modality tests (modality_pattern p.now) m (bindings found.old)) }
{
    match p {
        SModality::Variable(n) => bind(n, PartRef::Modality(m), found),
        SModality::Given(l) => Ok(same_modality(*l, m)),
    }
}

/// Whether the pattern can stand for the variable, with what was found.
pub fn match_name<'t>(p: &'t SName, x: &'t VarId, found: &mut Found<'t>) -> Result<bool, NoMemory>
    ensures { IfOk result (λ b. answered b (bindings found.new) ≡ match_name tests (name_pattern p.now) (var_view x.now) (bindings found.old)) }
{
    match p {
        SName::Variable(n) => bind(n, PartRef::Name(x), found),
        SName::Given(y) => Ok(same_name(y, x)),
    }
}

/// Whether the pattern can stand for the variable of a frame's result, with what was found.
pub fn match_result<'t>(
    p: &'t SResult,
    r: &'t Option<VarId>,
    found: &mut Found<'t>,
) -> Result<bool, NoMemory>
    ensures { IfOk result (λ b. answered b (bindings found.new) ≡ match_result tests (result_pattern p.now) (option_map var_view r.now) (bindings found.old)) }
{
    match p {
        SResult::Variable(n) => bind(n, PartRef::Result(r), found),
        SResult::NoResult => match r {
            None => Ok(true),
            Some(_variable) => Ok(false),
        },
        SResult::In(x) => match r {
            None => Ok(false),
            Some(y) => match_name(x, y, found),
        },
    }
}

/// Whether the pattern can stand for the class, with what was found.
pub fn match_class<'t>(p: &'t SClass, c: ClassId, found: &mut Found<'t>) -> Result<bool, NoMemory>
    ensures { IfOk result (λ b. answered b (bindings found.new) ≡ match_class tests (class_pattern p.now) c.0 (bindings found.old)) }
{
    match p {
        SClass::Variable(n) => bind(n, PartRef::Class(c), found),
        SClass::Of(_) => Ok(false),
    }
}
