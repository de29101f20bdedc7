//! Sets of locations.

ghost use Rattle.std.specs.Prelude.{◌≡◌, false, map};
ghost use Rattle.jd_jml_judging.specs.Contexts.{context_view};
ghost use Rattle.jd_jml_judging.specs.Visible.{locals_of, visible};
ghost use Rattle.jd_specifications.specs.Clauses as plain;
ghost use Rattle.jd_specifications.specs.Types as types;
ghost use Rattle.jd_syntax.specs.SpecTrees.{location_view, spec_view};

use crate::context::{Around, Context};
use crate::expressions::{Sight, class_before, judged};
use crate::names::{Names, of_method};
use crate::operators::{array, element_gives, location_before, range_gives, reference};
use crate::rules::own_location;
use jd_bodies::ValueType;
use jd_naming::Declares;
use jd_specifications::SpecFault;
use jd_syntax::{LocExpr, LocForm, SpecExpr};

// An expression in a location.
fn part<'n, D: Declares>(
    w: &Sight<'_, D>,
    e: &'n SpecExpr,
    names: &'n Names<'n>,
) -> (u32, Result<ValueType, SpecFault>)
    ensures at { result.0 ≡ types.at_of (spec_view e.now) }
    ensures given { result.1 ≡ types.type_of (D.declarations w.now.declared.now) (context_view w.now.context) false (visible names.now) (spec_view e.now) }
{
    judged(w, false, e, names)
}

// A set of locations (JML Reference Manual, 12.7).
fn location<'n, D: Declares>(
    w: &Sight<'_, D>,
    l: &'n LocExpr,
    names: &'n Names<'n>,
) -> Result<ValueType, SpecFault>
    ensures { result ≡ plain.location (D.declarations w.now.declared.now) (context_view w.now.context) (visible names.now) (location_view l.now) }
{
    match &l.form {
        LocForm::Nothing => Ok(ValueType::Null),
        LocForm::Everything => Ok(ValueType::Null),
        LocForm::Own(x) => {
            let variable = w.declared.variable(w.context.place.class, x);
            own_location(w.context.place.is_static, l.at, variable)
        }
        LocForm::Field(o, x) => {
            let class = class_before(w, o, names);
            location_before(w.declared, x, class, part(w, o, names).1)
        }
        LocForm::AllFields(o) => reference(w.declared, part(w, o, names)),
        LocForm::Element(a, i) => {
            let array = part(w, a, names);
            element_gives(w.declared, array, part(w, i, names))
        }
        LocForm::Range(a, i, j) => {
            let array = part(w, a, names);
            let first = part(w, i, names);
            range_gives(w.declared, array, first, part(w, j, names))
        }
        LocForm::AllElements(a) => array(w.declared, part(w, a, names)),
    }
}

/// Sets of locations, one behind the other.
pub(crate) fn locations<D: Declares>(
    a: &Around<'_, D>,
    context: Context,
    ls: &[LocExpr],
) -> Result<ValueType, SpecFault>
    ensures { result ≡ plain.locations (D.declarations a.now.declared.now) (context_view context) (locals_of a.now.names.now) (map location_view ls.now) }
{
    let w = Sight {
        declared: a.declared,
        context,
    };
    let names = of_method(a.names);
    each(&w, &*ls, &names)
}

// The same of what is seen.
fn each<'n, D: Declares>(
    w: &Sight<'_, D>,
    ls: &'n [LocExpr],
    names: &'n Names<'n>,
) -> Result<ValueType, SpecFault>
    ensures { result ≡ plain.locations (D.declarations w.now.declared.now) (context_view w.now.context) (visible names.now) (map location_view ls.now) }
{
    for l in ls {
        let _given = location(w, l, names)?;
    }
    Ok(ValueType::Null)
}
