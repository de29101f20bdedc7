//! The parameters of a method in scope.

ghost use Rattle.std.specs.Prelude.{◌≡◌, ◌∷◌, [], IfOk, OnOk, map};
ghost use Rattle.jd_jml_known.specs.Scopes.{known_of};
ghost use Rattle.jd_specifications.specs.WrittenCases.{entries};
ghost use Rattle.jd_case_clauses.specs.Scopes.{entry_of};
ghost use Rattle.jd_syntax.specs.JavaTrees.{parameter_view};

use jd_base::NoMemory;
use jd_jml_known::{Known, KnownNames};
use jd_judging::type_by;
use jd_naming::Declares;
use jd_syntax::Parameter;
use std::alloc::Global;

// The position as a number of arguments; memory holds not so many that a number would not do.
fn position_of(place: usize) -> Result<u32, NoMemory>
    ensures { IfOk result (λ n. n ≡ place) }
{
    match u32::try_from(place) {
        Ok(n) => Ok(n),
        Err(_) => Err(NoMemory),
    }
}

// Brings one more parameter into scope.
fn enter<D: Declares>(
    alloc: Global,
    d: &D,
    names: &mut KnownNames,
    x: &Parameter,
    place: usize,
) -> Result<(), NoMemory>
    ensures { OnOk result (known_of names.new ≡ entry_of (D.declarations d.now) place (parameter_view x.now) ∷ known_of names.old) }
{
    let position = position_of(place)?;
    names.enter(
        alloc,
        &x.name.name,
        Known::Argument(position),
        type_by(d, &x.ty.written),
    )
}

/// The parameters of a method in scope, as the arguments at their positions (JLS 6.3).
///
/// # Errors
///
/// `NoMemory` if memory runs out.
pub fn method_names<D: Declares>(
    alloc: Global,
    d: &D,
    parameters: &[Parameter],
) -> Result<KnownNames, NoMemory>
    ensures { IfOk result (λ n. known_of n ≡ entries (D.declarations d.now) 0 (map parameter_view parameters.now) []) }
{
    let mut names = KnownNames::new(alloc);
    for i in 0..parameters.len() {
        enter(alloc, d, &mut names, &parameters[i], i)?;
    }
    Ok(names)
}
