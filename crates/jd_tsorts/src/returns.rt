ghost use Rattle.std.specs.Prelude.{◌≡◌, option_map};
ghost use Rattle.jd_syntax.specs.Names.{var_view};
ghost use Rattle.jd_tforms.specs.Sorted as plain;
ghost use Rattle.jd_tsorts.specs.Returned.{returns_view};

use crate::sorts::is_value;
use crate::terms::same_sort;
use jd_base::Sort;
use jd_syntax::VarId;

/// What a `return` has to give, by the innermost frame around it.
#[derive(Clone, Copy)]
pub enum Returns {
    /// Whatever it likes: there is no frame around it.
    Free,
    /// Nothing.
    Nothing,
    /// A value of this sort.
    Value(Sort),
}

/// What a `return` has to give in the frame whose result the variable takes.
pub fn returns_of(variable: &Option<VarId>) -> Returns
    ensures { returns_view result ≡ plain.returns_of (option_map var_view variable.now) }
{
    match variable {
        None => Returns::Nothing,
        Some(variable) => Returns::Value(variable.sort),
    }
}

// Whether a value of that sort, where there is one, may be returned.
pub(crate) fn may_return(returns: Returns, found: Option<Sort>) -> bool
    ensures { result ≡ plain.return_sorted (returns_view returns) found }
{
    let Some(sort) = found else { return false };
    match returns {
        Returns::Free => true,
        Returns::Nothing => false,
        Returns::Value(other) => same_sort(sort, other),
    }
}

// Whether nothing may be returned.
pub(crate) fn may_return_nothing(returns: Returns) -> bool
    ensures { result ≡ plain.returns_none (returns_view returns) }
{
    match returns {
        Returns::Free | Returns::Nothing => true,
        Returns::Value(_) => false,
    }
}

// Whether the variable may take a result.
pub(crate) fn may_take(variable: &Option<VarId>) -> bool
    ensures { result ≡ plain.result_fits (option_map var_view variable.now) }
{
    match variable {
        None => true,
        Some(variable) => is_value(variable.sort),
    }
}
