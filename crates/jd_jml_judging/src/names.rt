//! The names that an expression sees.

ghost use Rattle.std.specs.Prelude.{◌≡◌, [], false, option_map};
ghost use Rattle.std.specs.Option.{option_copied};
ghost use Rattle.jd_jml_judging.specs.Visible.{known_of, locals_of, visible};
ghost use Rattle.jd_specifications.specs.Clauses as plain_clauses;
ghost use Rattle.jd_specifications.specs.Scopes.{local_named};
ghost use Rattle.jd_specifications.specs.Types as plain;
ghost use Rattle.jd_syntax.specs.JavaTypes.{identifier_view};

use crate::method_names::{Known, MethodNames};
use jd_bodies::ValueType;
use jd_naming::Declares;
use jd_syntax::Identifier;

/// The names that an expression sees, the innermost first.
#[derive(Clone, Copy)]
pub(crate) enum Names<'a> {
    /// None.
    Nothing,
    /// The parameters and locals of the method.
    Method(&'a MethodNames),
    /// Those, and the exception of a `signals`.
    Exception(&'a MethodNames, &'a [u8], ValueType),
    /// Others, and what a quantifier binds.
    Bound(&'a Names<'a>, &'a [u8], ValueType),
}

/// What a name stands for, where it is one of these.
pub(crate) fn known(names: &Names<'_>, name: &[u8]) -> Option<Known>
    ensures { result ≡ option_map known_of (local_named (visible names.now) name.now) }
{
    match names {
        Names::Nothing => None,
        Names::Method(method) => method.named(name),
        Names::Exception(method, x, value) => {
            if *x == name {
                return Some(inner(*value));
            }
            method.named(name)
        }
        Names::Bound(outer, x, value) => {
            if *x == name {
                return Some(inner(*value));
            }
            known(outer, name)
        }
    }
}

// An exception or what a quantifier binds.
fn inner(value: ValueType) -> Known
    ensures { result ≡ record { is_local = false; value = value } }
{
    Known {
        is_local: false,
        value,
    }
}

/// No names.
pub(crate) fn no_names<'a>() -> Names<'a>
    ensures { visible result ≡ [] }
{
    Names::Nothing
}

/// The names of a method.
pub(crate) fn of_method<'a>(method: &'a MethodNames) -> Names<'a>
    ensures { visible result ≡ locals_of method.now }
{
    Names::Method(method)
}

/// The names inside a quantifier.
pub(crate) fn bound<'a>(names: &'a Names<'a>, x: &'a Identifier, value: ValueType) -> Names<'a>
    ensures { visible result ≡ plain.bound (identifier_view x.now) value (visible names.now) }
{
    Names::Bound(names, x.name.as_slice(), value)
}

/// The names inside a `signals`.
pub(crate) fn caught<'a, D: Declares>(
    d: &D,
    method: &'a MethodNames,
    x: Option<&'a Identifier>,
    value: ValueType,
) -> Names<'a>
    ensures { visible result ≡ plain_clauses.caught (D.declarations d.now) (option_map identifier_view (option_copied x.entry)) value (locals_of method.now) }
{
    let _declared = d;
    match x {
        None => Names::Method(method),
        Some(x) => Names::Exception(method, x.name.as_slice(), value),
    }
}
