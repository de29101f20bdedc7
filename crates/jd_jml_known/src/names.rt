//! The names that an expression sees.

ghost use Rattle.std.specs.Prelude.{◌≡◌, ◌∷◌, ℕ, suc, [], option_map};
ghost use Rattle.std.specs.Option.{option_copied};
ghost use Rattle.jd_jml_known.specs.Scopes.{at_most_32, binder_by, entry_view, known_of, meaning_view, saturated, visible};
ghost use Rattle.jd_specifications.specs.Resolution as plain;
ghost use Rattle.jd_specifications.specs.WrittenCases.{with_exception};
ghost use Rattle.jd_syntax.specs.JavaTypes.{identifier_view};

use crate::method_names::{Entry, Known, KnownNames};
use jd_bodies::ValueType;
use jd_naming::Declares;
use jd_syntax::{Identifier, VarId};

/// The names that an expression sees, the innermost first.
#[derive(Clone, Copy)]
pub enum Names<'a> {
    /// None.
    Nothing,
    /// The parameters and locals of the method.
    Method(&'a KnownNames),
    /// Those, and the exception of a `signals`.
    Exception(&'a KnownNames, &'a [u8], ValueType),
    /// Others, and what a quantifier binds.
    Bound(&'a Names<'a>, &'a [u8], ValueType),
}

/// What a name in scope stands for.
#[derive(Clone, Copy)]
pub enum Meaning<'a> {
    /// The argument at this position, from 0.
    Argument(u32),
    /// The variable.
    Variable(&'a VarId),
    /// The exception.
    Exception,
    /// What a quantifier binds inside of which so many others stand, at most `u32::MAX`, and the type of its values.
    Bound(u32, ValueType),
}

// What a method's name stands for.
fn meant(entry: &Entry) -> Meaning<'_>
    ensures { (n : ℕ) → meaning_view result ≡ saturated (plain.found n (entry_view entry.now)) }
{
    match &entry.known {
        Known::Argument(position) => Meaning::Argument(*position),
        Known::Variable(x) => Meaning::Variable(x),
    }
}

// What a name stands for, where it is a method's.
fn in_method<'a>(method: &'a KnownNames, name: &[u8]) -> Option<Meaning<'a>>
    ensures { (n : ℕ) → option_map meaning_view result ≡ option_map saturated (plain.looked_up n (known_of method.now) name.now) }
{
    match method.named(name) {
        None => None,
        Some(entry) => Some(meant(entry)),
    }
}

// One quantifier more.
fn one_more(inside: u32) -> u32
    ensures { (n : ℕ) → inside ≡ at_most_32 n → result ≡ at_most_32 (suc n) }
{
    inside.saturating_add(1)
}

/// What a name stands for, where it is one of these, inside of so many quantifiers, or of `u32::MAX` and more.
pub fn looked_up<'n>(names: &Names<'n>, inside: u32, name: &[u8]) -> Option<Meaning<'n>>
    ensures { (n : ℕ) → inside ≡ at_most_32 n → option_map meaning_view result ≡ option_map saturated (plain.looked_up n (visible names.now) name.now) }
{
    match names {
        Names::Nothing => None,
        Names::Method(method) => in_method(*method, name),
        Names::Exception(method, x, _) => {
            if *x == name {
                return Some(Meaning::Exception);
            }
            in_method(*method, name)
        }
        Names::Bound(outer, x, value) => {
            if *x == name {
                return Some(Meaning::Bound(inside, *value));
            }
            looked_up(outer, one_more(inside), name)
        }
    }
}

// The type of a method's name.
fn typed_in_method(method: &KnownNames, name: &[u8]) -> Option<ValueType>
    ensures { result ≡ plain.typed (known_of method.now) name.now }
{
    match method.named(name) {
        None => None,
        Some(entry) => Some(entry.value),
    }
}

/// The type of a name, where it is one of these.
pub(crate) fn typed(names: &Names<'_>, name: &[u8]) -> Option<ValueType>
    ensures { result ≡ plain.typed (visible names.now) name.now }
{
    match names {
        Names::Nothing => None,
        Names::Method(method) => typed_in_method(method, name),
        Names::Exception(method, x, value) => {
            if *x == name {
                return Some(*value);
            }
            typed_in_method(method, name)
        }
        Names::Bound(outer, x, value) => {
            if *x == name {
                return Some(*value);
            }
            typed(outer, name)
        }
    }
}

/// No names.
pub fn no_names<'a>() -> Names<'a>
    ensures { visible result ≡ [] }
{
    Names::Nothing
}

/// The names of a method.
pub fn of_method<'a>(method: &'a KnownNames) -> Names<'a>
    ensures { visible result ≡ known_of method.now }
{
    Names::Method(method)
}

/// The names inside a quantifier.
pub fn bound<'a>(names: &'a Names<'a>, x: &'a Identifier, value: ValueType) -> Names<'a>
    ensures { visible result ≡ binder_by (identifier_view x.now) value ∷ visible names.now }
{
    Names::Bound(names, x.name.as_slice(), value)
}

/// The names inside a `signals` of a class.
pub fn caught<'a, D: Declares>(
    d: &D,
    method: &'a KnownNames,
    x: Option<&'a Identifier>,
    class: u32,
) -> Names<'a>
    ensures { visible result ≡ with_exception (D.declarations d.now) (option_map identifier_view (option_copied x.entry)) class (known_of method.now) }
{
    let _declared = d;
    match x {
        None => Names::Method(method),
        Some(x) => Names::Exception(method, x.name.as_slice(), ValueType::Class(class)),
    }
}
