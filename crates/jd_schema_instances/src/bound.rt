//! The part that a variable is bound to.

ghost use Rattle.std.specs.Prelude.{◌≡◌, map, nat_eq, option_map};
ghost use Rattle.jd_patterns.specs.Chosen.{bound_to, is_of, kind_of, number_of};
ghost use Rattle.jd_schema_instances.specs.Kinds.{var_kind};
ghost use Rattle.jd_schema_matching.specs.PartViews.{bindings, entry_view, part_view};
ghost use Rattle.jd_schema_matching.specs.Tested.{tests};

use crate::choice::Chosen;
use jd_schema_matching::{Entry, PartRef, same_variable};

/// What a variable stands for.
#[derive(Clone, Copy)]
pub enum PartKind {
    /// A formula.
    Formula,
    /// A term.
    Term,
    /// A literal.
    Literal,
    /// Locations.
    Locations,
    /// A class, or `int[]`.
    Kind,
    /// A sort.
    Sort,
    /// A program variable.
    Name,
    /// The variable that takes a frame's result, where there is one.
    Result,
    /// A field.
    Field,
    /// A class.
    Class,
    /// A label.
    Label,
    /// Statements in a row.
    Code,
    /// A `return` of a simple expression, or of no value.
    Return,
    /// A simple expression.
    Simple,
    /// A modality.
    Modality,
    /// What is around a focus.
    Context,
}

fn number_of(kind: PartKind) -> u8
    ensures { result ≡ number_of (var_kind kind) }
{
    match kind {
        PartKind::Formula => 0,
        PartKind::Term => 1,
        PartKind::Literal => 2,
        PartKind::Locations => 3,
        PartKind::Kind => 4,
        PartKind::Sort => 5,
        PartKind::Name => 6,
        PartKind::Result => 7,
        PartKind::Field => 8,
        PartKind::Class => 9,
        PartKind::Label => 10,
        PartKind::Code => 11,
        PartKind::Return => 12,
        PartKind::Simple => 13,
        PartKind::Modality => 14,
        PartKind::Context => 15,
    }
}

fn kind_of(x: PartRef<'_>) -> PartKind
    ensures { var_kind result ≡ kind_of (part_view x.entry) }
{
    match x {
        PartRef::Formula(_) => PartKind::Formula,
        PartRef::Term(_) => PartKind::Term,
        PartRef::Literal(_) => PartKind::Literal,
        PartRef::Locations(_) => PartKind::Locations,
        PartRef::Kind(_) => PartKind::Kind,
        PartRef::Sort(_) => PartKind::Sort,
        PartRef::Name(_) => PartKind::Name,
        PartRef::Result(_) => PartKind::Result,
        PartRef::Field(_) => PartKind::Field,
        PartRef::Class(_) => PartKind::Class,
        PartRef::Label(_) => PartKind::Label,
        PartRef::Code(_) => PartKind::Code,
        PartRef::Return(_) => PartKind::Return,
        PartRef::Simple(_) => PartKind::Simple,
        PartRef::Modality(_) => PartKind::Modality,
        PartRef::Context(_, _) => PartKind::Context,
    }
}

fn same(k: u8, l: u8) -> bool
    ensures { result ≡ nat_eq k l }
{
    k == l
}

// Whether the binding is one of the variable.
fn is_of(kind: PartKind, n: &[u8], e: &Entry<'_>) -> bool
    ensures { result ≡ is_of tests (var_kind kind, n.now) (entry_view e.now) }
{
    same(number_of(kind_of(e.part)), number_of(kind)) && same_variable(e.name, n)
}

fn first_of<'t>(entries: &[Entry<'t>], kind: PartKind, n: &[u8]) -> Option<PartRef<'t>>
    ensures { option_map part_view result ≡ bound_to tests (var_kind kind, n.now) (map entry_view entries.now) }
{
    for e in entries {
        if is_of(kind, n, e) {
            return Some(e.part);
        }
    }
    None
}

/// The first part that the variable is bound to.
pub fn bound_to<'t>(by: &Chosen<'_, 't>, kind: PartKind, n: &[u8]) -> Option<PartRef<'t>>
    ensures { option_map part_view result ≡ bound_to tests (var_kind kind, n.now) (bindings by.now.found.now) }
{
    first_of(by.found.entries.as_slice(), kind, n)
}
