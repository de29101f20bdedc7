//! Where jumps go (JLS 14.15, 14.16).

ghost use Rattle.std.specs.Prelude.{◌≡◌, ◌++◌, map, option_map};
ghost use Rattle.jd_bodies.specs.Bodies as plain;
ghost use Rattle.jd_effect_code.specs.Asking.{label_texts};
ghost use Rattle.jd_statement_parts.specs.Leaving.{exits_view};
ghost use Rattle.jd_syntax.specs.JavaTypes.{identifier_view};

use jd_effect_code::{Labels, has_label};
use jd_syntax::Identifier;

/// The blocks that jumps leave, the innermost first.
#[derive(Clone, Copy)]
pub enum Exits<'a> {
    /// None.
    Nowhere,
    /// That of a label, by its number, which a `break` with the label leaves; and those around it.
    Label(&'a Exits<'a>, &'a [u8], u32),
    /// Those of a loop with these labels: that which a `break` leaves, and that which a `continue` does; and those around it.
    Loop(&'a Exits<'a>, &'a Labels<'a>, u32, u32),
}

/// None.
pub fn no_exits<'a>() -> Exits<'a>
    ensures { exits_view result ≡ plain.no_exits }
{
    Exits::Nowhere
}

/// Inside of a label.
pub fn in_label<'a>(x: &'a Exits<'a>, label: &'a [u8], number: u32) -> Exits<'a>
    ensures { exits_view result ≡ plain.with_exit label.now number (exits_view x.now) }
{
    Exits::Label(x, label, number)
}

/// Inside of a loop with these labels.
pub fn in_loop<'a>(x: &'a Exits<'a>, labels: &'a Labels<'a>, left: u32, repeated: u32) -> Exits<'a>
    ensures { exits_view result ≡ plain.loop_exits (label_texts labels.now) left repeated (exits_view x.now) }
{
    Exits::Loop(x, labels, left, repeated)
}

// The block that a `break` without a label leaves.
fn left(x: &Exits<'_>) -> u32
    ensures { result ≡ (exits_view x.now).left }
{
    match x {
        Exits::Nowhere => 0,
        Exits::Label(outer, _, _) => left(outer),
        Exits::Loop(_, _, number, _) => *number,
    }
}

// The block that a `continue` without a label leaves.
fn repeated(x: &Exits<'_>) -> u32
    ensures { result ≡ (exits_view x.now).repeated }
{
    match x {
        Exits::Nowhere => 0,
        Exits::Label(outer, _, _) => repeated(outer),
        Exits::Loop(_, _, _, number) => *number,
    }
}

// The block that a `break` with the label leaves.
fn labelled(x: &Exits<'_>, name: &[u8]) -> u32
    ensures { result ≡ plain.exit_named (exits_view x.now).labels name.now }
{
    match x {
        Exits::Nowhere => 0,
        Exits::Label(outer, label, number) => {
            if *label == name {
                *number
            } else {
                labelled(outer, name)
            }
        }
        Exits::Loop(outer, _, _, _) => labelled(outer, name),
    }
}

// The number, if the label is one of a loop's; else the other.
fn among(outer: &Exits<'_>, labels: &Labels<'_>, number: u32, name: &[u8], other: u32) -> u32
    ensures { other ≡ plain.exit_named (exits_view outer.now).loops name.now → result ≡ plain.exit_named (map (λ l. (l, number)) (label_texts labels.now) ++ (exits_view outer.now).loops) name.now }
{
    if has_label(labels, name) {
        number
    } else {
        other
    }
}

// The block that a `continue` with the label leaves.
fn resumed(x: &Exits<'_>, name: &[u8]) -> u32
    ensures { result ≡ plain.exit_named (exits_view x.now).loops name.now }
{
    match x {
        Exits::Nowhere => 0,
        Exits::Label(outer, _, _) => resumed(outer, name),
        Exits::Loop(outer, labels, _, number) => {
            among(outer, labels, *number, name, resumed(outer, name))
        }
    }
}

/// The block that a `break` leaves.
pub fn break_exit(x: &Exits<'_>, label: &Option<Identifier>) -> u32
    ensures { result ≡ plain.break_exit (exits_view x.now) (option_map identifier_view label.now) }
{
    match label {
        None => left(x),
        Some(label) => labelled(x, &label.name),
    }
}

/// The block that a `continue` leaves.
pub fn continue_exit(x: &Exits<'_>, label: &Option<Identifier>) -> u32
    ensures { result ≡ plain.continue_exit (exits_view x.now) (option_map identifier_view label.now) }
{
    match label {
        None => repeated(x),
        Some(label) => resumed(x, &label.name),
    }
}
