//! The form of what a node stands for: how high it is, what may be done with it, and what it asks of the operand before it.

ghost use Rattle.std.specs.Prelude.{◌≡◌};
ghost use Rattle.jd_java_attributes.specs.declared.form.Asked.{Asked};
ghost use Rattle.jd_java_attributes.specs.declared.form.TheConstants.{EMPTY};
ghost use Rattle.jd_java_attributes.specs.Forms as plain;

/// What an expression is, or what makes it of the operand that it stands behind.
#[derive(Clone, Copy, PartialEq, Eq)]
pub enum Kind {
    /// What stands behind the operand is empty.
    Same,
    /// A name alone.
    Name,
    /// A name alone in parentheses.
    NameInParentheses,
    /// May be assigned, as a name may: a member, an element, `this`, and these in parentheses (JLS 15.26).
    Target,
    /// May stand as a statement: an assignment, `++`, `--`, a call, or the creation of an object (JLS 14.8).
    Effect,
    /// Any other.
    Other,
}

/// What something asks of the operand that it stands behind, with the place of its own first token.
#[derive(Clone, Copy, PartialEq, Eq)]
pub enum Asked {
    /// Nothing.
    Nothing,
    /// That it may be assigned.
    Target(u32),
    /// That it is the name of a class in parentheses (JLS 15.16).
    Class(u32),
}

/// The attributes of a node. Heights above 201 are not told apart.
#[derive(Clone, Copy, PartialEq, Eq)]
pub struct Form {
    /// How many tokens it has.
    pub tokens: u32,
    /// How high the highest expression in it is. Of what stands behind an operand: how high at least it makes the whole.
    pub height: u16,
    /// How many levels it stands above the operand before it.
    pub adds: u16,
    /// How high the highest statement in it is.
    pub nesting: u16,
    /// What it is.
    pub kind: Kind,
    /// What it asks of the operand before it.
    pub asked: Asked,
    /// The place of the first token with which no file goes on.
    pub fault: Option<u32>,
    /// The place of the first part that is higher than 200, and has no part that is.
    pub high: Option<u32>,
}

/// The attributes of nothing.
pub(crate) const EMPTY: Form = Form {
    tokens: 0,
    height: 0,
    adds: 0,
    nesting: 0,
    kind: Kind::Same,
    asked: Asked::Nothing,
    fault: None,
    high: None,
};

fn plus(a: u16, b: u16) -> u16
    ensures { result ≡ plain.plus a b }
{
    a.saturating_add(b).min(201)
}

/// One level above.
pub(crate) fn up(height: u16) -> u16
    ensures { result ≡ plain.up height }
{
    plus(height, 1)
}

/// How many tokens two things have together.
pub(crate) fn tokens_of_both(a: u32, b: u32) -> u32
    ensures { result ≡ plain.tokens_of_both a b }
{
    a.saturating_add(b)
}

/// The first of two places.
pub(crate) fn first_of(a: Option<u32>, b: Option<u32>) -> Option<u32>
    ensures { result ≡ plain.first_of a b }
{
    match (a, b) {
        (Some(p), Some(q)) => Some(p.min(q)),
        (Some(p), None) => Some(p),
        (None, q) => q,
    }
}

/// Whether it may be assigned.
pub(crate) fn is_target(kind: Kind) -> bool
    ensures { result ≡ plain.is_target kind }
{
    match kind {
        Kind::Name | Kind::NameInParentheses | Kind::Target => true,
        _ => false,
    }
}

/// What it is in parentheses.
pub(crate) fn inside(kind: Kind) -> Kind
    ensures { result ≡ plain.inside kind }
{
    match kind {
        Kind::Name => Kind::NameInParentheses,
        Kind::NameInParentheses | Kind::Target => Kind::Target,
        _ => Kind::Other,
    }
}

// What an operand becomes by what stands behind it.
fn behind(operand: Kind, suffix: Kind) -> Kind
    ensures { result ≡ plain.behind operand suffix }
{
    if suffix == Kind::Same {
        operand
    } else {
        suffix
    }
}

// The place where something is asked that an operand of this kind is not.
fn unmet(operand: Kind, asked: Asked) -> Option<u32>
    ensures { result ≡ plain.unmet operand asked }
{
    if operand == Kind::Same {
        return None;
    }
    match asked {
        Asked::Nothing => None,
        Asked::Target(at) => { if is_target(operand) { None } else { Some(at) } }
        Asked::Class(at) => {
            if operand == Kind::NameInParentheses {
                None
            } else {
                Some(at)
            }
        }
    }
}

fn asked_of_both(a: Form, b: Form) -> Asked
    ensures { result ≡ plain.asked_of_both a b }
{
    if a.kind == Kind::Same {
        b.asked
    } else {
        a.asked
    }
}

// What is asked where nothing stands behind.
fn asked_before_nothing(a: Form) -> Asked
    ensures { result ≡ plain.asked_behind a.kind a.asked Asked.Nothing }
{
    if a.kind == Kind::Same {
        Asked::Nothing
    } else {
        a.asked
    }
}

// One before nothing.
#[tactic(auto, using(crate::proofs::Settled::before_nothing))]
fn before_nothing(a: Form) -> Form
    ensures { result ≡ plain.in_order a EMPTY }
{
    Form {
        height: a.height.min(201),
        adds: a.adds.min(201),
        asked: asked_before_nothing(a),
        ..a
    }
}

/// The one before the other.
pub(crate) fn in_order(a: Form, b: Form) -> Form
    ensures { result ≡ plain.in_order a b }
{
    if b == EMPTY {
        return before_nothing(a);
    }
    joined(a, b)
}

// The one before the other, where both may be anything.
fn joined(a: Form, b: Form) -> Form
    ensures { result ≡ plain.in_order a b }
{
    let fault = first_of(first_of(a.fault, b.fault), unmet(a.kind, b.asked));
    Form {
        tokens: tokens_of_both(a.tokens, b.tokens),
        height: plus(a.height, b.adds).max(b.height),
        adds: plus(a.adds, b.adds),
        nesting: a.nesting.max(b.nesting),
        kind: behind(a.kind, b.kind),
        asked: asked_of_both(a, b),
        fault,
        high: first_of(a.high, b.high),
    }
}
