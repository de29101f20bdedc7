//! The form of what a node stands for: how high it is, what it is, and what it asks of the operand before it.

ghost use Rattle.std.specs.Prelude.{◌≡◌};
ghost use Rattle.jd_jml_attributes.specs.Forms as plain;
ghost use Rattle.jd_jml_attributes.specs.Forms.{form_view, kind_view};

/// What an expression is, or what makes it of the operand that it stands behind.
#[derive(Clone, Copy)]
pub enum Kind<'a> {
    /// What stands behind the operand is empty.
    Same,
    /// A name alone.
    Name(&'a [u8]),
    /// A name alone in parentheses.
    NameInParentheses,
    /// Stands behind an operand: `< e`, and nothing behind it.
    Less,
    /// Ends in `<= x`, or stands behind an operand and does.
    AtMost(&'a [u8]),
    /// `x < e`
    Below(&'a [u8]),
    /// Stands behind an operand: `&& x < e`, and nothing behind it.
    AndBelow(&'a [u8]),
    /// `e <= x && y < e`, the range of a sum where both names are its variable's (JML Reference Manual, 12.4.24).
    Between(&'a [u8], &'a [u8]),
    /// Any other.
    Other,
}

/// An operator that makes, of an operand and its right operand, what ranges of sums have.
#[derive(Clone, Copy)]
pub enum Link {
    /// `<`
    Less,
    /// `<=`
    AtMost,
    /// `&&`
    And,
    /// Any other.
    Other,
}

/// The attributes of a node. Heights above 201 are not told apart.
#[derive(Clone, Copy)]
pub struct Form<'a> {
    /// How high the highest expression in it is. Of what stands behind an operand: how high at least it makes the whole.
    pub height: u8,
    /// How many levels it stands above the operand before it.
    pub adds: u8,
    /// What it is.
    pub kind: Kind<'a>,
    /// The place of a cast's operand, before which a class in parentheses has to stand (JLS 15.16).
    pub cast: Option<u32>,
    /// The place of the first token with which no JML goes on.
    pub fault: Option<u32>,
    /// The place of the first part that is higher than 200, and has no part that is.
    pub high: Option<u32>,
}

/// The attributes of nothing.
pub(crate) const EMPTY: Form<'static> = Form {
    height: 0,
    adds: 0,
    kind: Kind::Same,
    cast: None,
    fault: None,
    high: None,
};

fn plus(a: u8, b: u8) -> u8
    ensures { result ≡ plain.plus a b }
{
    (a as u16 + b as u16).min(201) as u8
}

/// One level above.
pub(crate) fn up(height: u8) -> u8
    ensures { result ≡ plain.up height }
{
    plus(height, 1)
}

/// The first of two places.
pub(crate) fn first_of(a: Option<u32>, b: Option<u32>) -> Option<u32>
    ensures { result ≡ plain.first_of a b }
{
    match (a, b) {
        (Some(p), Some(q)) => Some(p.min(q)),
        (Some(p), None) => Some(p),
        (None, q) => q,
    }
}

/// What it is in parentheses.
pub(crate) fn inside<'a>(kind: Kind<'a>) -> Kind<'a>
    ensures { kind_view result ≡ plain.inside (kind_view kind.entry) }
{
    match kind {
        Kind::Name(_) => Kind::NameInParentheses,
        _ => Kind::Other,
    }
}

// What an operand becomes by `< e` behind it.
fn less_behind<'a>(kind: Kind<'a>) -> Kind<'a>
    ensures { kind_view result ≡ plain.less_behind (kind_view kind.entry) }
{
    match kind {
        Kind::Same => Kind::Less,
        Kind::Name(name) => Kind::Below(name),
        _ => Kind::Other,
    }
}

// What an operand becomes by `&& x < e` behind it.
fn and_behind<'a>(kind: Kind<'a>, name: &'a [u8]) -> Kind<'a>
    ensures { kind_view result ≡ plain.and_behind (kind_view kind.entry) name.now }
{
    match kind {
        Kind::Same => Kind::AndBelow(name),
        Kind::AtMost(first) => Kind::Between(first, name),
        _ => Kind::Other,
    }
}

// What an operand becomes by what stands behind it.
fn behind<'a>(operand: Kind<'a>, suffix: Kind<'a>) -> Kind<'a>
    ensures { kind_view result ≡ plain.behind (kind_view operand.entry) (kind_view suffix.entry) }
{
    match suffix {
        Kind::Same => operand,
        Kind::Less => less_behind(operand),
        Kind::AndBelow(name) => and_behind(operand, name),
        _ => suffix,
    }
}

/// What an operator and its right operand are behind the left one.
pub(crate) fn linked<'a>(link: Link, right: Kind<'a>) -> Kind<'a>
    ensures { kind_view result ≡ plain.linked link (kind_view right.entry) }
{
    match (link, right) {
        (Link::Less, _) => Kind::Less,
        (Link::AtMost, Kind::Name(name)) => Kind::AtMost(name),
        (Link::And, Kind::Below(name)) => Kind::AndBelow(name),
        _ => Kind::Other,
    }
}

/// Whether the second is a range of the variable that the first is.
pub(crate) fn is_range(variable: Kind<'_>, range: Kind<'_>) -> bool
    ensures { result ≡ plain.is_range (kind_view variable.entry) (kind_view range.entry) }
{
    match (variable, range) {
        (Kind::Name(name), Kind::Between(first, second)) => first == name && second == name,
        _ => false,
    }
}

// The place of a cast's operand behind what is no name in parentheses.
fn unmet(operand: Kind<'_>, cast: Option<u32>) -> Option<u32>
    ensures { result ≡ plain.unmet (kind_view operand.entry) cast }
{
    match operand {
        Kind::Same | Kind::NameInParentheses => None,
        _ => cast,
    }
}

fn cast_behind(operand: Kind<'_>, before: Option<u32>, cast: Option<u32>) -> Option<u32>
    ensures { result ≡ plain.cast_behind (kind_view operand.entry) before cast }
{
    match operand {
        Kind::Same => cast,
        _ => before,
    }
}

/// The one before the other.
pub(crate) fn in_order<'a>(a: Form<'a>, b: Form<'a>) -> Form<'a>
    ensures { form_view result ≡ plain.in_order (form_view a.entry) (form_view b.entry) }
{
    let fault = first_of(first_of(a.fault, b.fault), unmet(a.kind, b.cast));
    Form {
        height: plus(a.height, b.adds).max(b.height),
        adds: plus(a.adds, b.adds),
        kind: behind(a.kind, b.kind),
        cast: cast_behind(a.kind, a.cast, b.cast),
        fault,
        high: first_of(a.high, b.high),
    }
}
