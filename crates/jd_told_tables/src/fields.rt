//! Terms that are fields.

ghost use Rattle.std.specs.Prelude.{◌≡◌, cond, false, nat_eq, option_map, true};
ghost use Rattle.jd_jinfos.specs.Views.{field_number};
ghost use Rattle.jd_taclet_stages.specs.Conditions.{field_of_term};
ghost use Rattle.jd_taclets.specs.Conditions.{are_apart, is_named_field};
ghost use Rattle.jd_term.specs.TermViews.{term_view};
ghost use Rattle.jd_told_tables.specs.Lent.{term_or};

use jd_base::FieldId;
use jd_term::Term;

// Whether it is `C.f` or `(idx i)`.
fn is_name(t: &Term) -> bool
    ensures { result ≡ is_named_field (term_view t.now) }
{
    match t {
        Term::NamedField(_) => true,
        Term::ElementField(_) => true,
        _ => false,
    }
}

/// The same of a term that may not be there.
pub fn is_named_field(t: Option<&Term>) -> bool
    ensures { result ≡ is_named_field (term_or (option_map (λ t. term_view t.now) t.entry)) }
{
    match t {
        Some(t) => is_name(t),
        None => false,
    }
}

fn differ(f: FieldId, e: FieldId) -> bool
    ensures { result ≡ cond (nat_eq f.0 e.0) false true }
{
    f.0 != e.0
}

// Whether both are of the forms of fields, and of different forms or different names.
fn are_others(f: &Term, e: &Term) -> bool
    ensures { result ≡ are_apart (term_view f.now) (term_view e.now) }
{
    match f {
        Term::NamedField(f) => match e {
            Term::NamedField(e) => differ(*f, *e),
            Term::CreatedField => true,
            Term::ElementField(_) => true,
            _ => false,
        },
        Term::CreatedField => match e {
            Term::NamedField(_) => true,
            Term::ElementField(_) => true,
            _ => false,
        },
        Term::ElementField(_) => match e {
            Term::NamedField(_) => true,
            Term::CreatedField => true,
            _ => false,
        },
        _ => false,
    }
}

/// The same of terms that may not be there.
#[tactic(auto, using(crate::proofs::Apart::never))]
pub fn are_apart(f: Option<&Term>, e: Option<&Term>) -> bool
    ensures { result ≡ are_apart (term_or (option_map (λ t. term_view t.now) f.entry)) (term_or (option_map (λ t. term_view t.now) e.entry)) }
{
    match f {
        Some(f) => match e {
            Some(e) => are_others(f, e),
            None => false,
        },
        None => false,
    }
}

fn field_in(t: &Term) -> Option<FieldId>
    ensures { option_map field_number result ≡ field_of_term (term_view t.now) }
{
    match t {
        Term::NamedField(f) => Some(*f),
        _ => None,
    }
}

/// The field that the term is.
pub fn field_of(t: Option<&Term>) -> Option<FieldId>
    ensures { option_map field_number result ≡ field_of_term (term_or (option_map (λ t. term_view t.now) t.entry)) }
{
    match t {
        Some(t) => field_in(t),
        None => None,
    }
}
