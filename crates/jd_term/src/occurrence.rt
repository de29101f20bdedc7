//! Where variables and constants occur.

ghost use Rattle.jd_syntax.specs.CodeNames.{same_name};
ghost use Rattle.jd_syntax.specs.Names.{var_view};
ghost use Rattle.jd_term.specs.Formulas.{formula_view};
ghost use Rattle.jd_term.specs.Occurs.{const_in_term, constant_found, occurs_const_in, occurs_var_in, var_in_term, variable_found};
ghost use Rattle.jd_term.specs.TermViews.{const_view, term_view};
ghost use Rattle.std.specs.Prelude.{◌≡◌};

use crate::folding::{Gather, fold_formula, fold_term};
use crate::formula::Formula;
use crate::term::{ConstId, Loc, Term};
use jd_syntax::{Code, VarId};

/// Whether both are one program variable, as [`VarId::equals`], told by its test.
pub fn is_same(v: &VarId, w: &VarId) -> bool
    ensures { result ≡ same_name (var_view v.now) (var_view w.now) }
{
    v.equals(w)
}

/// Whether both are one constant, as [`ConstId::equals`], told by its test.
pub fn is_same_constant(c: &ConstId, d: &ConstId) -> bool
    ensures { result ≡ same_name (const_view c.now) (const_view d.now) }
{
    c.equals(d)
}

#[derive(Clone, Copy)]
struct VariableFound<'a> {
    variable: &'a VarId,
}

impl<'a> Gather for VariableFound<'a> {
    type Out = bool;

    ghost gathers = { λ s. variable_found (var_view s.variable.now) };

    fn none(&self) -> bool {
        false
    }

    fn join(&self, a: bool, b: bool) -> bool {
        a || b
    }

    fn term(&self, t: &Term, inside: bool) -> bool {
        match t {
            Term::ProgramVariable(x) => is_same(self.variable, x),
            _ => inside,
        }
    }

    fn loc(&self, _l: &Loc, inside: bool) -> bool {
        inside
    }

    fn formula(&self, _f: &Formula, inside: bool) -> bool {
        inside
    }

    fn pair(&self, x: &VarId, inside: bool) -> bool {
        is_same(self.variable, x) || inside
    }

    fn code(&self, c: &Code) -> bool {
        c.mentions(self.variable)
    }
}

/// Whether the variable occurs in the term.
pub fn occurs_var_term(t: &Term, v: &VarId) -> bool
    ensures { result ≡ var_in_term (var_view v.now) (term_view t.now) }
{
    fold_term(&VariableFound { variable: v }, t)
}

/// Whether the variable occurs in the formula: in a term, on the left of an update, or in code.
pub fn occurs_var(f: &Formula, v: &VarId) -> bool
    ensures { result ≡ occurs_var_in (var_view v.now) (formula_view f.now) }
{
    fold_formula(&VariableFound { variable: v }, f)
}

#[derive(Clone, Copy)]
struct ConstantFound<'a> {
    constant: &'a ConstId,
}

impl<'a> Gather for ConstantFound<'a> {
    type Out = bool;

    ghost gathers = { λ s. constant_found (const_view s.constant.now) };

    fn none(&self) -> bool {
        false
    }

    fn join(&self, a: bool, b: bool) -> bool {
        a || b
    }

    fn term(&self, t: &Term, inside: bool) -> bool {
        match t {
            Term::Constant(c) => is_same_constant(self.constant, c),
            _ => inside,
        }
    }

    fn loc(&self, _l: &Loc, inside: bool) -> bool {
        inside
    }

    fn formula(&self, _f: &Formula, inside: bool) -> bool {
        inside
    }

    fn pair(&self, _x: &VarId, inside: bool) -> bool {
        inside
    }

    fn code(&self, _c: &Code) -> bool {
        false
    }
}

/// Whether the constant occurs in the term.
pub fn occurs_const_term(t: &Term, d: &ConstId) -> bool
    ensures { result ≡ const_in_term (const_view d.now) (term_view t.now) }
{
    fold_term(&ConstantFound { constant: d }, t)
}

/// Whether the constant occurs in the formula.
pub fn occurs_const(f: &Formula, d: &ConstId) -> bool
    ensures { result ≡ occurs_const_in (const_view d.now) (formula_view f.now) }
{
    fold_formula(&ConstantFound { constant: d }, f)
}
