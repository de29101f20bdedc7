//! The text of formulas.

ghost use Rattle.std.specs.Prelude.{◌≡◌, IfOk, map};
ghost use Rattle.jd_bracketed.specs.Trees.{spell};
ghost use Rattle.jd_term.specs.Formulas.{formula_view, pair_view};
ghost use Rattle.jd_written.specs.Written.{Text, text_of};
ghost use Rattle.jd_tgrammar.specs.Spelling.{formula_text, pairs_text};
ghost use Rattle.jd_print.specs.Printings.{Holds};
ghost use Rattle.jd_print.specs.Writing.{write_many, write_one};

use crate::names::NameTexts;
use crate::printing::Printing;
use crate::words::{formula_word, sort_word};
use jd_base::NoMemory;
use jd_term::{Elementary, Formula};
use std::alloc::Global;

impl Printing {
    // Writes the pairs of an update.
    fn pairs<N: NameTexts>(self, names: &N, pairs: &[Elementary]) -> Printing
        ensures { (t : Text) → Holds self t → Holds result (write_many t (pairs_text (N.table names.now) (map pair_view pairs.now))) }
    {
        let mut out = self;
        for pair in pairs {
            out = out
                .open()
                .word(&pair.variable.name)
                .term(names, &pair.value)
                .close();
        }
        out
    }

    /// Writes a formula.
    #[cycle(formula)]
    fn formula<N: NameTexts>(self, names: &N, formula: &Formula) -> Printing
        ensures { (t : Text) → Holds self t → Holds result (write_one t (formula_text (N.table names.now) (formula_view formula.now))) }
    {
        let head = formula_word(formula);
        match formula {
            Formula::TrueFormula => self.word(b"true"),
            Formula::FalseFormula => self.word(b"false"),
            Formula::Not(a) => self.begin(head).formula(names, a).close(),
            Formula::And(a, b) | Formula::Or(a, b) | Formula::Implies(a, b) | Formula::Iff(a, b) =>
                self.begin(head).formula(names, a).formula(names, b).close(),
            Formula::Forall(sort, a) | Formula::Exists(sort, a) => self
                .begin(head)
                .word(sort_word(*sort))
                .formula(names, a)
                .close(),
            Formula::Updated(update, a) => self
                .begin(head)
                .open()
                .pairs(names, &update.pairs)
                .close()
                .formula(names, a)
                .close(),
            Formula::Modal(_, code, a) => self
                .begin(head)
                .code(names, code)
                .formula(names, a)
                .close(),
            Formula::InInt(s) | Formula::WellFormed(s) => self.begin(head).term(names, s).close(),
            Formula::Equal(s, t)
            | Formula::Less(s, t)
            | Formula::LessOrEqual(s, t)
            | Formula::Invariant(s, t) => self.begin(head).term(names, s).term(names, t).close(),
            Formula::InLocations(s, t, l) => self
                .begin(head)
                .term(names, s)
                .term(names, t)
                .loc(names, l)
                .close(),
            Formula::IsInstance(kind, s) | Formula::IsExactInstance(kind, s) => self
                .begin(head)
                .kind(names, *kind)
                .term(names, s)
                .close(),
        }
    }
}

/// The text of a formula.
///
/// # Errors
///
/// `NoMemory` if memory runs out.
pub fn print_formula<N: NameTexts>(
    alloc: Global,
    formula: &Formula,
    names: &N,
) -> Result<Vec<u8>, NoMemory>
    ensures { IfOk result (λ v. v.items ≡ text_of (spell (formula_text (N.table names.now) (formula_view formula.now)))) }
{
    let out = Printing::new(alloc).formula(names, formula);
    out.bytes
}
