//! The text of terms and location sets.

ghost use Rattle.std.specs.Prelude.{◌≡◌, IfOk};
ghost use Rattle.jd_bracketed.specs.Trees.{spell};
ghost use Rattle.jd_bracketed.specs.Tokens.{Word};
ghost use Rattle.jd_term.specs.TermViews.{loc_view, term_view};
ghost use Rattle.jd_written.specs.Written.{Text, text_of, write};
ghost use Rattle.jd_tgrammar.specs.Spelling.{field_word, loc_text, term_text};
ghost use Rattle.jd_print.specs.Printings.{Holds};
ghost use Rattle.jd_print.specs.Writing.{write_one};

use crate::names::NameTexts;
use crate::printing::Printing;
use crate::words::{loc_word, term_word, truth_word};
use jd_base::{FieldId, NoMemory};
use jd_term::{Loc, Term};
use std::alloc::Global;

impl Printing {
    /// Writes a field by its class and name.
    pub(crate) fn field<N: NameTexts>(self, names: &N, field: FieldId) -> Printing
        ensures { (t : Text) → Holds self t → Holds result (write t (Word (field_word (N.table names.now) field.0))) }
    {
        let class = names.field_class(field);
        self.member(names.class_name(class), names.field_name(field))
    }

    /// Writes a term.
    #[cycle(term)]
    pub(crate) fn term<N: NameTexts>(self, names: &N, term: &Term) -> Printing
        ensures { (t : Text) → Holds self t → Holds result (write_one t (term_text (N.table names.now) (term_view term.now))) }
    {
        let head = term_word(term);
        match term {
            Term::Number(n) => self.integer(*n),
            Term::Boolean(truth) => self.word(truth_word(*truth)),
            Term::NullTerm => self.word(b"null"),
            Term::CreatedField => self.word(b"created"),
            Term::ProgramVariable(variable) => self.word(&variable.name),
            Term::Constant(constant) => self.word(&constant.name),
            Term::Bound(k, _) => self.bound(*k),
            Term::NamedField(field) => self.field(names, *field),
            Term::Negation(a) | Term::Wrap(a) | Term::Length(a) | Term::ElementField(a) => {
                self.begin(head).term(names, a).close()
            }
            Term::Arithmetic(_, a, b) | Term::Create(a, b) => self
                .begin(head)
                .term(names, a)
                .term(names, b)
                .close(),
            Term::Select(_, a, b, c) | Term::Sum(a, b, c) => self
                .begin(head)
                .term(names, a)
                .term(names, b)
                .term(names, c)
                .close(),
            Term::Anon(a, l, b) => self
                .begin(head)
                .term(names, a)
                .loc(names, l)
                .term(names, b)
                .close(),
            Term::Store(a, b, c, d) => self
                .begin(head)
                .term(names, a)
                .term(names, b)
                .term(names, c)
                .term(names, d)
                .close(),
        }
    }

    /// Writes a location set.
    #[cycle(term)]
    pub(crate) fn loc<N: NameTexts>(self, names: &N, loc: &Loc) -> Printing
        ensures { (t : Text) → Holds self t → Holds result (write_one t (loc_text (N.table names.now) (loc_view loc.now))) }
    {
        let head = loc_word(loc);
        match loc {
            Loc::NoLocations => self.word(b"none"),
            Loc::AllLocations => self.word(b"all"),
            Loc::ObjectFields(a) | Loc::ArrayElements(a) => {
                self.begin(head).term(names, a).close()
            }
            Loc::Single(a, b) => self.begin(head).term(names, a).term(names, b).close(),
            Loc::ElementRange(a, b, c) => self
                .begin(head)
                .term(names, a)
                .term(names, b)
                .term(names, c)
                .close(),
            Loc::Union(l, m) => self.begin(head).loc(names, l).loc(names, m).close(),
        }
    }
}

/// The text of a term.
///
/// # Errors
///
/// `NoMemory` if memory runs out.
pub fn print_term<N: NameTexts>(alloc: Global, term: &Term, names: &N) -> Result<Vec<u8>, NoMemory>
    ensures { IfOk result (λ v. v.items ≡ text_of (spell (term_text (N.table names.now) (term_view term.now)))) }
{
    let out = Printing::new(alloc).term(names, term);
    out.bytes
}
