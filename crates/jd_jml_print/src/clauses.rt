//! The text of clauses and words (JML Reference Manual, 6.2, 8, 9, 13.2).

ghost use Rattle.std.specs.Prelude.{◌≡◌, ℕ, List, ◌∷◌, [], ◌++◌, false, map, option_map, IfOk};
ghost use Rattle.jd_syntax.specs.JavaTypes.{identifier_view};
ghost use Rattle.jd_syntax.specs.SpecTrees.{clause_form, clause_view};
ghost use Rattle.jd_jml_print.specs.Texts.{printed};
ghost use Rattle.jd_jml_print.specs.Writing as plain;
ghost use Rattle.jd_jml_print.specs.Writing.{Holds};

use crate::printing::Printing;
use crate::words::truth_text;
use jd_base::NoMemory;
use jd_syntax::{ClauseForm, Identifier, SpecClause};
use std::alloc::Global;

// The word that a clause begins with.
fn head(form: &ClauseForm) -> &'static [u8]
    ensures { result.now ≡ plain.head (clause_form 0 form.now) }
{
    match form {
        ClauseForm::Requires(_) => b"requires",
        ClauseForm::Ensures(_) => b"ensures",
        ClauseForm::Signals(..) => b"signals",
        ClauseForm::SignalsOnly(_) => b"signals_only",
        ClauseForm::Assignable(_) => b"assignable",
        ClauseForm::MeasuredBy(_) => b"measured_by",
        ClauseForm::Diverges(_) => b"diverges",
        ClauseForm::LoopInvariant(_) => b"loop_invariant",
        ClauseForm::Decreases(_) => b"decreases",
        ClauseForm::Invariant(_) => b"invariant",
        ClauseForm::NormalBehavior => b"normal_behavior",
        ClauseForm::ExceptionalBehavior => b"exceptional_behavior",
        ClauseForm::Behavior => b"behavior",
        ClauseForm::Also => b"also",
        ClauseForm::Pure => b"pure",
        ClauseForm::Helper => b"helper",
        ClauseForm::Nullable => b"nullable",
        ClauseForm::NonNull => b"non_null",
        ClauseForm::SpecPublic => b"spec_public",
        ClauseForm::SpecProtected => b"spec_protected",
    }
}

impl Printing {
    // Writes names, with commas between them.
    fn names(self, names: &[Identifier]) -> Printing
        ensures { (w : List ℕ) → Holds self w → Holds result (plain.write_names false w (map identifier_view names.now)) }
    {
        let mut out = self;
        let mut more = false;
        for name in names {
            out = out.comma(more).word(&name.name);
            more = true;
        }
        out
    }

    // Writes the classes of `signals_only`.
    fn classes(self, classes: &[Identifier]) -> Printing
        ensures { (w : List ℕ) → Holds self w → Holds result (plain.write_classes w (map identifier_view classes.now)) }
    {
        match classes {
            [] => self.word(b"\\nothing"),
            [_, ..] => self.names(classes),
        }
    }

    // Writes the variable that is an exception's, where one is named.
    fn exception(self, name: &Option<Identifier>) -> Printing
        ensures { (w : List ℕ) → Holds self w → Holds result (plain.write_exception w (option_map identifier_view name.now)) }
    {
        match name {
            Some(name) => self.word(&name.name),
            None => self,
        }
    }

    // Writes what stands behind a clause's word.
    fn rest(self, form: &ClauseForm) -> Printing
        ensures { (w : List ℕ) → Holds self w → Holds result (plain.write_rest w (clause_form 0 form.now)) }
    {
        match form {
            ClauseForm::Requires(e)
            | ClauseForm::Ensures(e)
            | ClauseForm::MeasuredBy(e)
            | ClauseForm::LoopInvariant(e)
            | ClauseForm::Decreases(e)
            | ClauseForm::Invariant(e) => self.spec(e).word(b";"),
            ClauseForm::Signals(class, name, e) => self
                .word(b"(")
                .word(&class.name)
                .exception(name)
                .word(b")")
                .spec(e)
                .word(b";"),
            ClauseForm::SignalsOnly(classes) => self.classes(classes).word(b";"),
            ClauseForm::Assignable(locations) => self.locations(locations).word(b";"),
            ClauseForm::Diverges(truth) => self.word(truth_text(*truth)).word(b";"),
            ClauseForm::NormalBehavior
            | ClauseForm::ExceptionalBehavior
            | ClauseForm::Behavior
            | ClauseForm::Also
            | ClauseForm::Pure
            | ClauseForm::Helper
            | ClauseForm::Nullable
            | ClauseForm::NonNull
            | ClauseForm::SpecPublic
            | ClauseForm::SpecProtected => self,
        }
    }

    // Writes a line for each clause.
    fn clauses(self, clauses: &[SpecClause]) -> Printing
        ensures { (w : List ℕ) → Holds self w → Holds result (plain.write_clauses w (map clause_view clauses.now)) }
    {
        let mut out = self;
        for clause in clauses {
            out = out
                .put(b'\n', b"")
                .word(head(&clause.form))
                .rest(&clause.form);
        }
        out
    }
}

/// The text of clauses: a comment that is JML (JML Reference Manual, 4.4), with a line for each clause and a blank before each token.
///
/// # Errors
///
/// `NoMemory` if memory runs out.
pub fn print_clauses(alloc: Global, clauses: &[SpecClause]) -> Result<Vec<u8>, NoMemory>
    ensures { IfOk result (λ v. v.items ≡ printed (map clause_view clauses.now)) }
{
    let out = Printing::new(alloc)
        .put(b'/', b"*@")
        .clauses(clauses)
        .put(b'\n', b" @*/");
    out.bytes
}
