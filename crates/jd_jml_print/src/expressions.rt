//! The text of expressions (JML Reference Manual, 12).

ghost use Rattle.std.specs.Prelude.{ℕ, List, false, map};
ghost use Rattle.jd_syntax.specs.JavaTypes.{type_view};
ghost use Rattle.jd_syntax.specs.SpecTrees.{spec_view, specs_of};
ghost use Rattle.jd_jml_print.specs.Writing as plain;
ghost use Rattle.jd_jml_print.specs.Writing.{Holds};

use crate::printing::Printing;
use crate::words::{
    infix_text, prefix_text, quantifier_text, spec_type_text, truth_text, type_text,
};
use jd_syntax::{SpecExpr, SpecForm, WrittenType};

impl Printing {
    // Writes a type.
    fn written(self, written: &WrittenType) -> Printing
        ensures { (w : List ℕ) → Holds self w → Holds result (plain.put w (plain.type_text (type_view written.now.written))) }
    {
        self.word(type_text(&written.written))
    }

    // `( \forall T x ;`
    fn binder(self, word: &[u8], written: &[u8], name: &[u8]) -> Printing
        ensures { (w : List ℕ) → Holds self w → Holds result (plain.write_binder w word.now written.now name.now) }
    {
        self.word(b"(")
            .word(word)
            .word(written)
            .word(name)
            .word(b";")
    }

    // `<= x && x <`
    fn between(self, name: &[u8]) -> Printing
        ensures { (w : List ℕ) → Holds self w → Holds result (plain.write_between w name.now) }
    {
        self.word(b"<=")
            .word(name)
            .word(b"&&")
            .word(name)
            .word(b"<")
    }

    /// Writes an expression.
    #[cycle(spec)]
    pub(crate) fn spec(self, expr: &SpecExpr) -> Printing
        ensures { (w : List ℕ) → Holds self w → Holds result (plain.write_spec w (spec_view expr.now)) }
    {
        match &expr.form {
            SpecForm::Integer(number) => self.integer(*number),
            SpecForm::Boolean(truth) => self.word(truth_text(*truth)),
            SpecForm::Null => self.word(b"null"),
            SpecForm::This => self.word(b"this"),
            SpecForm::Result => self.word(b"\\result"),
            SpecForm::Name(name) => self.word(name),
            SpecForm::Field(e, name) => self.spec(e).word(b".").word(&name.name),
            SpecForm::Parenthesized(e) => self.word(b"(").spec(e).word(b")"),
            SpecForm::Call(name, arguments) => {
                self.word(name).word(b"(").specs(arguments).word(b")")
            }
            SpecForm::MethodCall(e, name, arguments) => self
                .spec(e)
                .word(b".")
                .word(&name.name)
                .word(b"(")
                .specs(arguments)
                .word(b")"),
            SpecForm::Index(array, index) => self.spec(array).word(b"[").spec(index).word(b"]"),
            SpecForm::Prefix(operator, e) => self.word(prefix_text(*operator)).spec(e),
            SpecForm::Cast(written, e) => self.word(b"(").written(written).word(b")").spec(e),
            SpecForm::Infix(operator, a, b) => self.spec(a).word(infix_text(*operator)).spec(b),
            SpecForm::InstanceOf(e, written) => {
                self.spec(e).word(b"instanceof").written(written)
            }
            SpecForm::Conditional(condition, a, b) => self
                .spec(condition)
                .word(b"?")
                .spec(a)
                .word(b":")
                .spec(b),
            SpecForm::Implies(a, b) => self.spec(a).word(b"==>").spec(b),
            SpecForm::Equivalent(a, b) => self.spec(a).word(b"<==>").spec(b),
            SpecForm::Old(e) => self.word(b"\\old (").spec(e).word(b")"),
            SpecForm::Fresh(e) => self.word(b"\\fresh (").spec(e).word(b")"),
            SpecForm::InvariantFor(e) => self.word(b"\\invariant_for (").spec(e).word(b")"),
            SpecForm::Quantified(quantifier, written, name, e) => self
                .binder(
                    quantifier_text(*quantifier),
                    spec_type_text(written),
                    &name.name,
                )
                .spec(e)
                .word(b")"),
            SpecForm::QuantifiedIn(quantifier, written, name, range, e) => self
                .binder(
                    quantifier_text(*quantifier),
                    spec_type_text(written),
                    &name.name,
                )
                .spec(range)
                .word(b";")
                .spec(e)
                .word(b")"),
            SpecForm::Sum(name, from, to, e) => self
                .binder(b"\\sum", b"int", &name.name)
                .spec(from)
                .between(&name.name)
                .spec(to)
                .word(b";")
                .spec(e)
                .word(b")"),
        }
    }

    // Writes expressions, with commas between them.
    #[cycle(spec)]
    fn specs(self, exprs: &[SpecExpr]) -> Printing
        ensures { (w : List ℕ) → Holds self w → Holds result (plain.write_specs false w (specs_of (map spec_view exprs.now))) }
    {
        let mut out = self;
        let mut more = false;
        for expr in exprs {
            out = out.comma(more).spec(expr);
            more = true;
        }
        out
    }
}
