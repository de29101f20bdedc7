//! The text of sets of locations (JML Reference Manual, 12.7).

ghost use Rattle.std.specs.Prelude.{ℕ, List, false, map};
ghost use Rattle.jd_syntax.specs.SpecTrees.{location_view};
ghost use Rattle.jd_jml_print.specs.Writing as plain;
ghost use Rattle.jd_jml_print.specs.Writing.{Holds};

use crate::printing::Printing;
use jd_syntax::{LocExpr, LocForm};

impl Printing {
    // Writes a set of locations.
    fn location(self, location: &LocExpr) -> Printing
        ensures { (w : List ℕ) → Holds self w → Holds result (plain.write_location w (location_view location.now)) }
    {
        match &location.form {
            LocForm::Nothing => self.word(b"\\nothing"),
            LocForm::Everything => self.word(b"\\everything"),
            LocForm::Own(name) => self.word(name),
            LocForm::Field(e, name) => self.spec(e).word(b".").word(&name.name),
            LocForm::AllFields(e) => self.spec(e).word(b". *"),
            LocForm::Element(array, index) => self.spec(array).word(b"[").spec(index).word(b"]"),
            LocForm::Range(array, from, to) => self
                .spec(array)
                .word(b"[")
                .spec(from)
                .word(b"..")
                .spec(to)
                .word(b"]"),
            LocForm::AllElements(array) => self.spec(array).word(b"[ * ]"),
        }
    }

    /// Writes sets of locations, with commas between them.
    pub(crate) fn locations(self, locations: &[LocExpr]) -> Printing
        ensures { (w : List ℕ) → Holds self w → Holds result (plain.write_locations false w (map location_view locations.now)) }
    {
        let mut out = self;
        let mut more = false;
        for location in locations {
            out = out.comma(more).location(location);
            more = true;
        }
        out
    }
}
