ghost use Rattle.std.specs.Prelude.{◌≡◌, IfOk, option_map};
ghost use Rattle.jd_syntax.specs.Names.{var_view};
ghost use Rattle.jd_tgrammar.specs.NameTables.{NameTable};
ghost use Rattle.jd_tforms.specs.Naming as naming;

use jd_base::{ClassId, FieldId, MethodId, NoMemory};
use jd_syntax::VarId;
use std::alloc::Global;

/// What the names in the text of terms and code stand for.
pub trait NameMeanings {
    /// The names.
    ghost table: { Self → NameTable };

    /// The class of that name.
    fn class_of(&self, word: &[u8]) -> Option<ClassId>
        ensures { option_map (λ c. c.0) result ≡ naming.class_of (table self.now) word.now };

    /// The field `C.f`, where C declares it.
    fn field_of(&self, word: &[u8]) -> Option<FieldId>
        ensures { option_map (λ f. f.0) result ≡ naming.field_of (table self.now) word.now };

    /// The method `C.m` that C sees and that is not static, with the class.
    fn method_of(&self, word: &[u8]) -> Option<(ClassId, MethodId)>
        ensures { option_map (λ p. (p.0.0, p.1.0)) result ≡ naming.method_of (table self.now) word.now };

    /// The static method `C.m` that C declares.
    fn static_of(&self, word: &[u8]) -> Option<MethodId>
        ensures { option_map (λ m. m.0) result ≡ naming.static_of (table self.now) word.now };

    /// The constructor of the class of that name.
    fn constructor_of(&self, word: &[u8]) -> Option<MethodId>
        ensures { option_map (λ m. m.0) result ≡ naming.constructor_of (table self.now) word.now };

    /// The program variable of that name.
    fn variable_of(&self, alloc: Global, word: &[u8]) -> Result<Option<VarId>, NoMemory>
        ensures { IfOk result (λ o. option_map var_view o ≡ naming.variable_of (table self.now) word.now) };
}
