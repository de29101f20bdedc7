ghost use Rattle.jd_tparse.specs.Programs.{AreSomeTables};

use jd_base::ConstDecl;
use jd_classes::Classes;
use jd_syntax::VarDecl;

/// The names that text may use: those of a program's classes, fields and methods, and those of some variables and constants.
/// A name that begins with `@` or `#` and the letter of a sort tells its sort, and is always among them.
#[derive(Clone, Copy)]
pub struct Names<'a> {
    pub(crate) classes: &'a Classes,
    pub(crate) vars: &'a [VarDecl],
    pub(crate) consts: &'a [ConstDecl],
    ghost program: { ∥ AreSomeTables classes.now ∥₁ },
}
