//! How names are made.

ghost use Rattle.std.specs.Prelude.{◌≡◌, List};
ghost use Rattle.jd_syntax.specs.JavaTrees.{JavaUnit};
ghost use Rattle.jd_classes.specs.Tables.{AreTables};
ghost use Rattle.jd_tparse.specs.Names.{table_of, variables};
ghost use Rattle.jd_tparse.specs.Programs.{AreSomeTables, tables_of};
ghost use Rattle.jd_names.specs.Tables.{name_table, program_tables};

use crate::names::Names;
use jd_base::ConstDecl;
use jd_classes::Classes;
use jd_syntax::VarDecl;

impl<'a> Names<'a> {
    /// The names of a program's classes with these variables and constants. It takes no memory.
    pub fn new(classes: &'a Classes, vars: &'a [VarDecl], consts: &'a [ConstDecl]) -> Names<'a>
        requires { ∥ AreSomeTables classes.now ∥₁ }
        ensures listed { table_of result ≡ name_table (tables_of classes.now) (variables vars.now) }
        ensures program { (units : List JavaUnit) → AreTables units classes.now → table_of result ≡ name_table (program_tables units) (variables vars.now) }
    {
        Names {
            classes,
            vars,
            consts,
        }
    }
}
