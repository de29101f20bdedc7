ghost use Rattle.std.specs.Prelude.{◌≡◌, ◌≤◌, length};
ghost use Rattle.jd_ancestry.specs.Ancestors.{AreNodes};
ghost use Rattle.jd_ancestry.specs.Depths.{IsDepths};
ghost use Rattle.jd_reach.specs.Graphs.{node_count};

use jd_jfamilies::Families;
use jd_jheads::Heads;
use jd_jinfos::{ClassInfo, FieldInfo, MethodInfo};
use jd_jnumbers::Numbers;
use jd_jseen::Seen;
use jd_reach::Graph;

/// The tables of a program's classes, fields, methods and constructors, each by its number in the order of declaration;
/// the ten classes that are always there come first (JLS 4.3.2, 11.1.1).
#[derive(Drop)]
pub struct Classes {
    pub(crate) heads: Heads,
    pub(crate) depths: Vec<u32>,
    pub(crate) names: Numbers,
    pub(crate) seen: Seen,
    pub(crate) families: Families,
    // The call graph of families, closed.
    pub(crate) graph: Graph,
    pub(crate) fields: Vec<FieldInfo>,
    pub(crate) methods: Vec<MethodInfo>,
    pub(crate) classes: Vec<ClassInfo>,
    ghost few: { length classes.items ≤ 4294967295 },
    ghost nodes: { AreNodes heads.parents.items },
    ghost deep: { IsDepths heads.parents.items depths.items },
    ghost all_classes: { length heads.parents.items ≡ length classes.items },
    ghost all_methods: { length families.numbers.items ≡ length methods.items },
    ghost all_families: { node_count graph ≡ families.count },
}
