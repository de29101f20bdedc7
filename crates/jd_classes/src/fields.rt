//! The fields of an object of a class: its own and those of its ancestors.

ghost use Rattle.std.specs.Prelude.{◌≡◌, ◌<◌, All, List, length, map, IfOk};
ghost use Rattle.jd_ancestry.specs.Ancestors.{AreNodes};
ghost use Rattle.jd_ancestry.specs.Depths.{IsDepths};
ghost use Rattle.jd_jinfos.specs.Views.{field_number};
ghost use Rattle.jd_syntax.specs.JavaTrees.{JavaUnit};
ghost use Rattle.jd_classes.specs.Fields.{AreFieldsOf, IsLineage, along, own_fields};
ghost use Rattle.jd_classes.specs.Tables.{AreTables, class_count_of, field_count_of};

use crate::classes::Classes;
use jd_base::{ClassId, FieldId, NoMemory};
use jd_jinfos::ClassInfo;
use std::alloc::Global;

// A class, what it extends, and so on up to the topmost.
fn lineage(
    alloc: Global,
    parents: &[Option<u32>],
    depths: &[u32],
    class: u32,
) -> Result<Vec<u32>, NoMemory>
    requires nodes { AreNodes parents.now }
    requires depths { IsDepths parents.now depths.now }
    requires class { class < length parents.now }
    ensures { IfOk result (λ v. IsLineage parents.now class v.items) }
{
    let mut classes = Vec::new(alloc);
    classes.push(class)?;
    let mut lowest = class;
    while let Some(parent) = parents[lowest as usize] {
        classes.push(parent)?;
        lowest = parent;
    }
    Ok(classes)
}

// The fields that these classes have of their own, those of the last class first.
fn fields_along(
    alloc: Global,
    infos: &[ClassInfo],
    classes: &[u32],
) -> Result<Vec<FieldId>, NoMemory>
    requires { All (λ c. c < length infos.now) classes.now }
    ensures { IfOk result (λ v. map field_number v.items ≡ along (own_fields infos.now) classes.now) }
{
    let mut fields = Vec::new(alloc);
    for place in (0..classes.len()).rev() {
        fields.extend_from_slice(&infos[classes[place] as usize].fields)?;
    }
    Ok(fields)
}

impl Classes {
    /// The fields of an object of the class (JLS 8.2): its own and those of its ancestors, the topmost class first, those
    /// of one class in the order of the files.
    ///
    /// # Errors
    ///
    /// `NoMemory` if memory runs out.
    pub fn fields_of(&self, alloc: Global, c: ClassId) -> Result<Vec<FieldId>, NoMemory>
        requires { c.0 < class_count_of self.now }
        ensures fields { (units : List JavaUnit) → AreTables units self.now
            → IfOk result (λ v. AreFieldsOf units c.0 (map field_number v.items)) }
        ensures within { (units : List JavaUnit) → AreTables units self.now
            → IfOk result (λ v. All (λ f. f.0 < field_count_of self.now) v.items) }
    {
        let classes = lineage(alloc, &self.heads.parents, &self.depths, c.0)?;
        fields_along(alloc, &self.classes, &classes)
    }
}
