//! What the tables tell of classes, fields, methods and families.

ghost use Rattle.std.specs.Prelude.{◌≡◌, ◌<◌, ℕ, Bool, List, Some, IfSome, MatchOption, option_map};
ghost use Rattle.std.specs.Bool.{Decides};
ghost use Rattle.std.specs.List.{slice_get};
ghost use Rattle.jd_jclasses.specs.CallGraph.{AreFamilyCalls, InOneCluster};
ghost use Rattle.jd_jclasses.specs.Classes.{IsSubclass, class_named as class_named_in};
ghost use Rattle.jd_jclasses.specs.Methods.{IsSeen, SeesNone};
ghost use Rattle.jd_jinfos.specs.Infos.{class_infos, field_infos, method_infos};
ghost use Rattle.jd_jinfos.specs.Views.{class_info_view, class_number, field_info_view, method_info_view};
ghost use Rattle.jd_reach.specs.Paths.{ReachesBy};
ghost use Rattle.jd_syntax.specs.JavaTrees.{JavaUnit};
ghost use Rattle.jd_classes.specs.Tables.{AreTables, class_count_of, family_count_of, family_of, field_count_of, method_count_of};

use crate::classes::Classes;
use jd_ancestry::is_above;
use jd_base::{ClassId, FamilyId, FieldId, MethodId};
use jd_jinfos::{ClassInfo, FieldInfo, MethodInfo};

impl Classes {
    /// How many classes there are: their ids are the numbers below.
    pub fn class_count(&self) -> u32
        ensures { result ≡ class_count_of self.now }
    {
        self.classes.len() as u32
    }

    /// How many fields and constants there are.
    pub fn field_count(&self) -> usize
        ensures { result ≡ field_count_of self.now }
    {
        self.fields.len()
    }

    /// How many methods and constructors there are.
    pub fn method_count(&self) -> usize
        ensures { result ≡ method_count_of self.now }
    {
        self.methods.len()
    }

    /// How many families there are.
    pub fn family_count(&self) -> u32
        ensures { result ≡ family_count_of self.now }
    {
        self.families.count
    }

    /// The class of this name, if there is one.
    pub fn class_named(&self, name: &[u8]) -> Option<ClassId>
        ensures named { (units : List JavaUnit) → AreTables units self.now
            → option_map class_number result ≡ class_named_in units name.now }
        ensures within { (units : List JavaUnit) → AreTables units self.now → IfSome result (λ c. c.0 < class_count_of self.now) }
    {
        match self.heads.class_named(name) {
            Some(number) => Some(ClassId(number)),
            None => None,
        }
    }

    /// The class of this id.
    pub fn class(&self, c: ClassId) -> &ClassInfo
        requires { c.0 < class_count_of self.now }
        ensures { (units : List JavaUnit) → AreTables units self.now
            → slice_get (class_infos units) c.0 ≡ Some (class_info_view result.now) }
    {
        &self.classes[c.0 as usize]
    }

    /// The field of this id.
    pub fn field(&self, f: FieldId) -> &FieldInfo
        requires { f.0 < field_count_of self.now }
        ensures { (units : List JavaUnit) → AreTables units self.now
            → slice_get (field_infos units) f.0 ≡ Some (field_info_view result.now) }
    {
        &self.fields[f.0 as usize]
    }

    /// The method or constructor of this id.
    pub fn method(&self, m: MethodId) -> &MethodInfo
        requires { m.0 < method_count_of self.now }
        ensures { (units : List JavaUnit) → AreTables units self.now
            → slice_get (method_infos units) m.0 ≡ Some (method_info_view result.now) }
    {
        &self.methods[m.0 as usize]
    }

    /// Whether the class `a` is the class `b` or extends it, over as many classes as may be (JLS 8.1.4), in time that
    /// grows as the number of classes above `a`.
    pub fn is_subclass(&self, a: ClassId, b: ClassId) -> bool
        requires a { a.0 < class_count_of self.now }
        requires b { b.0 < class_count_of self.now }
        ensures { (units : List JavaUnit) → AreTables units self.now → Decides result (IsSubclass units a.0 b.0) }
    {
        a.0 == b.0 || is_above(&self.heads.parents, &self.depths, b.0, a.0)
    }

    /// The method of this name that the class sees: that of the nearest among the class and its ancestors that declare
    /// one (JLS 8.2, 8.4.8). None where no one does.
    pub fn lookup(&self, c: ClassId, name: &str) -> Option<MethodId>
        requires { c.0 < class_count_of self.now }
        ensures seen { (units : List JavaUnit) → AreTables units self.now
            → MatchOption result (SeesNone units c.0 name.now) (λ m. IsSeen units c.0 name.now m.0) }
        ensures within { (units : List JavaUnit) → AreTables units self.now → IfSome result (λ m. m.0 < method_count_of self.now) }
    {
        let Some(number) = self.names.number_of(name.as_bytes()) else {
            return None;
        };
        match self.seen.method(c.0, number) {
            Some(method) => Some(MethodId(method)),
            None => None,
        }
    }

    /// The family of a method: methods tied by overriding, over as many as may be, are of one family (JLS 8.4.8.1); a
    /// static method and a constructor are alone in theirs.
    pub fn family(&self, m: MethodId) -> FamilyId
        requires { m.0 < method_count_of self.now }
        ensures number { result.0 ≡ family_of self.now m.0 }
        ensures within { (units : List JavaUnit) → AreTables units self.now → result.0 < family_count_of self.now }
    {
        FamilyId(self.families.numbers[m.0 as usize])
    }

    /// Whether a family reaches another by calls, over as many as may be; each reaches itself. Calls are syntactic: a
    /// call of a method counts for each method of its name, a call of a constructor for that which runs for the class
    /// (JLS 12.5, 15.9), and a constructor that calls none above it does so all the same (JLS 8.8.7).
    pub fn reaches(&self, a: FamilyId, b: FamilyId) -> bool
        requires a { a.0 < family_count_of self.now }
        requires b { b.0 < family_count_of self.now }
        ensures { (units : List JavaUnit) → AreTables units self.now
            → (calls : ℕ → ℕ → Bool) → AreFamilyCalls units (family_of self.now) calls → Decides result (ReachesBy calls a.0 b.0) }
    {
        self.graph.has(a.0, b.0)
    }

    /// Whether two families reach each other by calls.
    pub fn same_cluster(&self, a: FamilyId, b: FamilyId) -> bool
        requires a { a.0 < family_count_of self.now }
        requires b { b.0 < family_count_of self.now }
        ensures { (units : List JavaUnit) → AreTables units self.now
            → (calls : ℕ → ℕ → Bool) → AreFamilyCalls units (family_of self.now) calls → Decides result (InOneCluster calls a.0 b.0) }
    {
        self.reaches(a, b) && self.reaches(b, a)
    }
}
