//! What is known of a program's classes, apart from their declarations.

ghost use Rattle.std.specs.Prelude.{◌≡◌, ◌<◌, ◌≤◌, All, IfOk, IfErr, map, length};
ghost use Rattle.jd_ancestry.specs.Depths.{IsDepths};
ghost use Rattle.jd_jclasses.specs.Classes.{class_names, declared_classes, parents as parents_of_classes};
ghost use Rattle.jd_jclasses.specs.Members.{declared_members};
ghost use Rattle.jd_jclasses.specs.Methods.{AreFamilies, routines};
ghost use Rattle.jd_jclasses.specs.Numbers.{AreNumbers};
ghost use Rattle.jd_jclasses.specs.Refusals.{AreClasses, SameName};
ghost use Rattle.jd_jheads.specs.Heads.{names_of};
ghost use Rattle.jd_jlists.specs.Views.{member_of_view, HasFewMembers};
ghost use Rattle.jd_jnumbers.specs.Numbered.{AreNames, count_of, texts_of};
ghost use Rattle.jd_jseen.specs.Seen.{AreSeen, cells_of, name_count};
ghost use Rattle.jd_reach.specs.Graphs.{edge, node_count};
ghost use Rattle.jd_syntax.specs.JavaTrees.{unit_view};
ghost use Rattle.jd_classes.specs.Refusals.{Refuses};
ghost use Rattle.jd_classes.specs.Tables.{AreGathered, IsClosedCallGraph, family_in};

use crate::refusal::ClassRefusal;
use crate::standing::standing_names;
use jd_ancestry::depths;
use jd_base::NoMemory;
use jd_jfamilies::{Families, families_of};
use jd_jgraph::{Numbering, family_graph};
use jd_jheads::{Heads, read_heads};
use jd_jinfos::{FieldInfo, MethodInfo, OwnMembers, field_infos, method_infos, own_members};
use jd_jlists::{MemberOf, members_of};
use jd_jnumbers::Numbers;
use jd_jseen::{Seen, numbers_of_classes, seen_of};
use jd_reach::Graph;
use jd_syntax::Unit;
use std::alloc::Global;

/// What is known of a program's classes, apart from their declarations.
#[derive(Drop)]
pub(crate) struct Gathered {
    /// The names of the classes, and what each extends.
    pub(crate) heads: Heads,
    /// How many ancestors each has.
    pub(crate) depths: Vec<u32>,
    /// The numbers of the members' names.
    pub(crate) names: Numbers,
    /// What each class sees.
    pub(crate) seen: Seen,
    /// The families of methods and constructors.
    pub(crate) families: Families,
    /// The call graph of families, closed.
    pub(crate) graph: Graph,
    /// The fields.
    pub(crate) fields: Vec<FieldInfo>,
    /// The methods and constructors.
    pub(crate) methods: Vec<MethodInfo>,
    /// What each class declares itself.
    pub(crate) own: Vec<OwnMembers>,
}

// What is known of classes before their call graph.
#[derive(Clone, Copy)]
struct Known<'a> {
    heads: &'a Heads,
    names: &'a Numbers,
    seen: &'a Seen,
    families: &'a Families,
}

// The call graph of the families, closed.
fn closed_graph(
    alloc: Global,
    units: &[Unit],
    members: &[MemberOf<'_>],
    known: Known<'_>,
) -> Result<Graph, NoMemory>
    requires members { map member_of_view members.now ≡ declared_members (map unit_view units.now) }
    requires class_names { names_of known.heads.now ≡ class_names (map unit_view units.now) }
    requires parents { known.heads.now.parents.items ≡ parents_of_classes (map unit_view units.now) }
    requires numbers { AreNumbers SameName (declared_members (map unit_view units.now)) known.names.now.numbers.items (count_of known.names.now) }
    requires names { AreNames (declared_members (map unit_view units.now)) (texts_of known.names.now) known.names.now.numbers.items }
    requires stand { AreClasses (map unit_view units.now) }
    requires counted { name_count known.seen.now ≡ count_of known.names.now }
    requires seen { AreSeen (map unit_view units.now) known.names.now.numbers.items (count_of known.names.now) (cells_of known.seen.now) }
    requires each { length known.families.now.numbers.items ≡ length (routines (map unit_view units.now)) }
    requires families { AreFamilies (map unit_view units.now) known.families.now.count (family_in known.families.now.numbers.items) }
    ensures nodes { IfOk result (λ g. node_count g ≡ known.entry.families.now.count) }
    ensures closed { IfOk result (λ g. IsClosedCallGraph (map unit_view units.now) known.entry.families.now.numbers.items known.entry.families.now.count (edge g)) }
{
    let families = Numbering {
        of: &known.families.numbers,
        count: known.families.count,
    };
    family_graph(
        alloc,
        known.heads,
        members,
        known.names,
        known.seen,
        families,
    )
}

// The tables of classes whose members are a program's.
#[tactic(auto, using(crate::proofs::Gathering::have_classes))]
fn gather_standing(
    alloc: Global,
    units: &[Unit],
    heads: Heads,
    depths: Vec<u32>,
    names: Numbers,
    members: &[MemberOf<'_>],
) -> Result<Gathered, NoMemory>
    requires few_members { length members.now ≤ 999999999 }
    requires few_classes { length heads.parents.items ≤ 4294967294 }
    requires members { map member_of_view members.now ≡ declared_members (map unit_view units.now) }
    requires class_names { names_of heads ≡ class_names (map unit_view units.now) }
    requires parents { heads.parents.items ≡ parents_of_classes (map unit_view units.now) }
    requires depths { IsDepths heads.parents.items depths.items }
    requires numbers { AreNumbers SameName (declared_members (map unit_view units.now)) names.numbers.items (count_of names) }
    requires names { AreNames (declared_members (map unit_view units.now)) (texts_of names) names.numbers.items }
    requires stand { AreClasses (map unit_view units.now) }
    ensures { IfOk result (λ g. AreGathered (map unit_view units.now) g) }
{
    numbers_of_classes();
    let count = names.count();
    let seen = seen_of(
        alloc,
        &heads.parents,
        &depths,
        members,
        &names.numbers,
        count,
    )?;
    let families = families_of(alloc, &heads.parents, members, &names.numbers, &seen)?;
    let known = Known {
        heads: &heads,
        names: &names,
        seen: &seen,
        families: &families,
    };
    let graph = closed_graph(alloc, units, members, known)?;
    let fields = field_infos(alloc, members)?;
    let methods = method_infos(alloc, members)?;
    let own = own_members(alloc, heads.parents.len() as u32, members)?;
    Ok(Gathered {
        heads,
        depths,
        names,
        seen,
        families,
        graph,
        fields,
        methods,
        own,
    })
}

/// What is known of the classes of these files.
#[tactic(auto, using(crate::proofs::NoCycle::no_cycle, crate::proofs::Refusing::head_refuses))]
pub(crate) fn gather(alloc: Global, units: &[Unit]) -> Result<Gathered, ClassRefusal>
    requires files { length units.now ≤ 999999999 }
    requires classes { length (declared_classes (map unit_view units.now)) ≤ 999999999 }
    requires places { All (λ d. HasFewMembers d.tree) (declared_classes (map unit_view units.now)) }
    requires members { length (declared_members (map unit_view units.now)) ≤ 999999999 }
    ensures gathered { IfOk result (λ g. AreGathered (map unit_view units.now) g) }
    ensures refused { IfErr result (Refuses (map unit_view units.now)) }
{
    numbers_of_classes();
    let heads = read_heads(alloc, units)?;
    let depths = depths(alloc, &heads.parents)?;
    let members = members_of(alloc, units)?;
    let names = standing_names(alloc, units, &heads.parents, &depths, &members)?;
    Ok(gather_standing(alloc, units, heads, depths, names, &members)?)
}
