//! What each class sees.

ghost use Rattle.std.specs.Prelude.{◌≡◌, ◌+◌, ◌≤◌, List, map, length, IfOk};
ghost use Rattle.jd_ancestry.specs.Depths.{IsDepths};
ghost use Rattle.jd_jlists.specs.Views.{member_of_view};
ghost use Rattle.jd_jseen.specs.Seen.{AreSeen, cells_of, name_count};
ghost use Rattle.jd_jseen.specs.Tables.{AreSomeTables, AreTables};
ghost use Rattle.jd_nearest.specs.Nearest.{column};
ghost use Rattle.jd_syntax.specs.JavaTrees.{JavaUnit};

use crate::own::own_cells;
use jd_base::NoMemory;
use jd_jlists::MemberOf;
use jd_nearest::nearest_values;
use std::alloc::Global;

/// What each class of a program sees: of each name the method that it declares or takes from the
/// nearest of its ancestors (JLS 8.2, 8.4.8), and the constructor that runs for it (JLS 12.5). Methods
/// and constructors have one row of numbers, from 0, in the order of the files.
#[derive(Drop)]
pub struct Seen {
    // How many numbers of names there are.
    pub(crate) names: u32,
    // For each class a cell for each of them, and one for the constructor.
    pub(crate) cells: Vec<Option<u32>>,
}

/// What each class of a program sees, by what the classes extend, their depths, their members, and the
/// numbers of the members' names, which are below the count. This takes time and memory that grow as
/// the classes times the count.
///
/// # Errors
///
/// `NoMemory` if memory runs out.
pub fn seen_of(
    alloc: Global,
    parents: &[Option<u32>],
    depths: &[u32],
    members: &[MemberOf<'_>],
    names: &[u32],
    count: u32,
) -> Result<Seen, NoMemory>
    requires few { length members.now ≤ 4294967295 }
    requires depths { IsDepths parents.now depths.now }
    requires tables { AreSomeTables parents.now (map member_of_view members.now) names.now count }
    ensures names { IfOk result (λ seen. name_count seen ≡ count) }
    ensures seen { (units : List JavaUnit) → AreTables units parents.now (map member_of_view members.now) names.now count
        → IfOk result (λ seen. AreSeen units names.now count (cells_of seen)) }
{
    let own = own_cells(alloc, parents.len(), members, names, count)?;
    let width = count as usize + 1;
    let cells = nearest_values(alloc, parents, depths, width, own)?;
    Ok(Seen {
        names: count,
        cells,
    })
}

impl Seen {
    // What stands in a cell.
    fn cell(&self, class: u32, k: u32) -> Option<u32>
        ensures { result ≡ column (name_count self.now + 1) (cells_of self.now) k class }
    {
        let width = self.names as usize + 1;
        match self.cells.get(class as usize * width + k as usize) {
            Some(cell) => *cell,
            None => None,
        }
    }

    /// The number of the method that the class sees of the name of this number (JLS 8.2, 8.4.8), if it
    /// sees one.
    pub fn method(&self, class: u32, name: u32) -> Option<u32>
        ensures { result ≡ column (name_count self.now + 1) (cells_of self.now) name class }
    {
        self.cell(class, name)
    }

    /// The number of the constructor that runs for the class (JLS 12.5, 15.9), if one does.
    pub fn constructor(&self, class: u32) -> Option<u32>
        ensures { result ≡ column (name_count self.now + 1) (cells_of self.now) (name_count self.now) class }
    {
        self.cell(class, self.names)
    }
}
