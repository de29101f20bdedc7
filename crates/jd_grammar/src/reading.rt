ghost use Rattle.std.specs.Prelude.{◌≡◌, IfOk, IfErr, true};
ghost use Rattle.jd_grammar.specs.declared.reading.Refusal.TheVariants.{NoMemory as OutOfMemory};
ghost use Rattle.jd_grammar.specs.Grammars.{Spells};
ghost use Rattle.jd_grammar.specs.Moves.{ReadsAll};
ghost use Rattle.jd_grammar.specs.Readings.{IsRefusal};
ghost use Rattle.jd_grammar.specs.Tables.{plain};
ghost use Rattle.jd_grammar.specs.Tests.{IsLl1, is_start};

use crate::machine::Machine;
use crate::table::Table;
use jd_base::NoMemory;
use std::alloc::Global;

/// Why there is no tree.
#[derive(Clone, Copy)]
pub enum Refusal {
    /// No tree goes on with the token of this number, counted from 0, or ends there; the tokens before it begin a tree.
    Syntax { at: usize },
    /// Memory ran out.
    NoMemory,
}

impl From<NoMemory> for Refusal {
    ghost from_gives = { λ _ e. e ≡ OutOfMemory };

    fn from(_error: NoMemory) -> Refusal {
        Refusal::NoMemory
    }
}

impl Machine {
    // Reads these tokens and their end; where it stops, if it does.
    fn read_all(&mut self, table: &Table<'_>, kinds: &[u8]) -> Result<Option<usize>, NoMemory>
        requires table { IsLl1 (plain table.now) }
        ensures { IfOk result (ReadsAll (plain table.now) kinds.now self.old self.new) }
    {
        for (at, kind) in kinds.iter().enumerate() {
            if !self.read(table, *kind)? {
                return Ok(Some(at));
            }
        }
        let whole = self.end(table)?;
        Ok((!whole).then_some(kinds.len()))
    }
}

/// The preorder of the tree of the name `start` that has tokens of these kinds: 0 for a token, and one more than the production's
/// number for a name.
///
/// # Errors
///
/// `Syntax` where no tree has these tokens; `NoMemory`.
pub fn parse(alloc: Global, table: &Table<'_>, start: u8, kinds: &[u8]) -> Result<Vec<u16>, Refusal>
    requires table { IsLl1 (plain table.now) }
    requires start { is_start (plain table.now) start ≡ true }
    ensures ok { IfOk result (λ order. Spells (plain table.now).productions start kinds.now order.items) }
    ensures err { IfErr result (IsRefusal (plain table.now).productions start kinds.now) }
{
    let mut machine = Machine::begun(alloc, start)?;
    match machine.read_all(table, kinds)? {
        None => Ok(machine.order),
        Some(at) => Err(Refusal::Syntax { at }),
    }
}
