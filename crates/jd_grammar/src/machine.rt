ghost use Rattle.std.specs.Prelude.{◌≡◌, ◌++◌, ◌∷◌, [], IfOk, IfSome, OnOk, reverse, take, true};
ghost use Rattle.jd_grammar.specs.declared.table.Symbol.TheVariants.{Name};
ghost use Rattle.jd_grammar.specs.Moves.{EndsIn, Expands, HasNoNameNext, IsRunAhead, Reads, Takes};
ghost use Rattle.jd_grammar.specs.Tables.{plain};
ghost use Rattle.jd_grammar.specs.Tests.{IsLl1};

use crate::table::{Symbol, Table, choose, run_of};
use jd_base::NoMemory;
use jd_lists::put;
use std::alloc::Global;

/// The symbols that are still to come, the next one last, and the preorder so far.
#[derive(Drop)]
pub(crate) struct Machine {
    pub(crate) stack: Vec<Symbol>,
    pub(crate) order: Vec<u16>,
}

// Puts items behind others.
fn add_all<T: Copy>(items: &mut Vec<T>, more: &[T]) -> Result<(), NoMemory>
    ensures { OnOk result (items.new.items ≡ items.old.items ++ more.now) }
{
    items.extend_from_slice(more)?;
    Ok(())
}

// Puts symbols onto a stack, the first one last.
fn push_all(stack: &mut Vec<Symbol>, symbols: &[Symbol]) -> Result<(), NoMemory>
    ensures { OnOk result (stack.new.items ≡ stack.old.items ++ reverse symbols.now) }
{
    let mut left = symbols.len();
    while left > 0 {
        left -= 1;
        put(stack, symbols[left])?;
    }
    Ok(())
}

// Whether two symbols are the same.
fn is_same(a: Symbol, b: Symbol) -> bool
    ensures { result ≡ true → a ≡ b }
{
    match (a, b) {
        (Symbol::Token(j), Symbol::Token(k)) => j == k,
        (Symbol::Name(m), Symbol::Name(n)) => m == n,
        _ => false,
    }
}

// How many symbols lie below these, if they are the stack's end.
#[tactic(auto, using(crate::proofs::Runs::same_before, crate::proofs::Runs::none_from, crate::proofs::Runs::end_from))]
fn below_end(stack: &[Symbol], end: &[Symbol]) -> Option<usize>
    ensures { IfSome result (λ n. stack.now ≡ take n stack.now ++ end.now) }
{
    if end.len() > stack.len() {
        return None;
    }
    let below = stack.len() - end.len();
    let mut left = end.len();
    while left > 0 {
        left -= 1;
        if !is_same(stack[below + left], end[left]) {
            return None;
        }
    }
    Some(below)
}

impl Machine {
    /// A name is to come, and nothing was read.
    pub(crate) fn begun(alloc: Global, start: u8) -> Result<Machine, NoMemory>
        ensures { IfOk result (λ m. (m.stack.items ≡ Name start ∷ []) × (m.order.items ≡ [])) }
    {
        let mut stack = Vec::new(alloc);
        stack.push(Symbol::Name(start))?;
        let order = Vec::new(alloc);
        Ok(Machine { stack, order })
    }

    // A run for this name, which is next, with this kind ahead, if what is to come before it is: its productions, what is to come behind
    // it, and how many symbols stay.
    #[tactic(auto, using(crate::proofs::Runs::run_next))]
    fn run_ahead<'a>(
        &self,
        table: &Table<'a>,
        name: u8,
        kind: u8,
    ) -> Option<(&'a [u16], &'a [Symbol], usize)>
        ensures { IfSome result (λ r. IsRunAhead (plain table.now) kind self.now.stack.items r.0.now r.1.now r.2) }
    {
        let Some((before, order, behind)) = run_of(table, name, kind) else {
            return None;
        };
        let Some(left) = below_end(self.stack.as_slice(), before) else {
            return None;
        };
        Some((order, behind, left))
    }

    // Uses productions until a token is to come or nothing, with this kind ahead; whether there was one for each name.
    fn expand(&mut self, table: &Table<'_>, kind: u8) -> Result<bool, NoMemory>
        requires table { IsLl1 (plain table.now) }
        ensures { IfOk result (Expands (plain table.now) kind self.old self.new) }
    {
        // A copy of its own is looked into with fewer steps than one behind a reference.
        let own = *table;
        while let Some(Symbol::Name(name)) = self.stack.last() {
            if let Some((order, behind, left)) = self.run_ahead(&own, *name, kind) {
                self.stack.truncate(left);
                add_all(&mut self.order, order)?;
                add_all(&mut self.stack, behind)?;
            } else {
                let Some((number, body)) = choose(&own, *name, kind) else {
                    return Ok(false);
                };
                self.stack.pop();
                put(&mut self.order, number)?;
                push_all(&mut self.stack, body)?;
            }
        }
        Ok(true)
    }

    // Takes a token of this kind, if one is to come.
    fn take(&mut self, kind: u8) -> Result<bool, NoMemory>
        requires { HasNoNameNext self.old }
        ensures { IfOk result (Takes kind self.old self.new) }
    {
        match self.stack.pop() {
            Some(Symbol::Token(wanted)) if wanted == kind => {
                put(&mut self.order, 0)?;
                Ok(true)
            }
            _ => Ok(false),
        }
    }

    /// Reads a token; whether a tree goes on with it.
    pub(crate) fn read(&mut self, table: &Table<'_>, kind: u8) -> Result<bool, NoMemory>
        requires table { IsLl1 (plain table.now) }
        ensures { IfOk result (Reads (plain table.now) kind self.old self.new) }
    {
        if !self.expand(table, kind)? {
            return Ok(false);
        }
        self.take(kind)
    }

    /// Whether a tree ends with the tokens that were read.
    pub(crate) fn end(&mut self, table: &Table<'_>) -> Result<bool, NoMemory>
        requires table { IsLl1 (plain table.now) }
        ensures { IfOk result (EndsIn (plain table.now) self.old self.new) }
    {
        if !self.expand(table, 0)? {
            return Ok(false);
        }
        Ok(self.stack.is_empty())
    }
}
