ghost use Rattle.std.specs.Prelude.{◌≡◌, ◌∷◌, ℕ, List, [], IfOk, IfSome, OnOk, length, take, drop};
ghost use Rattle.jd_grammar.specs.Counted.{IsKept, IsQuiet, shown};
ghost use Rattle.jd_grammar.specs.Nodes.{IsRead, IsReadAs, Rooted, StandFor};

use crate::piles::{Blank, Piles};
use crate::walk::evaluate;
use jd_base::NoMemory;
use std::alloc::Global;

/// What the nodes of trees stand for.
pub trait Nodes<T, V: Blank + Drop> {
    /// How many names the body of a production has.
    ghost count: { Self → ℕ → ℕ };

    /// What a node of a production may stand for, with the tokens from its first on and what its parts stand for.
    ghost stands: { Self → ℕ → List T → List V → V → Type 0 };

    /// How many parts nodes of a production have, if they stand for nothing where their parts do. It may be `None` for any.
    fn quiet_parts(&self, production: u16) -> Option<u8>
        ensures { IfSome result (λ n. IsQuiet (count self.now) (stands self.now) V.nothing production n) };

    /// How many parts nodes of a production have behind the first, if they stand for what that does where the others stand for nothing.
    /// It may be `None` for any.
    fn kept_parts(&self, production: u16, first: &V) -> Option<u8>
        ensures { IfSome result (λ n. IsKept (count self.now) (stands self.now) V.nothing production n first.now) };

    /// Puts what a node stands for in the place of what its parts stand for: these lie on top of the stack, the first one above
    /// the others.
    fn reduce(
        &self,
        alloc: Global,
        production: u16,
        tokens: &[T],
        piles: &mut Piles<V>,
    ) -> Result<(), NoMemory>
        ensures { OnOk result ((v : V) × stands self.now production tokens.now (take (count self.now production) (shown V.nothing piles.old)) v × (shown V.nothing piles.new ≡ v ∷ drop (count self.now production) (shown V.nothing piles.old))) };
}

/// What the tree with this preorder stands for, over its tokens.
///
/// # Errors
///
/// `NoMemory`.
pub fn value_of<T, V: Blank + Drop, N: Nodes<T, V>>(
    alloc: Global,
    nodes: &N,
    order: &[u16],
    tokens: &[T],
) -> Result<V, NoMemory>
    requires read { IsRead (N.count nodes.now) order.now (length tokens.now) }
    ensures { (tree : Rooted) → IsReadAs tree (N.count nodes.now) order.now (length tokens.now) → IfOk result (λ v. StandFor (N.stands nodes.now) tree.forest tokens.now (v ∷ [])) }
{
    let mut piles = Piles::begun(alloc);
    match evaluate(alloc, nodes, order, tokens, &mut piles) {
        Ok(()) => Ok(piles.top()),
        Err(error) => Err(error),
    }
}
