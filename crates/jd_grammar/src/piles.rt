//! A stack of values that counts those of nothing: in a derivation of an expression each level has one for what does not stand
//! behind its operand.

ghost use Rattle.std.specs.Prelude.{◌≡◌, ◌≤◌, ◌<◌, ◌∷◌, ℕ, List, [], MatchOption, OnOk, cond, drop, take};
ghost use Rattle.jd_grammar.specs.Counted.{IsAlone, IsTop, shown};
ghost use Rattle.jd_grammar.specs.Nodes as plain;
ghost use Rattle.jd_grammar.specs.Nodes.{top_or};
ghost use Rattle.jd_grammar.specs.declared.piles.Pile.{Pile as PileOf};

use jd_base::NoMemory;
use jd_lists::put;
use std::alloc::Global;

/// Values among which one stands for nothing.
pub trait Blank {
    /// That one.
    ghost nothing: { Self };

    /// That one.
    fn nothing() -> Self
        ensures { result ≡ nothing };
}

/// A node's parts by their places, with something for none behind the last.
#[derive(Clone, Copy, Drop)]
pub struct NodeParts<V> {
    pub first: V,
    pub second: V,
    pub third: V,
    pub fourth: V,
}

/// A value, and how many of nothing lie right below it.
#[derive(Drop)]
pub struct Pile<V> {
    pub(crate) value: V,
    pub(crate) under: u32,
}

/// Values, of which those of nothing on top are a number.
#[derive(Drop)]
pub struct Piles<V> {
    pub(crate) piles: Vec<Pile<V>>,
    pub(crate) waiting: u32,
}

impl<V: Blank + Drop> Piles<V> {
    /// None.
    pub(crate) fn begun(alloc: Global) -> Piles<V>
        ensures { shown V.nothing result ≡ [] }
    {
        let piles = Vec::new(alloc);
        Piles { piles, waiting: 0 }
    }

    /// Puts nothing on top.
    ///
    /// # Errors
    ///
    /// `NoMemory`.
    #[tactic(auto, using(crate::proofs::Counting::one_more))]
    pub fn add_nothing(&mut self) -> Result<(), NoMemory>
        ensures { OnOk result (shown V.nothing self.new ≡ V.nothing ∷ shown V.nothing self.old) }
    {
        let Some(waiting) = self.waiting.checked_add(1) else {
            return Err(NoMemory);
        };
        self.waiting = waiting;
        Ok(())
    }

    /// Puts a value on top.
    ///
    /// # Errors
    ///
    /// `NoMemory`.
    #[tactic(auto, using(crate::proofs::Counting::put_on))]
    pub fn add(&mut self, value: V) -> Result<(), NoMemory>
        ensures { OnOk result (shown V.nothing self.new ≡ value ∷ shown V.nothing self.old) }
    {
        let under = self.waiting;
        put(&mut self.piles, Pile { value, under })?;
        self.waiting = 0;
        Ok(())
    }

    /// Takes the value on top to this place, if one is asked for and there is one.
    #[tactic(auto, using(crate::proofs::Counting::top_waits, crate::proofs::Counting::top_lies, crate::proofs::Counting::no_top))]
    pub(crate) fn take_top(&mut self, some: bool, place: &mut V)
        ensures value { place.new ≡ top_or place.old (take (cond some 1 0) (shown V.nothing self.old)) }
        ensures rest { shown V.nothing self.new ≡ drop (cond some 1 0) (shown V.nothing self.old) }
    {
        if !some {
            return;
        }
        if self.waiting > 0 {
            self.waiting -= 1;
            *place = V::nothing();
            return;
        }
        let Some(pile) = self.piles.pop() else {
            return;
        };
        let Pile { value, under } = pile;
        self.waiting = under;
        *place = value;
    }

    /// Takes the values on top, so many of them, as parts; behind the last stands what `none` has there.
    #[tactic(auto, using(crate::proofs::Counting::parts_of))]
    pub fn take_parts(&mut self, count: u8, none: NodeParts<V>) -> NodeParts<V>
        requires { count ≤ 4 }
        ensures parts { result ≡ plain.filled none (take count (shown V.nothing self.old)) }
        ensures rest { shown V.nothing self.new ≡ drop count (shown V.nothing self.old) }
    {
        let mut parts = none;
        self.take_top(count > 0, &mut parts.first);
        self.take_top(count > 1, &mut parts.second);
        self.take_top(count > 2, &mut parts.third);
        self.take_top(count > 3, &mut parts.fourth);
        parts
    }

    // The same where the first does not wait.
    #[tactic(auto, using(crate::proofs::Counting::alone_lies, crate::proofs::Counting::put_back, crate::proofs::Counting::none_taken))]
    fn take_lying(&mut self, count: u8) -> Option<V>
        requires none_waits { self.old.waiting ≡ 0 }
        requires some { 0 < count }
        ensures { MatchOption result (shown V.nothing self.new ≡ shown V.nothing self.old) (λ v. IsAlone V.nothing count v (shown V.nothing self.old) (shown V.nothing self.new)) }
    {
        let others = (count - 1) as u32;
        let Some(pile) = self.piles.pop() else {
            return None;
        };
        if pile.under < others {
            self.piles.push_reserved(pile);
            return None;
        }
        let Pile { value, under } = pile;
        self.waiting = under - others;
        Some(value)
    }

    /// Takes a node's parts, so many of them, if all behind the first are nothing, and gives the first. It may give none for any.
    #[tactic(auto, using(crate::proofs::Counting::alone_waits))]
    pub fn take_alone(&mut self, count: u8) -> Option<V>
        ensures { MatchOption result (shown V.nothing self.new ≡ shown V.nothing self.old) (λ v. IsAlone V.nothing count v (shown V.nothing self.old) (shown V.nothing self.new)) }
    {
        if count == 0 {
            return None;
        }
        if self.waiting == 0 {
            return self.take_lying(count);
        }
        if self.waiting < count as u32 {
            return None;
        }
        self.waiting -= count as u32;
        Some(V::nothing())
    }

    /// The value on top, or nothing.
    pub(crate) fn top(self) -> V
        ensures { result ≡ top_or V.nothing (take 1 (shown V.nothing self)) }
    {
        let mut piles = self;
        let mut value = V::nothing();
        piles.take_top(true, &mut value);
        value
    }
}

/// Lets so many of nothing lie below the value on top.
pub(crate) fn set_under<V: Drop>(piles: &mut Piles<V>, under: u32)
    ensures { (others : List (PileOf V)) (v : V) (m : ℕ) → IsTop piles.old others v m → IsTop piles.new others v under }
{
    if let Some(top) = piles.piles.last_mut() {
        top.under = under;
    }
}
