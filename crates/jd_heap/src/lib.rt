//! Values and heaps, and their laws.
#![tactic(auto)]

ghost use Rattle.jd_heap.specs.HeapLaws.{AreHeapsBySelects, SelectOverStore, SelectOverCreate, SelectOverAnon, AllocatesLeast, AreLengthsInRange};

/// Two heaps of which everything reads alike are equal.
pub fn heaps_by_selects()
    ensures { AreHeapsBySelects }
{}

/// What is read after a store: the value there, all else as before; nothing is stored at `created`.
pub fn select_over_store()
    ensures { SelectOverStore }
{}

/// What is read after a creation: the object is created, its fields are default, the others as before.
pub fn select_over_create()
    ensures { SelectOverCreate }
{}

/// What is read of a heap that is renewed at some locations.
pub fn select_over_anon()
    ensures { SelectOverAnon }
{}

/// What is allocated was free, and has the least free number.
pub fn allocates_least()
    ensures { AllocatesLeast }
{}

/// Lengths are 32-bit numbers that are not negative (JLS 10.3).
pub fn lengths_in_range()
    ensures { AreLengthsInRange }
{}
