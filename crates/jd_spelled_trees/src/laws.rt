ghost use Rattle.jd_spelled_trees.specs.Laws.{
  GivenWordsAreKnown,
  KnownTreesAreSpelled,
  NarrowTreesFit,
  PlacesAreSpelled,
  SpelledIndicesAreBound,
  SpelledTermsArePut,
  SpelledTreesAreKnown,
  SpelledTreesAreLifted,
  SpelledTreesAreWidened,
  TakenSequentsAreSpelled,
};

use jd_taclet_steps::{places_are_surrounded, term_places_are_surrounded, terms_are_replaced};

/// Literals of 128 bits, and constants and variables that are given as words, are known.
pub fn given_words_are_known()
    ensures { GivenWordsAreKnown }
{}

/// Trees that are known and sorted under binders are spelled under them, part by part, and their indices have nine digits at most.
pub fn known_trees_are_spelled()
    ensures { KnownTreesAreSpelled }
{}

/// Trees that are spelled part by part under no binder are known and sorted, where they are not deeper than trees may be.
pub fn spelled_trees_are_known()
    ensures { SpelledTreesAreKnown }
{}

/// The indices of a tree that is spelled under binders are bound by them, and have their sorts.
pub fn spelled_indices_are_bound()
    ensures { SpelledIndicesAreBound }
{}

/// What is spelled under binders is spelled under these and more outside of them.
pub fn spelled_trees_are_widened()
    ensures { SpelledTreesAreWidened }
{}

/// What is spelled is spelled below one more binder, lifted.
pub fn spelled_trees_are_lifted()
    ensures { SpelledTreesAreLifted }
{}

/// What is spelled under a binder is spelled without it, with a spelled term of its sort for its index.
pub fn spelled_terms_are_put()
    ensures { SpelledTermsArePut }
{}

/// Trees whose indices have nine digits can be lifted below a binder, and a term put into them, within 32 bits.
pub fn narrow_trees_fit()
    ensures { NarrowTreesFit }
{}

/// A sequent whose formulas the grammar spells is spelled part by part, with indices of nine digits, and is closed.
pub fn taken_sequents_are_spelled()
    ensures { TakenSequentsAreSpelled }
{}

/// What stands at a place of a spelled sequent is spelled under the binders around it, and another that is may be put there.
pub fn places_are_spelled()
    ensures { PlacesAreSpelled }
{
    places_are_surrounded();
    term_places_are_surrounded();
    terms_are_replaced();
}
