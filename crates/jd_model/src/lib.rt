//! The meaning of code, formulas and contracts, with its laws; sequents and their places; the
//! tables of contracts.
#![tactic(auto)]

mod contracts;
mod examples;
mod laws;
mod places;
mod put;
mod sequent;

pub use contracts::{BodyForm, CaseForm, Contracts, InvForm};
pub use examples::{
    allocation_examples, arithmetic_examples, array_access_examples, array_creation_examples,
    break_examples, call_examples, cast_examples, finally_examples, loop_examples,
    operand_order_examples, zero_divisor_examples,
};
pub use laws::{
    are_coincident, are_renamed, are_replaceable, are_stable, are_substituted, created_stays,
    focus_decides, may_be_taken, more_gives_the_same, resolved_bodies_assign_no_heap,
    resolved_bodies_end, update_places_are_places,
};
pub use places::{at, formula_numbered, formulas_on};
pub use put::{copy_formulas, put_at_place, replace_at};
pub use sequent::{Node, Place, Sequent, Side};
