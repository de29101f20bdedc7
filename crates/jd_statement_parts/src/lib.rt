//! The parts of the resolved code that statements of Java stand for, where what is in scope may be unknown because memory ran out.
#![tactic(auto)]

mod catching;
mod declarations;
mod exits;
mod labels;
mod loops;
mod parts;

pub use catching::{Part, caught_by_parts, handler_part, no_parts, one_class, with_part};
pub use declarations::{declared, effects, started};
pub use exits::{Exits, break_exit, continue_exit, in_label, in_loop, no_exits};
pub use labels::{block_if, label_if};
pub use loops::{Head, Numbers, loop_head, looped};
pub use parts::{
    above, called_above, constructor_above, effect_code, enter, expr_code, failed, given_up,
    returned_code,
};
