//! Makers of resolved code: each takes the results of its parts and gives the result of the whole, so that calls nest without a `?`. And
//! what the code of a body has by now: its variables, temporaries, loops and labels.
#![tactic(auto)]

mod exprs;
mod lists;
mod names;
mod progress;
mod stmts;

pub use exprs::{
    and_also, binary, boolean, cast, conditional, constructor_call, do_then, instance_of, integer,
    length_of, null, or_else, read_element, read_field, static_call, this, unary, variable,
    virtual_call,
};
pub use lists::{
    appended_stmts, code_in, no_exprs, no_stmts, no_variables, one_stmt, two_stmts, with_expr,
    with_stmt, with_variable,
};
pub use names::copied;
pub use progress::Progress;
pub use stmts::{
    alloc_object, block, break_to, caught, choice, evaluate, finally, new_array, repeated,
    returned, returned_nothing, set, thrown, thrown_unchecked, write_element, write_field,
};
