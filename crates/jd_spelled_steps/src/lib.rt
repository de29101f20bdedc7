//! Steps by rows keep sequents spelled: the rows of logic and of integers, and steps by any row that does. Definitions and laws, without
//! code.
#![tactic(auto)]

mod laws;

pub use laws::{
    conditions_hold, rows_are_met, rows_keep, steps_have_instances, steps_keep_spelled,
};
