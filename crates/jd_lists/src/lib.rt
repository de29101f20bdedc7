//! Lists of any items, of which the last part comes first where they are made from a text's end, and boxes.
#![tactic(auto)]

mod lists;

pub use lists::{
    all_of, alone, appended, boxed, discard, ended, in_order, last_apart, put, put_first, with,
};
