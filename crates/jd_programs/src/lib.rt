//! What the files of a program mean: the program that runs, and the cases that JML has for it. Definitions, with a worked example.
#![tactic(auto)]

mod examples;

pub use examples::case_examples;
