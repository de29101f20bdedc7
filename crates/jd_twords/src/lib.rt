//! Which expressions have a form at a place, the words that begin the forms, and what single words stand for.
#![tactic(auto)]

mod forms;
mod heads;
mod names;
mod places;
mod shapes;
mod table;
mod words;

pub use forms::has_form;
pub use heads::{expr_head, formula_head, loc_head, stmt_head, term_head};
pub use names::NameMeanings;
pub use places::Place;
pub use shapes::{is_name, is_word, label_of, literal_of, loop_of, sort_of_word};
pub use words::{variable_told, word_expr, word_formula, word_loc, word_term};
