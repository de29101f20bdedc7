//! Rows of programs that try calls on texts: a row is a line of words, and a text in it may have escapes.
#![tactic(auto)]

mod answer;
mod escapes;

pub use answer::Answer;
pub use escapes::unescaped;

/// The first word of a line, and what stands behind the blank after it.
pub fn first_word(line: &str) -> (&str, &str) {
    line.split_once(' ').unwrap_or((line, ""))
}
