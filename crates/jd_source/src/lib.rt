//! Java files, from their bytes to their trees, and why bytes are no file.
#![tactic(auto)]

mod read;

pub use read::{SourceRefusal, one_source, read_source};
