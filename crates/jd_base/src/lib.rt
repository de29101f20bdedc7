//! The base of all crates: numbers of declarations, sorts, want of memory, and the program's
//! outside: libraries of files that are read, and sinks to which the output is written.
#![tactic(auto)]

mod arithmetic;
mod ids;
mod memory;
mod memory_files;
mod memory_sink;
mod outside;
mod real_files;
mod sort;
mod whole;

pub use arithmetic::{jdiv, jmod, wrap32};
pub use ids::{ClassId, FamilyId, FieldId, MethodId};
pub use memory::{NoMemory, both, copy_bytes};
pub use memory_files::MemoryLibrary;
pub use memory_sink::MemorySink;
pub use outside::{Failed, Library, Sink};
pub use real_files::{FileLibrary, StdSink};
pub use sort::{ConstDecl, Sort};
pub use whole::{ReadRefusal, read_whole, write_all};
