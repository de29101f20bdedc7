//! The command that replays proofs, with the files of the file system and standard output.
#![tactic(auto)]

use jd_base::{FileLibrary, NoMemory, StdSink};
use jdl::{Status, run};
use std::alloc::Global;
use std::env;
use std::io::ErrorKind;
use std::process::ExitCode;
use std::rt::{Env, Files};

// The words behind the program's name. Arguments that are no text are taken as no words.
fn called_with<E: Env + Alloc<A = Global>>(rt: &E) -> Result<Vec<String>, NoMemory> {
    let alloc = rt.alloc();
    match env::args(rt) {
        Ok(mut args) => {
            args.next();
            Ok(args.collect(alloc)?)
        }
        Err(error) if error.kind() == ErrorKind::OutOfMemory => Err(NoMemory),
        Err(_) => Ok(Vec::new(alloc)),
    }
}

// Runs with the files of the file system, and standard output.
fn started<E: Env + Files + Print + Alloc<A = Global>>(rt: &E) -> Status {
    let Ok(words) = called_with(rt) else {
        return Status::NoMemory;
    };
    let mut library = FileLibrary::new(rt);
    let mut sink = StdSink::new(rt);
    run(rt.alloc(), &words, &mut library, &mut sink)
}

fn main(rt: HostRuntime) -> ExitCode {
    ExitCode::from(started(&rt).code())
}
