ghost use Rattle.std.specs.Prelude.{◌≡◌};
ghost use Rattle.jd_classes.specs.Refusals.{clash_as, head_as};
ghost use Rattle.jd_classes.specs.declared.refusal.ClassRefusal.TheVariants.{NoMemory as OutOfMemory};

use jd_base::NoMemory;
use jd_jclashes::Clash;
use jd_jheads::HeadRefusal;
use std::alloc::{AllocError, AllocFailed};
use std::error::Error;
use std::fmt;

/// Why files are no program's, as far as their classes tell. A place is the file's number and an offset in it.
#[derive(Clone, Copy, PartialEq, Eq, Debug)]
pub enum ClassRefusal {
    /// The class of this name has the name of an earlier class (JLS 7.6).
    DuplicateClass { file: u32, at: u32 },
    /// What the class extends does not exist (JLS 8.1.4).
    UnknownSuper { file: u32, at: u32 },
    /// The class is its own ancestor (JLS 8.1.4).
    CyclicExtends { file: u32, at: u32 },
    /// A second variable of the name, or a second constructor, in its class (JLS 8.3, 8.8).
    DuplicateMember { file: u32, at: u32 },
    /// A variable of the name of one of an ancestor (JLS 8.3).
    Hiding { file: u32, at: u32 },
    /// A second method of the name in its class, or one with other parameters than that of an ancestor (JLS 8.4.9).
    Overload { file: u32, at: u32 },
    /// A method with another result than that of its name in an ancestor, or static against not static (JLS 8.4.8).
    BadOverride { file: u32, at: u32 },
    /// The files have more than 256 classes.
    TooManyClasses,
    /// The files have more than 2,048 methods; constructors do not count.
    TooManyMethods,
    /// Memory ran out.
    NoMemory,
}

impl ClassRefusal {
    // What is wrong, without the place.
    fn cause(&self) -> &'static str {
        match self {
            ClassRefusal::DuplicateClass { .. } => "a class has the name of an earlier class",
            ClassRefusal::UnknownSuper { .. } => "no class has the name that a class extends",
            ClassRefusal::CyclicExtends { .. } => "a class is its own ancestor",
            ClassRefusal::DuplicateMember { .. } => "a class declares a member twice",
            ClassRefusal::Hiding { .. } => "a variable hides one of an ancestor",
            ClassRefusal::Overload { .. } => "a method overloads another",
            ClassRefusal::BadOverride { .. } => "a method differs from the one that it overrides",
            ClassRefusal::TooManyClasses => "there are more than 256 classes",
            ClassRefusal::TooManyMethods => "there are more than 2048 methods",
            ClassRefusal::NoMemory => "memory ran out",
        }
    }

    // The file's number and the offset in it, where there are any.
    fn place(&self) -> Option<(u32, u32)> {
        match self {
            ClassRefusal::DuplicateClass { file, at }
            | ClassRefusal::UnknownSuper { file, at }
            | ClassRefusal::CyclicExtends { file, at }
            | ClassRefusal::DuplicateMember { file, at }
            | ClassRefusal::Hiding { file, at }
            | ClassRefusal::Overload { file, at }
            | ClassRefusal::BadOverride { file, at } => Some((*file, *at)),
            _ => None,
        }
    }
}

impl fmt::Display for ClassRefusal {
    fn fmt<W: fmt::Write>(&self, f: &mut fmt::Formatter<W>) -> fmt::Result {
        match self.place() {
            Some((file, at)) => write!(f, "{} at {} of file {}", self.cause(), at, file),
            None => write!(f, "{}", self.cause()),
        }
    }
}

impl Error for ClassRefusal {}

impl From<NoMemory> for ClassRefusal {
    ghost from_gives = { λ _ e. e ≡ OutOfMemory };

    fn from(_error: NoMemory) -> ClassRefusal {
        ClassRefusal::NoMemory
    }
}

impl From<AllocError> for ClassRefusal {
    ghost from_gives = { λ _ e. e ≡ OutOfMemory };

    fn from(_error: AllocError) -> ClassRefusal {
        ClassRefusal::NoMemory
    }
}

impl<T: Drop> From<AllocFailed<T>> for ClassRefusal {
    ghost from_gives = { λ _ e. e ≡ OutOfMemory };

    fn from(_error: AllocFailed<T>) -> ClassRefusal {
        ClassRefusal::NoMemory
    }
}

impl From<HeadRefusal> for ClassRefusal {
    ghost from_gives = { λ h e. e ≡ head_as h };

    fn from(refusal: HeadRefusal) -> ClassRefusal {
        match refusal {
            HeadRefusal::DuplicateClass { file, at } => ClassRefusal::DuplicateClass { file, at },
            HeadRefusal::UnknownSuper { file, at } => ClassRefusal::UnknownSuper { file, at },
            HeadRefusal::CyclicExtends { file, at } => ClassRefusal::CyclicExtends { file, at },
            HeadRefusal::NoMemory => ClassRefusal::NoMemory,
        }
    }
}

/// The refusal of a member.
pub(crate) fn of_clash(clash: Clash) -> ClassRefusal
    ensures { result ≡ clash_as clash }
{
    match clash {
        Clash::DuplicateMember { file, at } => ClassRefusal::DuplicateMember { file, at },
        Clash::Hiding { file, at } => ClassRefusal::Hiding { file, at },
        Clash::Overload { file, at } => ClassRefusal::Overload { file, at },
        Clash::BadOverride { file, at } => ClassRefusal::BadOverride { file, at },
    }
}
