ghost use Rattle.std.specs.Prelude.{◌≡◌};
ghost use Rattle.jd_files.specs.declared.refusal.FilesRefusal.TheVariants.{NoMemory as OutOfMemory};

use jd_base::NoMemory;
use jd_classes::ClassRefusal;
use jd_source::SourceRefusal;

/// Why files are no program's.
#[derive(Drop)]
pub enum FilesRefusal {
    /// The file of this number, from 0, is no Java file.
    File(u32, SourceRefusal),
    /// Their classes are no program's.
    Classes(ClassRefusal),
    /// Memory ran out.
    NoMemory,
}

impl From<NoMemory> for FilesRefusal {
    ghost from_gives = { λ _ e. e ≡ OutOfMemory };

    fn from(_error: NoMemory) -> FilesRefusal {
        FilesRefusal::NoMemory
    }
}
