// What the system says where it refuses a file.

ghost use Rattle.std.specs.Prelude.{◌≡◌};
ghost use Rattle.mj_reasons.specs.Systems.{kind_text};

use std::io::ErrorKind;

/// The words for it.
#[tactic(auto, unfolding(crate::specs::Systems::kind_text))]
pub fn kind_words(kind: ErrorKind) -> &'static str
    ensures { result.now ≡ kind_text kind }
{
    match kind {
        ErrorKind::NotFound => "there is no such file or folder",
        ErrorKind::PermissionDenied => "permission is denied",
        ErrorKind::IsADirectory => "it is a folder",
        ErrorKind::NotADirectory => "a part of its path is no folder",
        ErrorKind::FilesystemLoop => "its links lead in a circle",
        ErrorKind::InvalidFilename => "its name is too long",
        ErrorKind::ReadOnlyFilesystem => "its file system can only be read",
        ErrorKind::StorageFull => "the disk is full",
        ErrorKind::QuotaExceeded => "the disk has no room left for this user",
        ErrorKind::ResourceBusy | ErrorKind::ExecutableFileBusy => "it is in use",
        _ => "the system refuses it",
    }
}
