// The system's errors in words: why a file cannot be opened, read or written.
use std::fmt;
use std::io::ErrorKind;

// An error by what it means. It is said in the line that it belongs to, and not on standard error, which a terminal would
// show between the pieces of another. InvalidData stands for a name that is not text, which std does not pass to the
// system.
#[derive(Clone, Copy, Debug, PartialEq, Eq)]
pub struct Reason(pub ErrorKind);

impl fmt::Display for Reason {
    fn fmt<W: fmt::Write>(&self, f: &mut fmt::Formatter<W>) -> fmt::Result {
        f.write_str(match self.0 {
            ErrorKind::NotFound => "there is no such file or folder",
            ErrorKind::PermissionDenied => "you have no right to it",
            ErrorKind::IsADirectory => "it is a folder",
            ErrorKind::AlreadyExists => "there is a file of that name already",
            ErrorKind::StorageFull => "the disk is full",
            ErrorKind::NotADirectory => "its path leads through something that is no folder",
            ErrorKind::InvalidFilename => "its name is too long",
            ErrorKind::ReadOnlyFilesystem => "the disk is read-only",
            ErrorKind::InvalidData => "its name is not text in UTF-8",
            _ => "the system refuses it",
        })
    }
}
