// Why a dump cannot be read.
ghost use Rattle.std.specs.Prelude.{Some};
ghost use Rattle.dumps.specs.Causes.{cause_text};

use std::{fmt, io};

// The numbers of Linux that are told by name.
pub const ENOENT: i32 = 2;

pub const EACCES: i32 = 13;

pub const ENOTDIR: i32 = 20;

pub const EISDIR: i32 = 21;

pub const EINVAL: i32 = 22;

pub const ENAMETOOLONG: i32 = 36;

// What goes wrong with a dump. Any other error of the system's goes by its number.
#[derive(Clone, Copy, Debug, PartialEq, Eq)]
pub enum Cause {
    NotFound,
    PermissionDenied,
    NotADirectory,
    IsADirectory,
    NameTooLong,
    NameNotUtf8,
    System(i32),
}

impl Cause {
    // No path, or none that the system takes.
    pub const INVALID: Cause = Cause::System(EINVAL);
}

impl From<io::Error> for Cause {
    // An error of std's own is about a path that the system would not take.
    fn from(error: io::Error) -> Cause {
        match error.raw_os_error() {
            None => Cause::INVALID,
            Some(ENOENT) => Cause::NotFound,
            Some(EACCES) => Cause::PermissionDenied,
            Some(ENOTDIR) => Cause::NotADirectory,
            Some(EISDIR) => Cause::IsADirectory,
            Some(ENAMETOOLONG) => Cause::NameTooLong,
            Some(number) => Cause::System(number),
        }
    }
}

impl fmt::Display for Cause {
    ghost output = { λ cause. Some (cause_text cause) };

    fn fmt<W: fmt::Write>(&self, f: &mut fmt::Formatter<W>) -> fmt::Result {
        match self {
            Cause::NotFound => write!(f, "no such file"),
            Cause::PermissionDenied => write!(f, "permission denied"),
            Cause::NotADirectory => write!(f, "a part of its path is no directory"),
            Cause::IsADirectory => write!(f, "it is a directory"),
            Cause::NameTooLong => write!(f, "its name is too long"),
            Cause::NameNotUtf8 => write!(f, "its name is no UTF-8"),
            Cause::System(number) => write!(f, "the system's error {}", number.unsigned_abs()),
        }
    }
}
