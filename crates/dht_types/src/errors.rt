//! The errors that a call may answer, with their numbers and words.

ghost use Rattle.std.specs.Prelude.{◌≡◌};
ghost use Rattle.dht_types.specs.Errno.{errno_number, errno_word};

/// An error of a call, as errno.h names it.
#[derive(Clone, Copy, Debug, PartialEq, Eq)]
pub enum Errno {
    /// There is no such name.
    Enoent,
    /// Memory ran out.
    Enomem,
    /// The name is there already.
    Eexist,
    /// The name is empty, `.` or `..`, or has a `/` or a zero byte.
    Einval,
    /// The name has more than 255 bytes, or its directory is as deep as one may be.
    Enametoolong,
    /// The name is a file's.
    Enotdir,
    /// The name is a directory's.
    Eisdir,
    /// The directory is not empty.
    Enotempty,
    /// The directory is none of the tree.
    Estale,
    /// A brick was down.
    Enotconn,
    /// A brick failed.
    Eio,
}

/// The number of an error in errno.h.
pub fn errno_number(error: Errno) -> u16
    ensures { result ≡ errno_number error }
{
    match error {
        Errno::Enoent => 2,
        Errno::Enomem => 12,
        Errno::Eexist => 17,
        Errno::Einval => 22,
        Errno::Enametoolong => 36,
        Errno::Enotdir => 20,
        Errno::Eisdir => 21,
        Errno::Enotempty => 39,
        Errno::Estale => 116,
        Errno::Enotconn => 107,
        Errno::Eio => 5,
    }
}

/// The word of an error, its name in lower case.
pub fn errno_word(error: Errno) -> &'static str
    ensures { result.now ≡ errno_word error }
{
    match error {
        Errno::Enoent => "enoent",
        Errno::Enomem => "enomem",
        Errno::Eexist => "eexist",
        Errno::Einval => "einval",
        Errno::Enametoolong => "enametoolong",
        Errno::Enotdir => "enotdir",
        Errno::Eisdir => "eisdir",
        Errno::Enotempty => "enotempty",
        Errno::Estale => "estale",
        Errno::Enotconn => "enotconn",
        Errno::Eio => "eio",
    }
}
