//! Why configuration files count as empty.
use tokei_folders::Text;

/// A member of a configuration file.
#[derive(Clone, Copy, Debug, PartialEq, Eq)]
pub enum Setting {
    Columns,
    Hidden,
    NoIgnore,
    NoIgnoreParent,
    NoIgnoreDot,
    NoIgnoreVcs,
    TreatDocStringsAsComments,
    Sort,
    Types,
    Languages,
}

/// Why a configuration file that is there counts as empty.
#[derive(Clone, Copy, Debug, PartialEq, Eq)]
pub enum Cause {
    /// It can't be read.
    Unreadable,
    /// It isn't UTF-8.
    NotUtf8,
    /// It isn't TOML.
    NotToml,
    /// This member is of a wrong kind or names what isn't known; the members before it aren't.
    BadSetting(Setting),
}

/// A configuration file that is there and counts as empty.
#[derive(Drop)]
pub struct Flaw {
    /// The file's place.
    pub place: Text,
    pub cause: Cause,
    /// Of `NotToml` the line, counted from 1, and the parser's words; of `Unreadable` the system's
    /// words, where it has some; else nothing.
    pub detail: Text,
}
