//! What the system says of a place.
ghost use Rattle.std.specs.Prelude.{◌≡◌, ◌≢◌, None, Ok, Err, IfErr, IfOk, IsOkAnd, IsSome};
ghost use Rattle.std.specs.IoError.{error_kind};

use crate::listing::kind_of;
use crate::retried::retried;
use std::fs::Metadata;
use std::io::ErrorKind;
use std::rt::Files;
use std::{fs, io};
use tokei_folders::Kind;

/// What the system says of a place, links followed.
pub(crate) fn status<R: Files>(rt: &R, place: &str) -> io::Result<Metadata>
    ensures { IfErr result (λ e. error_kind e ≢ ErrorKind.Interrupted) }
{
    retried!(fs::metadata(rt, place))
}

/// What stands at a place, links followed.
pub(crate) fn kind<R: Files>(rt: &R, place: &str) -> io::Result<Kind> {
    Ok(kind_of(&status(rt, place)?))
}

/// What stands there of which the system says this; nothing where it says that nothing does.
fn kind_said(said: io::Result<Metadata>) -> io::Result<Option<Kind>>
    ensures there { IfOk said (λ m. IsOkAnd result (λ k. IsSome k)) }
    ensures missing { IfErr said (λ e. error_kind e ≡ ErrorKind.NotFound → result ≡ Ok None) }
    ensures untold { IfErr said (λ e. error_kind e ≢ ErrorKind.NotFound
        → error_kind e ≢ ErrorKind.NotADirectory → result ≡ Err e) }
{
    match said {
        Ok(metadata) => Ok(Some(kind_of(&metadata))),
        Err(e) if e.kind() == ErrorKind::NotFound => Ok(None),
        Err(e) if e.kind() == ErrorKind::NotADirectory => Ok(None),
        Err(e) => Err(e),
    }
}

/// What stands at a place, links followed, where anything does. It is an error where the system
/// doesn't say.
pub(crate) fn kind_if_any<R: Files>(rt: &R, place: &str) -> io::Result<Option<Kind>> {
    kind_said(status(rt, place))
}
