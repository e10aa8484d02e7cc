//! The folders above a place.
ghost use Rattle.std.specs.Prelude.{◌≢◌, IfErr};
ghost use Rattle.std.specs.IoError.{error_kind};

use crate::retried::retried;
use std::alloc::Global;
use std::io::ErrorKind;
use std::path::PathBuf;
use std::rt::Files;
use std::{fs, io};
use tokei_folders::{Above, Text};

/// The folders above a path that begins with `/`, nearest first.
fn folders_over(alloc: Global, path: &str) -> io::Result<Vec<Above>> {
    let mut above = Vec::new(alloc);
    let mut rest = path;
    for _ in 0..path.len() {
        match rest.rsplit_once('/') {
            Some((folder, name)) if !name.is_empty() => {
                let place = if folder.is_empty() { "/" } else { folder };
                above.push(Above {
                    place: Text::from_str(alloc, place)?,
                    name: Text::from_str(alloc, name)?,
                })?;
                rest = folder;
            }
            _ => break,
        }
    }
    Ok(above)
}

/// The real path of a place: one without links.
fn real_path<R: Files + AllocGlobal>(rt: &R, place: &str) -> io::Result<PathBuf>
    ensures { IfErr result (λ e. error_kind e ≢ ErrorKind.Interrupted) }
{
    retried!(fs::canonicalize(rt, place))
}

/// The folders above a place, nearest first, by its real path.
pub(crate) fn folders_above<R: Files + AllocGlobal>(rt: &R, place: &str) -> io::Result<Vec<Above>> {
    let path = real_path(rt, place)?;
    folders_over(rt.alloc(), path.as_str())
}
