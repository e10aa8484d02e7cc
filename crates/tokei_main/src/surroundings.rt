//! What the program is told of its surroundings.
use std::alloc::AllocError;
use std::env::VarError;
use std::io::ErrorKind;
use std::path::PathBuf;
use std::{env, fs, io};
use tokei_invocation::Env;

/// The table of languages, below the folder in which the program's folder stands.
const TABLE: &str = "share/tokei/languages.json";

/// The text of an environment variable; none where it isn't set or is no text. It fails where
/// memory runs out.
fn variable(rt: &HostRuntime, name: &str) -> Result<Option<String>, AllocError> {
    match env::var(rt, name) {
        Ok(text) => Ok(Some(text)),
        Err(VarError::OutOfMemory) => Err(AllocError),
        Err(_) => Ok(None),
    }
}

/// What was asked, where it could be told. It fails where memory runs out.
fn known<T>(asked: io::Result<T>) -> Result<Option<T>, AllocError> {
    match asked {
        Ok(value) => Ok(Some(value)),
        Err(error) if error.kind() == ErrorKind::OutOfMemory => Err(AllocError),
        Err(_) => Ok(None),
    }
}

/// Where the table stands that is installed with a program, by the place of the program.
fn table_beside(rt: &HostRuntime, program: &PathBuf) -> Result<Option<String>, AllocError> {
    let Some(folder) = program.parent() else {
        return Ok(None);
    };
    let Some(prefix) = folder.parent() else {
        return Ok(None);
    };
    let place = prefix.join(rt.alloc(), TABLE)?;
    Ok(Some(String::from_str(rt.alloc(), place.as_str())?))
}

/// The table that was installed with the program, where there is one.
fn installed_table(rt: &HostRuntime) -> Result<Option<String>, AllocError> {
    let Some(program) = known(env::current_exe(rt))? else {
        return Ok(None);
    };
    let Some(place) = table_beside(rt, &program)? else {
        return Ok(None);
    };
    match known(fs::metadata(rt, place.as_str()))? {
        Some(found) if found.is_file() => Ok(Some(place)),
        _ => Ok(None),
    }
}

/// The variables that the program asks for, and the table that was installed with it.
pub fn env_of(rt: &HostRuntime) -> Result<Env, AllocError> {
    let xdg_config_home = variable(rt, "XDG_CONFIG_HOME")?;
    let home = variable(rt, "HOME")?;
    Ok(Env {
        xdg_config_home,
        home,
        table: installed_table(rt)?,
    })
}
