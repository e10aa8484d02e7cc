//! What the program is told of its surroundings, and the folders of configuration files that they
//! name.
ghost use Rattle.std.specs.Prelude.{◌≡◌, IfOk};
ghost use Rattle.tokei_invocation.specs.Directories.{AreDirs, config_folder_of, is_absolute, text_of};

use std::alloc::{AllocError, Global};
use tokei_config::ConfigDirs;

/// What the program is told of its surroundings: the variables that it asks for, where they are
/// set, and a table of its own, where it has one.
#[derive(Drop)]
pub struct Env {
    /// `XDG_CONFIG_HOME`
    pub xdg_config_home: Option<String>,
    /// `HOME`
    pub home: Option<String>,
    /// The place of the table of languages that stands where no option names one.
    pub table: Option<String>,
}

/// The text as an owned one, where there is one.
fn owned(alloc: Global, text: &Option<String>) -> Result<Option<String>, AllocError>
    ensures { IfOk result (λ o. text_of o ≡ text_of text.now) }
{
    match text {
        None => Ok(None),
        Some(text) => Ok(Some(String::from_str(alloc, text.as_str())?)),
    }
}

/// Whether a place begins with `/`.
fn is_absolute(place: &str) -> bool
    ensures { result ≡ is_absolute place.now }
{
    match place.as_bytes() {
        [] => false,
        [first, ..] => *first == b'/',
    }
}

/// The user's folder for configuration: `XDG_CONFIG_HOME` where it begins with `/`, else `.config`
/// in `HOME`.
fn config_folder(alloc: Global, env: &Env) -> Result<Option<String>, AllocError>
    ensures { IfOk result (λ o. text_of o
        ≡ config_folder_of (text_of env.now.xdg_config_home) (text_of env.now.home)) }
{
    if let Some(folder) = &env.xdg_config_home {
        if is_absolute(folder.as_str()) {
            return Ok(Some(String::from_str(alloc, folder.as_str())?));
        }
    }
    match &env.home {
        None => Ok(None),
        Some(home) => Ok(Some(format!(in alloc; "{home}/.config")?)),
    }
}

/// The folders in which configuration files are looked for.
pub fn config_dirs(alloc: Global, env: &Env) -> Result<ConfigDirs, AllocError>
    ensures { IfOk result (AreDirs env.now) }
{
    Ok(ConfigDirs {
        config: config_folder(alloc, env)?,
        home: owned(alloc, &env.home)?,
        current: Some(String::from_str(alloc, ".")?),
    })
}
