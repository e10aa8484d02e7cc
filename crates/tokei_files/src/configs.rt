//! What a configuration says of a run: which ignore rules are obeyed, and which languages are
//! counted.
ghost use Rattle.std.specs.Prelude.{◌≡◌, option_map};
ghost use Rattle.tokei_config.specs.Seen.{settings_of};
ghost use Rattle.tokei_files.specs.Configs.{is_on as is_switched_on, rules_of};

use tokei_config::Config;
use tokei_table::LanguageType;
use tokei_walk::Rules;

fn is_on(switch: Option<bool>) -> bool
    ensures { result ≡ is_switched_on switch }
{
    switch.unwrap_or(false)
}

/// Which ignore rules a configuration obeys: a member that is `None` is off.
pub fn rules(config: &Config) -> Rules
    ensures { result ≡ rules_of (settings_of config.now) }
{
    let none = is_on(config.no_ignore);
    Rules {
        parents: !(none || is_on(config.no_ignore_parent)),
        dot: !(none || is_on(config.no_ignore_dot)),
        git: !(none || is_on(config.no_ignore_vcs)),
        hidden: !is_on(config.hidden),
    }
}

/// The languages that a configuration counts; `None` means all.
pub fn types(config: &Config) -> Option<&[LanguageType]>
    ensures { option_map (λ types. types.now) result ≡ (settings_of config.entry.now).types }
{
    match &config.types {
        Some(types) => Some(types.as_slice()),
        None => None,
    }
}
