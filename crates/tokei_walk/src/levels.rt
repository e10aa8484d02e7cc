//! What the rules of folders inside one another decide.
ghost use Rattle.std.specs.Prelude.{◌≡◌, ◌++◌, [], ◌∷◌, None, OnOk, IfOk, drop};
ghost use Rattle.std.specs.List.{list_any};
ghost use Rattle.tokei_folders.specs.Ends.{without_first as rest_of, begins_with};
ghost use Rattle.tokei_folders.specs.Tree.{dot};
ghost use Rattle.tokei_walk.specs.Levels.{has_some, has_patterns};
ghost use Rattle.tokei_walk.specs.Levels.{patterns_from as level_patterns, decision as level_decision, repository as repository_of, decided as level_decided, is_excluded as excluded_by, is_dropped_by as dropped_by, drops};

use std::alloc::AllocError;
use tokei_folders::{Items, Text};
use tokei_ignore::{IndexedPatterns, Pattern, Verdict, verdict_among};

/// Which rules of the walk apply.
#[derive(Clone, Copy, Debug, PartialEq, Eq)]
pub struct Rules {
    /// Ignore files above the roots, and repositories that begin there.
    pub parents: bool,
    /// `.tokeignore` and `.ignore`.
    pub dot: bool,
    /// `.gitignore` and `.git/info/exclude`.
    pub git: bool,
    /// Names that begin with a dot are dropped.
    pub hidden: bool,
}

/// The kinds of ignore files, in the order in which they decide.
#[derive(Clone, Copy)]
pub enum IgnoreKind {
    Tokeignore,
    Plain,
    Gitignore,
    GitExclude,
}

/// The rules of a folder: the patterns of its ignore files.
#[derive(Drop)]
pub struct Level {
    pub tokeignore: IndexedPatterns,
    pub ignore: IndexedPatterns,
    pub gitignore: IndexedPatterns,
    pub git_exclude: IndexedPatterns,
    /// Whether the folder has an entry `.git`.
    pub git: bool,
}

/// Where a folder stands: what decides about its entries.
#[derive(Drop)]
pub struct Context {
    /// The rules of the folders that hold, from the top down to the folder itself.
    pub levels: Items<Level>,
    /// The names from the first of these folders down to the folder.
    pub names: Items<Text>,
    /// The names of the folder's shown path.
    pub shown: Items<Text>,
}

fn patterns(level: &Level, source: IgnoreKind) -> &IndexedPatterns
    ensures { result.now ≡ level_patterns source level.entry.now }
{
    match source {
        IgnoreKind::Tokeignore => &level.tokeignore,
        IgnoreKind::Plain => &level.ignore,
        IgnoreKind::Gitignore => &level.gitignore,
        IgnoreKind::GitExclude => &level.git_exclude,
    }
}

fn without_first(names: &[Text]) -> &[Text]
    ensures { result.now ≡ rest_of names.entry.now }
{
    match names.split_first() {
        None => names,
        Some((_, rest)) => rest,
    }
}

/// The names behind so many first ones.
fn names_behind(names: &[Text], count: usize) -> &[Text]
    ensures { result.now ≡ drop count names.entry.now }
{
    if count < names.len() {
        &names[count..]
    } else {
        &[]
    }
}

/// What the ignore files of one kind decide: the nearest folder's that decides. Farther ones aren't
/// asked then.
fn decision(
    source: IgnoreKind,
    levels: &[Level],
    names: &[Text],
    is_folder: bool,
) -> Option<Verdict>
    ensures { result ≡ level_decision source levels.now names.now is_folder None }
{
    let mut left = levels;
    while let Some((level, farther)) = left.split_last() {
        let below = names_behind(names, farther.len());
        if let Some(verdict) = verdict_among(patterns(level, source), below, is_folder) {
            return Some(verdict);
        }
        left = farther;
    }
    None
}

/// The folders from the nearest one with an entry `.git` on, with the names from there.
fn repository<'a>(levels: &'a [Level], names: &'a [Text]) -> (&'a [Level], &'a [Text])
    ensures levels { result.0.now ≡ (repository_of levels.entry.now names.entry.now).0 }
    ensures names { result.1.now ≡ (repository_of levels.entry.now names.entry.now).1 }
{
    let mut found_levels: &[Level] = &[];
    let mut found_names: &[Text] = &[];
    let mut left = levels;
    let mut left_names = names;
    while let Some((level, rest)) = left.split_first() {
        if level.git {
            found_levels = left;
            found_names = left_names;
        }
        left = rest;
        left_names = without_first(left_names);
    }
    (found_levels, found_names)
}

/// Whether there is a pattern.
fn has_some(patterns: &IndexedPatterns) -> bool
    ensures { result ≡ has_some patterns.now }
{
    !patterns.as_slice().is_empty()
}

/// Whether the ignore files of a folder have a pattern.
fn has_patterns(level: &Level) -> bool
    ensures { result ≡ has_patterns level.now }
{
    has_some(&level.tokeignore)
        || has_some(&level.ignore)
        || has_some(&level.gitignore)
        || has_some(&level.git_exclude)
}

/// Whether the ignore files of one of the folders have a pattern.
fn have_patterns(levels: &[Level]) -> bool
    ensures { result ≡ list_any has_patterns levels.now }
{
    for level in levels {
        if has_patterns(level) {
            return true;
        }
    }
    false
}

/// What the ignore files decide about an entry.
#[tactic(auto, unfolding(crate::specs::Levels::decided))]
fn decided(levels: &[Level], names: &[Text], is_folder: bool) -> Option<Verdict>
    ensures { result ≡ level_decided levels.now names.now is_folder }
{
    if !have_patterns(levels) {
        return None;
    }
    if let Some(verdict) = decision(IgnoreKind::Tokeignore, levels, names, is_folder) {
        return Some(verdict);
    }
    if let Some(verdict) = decision(IgnoreKind::Plain, levels, names, is_folder) {
        return Some(verdict);
    }
    let (levels, names) = repository(levels, names);
    if let Some(verdict) = decision(IgnoreKind::Gitignore, levels, names, is_folder) {
        return Some(verdict);
    }
    decision(IgnoreKind::GitExclude, levels, names, is_folder)
}

#[tactic(auto, unfolding(crate::specs::Levels::is_excluded))]
fn is_excluded(excludes: &[Pattern], shown: &[Text], is_folder: bool) -> bool
    ensures { result ≡ excluded_by excludes.now shown.now is_folder }
{
    for pattern in excludes {
        if pattern.fits(shown, is_folder) {
            return true;
        }
    }
    false
}

fn begins_dotted(name: &str) -> bool
    ensures { result ≡ begins_with dot name.now }
{
    match name.as_bytes() {
        [] => false,
        [first, ..] => *first == b'.',
    }
}

/// Whether an exclude drops the entry of this name. The name is lent to the shown path and given
/// back, so that nothing is copied.
fn is_excluded_under(
    excludes: &[Pattern],
    shown: &mut Items<Text>,
    name: Text,
    is_folder: bool,
) -> Result<(bool, Text), AllocError>
    ensures shown { OnOk result (shown.new ≡ shown.old) }
    ensures excluded { IfOk result (λ p. p.0
        ≡ excluded_by excludes.now (shown.old ++ name ∷ []) is_folder) }
    ensures name { IfOk result (λ p. p.1 ≡ name) }
{
    shown.push(name)?;
    let excluded = is_excluded(excludes, shown.as_slice(), is_folder);
    Ok((excluded, shown.pop().unwrap()))
}

/// What the ignore files decide about the entry of this name, which is lent to the names and given
/// back.
fn decided_under(
    levels: &[Level],
    names: &mut Items<Text>,
    name: Text,
    is_folder: bool,
) -> Result<(Option<Verdict>, Text), AllocError>
    ensures names { OnOk result (names.new ≡ names.old) }
    ensures verdict { IfOk result (λ p. p.0
        ≡ level_decided levels.now (names.old ++ name ∷ []) is_folder) }
    ensures name { IfOk result (λ p. p.1 ≡ name) }
{
    names.push(name)?;
    let verdict = decided(levels, names.as_slice(), is_folder);
    Ok((verdict, names.pop().unwrap()))
}

/// Whether an entry is dropped about which the ignore files decide this.
fn is_dropped_by(verdict: Option<Verdict>, dotted: bool) -> bool
    ensures { result ≡ dropped_by verdict dotted }
{
    match verdict {
        Some(Verdict::Ignore) => true,
        Some(Verdict::Keep) => false,
        None => dotted,
    }
}

/// Whether an entry of a folder is dropped, and its name, which is given back.
#[tactic(auto, unfolding(crate::specs::Levels::drops_last))]
pub fn judge(
    excludes: &[Pattern],
    rules: &Rules,
    context: &mut Context,
    name: Text,
    is_folder: bool,
) -> Result<(bool, Text), AllocError>
    ensures context { OnOk result (context.new ≡ context.old) }
    ensures dropped { IfOk result (λ p. p.0
        ≡ drops excludes.now rules.now context.old name is_folder) }
    ensures name { IfOk result (λ p. p.1 ≡ name) }
{
    let (excluded, name) = is_excluded_under(excludes, &mut context.shown, name, is_folder)?;
    if excluded {
        return Ok((true, name));
    }
    let levels = context.levels.as_slice();
    let (verdict, name) = decided_under(levels, &mut context.names, name, is_folder)?;
    let dotted = rules.hidden && begins_dotted(name.as_str());
    Ok((is_dropped_by(verdict, dotted), name))
}
