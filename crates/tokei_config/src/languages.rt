//! The members of a configuration file that name languages.
ghost use Rattle.std.specs.Prelude.{◌≡◌, Some, map, string_bytes, is_some, option_map, option_and_then, OnOk, IfOk, IfErr};
ghost use Rattle.std.specs.BTreeMap.{get, insert_entry, Updates};
ghost use Rattle.std.specs.Ordering.{nat_cmp};
ghost use Rattle.toml.specs.Data.{get_member, as_str, as_table};
ghost use Rattle.toml.specs.View.{view, items_view, table_view};
ghost use Rattle.tokei_config.specs.Languages.{addition, additions, as_additions, one_each, extensions_in};
ghost use Rattle.tokei_config.specs.Members.{optional, all_of, as_language, as_languages};
ghost use Rattle.tokei_config.specs.Reading.{Reads};
ghost use Rattle.tokei_config.specs.Seen.{additions_of, extensions_of};
ghost use Rattle.tokei_config.specs.declared.members.MemberError.TheVariants.{Memory};

use crate::language_config::LanguageConfig;
use crate::members::{MemberError, member};
use std::alloc::Global;
use std::collections::BTreeMap;
use tokei_table::{LanguageTable, LanguageType};
use toml::{Table, Value};

/// The language that a value names.
fn language(table: &LanguageTable, value: &Value) -> Option<LanguageType>
    ensures { result ≡ as_language table.now (view value.now) }
{
    match value.as_str() {
        Some(word) => LanguageType::from_name(table, word),
        None => None,
    }
}

/// The languages that the values name.
fn languages_named(
    alloc: Global,
    table: &LanguageTable,
    values: &[Value],
) -> Result<Vec<LanguageType>, MemberError>
    ensures { Reads (λ v. v.items)
        (all_of (as_language table.now) (items_view values.now)) result }
{
    let mut languages = Vec::new(alloc);
    for value in values {
        match language(table, value) {
            Some(language) => languages.push(language)?,
            None => return Err(MemberError::Unreadable),
        }
    }
    Ok(languages)
}

/// Copies of the texts that the values are.
fn texts(alloc: Global, values: &[Value]) -> Result<Vec<String>, MemberError>
    ensures { Reads (λ v. map string_bytes v.items) (all_of as_str (items_view values.now)) result }
{
    let mut texts = Vec::new(alloc);
    for value in values {
        match value.as_str() {
            Some(text) => texts.push(String::from_str(alloc, text)?)?,
            None => return Err(MemberError::Unreadable),
        }
    }
    Ok(texts)
}

/// The languages that the value at a key names.
pub(crate) fn types_at(
    alloc: Global,
    table: &LanguageTable,
    members: &Table,
    key: &str,
) -> Result<Option<Vec<LanguageType>>, MemberError>
    ensures { Reads (option_map (λ v. v.items))
        (optional (as_languages table.now) (get_member key.now (table_view members.now))) result }
{
    let Some(value) = member(members, key) else {
        return Ok(None);
    };
    match value {
        Value::Array(values) => Ok(Some(languages_named(alloc, table, values)?)),
        _ => Err(MemberError::Unreadable),
    }
}

/// The extensions of a table `[languages.Key]`.
fn extensions_in(alloc: Global, entry: &Value) -> Result<Vec<String>, MemberError>
    ensures { Reads (λ v. map string_bytes v.items)
        (option_and_then extensions_in (as_table (view entry.now))) result }
{
    let Value::Table(members) = entry else {
        return Err(MemberError::Unreadable);
    };
    let Some(value) = member(members, "extensions") else {
        return Err(MemberError::Unreadable);
    };
    match value {
        Value::Array(values) => texts(alloc, values),
        _ => Err(MemberError::Unreadable),
    }
}

/// What a table `[languages.Key]` adds, and to which language.
fn addition(
    alloc: Global,
    table: &LanguageTable,
    key: &str,
    entry: &Value,
) -> Result<(LanguageType, LanguageConfig), MemberError>
    ensures { Reads (λ a. (a.0, extensions_of a.1))
        (addition table.now key.now (view entry.now)) result }
{
    let Some(language) = LanguageType::from_name(table, key) else {
        return Err(MemberError::Unreadable);
    };
    let mut config = LanguageConfig::new(alloc);
    config.extensions(extensions_in(alloc, entry)?);
    Ok((language, config))
}

/// What each table adds, in the order of the tables' keys.
fn additions(
    alloc: Global,
    table: &LanguageTable,
    members: &Table,
) -> Result<Vec<(LanguageType, LanguageConfig)>, MemberError>
    ensures { Reads (λ v. additions_of v.items)
        (additions table.now (table_view members.now)) result }
{
    let mut found = Vec::new(alloc);
    for (key, entry) in members.iter() {
        found.push(addition(alloc, table, key.as_str(), entry)?)?;
    }
    Ok(found)
}

/// Puts at the language what it gains, and tells whether something was there.
fn put(
    languages: &mut BTreeMap<LanguageType, LanguageConfig>,
    language: LanguageType,
    config: LanguageConfig,
) -> Result<bool, MemberError>
    ensures entries { OnOk result (languages.new.entries
        ≡ insert_entry nat_cmp languages.old.entries language config) }
    ensures updates { OnOk result
        (Updates nat_cmp languages.old languages.new language (Some config)) }
    ensures was_there { IfOk result
        (λ there. there ≡ is_some (get nat_cmp languages.old language)) }
    ensures memory { IfErr result (λ e. e ≡ Memory) }
{
    let old = languages.insert(language, config)?;
    Ok(old.is_some())
}

/// The additions in the order of the table, where no language has two.
fn one_each(
    alloc: Global,
    found: Vec<(LanguageType, LanguageConfig)>,
) -> Result<BTreeMap<LanguageType, LanguageConfig>, MemberError>
    ensures { Reads (λ m. additions_of m.entries) (one_each (additions_of found.items)) result }
{
    let mut languages = BTreeMap::new(alloc);
    for (language, config) in found {
        if put(&mut languages, language, config)? {
            return Err(MemberError::Unreadable);
        }
    }
    Ok(languages)
}

/// What the tables at a key add to languages.
pub(crate) fn languages_at(
    alloc: Global,
    table: &LanguageTable,
    members: &Table,
    key: &str,
) -> Result<Option<BTreeMap<LanguageType, LanguageConfig>>, MemberError>
    ensures { Reads (option_map (λ m. additions_of m.entries))
        (optional (as_additions table.now) (get_member key.now (table_view members.now))) result }
{
    let Some(value) = member(members, key) else {
        return Ok(None);
    };
    match value {
        Value::Table(entries) => {
            let found = additions(alloc, table, entries)?;
            Ok(Some(one_each(alloc, found)?))
        }
        _ => Err(MemberError::Unreadable),
    }
}
