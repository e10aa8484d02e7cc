//! The members of a configuration file that are one value.
ghost use Rattle.std.specs.Prelude.{◌≡◌, option_map};
ghost use Rattle.toml.specs.Data.{get_member, as_bool};
ghost use Rattle.toml.specs.View.{view, table_view};
ghost use Rattle.tokei_config.specs.Members.{optional, as_count, as_sort, natural_of};
ghost use Rattle.tokei_config.specs.Reading.{Reads};

use std::alloc::{AllocError, AllocFailed};
use tokei_options::Sort;
use toml::{Table, Value};

/// Why a member isn't read.
#[derive(Clone, Copy)]
pub(crate) enum MemberError {
    /// An allocation failed.
    Memory,
    /// It is of a wrong kind, or names what isn't known.
    Unreadable,
}

impl From<AllocError> for MemberError {
    ghost use Rattle.tokei_config.specs.declared.members.MemberError.TheVariants.{Memory};

    ghost from_gives = { λ _ e. e ≡ Memory };

    fn from(_refused: AllocError) -> MemberError {
        MemberError::Memory
    }
}

impl<T: Drop> From<AllocFailed<T>> for MemberError {
    ghost use Rattle.tokei_config.specs.declared.members.MemberError.TheVariants.{Memory};

    ghost from_gives = { λ _ e. e ≡ Memory };

    fn from(_refused: AllocFailed<T>) -> MemberError {
        MemberError::Memory
    }
}

/// The value at a key.
pub(crate) fn member<'a>(table: &'a Table, key: &str) -> Option<&'a Value>
    ensures { option_map (λ v. view v.now) result
        ≡ get_member key.now (table_view table.entry.now) }
{
    table.get(key)
}

/// The truth value at a key.
pub(crate) fn flag_at(members: &Table, key: &str) -> Result<Option<bool>, MemberError>
    ensures { Reads (λ v. v) (optional as_bool (get_member key.now (table_view members.now)))
        result }
{
    match member(members, key) {
        None => Ok(None),
        Some(Value::Boolean(flag)) => Ok(Some(*flag)),
        Some(_) => Err(MemberError::Unreadable),
    }
}

fn natural(number: i64) -> Option<usize>
    ensures { result ≡ natural_of number }
{
    if number >= 0 {
        Some(number as usize)
    } else {
        None
    }
}

/// The number at a key, which isn't below 0.
pub(crate) fn count_at(members: &Table, key: &str) -> Result<Option<usize>, MemberError>
    ensures { Reads (λ v. v) (optional as_count (get_member key.now (table_view members.now)))
        result }
{
    let Some(value) = member(members, key) else {
        return Ok(None);
    };
    match value {
        Value::Integer(number) => match natural(*number) {
            Some(count) => Ok(Some(count)),
            None => Err(MemberError::Unreadable),
        },
        _ => Err(MemberError::Unreadable),
    }
}

/// The column that the word at a key names.
pub(crate) fn sort_at(members: &Table, key: &str) -> Result<Option<Sort>, MemberError>
    ensures { Reads (λ v. v) (optional as_sort (get_member key.now (table_view members.now)))
        result }
{
    let Some(value) = member(members, key) else {
        return Ok(None);
    };
    match value {
        Value::String(word) => match word.as_str().parse::<Sort>() {
            Ok(sort) => Ok(Some(sort)),
            Err(_) => Err(MemberError::Unreadable),
        },
        _ => Err(MemberError::Unreadable),
    }
}
