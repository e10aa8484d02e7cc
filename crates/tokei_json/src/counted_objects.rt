//! The JSON objects that hold counts, by what else they hold.
ghost use Rattle.std.specs.Prelude.{◌≡◌, IfOk};
ghost use Rattle.serde_json.specs.Data.{object};
ghost use Rattle.serde_json.specs.View.{view, members_view};
ghost use Rattle.tokei_json.specs.CountedObjects.{count_members as members_of_counts};
ghost use Rattle.tokei_json.specs.CountedObjects.{language_object as object_of_language};
ghost use Rattle.tokei_stats.specs.Seen.{sums_of};

use serde_json::{Map, Value, put};
use std::alloc::{AllocError, Global};
use tokei_stats::Sums;

/// The three counts as members.
pub(crate) fn count_members(alloc: Global, counts: Sums) -> Result<Map<String, Value>, AllocError>
    ensures { IfOk result (λ m. members_view m.entries ≡ members_of_counts (sums_of counts)) }
{
    let mut members = Map::new(alloc);
    put(&mut members, alloc, "blanks", Value::from(counts.blanks))?;
    put(&mut members, alloc, "code", Value::from(counts.code))?;
    put(
        &mut members,
        alloc,
        "comments",
        Value::from(counts.comments),
    )?;
    Ok(members)
}

/// A language, or the total.
pub(crate) fn language_object(
    alloc: Global,
    counts: Sums,
    children: Map<String, Value>,
    inaccurate: bool,
    reports: Value,
) -> Result<Value, AllocError>
    ensures { IfOk result (λ v. view v ≡ object_of_language (sums_of counts)
        (object (members_view children.entries)) inaccurate (view reports)) }
{
    let mut members = count_members(alloc, counts)?;
    put(&mut members, alloc, "children", Value::Object(children))?;
    put(&mut members, alloc, "reports", reports)?;
    put(&mut members, alloc, "inaccurate", Value::Bool(inaccurate))?;
    Ok(Value::Object(members))
}
