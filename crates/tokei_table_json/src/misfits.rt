//! Which member of which language keeps a text from being a table.
ghost use Rattle.std.specs.Prelude.{◌≡◌, is_some, not, codes};
ghost use Rattle.json.specs.Value.{value_view};
ghost use Rattle.serde_json.specs.Find.{get};
ghost use Rattle.tokei_json_tree.specs.Ordered.{IsOrdered};
ghost use Rattle.tokei_json_tree.specs.TreeData.{data_of};
ghost use Rattle.tokei_table_json.specs.Escaped.{is_escaped_table};
ghost use Rattle.tokei_table_json.specs.Misfits.{has_unfit_language};

use crate::escaped::misescaped_entry;
use crate::layout::{languages_of, unfit_entry};
use tokei_json_tree::Tree;

/// The key of the first language of a table that hasn't the layout of one, and the member that
/// keeps it from that, where it has members.
pub fn unfit_language<'v, 't>(table: &'v Tree<'t>) -> Option<(&'v str, Option<&'v str>)>
    requires ordered { IsOrdered (value_view table.now) }
    ensures { is_some result
        ≡ has_unfit_language (get (codes "languages") (data_of (value_view table.now))) }
{
    match languages_of(table) {
        Some(languages) => unfit_entry(languages),
        None => None,
    }
}

/// The key of the first language of a table with an unknown escape, and the member that has it.
pub fn misescaped_language<'v, 't>(table: &'v Tree<'t>) -> Option<(&'v str, Option<&'v str>)>
    requires ordered { IsOrdered (value_view table.now) }
    ensures { is_some result
        ≡ not (is_escaped_table (get (codes "languages") (data_of (value_view table.now)))) }
{
    match languages_of(table) {
        Some(languages) => misescaped_entry(languages),
        None => None,
    }
}
