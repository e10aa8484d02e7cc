//! The content of a file.
ghost use Rattle.std.specs.Prelude.{◌≡◌, ◌≢◌, ◌<◌, None, Some, Err, IfOk};
ghost use Rattle.tokei_folders.specs.Answers.{Told};
ghost use Rattle.tokei_folders.specs.declared.fs.Fault.TheVariants.{Refused as RefusedFault, Memory as MemoryFault};
ghost use Rattle.tokei_files.specs.Contents.{content_at};
ghost use Rattle.tokei_folders.specs.AsTheyWere.{SameTree, FaultsStay};

use tokei_folders::{Content, Fault, Folders};

/// The content of the file at a place; whether the walk has just listed it. `Refused` where it
/// can't be read, else `Memory`; the folders keep their tree.
pub fn content<F: Folders>(folders: &mut F, place: &str, listed: bool) -> Result<Content, Fault>
    ensures same { SameTree F.tree folders.old folders.new }
    ensures told { Told (F.tree folders.old) (λ t. IfOk result (λ c.
        content_at t place.now ≡ Some c)) }
    ensures refused { result ≡ Err RefusedFault → Told (F.tree folders.old) (λ t.
        content_at t place.now ≡ None) }
    ensures honest { result ≢ Err MemoryFault → FaultsStay F.memory_faults folders.old folders.new }
{
    if listed {
        folders.read_listed(place)
    } else {
        Ok(Content::from_vec(folders.read(place)?))
    }
}
