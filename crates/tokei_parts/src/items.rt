//! The items that can enclose a place of a text.
ghost use Rattle.std.specs.Prelude.{◌≡◌};
ghost use Rattle.tokei_parts.specs.Items.{kind_in};
ghost use Rattle.tokei_parts.specs.SeenChoices.{mode_of};

/// What an item with a body is.
#[derive(Clone, Copy, Debug, PartialEq, Eq)]
pub enum ItemKind {
    DocString,
    VerbatimString,
    OrdinaryString,
    MultiLineComment,
}

/// An item that encloses a place: it began before it, and hasn't ended.
#[derive(Clone, Copy)]
pub struct Enclosure<'a> {
    pub kind: ItemKind,
    pub closer: &'a [u8],
}

/// The item that encloses a place of a line, or none. Each field is a local of its own in the walk,
/// and no padding is copied.
#[derive(Clone, Copy)]
pub struct LineItem<'a> {
    /// What it is, where one does.
    pub kind: Option<ItemKind>,
    /// The bytes of its closer, which mean nothing where none does.
    pub closer: &'a [u8],
}

/// The kind of the item, where there is one.
#[inline(always)]
pub fn kind_of(mode: Option<Enclosure>) -> Option<ItemKind>
    ensures { result ≡ kind_in (mode_of mode.entry) }
{
    match mode {
        Some(item) => Some(item.kind),
        None => None,
    }
}
