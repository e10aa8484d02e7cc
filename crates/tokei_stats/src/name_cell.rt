//! The name in a row.
use std::fmt;
use tokei_bytes::find_char_boundary;

/// A name left in places that count characters; one of more bytes than places is a bar and its end.
#[derive(Drop)]
pub(crate) struct NameCell<'a> {
    pub(crate) name: &'a str,
    pub(crate) places: usize,
    ghost room: { 1 ≤ places },
}

ghost use Rattle.std.specs.Prelude.{◌≡◌, ◌≤◌, ◌-◌, ◌++◌, length};

impl NameCell<'_> {
    ghost use Rattle.tokei_stats.specs.Places.{left_in};
    ghost use Rattle.tokei_stats.specs.ReportRow.{name_cell};

    /// The bar of a shortened name, or none, and what of the name is shown behind it.
    #[tactic(auto, using(crate::proofs::Padding::shortened_cell))]
    fn bar_and_end(&self) -> (&'static str, &str)
        ensures bar { length result.0.now ≤ self.now.places }
        ensures cell { result.0.now ++ left_in (self.now.places - length result.0.now) result.1.now
            ≡ name_cell self.now.places self.now.name.now }
    {
        let name = self.name;
        if name.len() > self.places {
            let from = find_char_boundary(name, name.len() + 1 - self.places);
            ("|", &name[from..])
        } else {
            ("", name)
        }
    }
}

impl fmt::Display for NameCell<'_> {
    ghost use Rattle.std.specs.Prelude.{Some};
    ghost use Rattle.tokei_stats.specs.ReportRow.{name_cell};

    ghost output = { λ cell. Some (name_cell cell.places cell.name.now) };

    #[tactic(auto, using(crate::proofs::Padding::styled_left))]
    fn fmt<W: fmt::Write>(&self, f: &mut fmt::Formatter<W>) -> fmt::Result {
        let (bar, end) = self.bar_and_end();
        let rest = self.places - bar.len();
        write!(f, "{bar}{end:<rest$}")
    }
}
