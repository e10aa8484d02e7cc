//! The bytes that the lines of a plain text are searched for.
ghost use Rattle.std.specs.Prelude.{◌≡◌, ℕ, ◌+◌, ◌≤◌, false, true, length, map, IfSome};
ghost use Rattle.std.specs.Simd.Lanes.{chunk, mask_l};
ghost use Rattle.tokei_table.specs.Bytes.{is_blank};
ghost use Rattle.tokei_parts.specs.LineMarks.{AreInOne, AreLineMarks, is_marked};

use crate::shared_matchers::SharedMatchers;
use tokei_bytes::{BLOCK, ByteSet, are_no_slots, is_slotted, marks_in_block, marks_of_two};
use tokei_table_row::Syntax;
use tokei_table_rules::Family;
use tokei_table_search::Tellers;

/// What the lines of a plain text are searched for.
#[derive(Clone, Copy)]
pub struct LineMarks {
    /// The bytes at which a choice other than the byte itself can begin, and those at which an
    /// opener can, each in the slot of its low half in one of these two tables. None is blank.
    pub slots: [u8; 16],
    pub others: [u8; 16],
    /// Whether the first table has all of them.
    pub in_one: bool,
    /// The bytes that tell the openers.
    pub tellers: Tellers,
}

impl LineMarks {
    /// Whether lines are searched for the byte.
    #[inline(always)]
    pub fn has(&self, byte: u8) -> bool
        ensures { result ≡ is_marked self.now byte }
    {
        is_slotted(self.slots, byte) || is_slotted(self.others, byte)
    }

    /// Bit k is set where lines are searched for byte k of the `BLOCK` bytes of the text from
    /// `from` on. The second table isn't looked up where `TWO` is false.
    #[inline(always)]
    pub fn in_block<const TWO: bool>(&self, text: &[u8], from: usize) -> u64
        requires within { from + BLOCK ≤ length text.now }
        requires one { TWO ≡ false → AreInOne self.now }
        ensures { result ≡ mask_l (map (is_marked self.now) (chunk from 32 text.now)) }
    {
        if TWO {
            marks_of_two(&self.slots, &self.others, text, from)
        } else {
            marks_in_block(&self.slots, text, from)
        }
    }
}

/// Whether lines are searched for none of the blanks.
fn has_no_blank(marks: &LineMarks) -> bool
    ensures { result ≡ true → (x : ℕ) → is_blank x ≡ true → is_marked marks.now x ≡ false }
{
    !marks.has(b' ')
        && !marks.has(b'\t')
        && !marks.has(b'\n')
        && !marks.has(11)
        && !marks.has(12)
        && !marks.has(b'\r')
}

/// The marks of lines in a language with these openers, in which a choice other than the byte
/// itself can begin at those bytes. There are none where a byte has no slot, or one is blank.
pub fn line_marks(begins: &ByteSet, openers: &SharedMatchers) -> Option<LineMarks>
    ensures { IfSome result (λ marks. AreLineMarks marks begins.now openers.now) }
{
    let (mut slots, mut others) = begins.slots()?;
    let tellers = openers.tellers()?;
    if !openers.put_firsts(&mut slots, &mut others) {
        return None;
    }
    let marks = LineMarks {
        slots,
        others,
        in_one: are_no_slots(&others),
        tellers,
    };
    if has_no_blank(&marks) {
        Some(marks)
    } else {
        None
    }
}

/// Whether a look at lines by their marks is quicker than other searches: not in a language that
/// opens children, of which many can stand close to one another, nor in one without openers, whose
/// lines are counted all at once.
pub fn is_looked_at(syntax: &Syntax, family: Family) -> bool {
    family == Family::Plain
        && !(syntax.line_comment.is_empty()
            && syntax.multi_line_comments.is_empty()
            && syntax.nested_comments.is_empty()
            && syntax.quotes.is_empty()
            && syntax.important_syntax.is_empty())
}
