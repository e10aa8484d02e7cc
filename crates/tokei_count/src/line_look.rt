//! Lines before an opener that is near, counted by the masks of blocks.
ghost use Rattle.std.specs.Prelude.{◌≡◌, ◌≢◌, ℕ, ◌+◌, ◌-◌, ◌<◌, ◌≤◌, ◌==◌, ◌^◌, true, false, [], None, drop, length, map, slice_index};
ghost use Rattle.std.specs.Prelude.{IfOk, IsErrOf, IsOk, OnOk};
ghost use Rattle.std.specs.Int.{bit_at};
ghost use Rattle.std.specs.Simd.Lanes.{chunk, mask_l};
ghost use Rattle.tokei_bytes.specs.Lines.{blank_after, front_count, fronts, newline};
ghost use Rattle.tokei_bytes.specs.Slots.{is_slotted};
ghost use Rattle.tokei_table.specs.Bytes.{begins_with_one, line_len};
ghost use Rattle.tokei_table.specs.FirstOpener.{first_opener};
ghost use Rattle.tokei_table.specs.Openers.{openers};
ghost use Rattle.tokei_table.specs.RowOf.{row_of};
ghost use Rattle.tokei_table.specs.Tokens.{has_tokens};
ghost use Rattle.tokei_table.specs.Slices.{between};
ghost use Rattle.tokei_parts.specs.Glance.{opener_place};
ghost use Rattle.tokei_parts.specs.LineMarks.{AreInOne, AreLineMarks, is_marked};
ghost use Rattle.tokei_parts.specs.ReadingOf.{openers_in, row_in};
ghost use Rattle.tokei_parts.specs.Seen.{chain_of};
ghost use Rattle.tokei_count.specs.LineLooks.{AreTold, HasLineComment, IsClear, IsLook, IsNext, mark_count};
ghost use Rattle.tokei_count.specs.NoComments.{counts_with};
ghost use Rattle.tokei_count.specs.Readers.{reading_of};
ghost use Rattle.tokei_count.specs.UnderWay.{IsUnderWay};
ghost use Rattle.tokei_stats.specs.Overflow.{Fits};
ghost use Rattle.tokei_stats.specs.Seen.{sums_of};

use crate::text_reading::ReadSoFar;
use tokei_bytes::{BLOCK, LineMasks, line_masks, marks_in_block};
use tokei_parts::{LanguageMatchers, LineMarks, Reading, line_comment_stands};
use tokei_stats::{CountError, Sums};
use tokei_table_row::Syntax;
use tokei_table_search::{Tellers, blanks_end};

/// How long a line is looked at: of longer ones other searches are quicker.
const NEAR: usize = 256;

/// How many marked bytes of a block are looked at one after another; where more come, other
/// searches are quicker.
const MANY: usize = 8;

/// How many bytes of a block are marked where it isn't one of slashes alone, or the like, for which
/// other searches are quicker.
const MOST: u32 = 28;

/// Lines that are looked at: those of the reading's text from a place on, which begins one.
#[derive(Clone, Copy)]
struct Ahead<'r, 'a, 't> {
    reading: &'r Reading<'a, 't>,
    marks: &'r LineMarks,
    start: usize,
    ghost tokens: { has_tokens (row_in reading.now) ≡ true },
    ghost marked: { AreLineMarks marks.now reading.now.matchers.now.begins
        (openers_in reading.now) },
    ghost inside: { start ≤ length reading.now.text.now },
}

/// What a look at such lines shows.
#[derive(Clone, Copy)]
pub(crate) struct Look {
    /// The place up to which it went.
    pub at: usize,
    /// Where the line begins that the place is in.
    pub stop: usize,
    /// How many newlines stand before the place, how many fronts of lines, and how many of these
    /// are marked.
    pub newlines: usize,
    pub fronts: usize,
    pub comments: usize,
}

/// How many of the `BLOCK` bytes of the text from `from` on stand before the first opener: all
/// where none stands there, and more than all where too many can begin one to be looked at. Bit k
/// of `marked` is set where byte k can. It stands in no caller's code, which mostly has no such
/// byte.
#[inline(never)]
fn gap_to_marked(matchers: &LanguageMatchers, text: &[u8], from: usize, marked: u64) -> usize
    requires within { from + BLOCK ≤ length text.now }
    requires small { marked < 2 ^ 32 }
    requires others { (k : ℕ) → k < 32 → bit_at marked k ≡ 0
        → begins_with_one matchers.now.openers (drop (from + k) text.now) ≡ false }
    ensures clear { result ≤ BLOCK → IsClear matchers.now.openers text.now from (from + result) }
    ensures found { result < BLOCK
        → begins_with_one matchers.now.openers (drop (from + result) text.now) ≡ true }
{
    let mut gap = 0;
    let mut looks = MANY;
    while gap < BLOCK {
        let left = marked >> gap;
        if left == 0 {
            return BLOCK;
        }
        if looks == 0 {
            return BLOCK + 1;
        }
        looks -= 1;
        let next = gap + left.trailing_zeros() as usize;
        if matchers.opener_stands(text, from + next) {
            return next;
        }
        gap = next + 1;
    }
    BLOCK
}

/// The same, where mostly no bit is set, or an opener stands at the first whose bit is.
#[inline(always)]
fn gap_to_opener(matchers: &LanguageMatchers, text: &[u8], from: usize, marked: u64) -> usize
    requires within { from + BLOCK ≤ length text.now }
    requires small { marked < 2 ^ 32 }
    requires others { (k : ℕ) → k < 32 → bit_at marked k ≡ 0
        → begins_with_one matchers.now.openers (drop (from + k) text.now) ≡ false }
    ensures clear { result ≤ BLOCK → IsClear matchers.now.openers text.now from (from + result) }
    ensures found { result < BLOCK
        → begins_with_one matchers.now.openers (drop (from + result) text.now) ≡ true }
{
    if marked == 0 {
        return BLOCK;
    }
    let first = marked.trailing_zeros() as usize;
    if matchers.opener_stands(text, from + first) {
        return first;
    }
    if marked >> (first + 1) == 0 {
        return BLOCK;
    }
    gap_to_marked(matchers, text, from, marked)
}

/// Whether a line comment stands at each of the `BLOCK` bytes of the text from `from` on whose bit
/// is set in `heads`. It stands in no caller's code, where mostly none is set.
#[inline(never)]
fn all_are_comments(syntax: &Syntax, text: &[u8], from: usize, heads: u64) -> bool
    requires within { from + BLOCK ≤ length text.now }
    requires small { heads < 2 ^ 32 }
    ensures { result ≡ true → (k : ℕ) → k < 32 → bit_at heads k ≡ 1
        → HasLineComment (row_of syntax.now) text.now (from + k) }
{
    let mut gap = 0;
    while gap < BLOCK {
        let left = heads >> gap;
        if left == 0 {
            return true;
        }
        let next = gap + left.trailing_zeros() as usize;
        if !line_comment_stands(syntax, text, from + next) {
            return false;
        }
        gap = next + 1;
    }
    true
}

/// The same, where mostly no bit is set.
#[inline(always)]
fn are_comments(syntax: &Syntax, text: &[u8], from: usize, heads: u64) -> bool
    requires within { from + BLOCK ≤ length text.now }
    requires small { heads < 2 ^ 32 }
    ensures { result ≡ true → (k : ℕ) → k < 32 → bit_at heads k ≡ 1
        → HasLineComment (row_of syntax.now) text.now (from + k) }
{
    heads == 0 || all_are_comments(syntax, text, from, heads)
}

/// Those of the marked bytes of the `BLOCK` bytes of the text from `from` on at which an opener can
/// stand, by the bytes that tell openers: bit k is set where one can at byte k.
#[inline(always)]
fn can_open(tellers: &Tellers, text: &[u8], from: usize, marked: u64) -> u64
    requires within { from + BLOCK ≤ length text.now }
    ensures low { marked < 2 ^ 32 → result < 2 ^ 32 }
    ensures marked { (k : ℕ) → bit_at result k ≡ 0 → bit_at marked k ≡ 1 → k < 31
        → (is_slotted tellers.now.alone (slice_index text.now (from + k)) ≡ false)
        × (is_slotted tellers.now.seconds (slice_index text.now (from + k + 1)) ≡ false) }
    ensures last { bit_at result 31 ≡ 0 → bit_at marked 31 ≡ 0 }
{
    let alone = marks_in_block(&tellers.alone, text, from);
    let seconds = marks_in_block(&tellers.seconds, text, from);
    // the byte behind the last one isn't looked at
    (alone | seconds >> 1 | 1 << 31) & marked
}

/// How many of the `BLOCK` bytes of the text from `from` on stand before the first opener: all
/// where none stands there, and more than all where too many can begin one to be looked at. Bit k
/// of `marked` is set where lines are searched for byte k.
#[inline(always)]
fn gap_in_block(ahead: &Ahead, from: usize, marked: u64) -> usize
    requires within { from + BLOCK ≤ length ahead.now.reading.now.text.now }
    requires marked { marked ≡ mask_l (map (is_marked ahead.now.marks.now)
        (chunk from 32 ahead.now.reading.now.text.now)) }
    requires some { marked ≢ 0 }
    ensures clear { result ≤ BLOCK → IsClear (openers_in ahead.now.reading.now)
        ahead.now.reading.now.text.now from (from + result) }
    ensures found { result < BLOCK → begins_with_one (openers_in ahead.now.reading.now)
        (drop (from + result) ahead.now.reading.now.text.now) ≡ true }
{
    let text = ahead.reading.text;
    let matchers = ahead.reading.matchers;
    let first = marked.trailing_zeros() as usize;
    if matchers.opener_stands(text, from + first) {
        return first;
    }
    let can = can_open(&ahead.marks.tellers, text, from, marked);
    gap_to_opener(matchers, text, from, can)
}

/// What the look shows with the next `gap` bytes of the text, whose masks of a block these are.
/// `blank` is 1 where the line that it ended in has no front yet, else 0.
#[inline(always)]
fn with_block(
    ahead: &Ahead,
    look: Look,
    blank: u64,
    lines: LineMasks,
    marked: u64,
    gap: usize,
) -> Look
    requires look { IsLook (is_marked ahead.now.marks.now) ahead.now.reading.now.text.now
        ahead.now.start look }
    requires within { look.at + BLOCK ≤ length ahead.now.reading.now.text.now }
    requires gap { gap ≤ BLOCK }
    requires blank { (blank == 1)
        ≡ blank_after true (between ahead.now.reading.now.text.now ahead.now.start look.at) }
    requires newlines { lines.newlines
        ≡ mask_l (map (λ x. x == newline) (chunk look.at 32 ahead.now.reading.now.text.now)) }
    requires fronts { lines.fronts
        ≡ mask_l (fronts (blank == 1) (chunk look.at 32 ahead.now.reading.now.text.now)) }
    requires marked { marked ≡ mask_l (map (is_marked ahead.now.marks.now)
        (chunk look.at 32 ahead.now.reading.now.text.now)) }
    ensures look { IsLook (is_marked ahead.now.marks.now) ahead.now.reading.now.text.now
        ahead.now.start result }
    ensures at { result.at ≡ look.at + gap }
{
    // there are no more lines than bytes, and so many can be counted
    let _length = ahead.reading.text.len();
    let within = (1u64 << gap) - 1;
    let ended = lines.newlines & within;
    let fronts = lines.fronts & within;
    let stop = if ended == 0 {
        look.stop
    } else {
        look.at + (64 - ended.leading_zeros() as usize)
    };
    Look {
        at: look.at + gap,
        stop,
        newlines: look.newlines + ended.count_ones() as usize,
        fronts: look.fronts + fronts.count_ones() as usize,
        comments: look.comments + (fronts & marked).count_ones() as usize,
    }
}

/// Looks at the lines up to the first opener or less far. The second answer is 1 where the line
/// that the look ended in has no front yet, else 0; the third is the place of the opener, with no
/// newline before it that the look hasn't shown, or the text's end where it came to none. The
/// second table of the marks isn't looked up where `TWO` is false.
#[inline(always)]
fn look_by<const TWO: bool>(ahead: &Ahead) -> (Look, u64, usize)
    requires one { TWO ≡ false → AreInOne ahead.now.marks.now }
    ensures look { IsLook (is_marked ahead.now.marks.now) ahead.now.reading.now.text.now
        ahead.now.start result.0 }
    ensures blank { (result.1 == 1)
        ≡ blank_after true (between ahead.now.reading.now.text.now ahead.now.start result.0.at) }
    ensures clear { IsClear (openers_in ahead.now.reading.now) ahead.now.reading.now.text.now
        ahead.now.start result.0.at }
    ensures told { AreTold (row_in ahead.now.reading.now) (is_marked ahead.now.marks.now)
        ahead.now.reading.now.text.now ahead.now.start result.0.at }
    ensures found { result.2 < length ahead.now.reading.now.text.now
        → IsNext (openers_in ahead.now.reading.now) ahead.now.reading.now.text.now result.0.at
        result.2 }
{
    let reading = ahead.reading;
    let text = reading.text;
    // a block begins at each place before that
    let end = text.len().saturating_sub(BLOCK - 1);
    let mut blank = 1;
    let mut look = Look {
        at: ahead.start,
        stop: ahead.start,
        newlines: 0,
        fronts: 0,
        comments: 0,
    };
    while look.at < end && look.at - look.stop < NEAR {
        let marked = ahead.marks.in_block::<TWO>(text, look.at);
        if marked == 0 {
            let lines = line_masks(text, look.at, blank);
            look = with_block(ahead, look, blank, lines, marked, BLOCK);
            blank = lines.blank;
        } else {
            let gap = gap_in_block(ahead, look.at, marked);
            let lines = line_masks(text, look.at, blank);
            if gap < BLOCK && gap <= lines.newlines.trailing_zeros() as usize {
                // no line ends before the opener
                return (look, blank, look.at + gap);
            }
            if BLOCK < gap || MOST < marked.count_ones() {
                break;
            }
            let heads = lines.fronts & ((1u64 << gap) - 1) & marked;
            if !are_comments(reading.syntax, text, look.at, heads) {
                break;
            }
            look = with_block(ahead, look, blank, lines, marked, gap);
            if gap < BLOCK {
                // the opener is no blank: it is the front, where its line had none
                return (look, lines.fronts >> gap & 1, look.at);
            }
            blank = lines.blank;
        }
    }
    (look, blank, text.len())
}

/// The same, by the tables of marks that have some.
#[inline(always)]
fn look_ahead(ahead: &Ahead) -> (Look, u64, usize)
    ensures look { IsLook (is_marked ahead.now.marks.now) ahead.now.reading.now.text.now
        ahead.now.start result.0 }
    ensures blank { (result.1 == 1)
        ≡ blank_after true (between ahead.now.reading.now.text.now ahead.now.start result.0.at) }
    ensures clear { IsClear (openers_in ahead.now.reading.now) ahead.now.reading.now.text.now
        ahead.now.start result.0.at }
    ensures told { AreTold (row_in ahead.now.reading.now) (is_marked ahead.now.marks.now)
        ahead.now.reading.now.text.now ahead.now.start result.0.at }
    ensures found { result.2 < length ahead.now.reading.now.text.now
        → IsNext (openers_in ahead.now.reading.now) ahead.now.reading.now.text.now result.0.at
        result.2 }
{
    if ahead.marks.in_one {
        look_by::<false>(ahead)
    } else {
        look_by::<true>(ahead)
    }
}

/// What so many blank lines and so many others count as, of which so many are comments, in a
/// language that is literate or not.
fn sums_with(literate: bool, blank: usize, solid: usize, comments: usize) -> Sums
    requires { comments ≤ solid }
    ensures { sums_of result ≡ counts_with literate blank solid comments }
{
    if literate {
        Sums {
            blanks: blank,
            code: 0,
            comments: solid,
        }
    } else {
        Sums {
            blanks: blank,
            code: solid - comments,
            comments,
        }
    }
}

/// How many fronts the line has that a look ended in, of those that are marked: one or none. It
/// stands in no caller's code, since few lines of a look are comments.
#[inline(never)]
fn marks_behind(ahead: &Ahead, look: Look) -> usize
    requires look { IsLook (is_marked ahead.now.marks.now) ahead.now.reading.now.text.now
        ahead.now.start look }
    requires some { ahead.now.start < look.stop }
    ensures { result ≡ mark_count (is_marked ahead.now.marks.now) true
        (between ahead.now.reading.now.text.now look.stop look.at) }
{
    let text = ahead.reading.text;
    let head = blanks_end(text, look.stop, look.at);
    if head == look.at {
        return 0;
    }
    ahead.marks.has(text[head]) as usize
}

/// Nothing but what the text's type says: contracts see it of no text in a struct.
#[inline(always)]
fn has_bytes(text: &[u8])
    ensures { (p : ℕ) → slice_index text.now p < 256 }
{}

/// How many fronts the lines have that a look showed, but the one that it ended in, and how many of
/// these are marked. `blank` is 1 where that one has no front yet, else 0.
#[inline(always)]
fn fronts_before(ahead: &Ahead, look: Look, blank: u64) -> (usize, usize)
    requires look { IsLook (is_marked ahead.now.marks.now) ahead.now.reading.now.text.now
        ahead.now.start look }
    requires some { ahead.now.start < look.stop }
    requires blank { (blank == 1)
        ≡ blank_after true (between ahead.now.reading.now.text.now ahead.now.start look.at) }
    ensures fronts { result.0
        ≡ front_count true (between ahead.now.reading.now.text.now ahead.now.start look.stop) }
    ensures marks { result.1 ≡ mark_count (is_marked ahead.now.marks.now) true
        (between ahead.now.reading.now.text.now ahead.now.start look.stop) }
    ensures fits { look.stop < 2 ^ 64 }
{
    if blank == 1 {
        return (look.fronts, look.comments);
    }
    let fronts = look.fronts - 1;
    if look.comments == 0 {
        return (fronts, 0);
    }
    (fronts, look.comments - marks_behind(ahead, look))
}

/// Counts the lines that a look showed, but the one that it ended in.
#[inline(always)]
fn count_looked(
    ahead: &Ahead,
    so_far: &mut ReadSoFar,
    look: Look,
    blank: u64,
) -> Result<(), CountError>
    requires skips { ahead.now.reading.now.skips ≡ true }
    requires start { ahead.now.start ≡ so_far.old.start }
    requires under_way { IsUnderWay ahead.now.reading.now so_far.old }
    requires plain { chain_of so_far.old.stack.items ≡ [] }
    requires look { IsLook (is_marked ahead.now.marks.now) ahead.now.reading.now.text.now
        so_far.old.start look }
    requires blank { (blank == 1)
        ≡ blank_after true (between ahead.now.reading.now.text.now so_far.old.start look.at) }
    requires clear { IsClear (openers_in ahead.now.reading.now) ahead.now.reading.now.text.now
        so_far.old.start look.at }
    requires told { AreTold (row_in ahead.now.reading.now) (is_marked ahead.now.marks.now)
        ahead.now.reading.now.text.now so_far.old.start look.at }
    ensures under_way { OnOk result (IsUnderWay ahead.now.reading.now so_far.new) }
    ensures start { OnOk result (so_far.new.start ≡ look.stop) }
    ensures plain { chain_of so_far.new.stack.items ≡ [] }
    ensures quiet { first_opener (openers (row_in ahead.now.reading.now))
        ahead.now.reading.now.text.now ≡ None → IsOk result }
    ensures overflow { IsErrOf result CountError.Overflow
        → ¬ Fits (reading_of ahead.now.reading.now) }
{
    if look.stop == so_far.start {
        return Ok(());
    }
    has_bytes(ahead.reading.text);
    let (solid, comments) = fronts_before(ahead, look, blank);
    let blank = look.newlines - solid;
    let lines = sums_with(ahead.reading.syntax.literate, blank, solid, comments);
    so_far.own = so_far.own.plus(lines)?;
    so_far.start = look.stop;
    Ok(())
}

/// Counts the next lines, up to the one of the first opener, where that is near, and answers its
/// place; or fewer lines, and the text's end.
#[inline(always)]
pub(crate) fn count_lines_ahead(
    reading: &Reading,
    marks: &LineMarks,
    so_far: &mut ReadSoFar,
) -> Result<usize, CountError>
    requires skips { reading.now.skips ≡ true }
    requires marks { AreLineMarks marks.now reading.now.matchers.now.begins
        (openers_in reading.now) }
    requires under_way { IsUnderWay reading.now so_far.old }
    requires plain { chain_of so_far.old.stack.items ≡ [] }
    ensures under_way { OnOk result (IsUnderWay reading.now so_far.new) }
    ensures low { OnOk result (so_far.old.start ≤ so_far.new.start) }
    ensures plain { chain_of so_far.new.stack.items ≡ [] }
    ensures next { IfOk result (λ to. to < length reading.now.text.now → to
        ≡ so_far.new.start + opener_place (openers_in reading.now)
        (drop so_far.new.start reading.now.text.now)) }
    ensures line { IfOk result (λ to. to < length reading.now.text.now
        → to ≤ so_far.new.start + line_len (drop so_far.new.start reading.now.text.now)) }
    ensures high { IfOk result (λ to. to < length reading.now.text.now → so_far.new.start ≤ to) }
    ensures quiet { first_opener (openers (row_in reading.now)) reading.now.text.now ≡ None
        → IsOk result }
    ensures overflow { IsErrOf result CountError.Overflow → ¬ Fits (reading_of reading.now) }
{
    let ahead = Ahead {
        reading,
        marks,
        start: so_far.start,
    };
    let (look, blank, to) = look_ahead(&ahead);
    count_looked(&ahead, so_far, look, blank)?;
    Ok(to)
}
