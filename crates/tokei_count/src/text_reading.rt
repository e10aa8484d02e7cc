//! Texts are read part by part: each is walked, or skipped where nothing can open in it.
ghost use Rattle.std.specs.Prelude.{◌≡◌, ◌+◌, ◌^◌, ◌<◌, ◌≤◌, true, false, [], None, Some, drop, length, map};
ghost use Rattle.std.specs.Prelude.{IfErr, IfOk, IsErrOf, IsOk, OnErr, OnOk};
ghost use Rattle.tokei_table.specs.FirstOpener.{first_opener};
ghost use Rattle.tokei_table.specs.Lookups.{row_at};
ghost use Rattle.tokei_table.specs.Openers.{openers};
ghost use Rattle.tokei_table.specs.RowOf.{row_of};
ghost use Rattle.tokei_table.specs.Tokens.{has_tokens};
ghost use Rattle.tokei_embedding.specs.DocComments.{doc_text};
ghost use Rattle.tokei_parts.specs.Calm.{IsCalm};
ghost use Rattle.tokei_parts.specs.Glance.{is_walked, opener_place};
ghost use Rattle.tokei_parts.specs.Glanced.{Knows};
ghost use Rattle.tokei_count.specs.Languages.{is_notebook};
ghost use Rattle.tokei_table_row.specs.Bytes.{line_len};
ghost use Rattle.tokei_parts.specs.Matchers.{matchers_of};
ghost use Rattle.tokei_stats.specs.Overflow.{CountsFit, Fits};
ghost use Rattle.tokei_parts.specs.Tally.{one_of};
ghost use Rattle.tokei_parts.specs.Modes.{innermost};
ghost use Rattle.tokei_count.specs.Readers.{reading_by, steps_by};
ghost use Rattle.tokei_count.specs.Readers.{reading_of};
ghost use Rattle.tokei_parts.specs.ReadingOf.{line_from, openers_in, row_in};
ghost use Rattle.tokei_parts.specs.SeenChoices.{mode_of};
ghost use Rattle.tokei_parts.specs.Seen.{block_of, chain_of};
ghost use Rattle.tokei_count.specs.Steps.{capped};
ghost use Rattle.tokei_count.specs.UnderWay.{IsReadBy, IsUnderWay, reading_inside, steps_inside};
ghost use Rattle.tokei_stats.specs.Seen.{blobs_of, entries_of, stats_of, sums_of};
ghost use Rattle.tokei_stats.specs.Statistics.{at, joined, lines_of, plus, put, sum};

use crate::line_reading::read_near;
use crate::lines_left::{count_clear_lines, count_lines_left, count_lines_within, has_no_comments};
use crate::reader::Reader;
use std::alloc::{AllocError, Global};
use std::collections::BTreeMap;
use tokei_embedding::{BlockSearch, doc_text};
use tokei_notebook::cells;
use tokei_parts::{
    Block, Class, Enclosure, PartEnd, Place, Reading, calm_end, class_of_plain, class_within,
    innermost, line_end, line_front, line_len, line_stop, newline_before, next_opener, read_part,
};
use tokei_stats::{CodeStats, CountError, Sums, add_blob};
use tokei_table::LanguageType;
use tokei_table_row::Syntax;
use tokei_table_row::ext::trim;

/// A text that was read.
#[derive(Drop)]
pub(crate) struct TextRead {
    pub stats: CodeStats,
    /// How many choices were made in it and in its children, or the greatest number where they were
    /// more.
    pub steps: u128,
}

/// The sum, or the greatest number where that is less.
fn capped_sum(a: u128, b: u128) -> u128
    ensures { result ≡ capped (a + b) }
{
    a.saturating_add(b)
}

/// Whether texts of the language are notebooks.
fn is_notebook(syntax: &Syntax) -> bool
    ensures { result ≡ is_notebook (row_of syntax.now) }
{
    syntax.key.as_str() == "Jupyter"
}

/// What the lines of a doc comment say, where the child's text stands in some.
fn doc_contents(alloc: Global, child: &Block) -> Result<Vec<u8>, AllocError>
    ensures { IfOk result (λ v. child.now.is_doc ≡ true
        → v.items ≡ doc_text child.now.contents.now) }
{
    if child.is_doc {
        doc_text(alloc, child.contents)
    } else {
        Ok(Vec::new(alloc))
    }
}

/// The lines that the child adds to its parent.
fn share_of(child: &Block) -> Sums
    ensures { sums_of result ≡ (block_of child.now).share }
{
    Sums {
        blanks: 0,
        code: child.code,
        comments: child.comments,
    }
}

/// The statistics of a notebook: those of each cell at its language. With no levels left it counts
/// nothing.
#[cycle(read_text)]
fn read_notebook(
    reader: Reader,
    language: LanguageType,
    text: &[u8],
    levels: u32,
) -> Result<TextRead, CountError>
    requires known { language < length reader.table.now }
    requires indexed { reader.matchers.now ≡ map matchers_of reader.table.now }
    requires notebook { is_notebook (row_at reader.table.now language) ≡ true }
    ensures reads { IfOk result (λ r. stats_of r.stats
        ≡ reading_by reader.entry levels language text.now) }
    ensures steps { IfOk result (λ r. r.steps
        ≡ capped (steps_by reader.entry levels language text.now)) }
    ensures overflow { IsErrOf result CountError.Overflow
        → ¬ Fits (reading_by reader.entry levels language text.now) }
{
    let alloc = reader.alloc;
    if levels == 0 {
        let stats = CodeStats::new(alloc);
        return Ok(TextRead { stats, steps: 0 });
    }
    let cells = cells(alloc, reader.table, language, text)?;
    let mut blobs = BTreeMap::new(alloc);
    let mut steps = 0;
    for cell in cells.as_slice() {
        let read = read_text(reader, cell.language, &cell.source, levels - 1)?;
        add_blob(&mut blobs, cell.language, read.stats)?;
        steps = capped_sum(steps, read.steps);
    }
    let stats = CodeStats::assembled(alloc, Sums::new(), blobs);
    Ok(TextRead { stats, steps })
}

/// What was read of a text, up to where its next part begins.
#[derive(Drop)]
pub(crate) struct ReadSoFar<'a, 't> {
    pub own: Sums,
    pub blobs: BTreeMap<LanguageType, CodeStats>,
    /// How many choices were made in the text itself.
    pub own_steps: usize,
    /// How many were made in its children, or the greatest number where they were more.
    pub inner_steps: u128,
    /// How many bytes were left behind the last child.
    pub behind_child: usize,
    /// Where the next part begins.
    pub start: usize,
    /// The items that enclose that place.
    pub stack: Vec<Enclosure<'t>>,
    pub search: BlockSearch<'a>,
    /// The child that was found last; an empty one before any was.
    pub child: Block<'a>,
}

impl<'a, 't> ReadSoFar<'a, 't> {
    /// Nothing yet; takes no memory.
    fn new(alloc: Global, reading: &Reading<'a, 't>) -> ReadSoFar<'a, 't>
        requires lines { is_notebook (row_in reading.now) ≡ false }
        requires tokens { has_tokens (row_in reading.now) ≡ true }
        ensures under_way { IsUnderWay reading.now result }
        ensures start { result.start ≡ 0 }
    {
        ReadSoFar {
            own: Sums::new(),
            blobs: BTreeMap::new(alloc),
            own_steps: 0,
            inner_steps: 0,
            behind_child: reading.text.len(),
            start: 0,
            stack: Vec::new(alloc),
            search: BlockSearch::new(alloc, reading.text),
            child: Block::empty(reading),
        }
    }
}

/// Counts one line more, of the class.
#[inline(always)]
fn one_more(lines: &mut Sums, class: Class)
    requires room { lines_of (sums_of lines.old) + 1 < 2 ^ 64 }
    ensures { sums_of lines.new ≡ plus (sums_of lines.old) (one_of class) }
{
    match class {
        Class::Blank => lines.blanks += 1,
        Class::Code => lines.code += 1,
        Class::Comment => lines.comments += 1,
    }
}

/// One more, where there is room.
#[inline(always)]
fn one_more_of(count: usize) -> Result<usize, CountError>
    ensures ok { IfOk result (λ n. n ≡ count + 1) }
    ensures past { OnErr result (2 ^ 64 ≤ count + 1) }
    ensures overflow { IfErr result (λ e. e ≡ CountError.Overflow) }
{
    match count.checked_add(1) {
        Some(more) => Ok(more),
        None => Err(CountError::Overflow),
    }
}

/// Counts one line more, of the class, where its number has room.
#[inline(always)]
pub(crate) fn add_line(lines: &mut Sums, class: Class) -> Result<(), CountError>
    ensures ok { OnOk result (sums_of lines.new ≡ plus (sums_of lines.old) (one_of class)) }
    ensures past { OnErr result (¬ CountsFit (plus (sums_of lines.old) (one_of class))) }
    ensures overflow { IfErr result (λ e. e ≡ CountError.Overflow) }
{
    match class {
        Class::Blank => lines.blanks = one_more_of(lines.blanks)?,
        Class::Code => lines.code = one_more_of(lines.code)?,
        Class::Comment => lines.comments = one_more_of(lines.comments)?,
    }
    Ok(())
}

/// Counts the next lines, one after another, which stop before the first opener, at `next`, or with
/// the text, and answers where the line behind them goes to. The first of them goes to `first`.
/// Their counts and place stand in no memory meanwhile.
#[inline(never)]
fn count_lines(
    reading: &Reading,
    so_far: &mut ReadSoFar,
    next: usize,
    first: usize,
) -> Result<usize, CountError>
    requires skips { reading.now.skips ≡ true }
    requires under_way { IsUnderWay reading.now so_far.old }
    requires plain { chain_of so_far.old.stack.items ≡ [] }
    requires next { next ≡ so_far.old.start + opener_place (openers_in reading.now)
        (drop so_far.old.start reading.now.text.now) }
    requires within { next ≤ length reading.now.text.now }
    requires first { first
        ≡ so_far.old.start + line_len (drop so_far.old.start reading.now.text.now) }
    ensures under_way { OnOk result (IsUnderWay reading.now so_far.new) }
    ensures low { OnOk result (so_far.old.start ≤ so_far.new.start) }
    ensures high { OnOk result (so_far.new.start ≤ next) }
    ensures next { OnOk result (next ≡ so_far.new.start + opener_place (openers_in reading.now)
        (drop so_far.new.start reading.now.text.now)) }
    ensures end { IfOk result (λ end. end
        ≡ so_far.new.start + line_len (drop so_far.new.start reading.now.text.now)) }
    ensures more { OnOk result (so_far.new.start < length reading.now.text.now
        → next < so_far.new.start + length (line_from reading.now so_far.new.start)) }
    ensures plain { chain_of so_far.new.stack.items ≡ [] }
    ensures quiet { first_opener (openers (row_in reading.now)) reading.now.text.now ≡ None
        → IsOk result }
    ensures overflow { IsErrOf result CountError.Overflow → ¬ Fits (reading_of reading.now) }
{
    let text = reading.text;
    let mut lines = Sums::new();
    let mut at = so_far.start;
    let mut end = first;
    // only blanks stand before that place
    let mut solid = at;
    while at < next {
        let stop = line_stop(text, end);
        if next < stop {
            break;
        }
        one_more(&mut lines, class_of_plain(reading, text, at, solid, stop));
        at = stop;
        let front = line_front(text, at, text.len());
        end = front.newline;
        solid = front.solid;
    }
    so_far.own = so_far.own.plus(lines)?;
    so_far.start = at;
    Ok(end)
}

/// Counts the next lines that stop at `to` or before, all within the item that encloses them: up to
/// there each choice takes its byte. Their counts and place stand in no memory meanwhile.
#[inline(never)]
fn count_within(
    reading: &Reading,
    so_far: &mut ReadSoFar,
    item: Enclosure,
    to: usize,
) -> Result<(), CountError>
    requires under_way { IsUnderWay reading.now so_far.old }
    requires within { innermost (chain_of so_far.old.stack.items) ≡ mode_of (Some item) }
    requires calm { IsCalm (row_in reading.now) item reading.now.text.now so_far.old.start to }
    requires low { so_far.old.start ≤ to }
    requires high { to ≤ length reading.now.text.now }
    ensures under_way { OnOk result (IsUnderWay reading.now so_far.new) }
    ensures low { OnOk result (so_far.old.start ≤ so_far.new.start) }
    ensures high { OnOk result (so_far.new.start ≤ to) }
    ensures clear { OnOk result
        (to ≤ so_far.new.start + line_len (drop so_far.new.start reading.now.text.now)) }
    ensures same { so_far.new.stack ≡ so_far.old.stack }
    ensures overflow { IsErrOf result CountError.Overflow → ¬ Fits (reading_of reading.now) }
{
    let text = reading.text;
    let class = class_within(reading, item);
    let mut within = Sums::new();
    let mut next = so_far.start;
    while next < to {
        let newline = newline_before(text, next, to);
        let stop = line_stop(text, newline);
        if to < stop {
            break;
        }
        one_more(&mut within, class);
        next = stop;
    }
    so_far.own = so_far.own.plus(within)?;
    so_far.own_steps += next - so_far.start;
    so_far.start = next;
    Ok(())
}

/// Counts the plain lines before the next part that is walked, wherever the first opener stands,
/// and answers where the line of that part goes to. `end` and `next` are as in `skip_lines`.
#[inline(always)]
fn skip_far_lines(
    reading: &Reading,
    so_far: &mut ReadSoFar,
    next: &mut usize,
    end: usize,
) -> Result<usize, CountError>
    requires skips { reading.now.skips ≡ true }
    requires under_way { IsUnderWay reading.now so_far.old }
    requires plain { chain_of so_far.old.stack.items ≡ [] }
    requires known { Knows (openers_in reading.now) reading.now.text.now so_far.old.start next.old }
    requires line { so_far.old.start ≤ end
        → end ≡ so_far.old.start + line_len (drop so_far.old.start reading.now.text.now) }
    ensures under_way { OnOk result (IsUnderWay reading.now so_far.new) }
    ensures known { OnOk result
        (Knows (openers_in reading.now) reading.now.text.now so_far.new.start next.new) }
    ensures on { OnOk result (so_far.old.start ≤ so_far.new.start) }
    ensures end { IfOk result (λ end. end
        ≡ so_far.new.start + line_len (drop so_far.new.start reading.now.text.now)) }
    ensures walked { OnOk result (so_far.new.start < length reading.now.text.now
        → is_walked (openers_in reading.now) (innermost (chain_of so_far.new.stack.items))
        (line_from reading.now so_far.new.start)
        ≡ true) }
    ensures quiet { first_opener (openers (row_in reading.now)) reading.now.text.now ≡ None
        → IsOk result }
    ensures overflow { IsErrOf result CountError.Overflow → ¬ Fits (reading_of reading.now) }
{
    let text = reading.text;
    let to = next_opener(reading.matchers, text, so_far.start, *next);
    *next = to;
    if to == reading.text.len() && has_no_comments(reading.syntax) {
        count_lines_left(reading, so_far)?;
        return Ok(to);
    }
    count_clear_lines(reading, so_far, to)?;
    let end = line_end(text, so_far.start, so_far.start, end);
    if to < line_stop(text, end) {
        return Ok(end);
    }
    let end = count_lines(reading, so_far, to, end)?;
    Ok(end)
}

/// Counts the lines, from where the reading has come to on, in which each choice takes its byte,
/// all within the item that encloses them, and answers up to where the line behind them has no
/// newline.
#[inline(always)]
pub(crate) fn skip_within(
    reading: &Reading,
    so_far: &mut ReadSoFar,
    item: Enclosure,
) -> Result<usize, CountError>
    requires under_way { IsUnderWay reading.now so_far.old }
    requires within { innermost (chain_of so_far.old.stack.items) ≡ mode_of (Some item) }
    ensures under_way { OnOk result (IsUnderWay reading.now so_far.new) }
    ensures low { OnOk result (so_far.old.start ≤ so_far.new.start) }
    ensures behind { IfOk result (λ clear. so_far.new.start ≤ clear) }
    ensures clear { IfOk result (λ clear. clear
        ≤ so_far.new.start + line_len (drop so_far.new.start reading.now.text.now)) }
    ensures same { so_far.new.stack ≡ so_far.old.stack }
    ensures overflow { IsErrOf result CountError.Overflow → ¬ Fits (reading_of reading.now) }
{
    // a closer of one byte mostly stands in the same line
    if item.closer.len() < 2 {
        return Ok(so_far.start);
    }
    let to = calm_end(reading, item, so_far.start);
    if to <= so_far.start {
        return Ok(so_far.start);
    }
    count_lines_within(reading, so_far, item, to)?;
    count_within(reading, so_far, item, to)?;
    Ok(to)
}

/// Reads on up to the next part that `read_walked` walks, and answers where the line of that part
/// goes to. `end` is where an earlier place's line went to, and `next` where an earlier search for
/// openers came to, and becomes where this one does.
fn skip_lines<'a, 't>(
    reading: &Reading<'a, 't>,
    so_far: &mut ReadSoFar<'a, 't>,
    next: &mut usize,
    end: usize,
) -> Result<usize, CountError>
    requires under_way { IsUnderWay reading.now so_far.old }
    requires known { Knows (openers_in reading.now) reading.now.text.now so_far.old.start next.old }
    requires line { so_far.old.start ≤ end
        → end ≡ so_far.old.start + line_len (drop so_far.old.start reading.now.text.now) }
    ensures under_way { OnOk result (IsUnderWay reading.now so_far.new) }
    ensures known { OnOk result
        (Knows (openers_in reading.now) reading.now.text.now so_far.new.start next.new) }
    ensures on { OnOk result (so_far.old.start ≤ so_far.new.start) }
    ensures end { IfOk result (λ end. end
        ≡ so_far.new.start + line_len (drop so_far.new.start reading.now.text.now)) }
    ensures walked { OnOk result (reading.now.skips ≡ true
        → so_far.new.start < length reading.now.text.now
        → is_walked (openers_in reading.now) (innermost (chain_of so_far.new.stack.items))
        (line_from reading.now so_far.new.start)
        ≡ true) }
    ensures quiet { reading.now.skips ≡ true
        → first_opener (openers (row_in reading.now)) reading.now.text.now ≡ None → IsOk result }
    ensures overflow { IsErrOf result CountError.Overflow → ¬ Fits (reading_of reading.now) }
{
    let text = reading.text;
    let end = read_near(reading, so_far, end)?;
    if !reading.skips {
        return Ok(line_end(text, so_far.start, so_far.start, end));
    }
    if let Some(item) = innermost(&so_far.stack) {
        let clear = skip_within(reading, so_far, item)?;
        return Ok(line_end(text, so_far.start, clear, end));
    }
    skip_far_lines(reading, so_far, next, end)
}

/// Reads a child of the text with one level less, and adds its statistics to those of its language,
/// and its steps. What it makes meanwhile has no place in its caller, which would clear it at each
/// part.
#[cycle(read_text)]
fn read_child<'a, 't>(
    reader: Reader<'a, 't>,
    reading: &Reading<'a, 't>,
    child: &Block<'a>,
    blobs: &mut BTreeMap<LanguageType, CodeStats>,
    steps: &mut u128,
) -> Result<(), CountError>
    requires reader { IsReadBy reader reading.now }
    requires indexed { reader.matchers.now ≡ map matchers_of reader.table.now }
    requires deep { 0 < reading.now.levels }
    requires known { child.now.language < length reading.now.table.now }
    ensures reads { OnOk result (blobs_of (entries_of blobs.new.entries)
        ≡ put (blobs_of (entries_of blobs.old.entries)) child.now.language
        (joined (at (blobs_of (entries_of blobs.old.entries)) child.now.language)
        (λ s. sum s (reading_inside reading.now (block_of child.now)))
        (reading_inside reading.now (block_of child.now)))) }
    ensures steps { OnOk result (steps.new
        ≡ capped (steps.old + steps_inside reading.now (block_of child.now))) }
    ensures overflow { IsErrOf result CountError.Overflow
        → Fits (reading_inside reading.now (block_of child.now))
        → ¬ Fits (joined (at (blobs_of (entries_of blobs.old.entries)) child.now.language)
        (λ s. sum s (reading_inside reading.now (block_of child.now)))
        (reading_inside reading.now (block_of child.now))) }
{
    let doc = doc_contents(reader.alloc, child)?;
    let inner = if child.is_doc {
        trim(&doc)
    } else {
        child.contents
    };
    let read = read_text(reader, child.language, inner, reading.levels - 1)?;
    add_blob(blobs, child.language, read.stats)?;
    *steps = capped_sum(*steps, read.steps);
    Ok(())
}

/// Walks the next part, whose line goes to `end`, and counts that line, or reads the child that
/// breaks the part off.
#[cycle(read_text)]
fn read_walked<'a, 't>(
    reader: Reader<'a, 't>,
    reading: &Reading<'a, 't>,
    so_far: &mut ReadSoFar<'a, 't>,
    end: usize,
) -> Result<(), CountError>
    requires reader { IsReadBy reader reading.now }
    requires indexed { reader.matchers.now ≡ map matchers_of reader.table.now }
    requires under_way { IsUnderWay reading.now so_far.old }
    requires some { so_far.old.start < length reading.now.text.now }
    requires end { end ≡ so_far.old.start + line_len (drop so_far.old.start reading.now.text.now) }
    requires walked { reading.now.skips ≡ true
        → is_walked (openers_in reading.now) (innermost (chain_of so_far.old.stack.items))
        (line_from reading.now so_far.old.start) ≡ true }
    ensures under_way { OnOk result (IsUnderWay reading.now so_far.new) }
    ensures on { OnOk result (so_far.old.start < so_far.new.start) }
    ensures overflow { IsErrOf result CountError.Overflow → ¬ Fits (reading_of reading.now) }
{
    let place = Place {
        reading,
        behind_child: so_far.behind_child,
        start: so_far.start,
        at: so_far.start,
        end,
    };
    let part = read_part(
        &place,
        &mut so_far.search,
        &mut so_far.stack,
        &mut so_far.child,
    )?;
    so_far.own_steps += part.steps;
    match part.end {
        PartEnd::Line(class, behind) => {
            add_line(&mut so_far.own, class)?;
            so_far.start = behind;
        }
        PartEnd::Broken(at) => {
            so_far.own = so_far.own.plus(share_of(&so_far.child))?;
            read_child(
                reader,
                reading,
                &so_far.child,
                &mut so_far.blobs,
                &mut so_far.inner_steps,
            )?;
            so_far.start = at + so_far.child.size;
            so_far.behind_child = reading.text.len() - so_far.start;
        }
    }
    Ok(())
}

/// The statistics of a text, part by part. Its children are read with one level less.
#[cycle(read_text)]
pub(crate) fn read_text<'a>(
    reader: Reader<'a, '_>,
    language: LanguageType,
    text: &'a [u8],
    levels: u32,
) -> Result<TextRead, CountError>
    requires known { language < length reader.table.now }
    requires indexed { reader.matchers.now ≡ map matchers_of reader.table.now }
    ensures reads { IfOk result (λ r. stats_of r.stats
        ≡ reading_by reader.entry levels language text.now) }
    ensures steps { IfOk result (λ r. r.steps
        ≡ capped (steps_by reader.entry levels language text.now)) }
    ensures quiet { reader.entry.skips ≡ true
        → is_notebook (row_at reader.entry.table.now language) ≡ false
        → first_opener (openers (row_at reader.entry.table.now language)) text.now ≡ None
        → IsOk result }
    ensures overflow { IsErrOf result CountError.Overflow
        → ¬ Fits (reading_by reader.entry levels language text.now) }
{
    let syntax = reader.table.syntax(language);
    if is_notebook(syntax) {
        return read_notebook(reader, language, text, levels);
    }
    let matchers = reader.matchers.of(language);
    let reading = Reading {
        table: reader.table,
        language,
        syntax,
        family: matchers.family(),
        markdown: reader.markdown,
        matchers,
        text,
        docs_are_comments: reader.docs_are_comments,
        levels,
        skips: reader.skips,
    };
    let mut so_far = ReadSoFar::new(reader.alloc, &reading);
    let mut next = 0;
    let mut end = line_len(text);
    while so_far.start < text.len() {
        end = skip_lines(&reading, &mut so_far, &mut next, end)?;
        if so_far.start < text.len() {
            read_walked(reader, &reading, &mut so_far, end)?;
        }
    }
    let stats = CodeStats::assembled(reader.alloc, so_far.own, so_far.blobs);
    let steps = capped_sum(so_far.inner_steps, so_far.own_steps as u128);
    Ok(TextRead { stats, steps })
}
