//! What the texts of a language are searched and walked with.
ghost use Rattle.std.specs.Prelude.{◌≡◌, ◌≢◌, ℕ, ◌+◌, ◌<◌, ◌≤◌, ◌==◌, false};
ghost use Rattle.std.specs.Prelude.{drop, length, IfOk, IfSome, Option, slice_index, slice_index_or};
ghost use Rattle.tokei_table.specs.Bytes.{begins_with_one};
ghost use Rattle.tokei_table.specs.FirstOpener.{first_opener};
ghost use Rattle.tokei_table.specs.Lookups.{row_at};
ghost use Rattle.tokei_parts.specs.Items.{Block};
ghost use Rattle.tokei_parts.specs.LineMarks.{AreLineMarks};
ghost use Rattle.tokei_parts.specs.Matchers.{matchers_of};
ghost use Rattle.tokei_parts.specs.PlainBytes.{IsOutside};
ghost use Rattle.tokei_parts.specs.PlainOpenings.{first_opening};
ghost use Rattle.tokei_parts.specs.SeenChoices.{choice_of};

use crate::beginnings::{beginnings, beginnings_in_comment, beginnings_of_comments};
use crate::choice::Choice;
use crate::line_marks::{LineMarks, is_looked_at, line_marks};
use crate::opening_table::OpeningTable;
use crate::shared_matchers::SharedMatchers;
use std::alloc::{AllocError, Global};
use std::marker::Model;
use tokei_bytes::{BitSet, ByteSet};
use tokei_table::{LanguageTable, LanguageType};
use tokei_table_rules::Family;

/// What the texts of a language are searched and walked with: its openers, the bytes at which a
/// choice other than the byte itself, a closer and a child can begin, in plain text and in a
/// comment, those at which a comment can, how they open children, and what opens in plain text.
/// Contracts see all six.
#[derive(Drop)]
pub struct LanguageMatchers<'t> {
    shared: SharedMatchers,
    begins: ByteSet,
    begins_in_comment: BitSet,
    begins_comment: BitSet,
    family: Family,
    openings: OpeningTable<'t>,
    /// What plain lines are searched for, where a look at them by that is quicker than other
    /// searches.
    line_marks: Option<LineMarks>,
}

impl<'t> Model for LanguageMatchers<'t> {
    ghost use Rattle.tokei_parts.specs.Matchers.{Matchers};

    ghost Value = { Matchers };

    ghost view = { λ m. record {
      openers = m.shared;
      begins = m.begins;
      begins_in_comment = m.begins_in_comment;
      begins_comment = m.begins_comment;
      family = m.family;
      openings = m.openings;
    } };

    ghost use Rattle.std.specs.Prelude.{IfSome};
    ghost use Rattle.tokei_parts.specs.LineMarks.{AreLineMarks};

    ghost invariant = { λ m. IfSome m.line_marks
        (λ marks. AreLineMarks marks m.begins m.shared) };
}

impl<'t> LanguageMatchers<'t> {
    /// Those of its openers alone.
    pub fn shared(&self) -> &SharedMatchers
        ensures { result.now ≡ self.entry.now.openers }
    {
        &self.shared
    }

    /// The least place of the text at which an opener stands, None where none does.
    pub fn first_in(&self, text: &[u8]) -> Option<usize>
        ensures { result ≡ first_opener self.now.openers text.now }
    {
        self.shared.first_in(text)
    }

    /// Whether an opener stands at the place of the text.
    #[inline(always)]
    pub fn opener_stands(&self, text: &[u8], at: usize) -> bool
        requires { at < length text.now }
        ensures { result ≡ begins_with_one self.now.openers (drop at text.now) }
    {
        self.shared.stands_at(text, at)
    }

    /// What the lines of its texts are searched for, where a look at them by that is quicker than
    /// other searches.
    #[inline(always)]
    pub fn line_marks(&self) -> Option<&LineMarks>
        ensures { IfSome result
            (λ marks. AreLineMarks marks.now self.now.begins self.now.openers) }
    {
        self.line_marks.as_ref()
    }

    /// How texts of the language open children.
    pub fn family(&self) -> Family
        ensures { result ≡ self.now.family }
    {
        self.family
    }

    /// The choice at the front of the text in plain text where no child opens and no escape stands.
    #[inline(always)]
    pub fn opening(&self, text: &[u8]) -> Choice<'t>
        ensures choice { (block : Option Block)
            → choice_of block result ≡ first_opening self.entry.now.openings text.now }
        ensures no_child { result ≢ Choice.ChildOpens }
    {
        self.openings.opening(text)
    }

    /// Whether a choice other than the byte itself, a closer and a child can begin at the byte.
    #[inline(always)]
    pub fn begins(&self, byte: u8) -> bool
        ensures { result ≡ slice_index_or self.now.begins byte false }
    {
        self.begins.has(byte)
    }

    /// The same in a comment.
    #[inline(always)]
    pub fn begins_in_comment(&self, byte: u8) -> bool
        ensures { result ≡ slice_index_or self.now.begins_in_comment byte false }
    {
        self.begins_in_comment.has(byte)
    }

    /// Whether a comment can begin at the byte, one of lines too; of a backslash it may be true.
    #[inline(always)]
    pub fn begins_comment(&self, byte: u8) -> bool
        ensures { result ≡ slice_index_or self.now.begins_comment byte false }
    {
        self.begins_comment.has(byte)
    }

    /// How far, from the place `at` of the text on and no further than `to`, no such choice can
    /// begin in plain text.
    #[inline(always)]
    pub fn plain_end(&self, text: &[u8], at: usize, to: usize) -> usize
        requires order { at ≤ to }
        requires within { to ≤ length text.now }
        ensures low { at ≤ result }
        ensures high { result ≤ to }
        ensures none { (p : ℕ) → at ≤ p → p < result
            → IsOutside self.now.begins (slice_index text.now p) }
    {
        self.begins.clear_end(text, at, to)
    }

    /// The same in a comment whose closer's first byte is `first`, which doesn't stand there
    /// either.
    #[inline(always)]
    pub fn comment_end(&self, first: u8, text: &[u8], at: usize, to: usize) -> usize
        requires order { at ≤ to }
        requires within { to ≤ length text.now }
        ensures low { at ≤ result }
        ensures high { result ≤ to }
        ensures none { (p : ℕ) → at ≤ p → p < result
            → IsOutside self.now.begins_in_comment (slice_index text.now p) }
        ensures open { (p : ℕ) → at ≤ p → p < result → (slice_index text.now p == first) ≡ false }
    {
        self.begins_in_comment.clear_end_with(first, text, at, to)
    }

    /// The same up to the text's end in a comment whose closer begins with these two bytes, where
    /// another choice can begin at the second: then no search stops at the first. It is `at` in any
    /// other language.
    #[inline(always)]
    pub(crate) fn comment_end_by_second(
        &self,
        first: u8,
        second: u8,
        text: &[u8],
        at: usize,
    ) -> usize
        requires { at ≤ length text.now }
        ensures low { at ≤ result }
        ensures high { result ≤ length text.now }
        ensures none { (p : ℕ) → at ≤ p → p < result
            → IsOutside self.now.begins_in_comment (slice_index text.now p) }
        ensures unclosed { (p : ℕ) → at ≤ p → p < result → p + 1 < length text.now
            → slice_index text.now p ≡ first → slice_index text.now (p + 1) ≡ second → ⊥ }
    {
        if !self.begins_in_comment.has(second) {
            return at;
        }
        let end = self.begins_in_comment.clear_end(text, at, text.len());
        if at < end && end < text.len() && text[end - 1] == first && text[end] == second {
            return end - 1;
        }
        end
    }
}

impl<'t> LanguageMatchers<'t> {
    /// The matchers of a language of the table. It fails where memory runs out.
    pub(crate) fn new(
        alloc: Global,
        table: &'t LanguageTable,
        language: LanguageType,
    ) -> Result<LanguageMatchers<'t>, AllocError>
        requires { language < length table.now }
        ensures { IfOk result (λ m. m ≡ matchers_of (row_at table.now language)) }
    {
        let shared = SharedMatchers::new(alloc, table, language)?;
        let syntax = table.syntax(language);
        let begins = beginnings(syntax);
        let begins_in_comment = beginnings_in_comment(syntax);
        let begins_comment = beginnings_of_comments(syntax);
        let family = Family::of_key(syntax.key.as_str());
        let openings = OpeningTable::new(alloc, syntax)?;
        let line_marks = if is_looked_at(syntax, family) {
            line_marks(&begins, &shared)
        } else {
            None
        };
        Ok(LanguageMatchers {
            shared,
            begins,
            begins_in_comment,
            begins_comment,
            family,
            openings,
            line_marks,
        })
    }
}
