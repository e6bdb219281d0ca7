//! The bytes of a source that are read and not used yet.
ghost use Rattle.std.specs.Prelude.{◌≡◌, ◌≢◌, ℕ, ◌+◌, ◌<◌, ◌≤◌, List, [], ◌∷◌, ◌++◌, length, take, drop};
ghost use Rattle.std.specs.Prelude.{IfOk, IfSome, OnErr, slice_index, true, false, ◌⊎◌};
ghost use Rattle.std.specs.Io.KnownBytes.{prepend_known, IsAtEnd};
ghost use Rattle.std.specs.Io.BufRead.{strip_last};
ghost use Rattle.byte_streams.specs.Streams.{Rose, Took};
ghost use Rattle.lift_text.specs.Lines.{HasWholeLine};
ghost use Rattle.lift_text.specs.Front.{Filled, FoundIn, FoundOne, FoundWhole, Gathered, FoundShows};
ghost use Rattle.lift_text.specs.Front.{NoLineFeedBelow, SkippedIn, past_found, past_skipped};

use crate::judge::LINE_LIMIT;
use crate::places::place_of;
use byte_streams::{Source, SourceFault};
use std::alloc::{AllocError, Global};
use std::marker::Model;

/// The most bytes of a line with its end, CR LF.
pub(crate) const LONGEST: usize = LINE_LIMIT + 2;

/// The most bytes that are asked of a source at once.
const LARGEST_READ: usize = 65_536;

/// Room for the front of a line and a largest read after it. So the front of a line is moved to the
/// front of the window once at most.
const SIZE: usize = LONGEST + LARGEST_READ;

/// The most bytes that a reader has taken from its source beyond the line that it has read last.
pub const MOST_AHEAD: usize = SIZE;

/// What came of asking a source for more: bytes, the end of the input, or a byte past the most that
/// may be taken.
#[derive(Clone, Copy)]
pub(crate) enum Fill {
    More,
    End,
    Limit,
}

/// What stands at the front of what is left: a line of some length, which takes `size` bytes with its
/// end; a line that is over long; a line that goes past the most bytes that may be taken; or nothing.
#[derive(Clone, Copy)]
pub(crate) enum Front {
    Line { line: usize, size: usize },
    Long,
    Cut,
    End,
}

/// How a line was skipped: whole, or up to the most bytes that may be taken.
#[derive(Clone, Copy)]
pub(crate) enum Skipped {
    Whole,
    Cut,
}

#[derive(Drop)]
pub(crate) struct Window {
    bytes: Vec<u8>,
    start: usize,
    end: usize,
    quota: usize,
    /// Whether the source has said that it is at its end.
    ended: bool,
}

impl Model for Window {
    ghost use Rattle.std.specs.Prelude.{◌≡◌, ◌-◌, ◌≤◌, slice_range, vec_len};
    ghost use Rattle.lift_text.specs.Window.{WindowState};

    ghost Value = { WindowState };

    ghost view = { λ w. record {
      unread = slice_range w.bytes.items w.start w.end;
      quota = w.quota;
      room = 69634 - w.end;
      ended = w.ended;
    } };

    ghost invariant = { λ w. (w.start ≤ w.end) × (w.end ≤ 69634) × (vec_len w.bytes ≡ 69634) };
}

impl Window {
    /// A window that takes at most `quota` bytes.
    pub(crate) fn new(alloc: Global, quota: usize) -> Result<Window, AllocError>
        ensures empty { IfOk result (λ window. window.unread ≡ []) }
        ensures quota { IfOk result (λ window. window.quota ≡ quota) }
        ensures ended { IfOk result (λ window. window.ended ≡ false) }
    {
        Ok(Window {
            bytes: vec![in alloc; 0; SIZE]?,
            start: 0,
            end: 0,
            quota,
            ended: false,
        })
    }

    pub(crate) fn unread(&self) -> &[u8]
        ensures value { result.now ≡ self.now.unread }
        ensures few { length self.now.unread ≤ MOST_AHEAD }
    {
        &self.bytes[self.start..self.end]
    }

    pub(crate) fn consume(&mut self, count: usize)
        requires { count ≤ length self.old.unread }
        ensures unread { self.new.unread ≡ drop count self.old.unread }
        ensures quota { self.new.quota ≡ self.old.quota }
        ensures ended { self.new.ended ≡ self.old.ended }
    {
        self.start += count;
    }

    /// Moves the unread bytes to the front where there is little room after them.
    fn make_room(&mut self)
        requires { length self.old.unread < 4098 }
        ensures unread { self.new.unread ≡ self.old.unread }
        ensures quota { self.new.quota ≡ self.old.quota }
        ensures ended { self.new.ended ≡ self.old.ended }
        ensures room { 0 < self.new.room }
    {
        if SIZE - self.end < LONGEST {
            let (start, end) = (self.start, self.end);
            self.bytes.copy_within(start..end, 0);
            self.start = 0;
            self.end = end - start;
        }
    }

    /// Appends what is read to the unread bytes.
    fn read_more<S: Source>(&mut self, source: &mut S) -> Result<usize, SourceFault>
        requires room { 0 < self.old.room }
        requires quota { 0 < self.old.quota }
        ensures ok { IfOk result (λ count. (more : List ℕ) × (length more ≡ count)
            × (self.new.unread ≡ self.old.unread ++ more)
            × (S.left source.old ≡ prepend_known more (S.left source.new))) }
        ensures quota { IfOk result (λ count. self.new.quota + count ≡ self.old.quota) }
        ensures end { IfOk result (λ count. count ≡ 0 → IsAtEnd (S.left source.new)) }
        ensures ended { self.new.ended ≡ self.old.ended }
        ensures err { OnErr result ((self.new.unread ≡ self.old.unread) × (self.new.quota ≡ self.old.quota)
            × (S.left source.new ≡ S.left source.old)) }
        ensures counted { S.faults source.old ≤ S.faults source.new }
        ensures fault { OnErr result (Rose (S.faults source.old) (S.faults source.new)) }
    {
        let end = self.end;
        let most = (SIZE - end).min(LARGEST_READ).min(self.quota);
        let count = source.read(&mut self.bytes[end..end + most])?;
        self.end = end + count;
        self.quota -= count;
        Ok(count)
    }

    /// Asks the source for more after the unread bytes, of which there are too few to be a longest line.
    fn ask<S: Source>(&mut self, source: &mut S) -> Result<Fill, SourceFault>
        requires { length self.old.unread < 4098 }
        ensures more { result ≡ Ok Fill.More → (more : List ℕ) × (0 < length more)
            × (self.new.unread ≡ self.old.unread ++ more)
            × (S.left source.old ≡ prepend_known more (S.left source.new)) }
        ensures quota { self.new.quota + length self.new.unread
            ≡ self.old.quota + length self.old.unread }
        ensures less { result ≡ Ok Fill.More → self.new.quota < self.old.quota }
        ensures kept { result ≢ Ok Fill.More → self.new.unread ≡ self.old.unread }
        ensures ok { IfOk result (λ fill. Filled fill (S.left source.old) (S.left source.new)) }
        ensures limit { result ≡ Ok Fill.Limit → self.new.quota ≡ 0 }
        ensures ended { self.new.ended ≡ self.old.ended }
        ensures err { OnErr result (S.left source.new ≡ S.left source.old) }
        ensures counted { S.faults source.old ≤ S.faults source.new }
        ensures fault { OnErr result (Rose (S.faults source.old) (S.faults source.new)) }
    {
        if self.quota == 0 {
            return probe(source);
        }
        self.make_room();
        if self.read_more(source)? == 0 {
            Ok(Fill::End)
        } else {
            Ok(Fill::More)
        }
    }

    /// Reads more after the unread bytes, of which there are too few to be a longest line. A source that has
    /// said that it is at its end is not asked again.
    fn fill<S: Source>(&mut self, source: &mut S) -> Result<Fill, SourceFault>
        requires few { length self.old.unread < 4098 }
        requires at_end { self.old.ended ≡ true → IsAtEnd (S.left source.old) }
        ensures more { result ≡ Ok Fill.More → (more : List ℕ) × (0 < length more)
            × (self.new.unread ≡ self.old.unread ++ more)
            × (S.left source.old ≡ prepend_known more (S.left source.new)) }
        ensures quota { self.new.quota + length self.new.unread
            ≡ self.old.quota + length self.old.unread }
        ensures less { result ≡ Ok Fill.More → self.new.quota < self.old.quota }
        ensures kept { result ≢ Ok Fill.More → self.new.unread ≡ self.old.unread }
        ensures ok { IfOk result (λ fill. Filled fill (S.left source.old) (S.left source.new)) }
        ensures limit { result ≡ Ok Fill.Limit → self.new.quota ≡ 0 }
        ensures at_end { self.new.ended ≡ true → IsAtEnd (S.left source.new) }
        ensures stays_ended { self.old.ended ≡ true → (self.new.ended ≡ true) × (source.new ≡ source.old) }
        ensures ended { result ≡ Ok Fill.End → self.new.ended ≡ true }
        ensures not_ended { result ≢ Ok Fill.End → self.new.ended ≡ false }
        ensures err { OnErr result (S.left source.new ≡ S.left source.old) }
        ensures counted { S.faults source.old ≤ S.faults source.new }
        ensures fault { OnErr result (Rose (S.faults source.old) (S.faults source.new)) }
    {
        if self.ended {
            return Ok(Fill::End);
        }
        match self.ask(source)? {
            Fill::More => Ok(Fill::More),
            Fill::End => {
                self.ended = true;
                Ok(Fill::End)
            }
            Fill::Limit => Ok(Fill::Limit),
        }
    }

    /// Finds what stands at the front of what is left.
    pub(crate) fn find<S: Source>(&mut self, source: &mut S) -> Result<Front, SourceFault>
        requires at_end { self.old.ended ≡ true → IsAtEnd (S.left source.old) }
        ensures ok { IfOk result (λ found. FoundIn found (prepend_known self.old.unread (S.left source.old))
            self.new.unread (S.left source.new) self.new.quota) }
        ensures quota { self.new.quota + length self.new.unread
            ≡ self.old.quota + length self.old.unread }
        ensures taken { (taken : List ℕ) × Gathered (past_found result) self.old.quota self.new.quota
            self.old.unread self.new.unread taken (S.left source.old) (S.left source.new) }
        ensures shows { IfOk result (λ found. FoundShows found self.new.unread self.new.ended) }
        ensures at_end { self.new.ended ≡ true → IsAtEnd (S.left source.new) }
        ensures stays_ended { self.old.ended ≡ true → (self.new.ended ≡ true) × (source.new ≡ source.old) }
        ensures ended { result ≡ Ok Front.End → self.new.ended ≡ true }
        ensures not_ended { OnErr result (self.new.ended ≡ false) }
        ensures unasked { HasWholeLine self.old.unread → (source.new ≡ source.old)
            × (self.new.unread ≡ self.old.unread) × FoundWhole result self.new.unread }
        ensures one { IfOk result (λ found. FoundOne found self.new.unread) }
        ensures none { OnErr result (¬ HasWholeLine self.new.unread) }
        ensures counted { S.faults source.old ≤ S.faults source.new }
        ensures fault { OnErr result (Rose (S.faults source.old) (S.faults source.new)) }
    {
        let mut searched = 0;
        'search: loop {
            let place = self.line_feed_from(searched);
            if place < self.len() {
                return Ok(Front::Line {
                    line: self.line_before(place),
                    size: place + 1,
                });
            }
            searched = place;
            if searched >= LONGEST {
                return Ok(Front::Long);
            }
            match self.fill(source)? {
                Fill::More => {}
                Fill::End => return Ok(last_found(searched)),
                Fill::Limit => return Ok(Front::Cut),
            }
        }
    }

    /// Passes over the line at the front, however long it is.
    pub(crate) fn skip_line<S: Source>(&mut self, source: &mut S) -> Result<Skipped, SourceFault>
        requires some { 0 < length self.old.unread }
        requires at_end { self.old.ended ≡ true → IsAtEnd (S.left source.old) }
        ensures ok { IfOk result (λ skipped. SkippedIn skipped (prepend_known self.old.unread (S.left source.old))
            (self.old.quota + length self.old.unread) self.new.unread (S.left source.new) self.new.quota) }
        ensures less { self.new.quota + length self.new.unread
            ≤ self.old.quota + length self.old.unread }
        ensures one { result ≡ Ok Skipped.Whole
            → self.new.quota + length self.new.unread < self.old.quota + length self.old.unread }
        ensures taken { (taken : List ℕ) × Took (past_skipped result) self.old.quota self.new.quota taken
            (S.left source.old) (S.left source.new)
            × OnErr result (¬ HasWholeLine (self.old.unread ++ taken)) }
        ensures line_feed { result ≡ Ok Skipped.Whole
            → IfSome (prepend_known self.old.unread (S.left source.old)) HasWholeLine ⊎ (self.new.ended ≡ true) }
        ensures at_end { self.new.ended ≡ true → IsAtEnd (S.left source.new) }
        ensures stays_ended { self.old.ended ≡ true → (self.new.ended ≡ true) × (source.new ≡ source.old) }
        ensures not_ended { OnErr result (self.new.ended ≡ false) }
        ensures counted { S.faults source.old ≤ S.faults source.new }
        ensures fault { OnErr result (Rose (S.faults source.old) (S.faults source.new)) }
    {
        'skip: loop {
            let place = self.line_feed_from(0);
            let len = self.len();
            if place < len {
                self.consume(place + 1);
                return Ok(Skipped::Whole);
            }
            self.consume(len);
            match self.fill(source)? {
                Fill::More => {}
                Fill::End => return Ok(Skipped::Whole),
                Fill::Limit => return Ok(Skipped::Cut),
            }
        }
    }

    fn len(&self) -> usize
        ensures { result ≡ length self.now.unread }
    {
        self.unread().len()
    }

    /// The place of the first LF, or the length where there is none, where the bytes up to `searched`
    /// have none.
    fn line_feed_from(&self, searched: usize) -> usize
        requires within { searched ≤ length self.now.unread }
        requires none { NoLineFeedBelow self.now.unread searched }
        ensures within { result ≤ length self.now.unread }
        ensures none { NoLineFeedBelow self.now.unread result }
        ensures found { result < length self.now.unread → slice_index self.now.unread result ≡ 10 }
    {
        searched + place_of(b'\n', &self.unread()[searched..])
    }

    /// The length of the line before the LF at this place.
    fn line_before(&self, place: usize) -> usize
        requires { place ≤ length self.now.unread }
        ensures front { take result (take place self.now.unread) ≡ strip_last 13
            (take place self.now.unread) }
        ensures within { result ≤ place }
    {
        length_without_cr(&self.unread()[..place])
    }
}

/// What comes before the end of the input, if it has no LF.
fn last_found(length: usize) -> Front
    ensures none { length ≡ 0 → result ≡ Front.End }
    ensures line { 0 < length → result ≡ Front.Line length length }
{
    if length == 0 {
        Front::End
    } else {
        Front::Line {
            line: length,
            size: length,
        }
    }
}

/// Whether a source has a byte left.
fn probe<S: Source>(source: &mut S) -> Result<Fill, SourceFault>
    ensures ok { IfOk result (λ fill. Filled fill (S.left source.old) (S.left source.new)) }
    ensures none { IfOk result (λ fill. fill ≢ Fill.More) }
    ensures err { OnErr result (S.left source.new ≡ S.left source.old) }
    ensures counted { S.faults source.old ≤ S.faults source.new }
    ensures fault { OnErr result (Rose (S.faults source.old) (S.faults source.new)) }
{
    let mut byte = [0];
    if source.read(&mut byte)? == 0 {
        Ok(Fill::End)
    } else {
        Ok(Fill::Limit)
    }
}

/// The length of a line without a CR at its end.
fn length_without_cr(line: &[u8]) -> usize
    ensures front { take result line.now ≡ strip_last 13 line.now }
    ensures within { result ≤ length line.now }
{
    match line.last() {
        Some(b'\r') => line.len() - 1,
        _ => line.len(),
    }
}
