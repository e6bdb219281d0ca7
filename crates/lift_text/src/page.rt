//! The line of a text that is being read, and what is read of the text after it.
ghost use Rattle.std.specs.Prelude.{◌≡◌, ◌≢◌, ℕ, ◌+◌, ◌<◌, ◌≤◌, List, [], ◌∷◌, ◌++◌, Some, None, true, false};
ghost use Rattle.std.specs.Prelude.{length, take, drop, IfOk, IfErr, IfSome, OnOk, OnErr, IsErrOf};
ghost use Rattle.byte_streams.specs.Streams.{Rose};
ghost use Rattle.lift_text.specs.Page.{IfBad, step_of};

use crate::codes::TextCode;
use crate::faults::{RawLine, TextFault};
use crate::judge::{Flaw, LINE_LIMIT, judge};
use crate::window::{Front, LONGEST, MOST_AHEAD, Skipped, Window};
use crate::words::Span;
use byte_streams::{Source, SourceFault};
use std::alloc::{AllocError, Global};
use std::marker::Model;

/// The most bytes that are read of a text.
pub const TEXT_LIMIT: usize = 67_108_864;

/// More lines than a text can have: each has a byte at least.
pub const LINE_COUNT_BOUND: u64 = 67_108_865;

/// More than half as many words as a longest line has bytes.
const MOST_WORDS: usize = 2_049;

/// What one line turned out to be.
#[derive(Clone, Copy)]
pub(crate) enum Step {
    WithWords,
    Blank,
    AtEnd,
}

/// The current line stands at the front of the window, where it takes `size` bytes with its end.
#[derive(Drop)]
pub(crate) struct Page {
    window: Window,
    line: u64,
    size: usize,
    raw: usize,
    spans: Vec<Span>,
    failure: Option<TextFault>,
}

impl Model for Page {
    ghost use Rattle.std.specs.Prelude.{take, drop, vec_len, vec_capacity};
    ghost use Rattle.lift_text.specs.Words.{parts_of};
    ghost use Rattle.lift_text.specs.Page.{PageState, IsPage};

    ghost Value = { PageState };

    ghost view = { λ p. record {
      current = take p.size p.window.unread;
      unread = drop p.size p.window.unread;
      quota = p.window.quota;
      line = p.line;
      words = parts_of p.window.unread p.spans.items;
      raw = take p.raw p.window.unread;
      failure = p.failure;
      ended = p.window.ended;
    } };

    ghost invariant = { λ p. IsPage p.window p.size p.raw p.line (vec_len p.spans)
        (vec_capacity p.spans) p.spans.items };
}

impl Page {
    ghost use Rattle.std.specs.Prelude.{◌≡◌, ◌≢◌, ℕ, ◌+◌, ◌-◌, ◌<◌, ◌≤◌, List, [], ◌∷◌, ◌++◌, Some, None, true};
    ghost use Rattle.std.specs.Prelude.{false, length, take, drop, IfOk, IfErr, IfSome, OnOk, OnErr, IsErrOf};
    ghost use Rattle.std.specs.Prelude.{slice_index_or};
    ghost use Rattle.std.specs.Io.KnownBytes.{IsAtEnd};
    ghost use Rattle.byte_streams.specs.Streams.{Rose, Took};
    ghost use Rattle.lift_text.specs.Lines.{pieces_of, HasWholeLine};
    ghost use Rattle.lift_text.specs.Front.{IsWholeLine, past_found};
    ghost use Rattle.lift_text.specs.Reading.{NextLine, NextRaw, BadLineShows, HasWholeAnswer, StoppedBehind};
    ghost use Rattle.lift_text.specs.Reading.{lines_counted, past_quota, HaveLineFeeds};
    ghost use Rattle.lift_text.specs.Page.{text_at, limit_of, Advanced, CurrentOne, CurrentWhole, Forward};
    ghost use Rattle.lift_text.specs.Page.{IfBad, JudgedAs, LineEnds, PageTook, ReadLine, SkippedLine};
    ghost use Rattle.lift_text.specs.Page.{StepEnds};

    /// A page before the first line.
    pub(crate) fn new(alloc: Global) -> Result<Page, AllocError>
        ensures unread { IfOk result (λ page. page.unread ≡ []) }
        ensures quota { IfOk result (λ page. page.quota ≡ TEXT_LIMIT) }
        ensures line { IfOk result (λ page. page.line ≡ 0) }
        ensures words { IfOk result (λ page. page.words ≡ []) }
        ensures raw { IfOk result (λ page. page.raw ≡ []) }
        ensures failure { IfOk result (λ page. page.failure ≡ None) }
        ensures ended { IfOk result (λ page. page.ended ≡ false) }
    {
        let window = Window::new(alloc, TEXT_LIMIT)?;
        let spans = Vec::with_capacity(alloc, MOST_WORDS)?;
        Ok(Page {
            window,
            line: 0,
            size: 0,
            raw: 0,
            spans,
            failure: None,
        })
    }

    /// How many bytes were taken from the source beyond the current line.
    pub(crate) fn ahead(&self) -> usize
        ensures value { result ≡ length self.now.unread }
        ensures few { length self.now.unread ≤ MOST_AHEAD }
    {
        self.window.unread().len() - self.size
    }

    /// Passes over the current line.
    fn clear(&mut self)
        ensures { self.new ≡ record self.old { current = []; words = []; raw = [] } }
    {
        self.window.consume(self.size);
        self.size = 0;
        self.raw = 0;
        self.spans.clear();
    }

    /// Goes on to the next line, where the line before was passed over.
    fn advance<S: Source>(&mut self, source: &mut S) -> Result<Front, SourceFault>
        requires current { self.old.current ≡ [] }
        requires words { self.old.words ≡ [] }
        requires raw { self.old.raw ≡ [] }
        requires at_end { self.old.ended ≡ true → IsAtEnd (S.left source.old) }
        ensures words { self.new.words ≡ [] }
        ensures raw { self.new.raw ≡ [] }
        ensures failure { self.new.failure ≡ self.old.failure }
        ensures ok { IfOk result (λ found. Advanced found (text_at self.old (S.left source.old)) self.new.current
            (text_at self.new (S.left source.new))) }
        ensures forward { IfOk result (λ found. Forward found self.old self.new) }
        ensures taken { (taken : List ℕ) × PageTook (past_found result) self.old self.new taken
            (S.left source.old) (S.left source.new) }
        ensures shows { IfOk result (λ found. LineEnds found self.new) }
        ensures unasked { HasWholeLine self.old.unread → (source.new ≡ source.old)
            × (self.old.unread ≡ self.new.current ++ self.new.unread) × CurrentWhole result self.new.current }
        ensures one { IfOk result (λ found. CurrentOne found self.new.current) }
        ensures none { OnErr result ((self.new.line ≡ self.old.line)
            × (¬ HasWholeLine (self.new.current ++ self.new.unread))) }
        ensures end { result ≡ Ok Front.End → IsAtEnd (S.left source.new) }
        ensures at_end { self.new.ended ≡ true → IsAtEnd (S.left source.new) }
        ensures stays_ended { self.old.ended ≡ true → (self.new.ended ≡ true) × (source.new ≡ source.old) }
        ensures ended { result ≡ Ok Front.End → self.new.ended ≡ true }
        ensures not_ended { OnErr result (self.new.ended ≡ false) }
        ensures counted { S.faults source.old ≤ S.faults source.new }
        ensures fault { OnErr result (Rose (S.faults source.old) (S.faults source.new)) }
    {
        let found = self.window.find(source)?;
        if let Front::Line { size, .. } = found {
            self.size = size;
            self.line += 1;
        }
        Ok(found)
    }

    /// Finds the words of the current line, which has this many bytes without its end.
    fn judge_line(&mut self, count: usize) -> Result<Step, TextFault>
        requires within { count ≤ length self.old.current }
        requires words { self.old.words ≡ [] }
        ensures judged { JudgedAs self.old.line
            (take count self.old.current) result self.new.words }
        ensures some { result ≡ Ok Step.WithWords → 0 < length self.new.words }
        ensures bad { IfErr result (λ fault. IfBad fault (λ line. self.new.line ≡ line)) }
        ensures same { self.new ≡ record self.old { words = self.new.words } }
    {
        let judgement = judge(&self.window.unread()[..count], &mut self.spans);
        step_of(self.line, judgement)
    }

    /// Reads the next line, where the line before was passed over.
    fn read_line<S: Source>(&mut self, source: &mut S) -> Result<Step, TextFault>
        requires current { self.old.current ≡ [] }
        requires words { self.old.words ≡ [] }
        requires raw { self.old.raw ≡ [] }
        requires at_end { self.old.ended ≡ true → IsAtEnd (S.left source.old) }
        ensures ok { ReadLine (text_at self.old (S.left source.old)) result self.new.words
            (text_at self.new (S.left source.new)) }
        ensures words { result ≢ Ok Step.WithWords → self.new.words ≡ [] }
        ensures some { result ≡ Ok Step.WithWords → 0 < length self.new.words }
        ensures end { result ≡ Ok Step.AtEnd → IsAtEnd (S.left source.new) }
        ensures at_end { self.new.ended ≡ true → IsAtEnd (S.left source.new) }
        ensures stays_ended { self.old.ended ≡ true → (self.new.ended ≡ true) × (source.new ≡ source.old) }
        ensures ended { result ≡ Ok Step.AtEnd → self.new.ended ≡ true }
        ensures not_ended { IsErrOf result TextFault.Read → self.new.ended ≡ false }
        ensures less { result ≡ Ok Step.Blank → limit_of self.new < limit_of self.old }
        ensures taken { (taken : List ℕ) × PageTook (past_quota None result) self.old self.new taken
            (S.left source.old) (S.left source.new) }
        ensures shows { StepEnds result self.old self.new }
        ensures unasked { HasWholeLine self.old.unread → (source.new ≡ source.old)
            × (self.old.unread ≡ self.new.current ++ self.new.unread) × IsWholeLine self.new.current }
        ensures bad { IfErr result (λ fault. IfBad fault (λ line. self.new.line ≡ line)) }
        ensures raw { self.new.raw ≡ [] }
        ensures failure { self.new.failure ≡ self.old.failure }
        ensures read { IsErrOf result TextFault.Read
            → Rose (S.faults source.old) (S.faults source.new) }
        ensures no_memory { result ≢ Err TextFault.NoMemory }
        ensures counted { S.faults source.old ≤ S.faults source.new }
    {
        match self.advance(source) {
            Ok(Front::Line { line, .. }) => self.judge_line(line),
            Ok(Front::Long) => {
                self.size += LONGEST;
                self.line += 1;
                Err(TextFault::Bad {
                    line: self.line,
                    code: TextCode::OverLong,
                })
            }
            Ok(Front::Cut) => Err(TextFault::TooLong),
            Ok(Front::End) => Ok(Step::AtEnd),
            Err(SourceFault) => Err(TextFault::Read),
        }
    }

    /// Reads the next line that has a word, and answers false at the end of the text.
    fn read_on<S: Source>(&mut self, source: &mut S) -> Result<bool, TextFault>
        requires at_end { self.old.ended ≡ true → IsAtEnd (S.left source.old) }
        ensures next { NextLine (text_at self.old (S.left source.old)) result self.new.words self.new.line
            (text_at self.new (S.left source.new)) }
        ensures words { result ≢ Ok true → self.new.words ≡ [] }
        ensures some { result ≡ Ok true → 0 < length self.new.words }
        ensures end { result ≡ Ok false → IsAtEnd (S.left source.new) }
        ensures at_end { self.new.ended ≡ true → IsAtEnd (S.left source.new) }
        ensures stays_ended { self.old.ended ≡ true → (self.new.ended ≡ true) × (source.new ≡ source.old) }
        ensures ended { result ≡ Ok false → self.new.ended ≡ true }
        ensures not_ended { IsErrOf result TextFault.Read → self.new.ended ≡ false }
        ensures line_feeds { OnOk result (HaveLineFeeds (text_at self.old (S.left source.old))
            (self.new.line - self.old.line) self.new.ended) }
        ensures taken { (taken : List ℕ) × Took (past_quota None result) self.old.quota self.new.quota taken
            (S.left source.old) (S.left source.new)
            × BadLineShows None result self.old.line (self.old.unread ++ taken) (S.left source.new)
            × (IsErrOf result TextFault.Read
            → StoppedBehind self.old.line self.new.line (self.old.unread ++ taken)) }
        ensures unasked { HasWholeAnswer (pieces_of self.old.unread) → source.new ≡ source.old }
        ensures raw { self.new.raw ≡ [] }
        ensures failure { self.new.failure ≡ self.old.failure }
        ensures read { IsErrOf result TextFault.Read
            → Rose (S.faults source.old) (S.faults source.new) }
        ensures no_memory { result ≢ Err TextFault.NoMemory }
        ensures counted { S.faults source.old ≤ S.faults source.new }
    {
        'lines: loop {
            self.clear();
            match self.read_line(source)? {
                Step::WithWords => return Ok(true),
                Step::AtEnd => return Ok(false),
                Step::Blank => {}
            }
        }
    }

    /// Reads the next line that has a word, and answers false at the end of the text. An `Err` is
    /// answered from then on.
    pub(crate) fn next_line<S: Source>(&mut self, source: &mut S) -> Result<bool, TextFault>
        requires at_end { self.old.ended ≡ true → IsAtEnd (S.left source.old) }
        ensures next { self.old.failure ≡ None → NextLine (text_at self.old (S.left source.old)) result self.new.words
            self.new.line (text_at self.new (S.left source.new)) }
        ensures again { IfSome self.old.failure (λ fault. result ≡ Err fault) }
        ensures words { result ≢ Ok true → self.new.words ≡ [] }
        ensures some { result ≡ Ok true → 0 < length self.new.words }
        ensures end { result ≡ Ok false → IsAtEnd (S.left source.new) }
        ensures at_end { self.new.ended ≡ true → IsAtEnd (S.left source.new) }
        ensures stays_ended { self.old.ended ≡ true → (self.new.ended ≡ true) × (source.new ≡ source.old) }
        ensures ended { result ≡ Ok false → self.new.ended ≡ true }
        ensures not_ended { self.old.failure ≡ None → IsErrOf result TextFault.Read → self.new.ended ≡ false }
        ensures line_feeds { OnOk result (HaveLineFeeds (text_at self.old (S.left source.old))
            (self.new.line - self.old.line) self.new.ended) }
        ensures taken { (taken : List ℕ) × Took (past_quota self.old.failure result) self.old.quota self.new.quota taken
            (S.left source.old) (S.left source.new)
            × IfSome self.old.failure (λ _. taken ≡ [])
            × BadLineShows self.old.failure result self.old.line (self.old.unread ++ taken) (S.left source.new)
            × (self.old.failure ≡ None → IsErrOf result TextFault.Read
            → StoppedBehind self.old.line self.new.line (self.old.unread ++ taken)) }
        ensures unasked { HasWholeAnswer (pieces_of self.old.unread) → source.new ≡ source.old }
        ensures again_line { IfSome self.old.failure (λ _. self.new.line ≡ self.old.line) }
        ensures raw { self.new.raw ≡ [] }
        ensures ok { OnOk result (self.new.failure ≡ None) }
        ensures err { IfErr result (λ fault. self.new.failure ≡ Some fault) }
        ensures read { self.old.failure ≡ None → IsErrOf result TextFault.Read
            → Rose (S.faults source.old) (S.faults source.new) }
        ensures no_memory { self.old.failure ≡ None → result ≢ Err TextFault.NoMemory }
        ensures counted { S.faults source.old ≤ S.faults source.new }
    {
        self.clear();
        if let Some(fault) = self.failure {
            return Err(fault);
        }
        let result = self.read_on(source);
        if let Err(fault) = &result {
            self.failure = Some(*fault);
        }
        result
    }

    /// Keeps the current line as it stands, which has this many bytes without its end, if it is not
    /// over long.
    fn keep_raw(&mut self, count: usize) -> RawLine
        requires { count ≤ length self.old.current }
        ensures line { count ≤ 4096 → (result ≡ RawLine.Line)
            × (self.new ≡ record self.old { raw = take count self.old.current }) }
        ensures long { 4096 < count → (result ≡ RawLine.Long) × (self.new ≡ self.old) }
        ensures ended { self.new.ended ≡ self.old.ended }
        ensures end { result ≢ RawLine.End }
    {
        if count > LINE_LIMIT {
            return RawLine::Long;
        }
        self.raw = count;
        RawLine::Line
    }

    /// Passes over an over-long line.
    fn skip_long<S: Source>(&mut self, source: &mut S) -> Result<RawLine, TextFault>
        requires some { 0 < length self.old.unread }
        requires current { self.old.current ≡ [] }
        requires words { self.old.words ≡ [] }
        requires raw { self.old.raw ≡ [] }
        requires at_end { self.old.ended ≡ true → IsAtEnd (S.left source.old) }
        ensures skipped { SkippedLine (text_at self.old (S.left source.old)) result
            (text_at self.new (S.left source.new)) }
        ensures at_end { self.new.ended ≡ true → IsAtEnd (S.left source.new) }
        ensures stays_ended { self.old.ended ≡ true → (self.new.ended ≡ true) × (source.new ≡ source.old) }
        ensures not_ended { IsErrOf result TextFault.Read → self.new.ended ≡ false }
        ensures line_feed { OnOk result
            (HaveLineFeeds (text_at self.old (S.left source.old)) 1 self.new.ended) }
        ensures taken { (taken : List ℕ) × Took (past_quota None result) self.old.quota self.new.quota taken
            (S.left source.old) (S.left source.new)
            × (IsErrOf result TextFault.Read → ¬ HasWholeLine (self.old.unread ++ taken)) }
        ensures line { self.new.line ≡ self.old.line + lines_counted result }
        ensures no_memory { result ≢ Err TextFault.NoMemory }
        ensures words { self.new.words ≡ [] }
        ensures raw { self.new.raw ≡ [] }
        ensures failure { self.new.failure ≡ self.old.failure }
        ensures read { IsErrOf result TextFault.Read
            → Rose (S.faults source.old) (S.faults source.new) }
        ensures counted { S.faults source.old ≤ S.faults source.new }
    {
        match self.window.skip_line(source) {
            Ok(Skipped::Whole) => {
                self.line += 1;
                Ok(RawLine::Long)
            }
            Ok(Skipped::Cut) => Err(TextFault::TooLong),
            Err(SourceFault) => Err(TextFault::Read),
        }
    }

    /// Reads the next line as it stands, where the line before was passed over.
    fn read_raw<S: Source>(&mut self, source: &mut S) -> Result<RawLine, TextFault>
        requires current { self.old.current ≡ [] }
        requires words { self.old.words ≡ [] }
        requires raw { self.old.raw ≡ [] }
        requires at_end { self.old.ended ≡ true → IsAtEnd (S.left source.old) }
        ensures next { NextRaw (text_at self.old (S.left source.old)) result self.new.raw
            (text_at self.new (S.left source.new)) }
        ensures raw { result ≢ Ok RawLine.Line → self.new.raw ≡ [] }
        ensures end { result ≡ Ok RawLine.End → IsAtEnd (S.left source.new) }
        ensures at_end { self.new.ended ≡ true → IsAtEnd (S.left source.new) }
        ensures stays_ended { self.old.ended ≡ true → (self.new.ended ≡ true) × (source.new ≡ source.old) }
        ensures ended { result ≡ Ok RawLine.End → self.new.ended ≡ true }
        ensures not_ended { IsErrOf result TextFault.Read → self.new.ended ≡ false }
        ensures line_feed { OnOk result
            (HaveLineFeeds (text_at self.old (S.left source.old)) 1 self.new.ended) }
        ensures taken { (taken : List ℕ) × Took (past_quota None result) self.old.quota self.new.quota taken
            (S.left source.old) (S.left source.new)
            × (IsErrOf result TextFault.Read → ¬ HasWholeLine (self.old.unread ++ taken)) }
        ensures unasked { HasWholeLine self.old.unread → source.new ≡ source.old }
        ensures line { self.new.line ≡ self.old.line + lines_counted result }
        ensures no_memory { result ≢ Err TextFault.NoMemory }
        ensures words { self.new.words ≡ [] }
        ensures failure { self.new.failure ≡ self.old.failure }
        ensures read { IsErrOf result TextFault.Read
            → Rose (S.faults source.old) (S.faults source.new) }
        ensures counted { S.faults source.old ≤ S.faults source.new }
    {
        match self.advance(source) {
            Ok(Front::Line { line, .. }) => Ok(self.keep_raw(line)),
            Ok(Front::Long) => self.skip_long(source),
            Ok(Front::Cut) => Err(TextFault::TooLong),
            Ok(Front::End) => Ok(RawLine::End),
            Err(SourceFault) => Err(TextFault::Read),
        }
    }

    /// Reads the next line as it stands. An `Err` is answered from then on.
    pub(crate) fn raw_line<S: Source>(&mut self, source: &mut S) -> Result<RawLine, TextFault>
        requires at_end { self.old.ended ≡ true → IsAtEnd (S.left source.old) }
        ensures next { self.old.failure ≡ None → NextRaw (text_at self.old (S.left source.old)) result self.new.raw
            (text_at self.new (S.left source.new)) }
        ensures again { IfSome self.old.failure (λ fault. result ≡ Err fault) }
        ensures raw { result ≢ Ok RawLine.Line → self.new.raw ≡ [] }
        ensures end { result ≡ Ok RawLine.End → IsAtEnd (S.left source.new) }
        ensures at_end { self.new.ended ≡ true → IsAtEnd (S.left source.new) }
        ensures stays_ended { self.old.ended ≡ true → (self.new.ended ≡ true) × (source.new ≡ source.old) }
        ensures ended { result ≡ Ok RawLine.End → self.new.ended ≡ true }
        ensures not_ended { self.old.failure ≡ None → IsErrOf result TextFault.Read → self.new.ended ≡ false }
        ensures line_feed { OnOk result
            (HaveLineFeeds (text_at self.old (S.left source.old)) 1 self.new.ended) }
        ensures taken { (taken : List ℕ) × Took (past_quota self.old.failure result) self.old.quota self.new.quota taken
            (S.left source.old) (S.left source.new)
            × IfSome self.old.failure (λ _. taken ≡ [])
            × (self.old.failure ≡ None → IsErrOf result TextFault.Read
            → ¬ HasWholeLine (self.old.unread ++ taken)) }
        ensures unasked { HasWholeLine self.old.unread → source.new ≡ source.old }
        ensures line { self.new.line ≡ self.old.line + lines_counted result }
        ensures no_memory { self.old.failure ≡ None → result ≢ Err TextFault.NoMemory }
        ensures words { self.new.words ≡ [] }
        ensures ok { OnOk result (self.new.failure ≡ None) }
        ensures err { IfErr result (λ fault. self.new.failure ≡ Some fault) }
        ensures read { self.old.failure ≡ None → IsErrOf result TextFault.Read
            → Rose (S.faults source.old) (S.faults source.new) }
        ensures counted { S.faults source.old ≤ S.faults source.new }
    {
        self.clear();
        if let Some(fault) = self.failure {
            return Err(fault);
        }
        let result = self.read_raw(source);
        if let Err(fault) = &result {
            self.failure = Some(*fault);
        }
        result
    }

    /// The number of lines read so far.
    pub(crate) fn line(&self) -> u64
        ensures value { result ≡ self.now.line }
        ensures bound { result ≤ TEXT_LIMIT }
    {
        self.line
    }

    /// The number of words of the current line.
    pub(crate) fn words(&self) -> u32
        ensures { result ≡ length self.now.words }
    {
        self.spans.len() as u32
    }

    /// A word of the current line.
    pub(crate) fn word(&self, k: u32) -> &[u8]
        requires { k < length self.now.words }
        ensures { result.now ≡ slice_index_or self.now.words k [] }
    {
        let span = self.spans[k as usize];
        &self.window.unread()[span.start..span.end]
    }

    /// The current line as it stands.
    pub(crate) fn raw(&self) -> &[u8]
        ensures { result.now ≡ self.now.raw }
    {
        &self.window.unread()[..self.raw]
    }
}

/// The step that a judgement makes of the line with this number.
fn step_of(line: u64, judgement: Result<bool, Flaw>) -> Result<Step, TextFault>
    ensures value { result ≡ step_of line judgement }
    ensures bad { IfErr result (λ fault. IfBad fault (λ number. line ≡ number)) }
{
    match judgement {
        Ok(true) => Ok(Step::WithWords),
        Ok(false) => Ok(Step::Blank),
        Err(flaw) => Err(TextFault::Bad {
            line,
            code: flaw.code(),
        }),
    }
}
