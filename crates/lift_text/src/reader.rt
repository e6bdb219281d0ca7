//! Reading a text line by line.
ghost use Rattle.std.specs.Prelude.{◌≡◌, ◌≢◌, ℕ, ◌+◌, ◌-◌, ◌<◌, ◌≤◌, List, [], ◌++◌, Some, None, true};
ghost use Rattle.std.specs.Prelude.{false};
ghost use Rattle.std.specs.Prelude.{length, IfOk, IfErr, IfSome, OnOk, IsErrOf, option_map, slice_index_or};
ghost use Rattle.std.specs.Io.KnownBytes.{IsAtEnd};
ghost use Rattle.byte_streams.specs.Streams.{Rose, Took};
ghost use Rattle.lift_text.specs.Lines.{pieces_of, HasWholeLine};
ghost use Rattle.lift_text.specs.Numbers.{read_number};
ghost use Rattle.lift_text.specs.Reading.{NextLine, NextRaw, BadLineShows, HasWholeAnswer, StoppedBehind};
ghost use Rattle.lift_text.specs.Reading.{HaveLineFeeds, lines_counted, past_quota, whole_text};
ghost use Rattle.lift_text.specs.Shows.{LineShows, RawShows};

use crate::faults::{RawLine, TextFault};
use crate::numbers::{NumberFault, number_in};
use crate::page::{Page, TEXT_LIMIT};
use crate::window::MOST_AHEAD;
use byte_streams::Source;
use std::alloc::{AllocError, Global};
use std::marker::Model;

/// Reads the lines of a source.
///
/// A line ends with LF, or with CR LF; the last line may lack its end. From a `#` on, the rest of a
/// line is a comment and may hold any bytes. Outside comments a line holds the bytes from the space
/// to `~` and tabs, and spaces and tabs separate its words. A line has at most 4,096 bytes without its
/// end, and a text has at most 67,108,864 bytes: that many are taken from the source at most, and one more
/// with the first `TooLong`. The answers are the same whatever pieces the source gives. A source that has
/// said that it is at its end, by a read of 0 bytes, is not asked again.
///
/// The memory that it needs is taken when it is made.
#[derive(Drop)]
pub struct LineReader<'a, S: Source> {
    source: &'a mut S,
    page: Page,
}

impl<'a, S: Source> Model for LineReader<'a, S> {
    ghost use Rattle.std.specs.Prelude.{◌≡◌, true};
    ghost use Rattle.std.specs.Io.KnownBytes.{IsAtEnd};
    ghost use Rattle.lift_text.specs.Reader.{ReaderState};

    ghost Value = { ReaderState S };

    ghost view = { λ r. record { source = r.source; page = r.page } };

    ghost invariant = { λ r. r.page.ended ≡ true → IsAtEnd (S.left r.source.now) };
}

impl<'a, S: Source> LineReader<'a, S> {
    ghost use Rattle.lift_text.specs.LineReader.{text, line, words, raw, failure, quota, unread, has_ended};

    /// A reader before the first line. The only error is that memory runs out.
    pub fn new(alloc: Global, source: &'a mut S) -> Result<LineReader<'a, S>, AllocError>
        ensures same_source { IfOk result
            (λ reader. reader.source.ghost_name ≡ source.entry.ghost_name) }
        ensures source { IfOk result (λ reader. reader.source.now ≡ source.old) }
        ensures text { IfOk result
            (λ reader. text S.left reader ≡ option_map whole_text (S.left source.old)) }
        ensures quota { IfOk result (λ reader. quota reader ≡ TEXT_LIMIT) }
        ensures unread { IfOk result (λ reader. unread reader ≡ []) }
        ensures line { IfOk result (λ reader. line reader ≡ 0) }
        ensures words { IfOk result (λ reader. words reader ≡ []) }
        ensures raw { IfOk result (λ reader. raw reader ≡ []) }
        ensures failure { IfOk result (λ reader. failure reader ≡ None) }
        ensures ended { IfOk result (λ reader. has_ended reader ≡ false) }
    {
        let page = Page::new(alloc)?;
        Ok(LineReader { source, page })
    }

    /// Reads the next line that has a word, and answers false at the end of the text.
    ///
    /// A line is bad with `OverLong` where it is over 4,096 bytes, and else with `ForbiddenByte` where a
    /// byte outside its comment is not allowed; this is answered only when its LF, the end of the source or
    /// more than 4,097 of its bytes were seen. `Read` comes only where a read of the source failed, which
    /// is asked only where the line is not whole among the bytes that were read and the source has not said
    /// that it is at its end. An `Err` is answered from then on, and nothing more is taken from the source.
    pub fn next_line(&mut self) -> Result<bool, TextFault>
        ensures same_source { self.new.source.ghost_name ≡ self.old.source.ghost_name }
        ensures next { failure self.old ≡ None → NextLine (text S.left self.old) result (words self.new)
            (line self.new) (text S.left self.new) }
        ensures again { IfSome (failure self.old) (λ fault. result ≡ Err fault) }

        ensures some { result ≡ Ok true → 0 < length (words self.new) }
        ensures words { result ≢ Ok true → words self.new ≡ [] }
        ensures raw { raw self.new ≡ [] }
        ensures end { failure self.old ≡ None → result ≡ Ok false
            → IsAtEnd (S.left self.new.source.now) }

        // The bytes that this call took are counted off the quota, but for one with the first `TooLong`.
        ensures taken { (taken : List ℕ)
            × Took (past_quota (failure self.old) result) (quota self.old) (quota self.new) taken
            (S.left self.old.source.now) (S.left self.new.source.now)
            × IfSome (failure self.old) (λ _. taken ≡ [])
            × BadLineShows (failure self.old) result (line self.old) (unread self.old ++ taken)
            (S.left self.new.source.now)
            × (failure self.old ≡ None → IsErrOf result TextFault.Read
            → StoppedBehind (line self.old) (line self.new) (unread self.old ++ taken)) }
        ensures unasked { HasWholeAnswer (pieces_of (unread self.old))
            → self.new.source.now ≡ self.old.source.now }
        ensures again_line { IfSome (failure self.old) (λ _. line self.new ≡ line self.old) }

        // The reader has ended once the source has said that it is at its end.
        ensures at_end { has_ended self.new ≡ true → IsAtEnd (S.left self.new.source.now) }
        ensures stays_ended { has_ended self.old ≡ true → (has_ended self.new ≡ true)
            × (self.new.source.now ≡ self.old.source.now) }
        ensures ended { result ≡ Ok false → has_ended self.new ≡ true }
        ensures not_ended { failure self.old ≡ None → IsErrOf result TextFault.Read
            → has_ended self.new ≡ false }
        ensures line_feeds { OnOk result
            (HaveLineFeeds (text S.left self.old) (line self.new - line self.old) (has_ended self.new)) }

        // The end of the line that was read shows in the bytes that were taken.
        ensures shows { failure self.old ≡ None → LineShows (text S.left self.old) result (line self.new)
            (S.left self.new.source.now) }

        ensures ok { OnOk result (failure self.new ≡ None) }
        ensures err { IfErr result (λ fault. failure self.new ≡ Some fault) }
        ensures read { failure self.old ≡ None → IsErrOf result TextFault.Read
            → Rose (S.faults self.old.source.now) (S.faults self.new.source.now) }
        ensures no_memory { failure self.old ≡ None → result ≢ Err TextFault.NoMemory }
        ensures counted { S.faults self.old.source.now ≤ S.faults self.new.source.now }
    {
        self.page.next_line(self.source)
    }

    /// The number of lines read so far, skipped ones too.
    pub fn line(&self) -> u64
        ensures value { result ≡ line self.now }
        ensures bound { result ≤ TEXT_LIMIT }
    {
        self.page.line()
    }

    /// The number of words of the line that `next_line` read: 0 before the first, after the answer
    /// false, after an `Err` and after `raw_line`.
    pub fn words(&self) -> u32
        ensures { result ≡ length (words self.now) }
    {
        self.page.words()
    }

    /// A word of the line that `next_line` read, counted from 0.
    pub fn word(&self, k: u32) -> &[u8]
        requires { k < length (words self.now) }
        ensures { result.now ≡ slice_index_or (words self.now) k [] }
    {
        self.page.word(k)
    }

    /// A word of the line that `next_line` read, as a number from `low` to `high`. It is one or more
    /// decimal digits, and a `-` may begin it where `low` is below 0.
    pub fn number(&self, k: u32, low: i128, high: i128) -> Result<i128, NumberFault>
        requires { k < length (words self.now) }
        ensures { result ≡ read_number low high (slice_index_or (words self.now) k []) }
    {
        number_in(self.word(k), low, high)
    }

    /// Reads the next line as it stands. `Read` comes only where a read of the source failed, which is
    /// asked only where no whole line is among the bytes that were read and it has not said that it is at its
    /// end. An `Err` is answered from then on, and nothing more is taken from the source.
    pub fn raw_line(&mut self) -> Result<RawLine, TextFault>
        ensures same_source { self.new.source.ghost_name ≡ self.old.source.ghost_name }
        ensures next { failure self.old ≡ None → NextRaw (text S.left self.old) result (raw self.new)
            (text S.left self.new) }
        ensures again { IfSome (failure self.old) (λ fault. result ≡ Err fault) }

        ensures raw { result ≢ Ok RawLine.Line → raw self.new ≡ [] }
        ensures words { words self.new ≡ [] }
        ensures end { failure self.old ≡ None → result ≡ Ok RawLine.End
            → IsAtEnd (S.left self.new.source.now) }

        // The bytes that this call took are counted off the quota, but for one with the first `TooLong`.
        ensures taken { (taken : List ℕ)
            × Took (past_quota (failure self.old) result) (quota self.old) (quota self.new) taken
            (S.left self.old.source.now) (S.left self.new.source.now)
            × IfSome (failure self.old) (λ _. taken ≡ [])
            × (failure self.old ≡ None → IsErrOf result TextFault.Read
            → ¬ HasWholeLine (unread self.old ++ taken)) }
        ensures unasked { HasWholeLine (unread self.old)
            → self.new.source.now ≡ self.old.source.now }
        ensures line { line self.new ≡ line self.old + lines_counted result }

        // The reader has ended once the source has said that it is at its end.
        ensures at_end { has_ended self.new ≡ true → IsAtEnd (S.left self.new.source.now) }
        ensures stays_ended { has_ended self.old ≡ true → (has_ended self.new ≡ true)
            × (self.new.source.now ≡ self.old.source.now) }
        ensures ended { result ≡ Ok RawLine.End → has_ended self.new ≡ true }
        ensures not_ended { failure self.old ≡ None → IsErrOf result TextFault.Read
            → has_ended self.new ≡ false }
        ensures line_feed { OnOk result
            (HaveLineFeeds (text S.left self.old) 1 (has_ended self.new)) }

        // The end of the line that was read shows in the bytes that were taken.
        ensures shows { failure self.old ≡ None → RawShows (text S.left self.old) result (line self.new)
            (S.left self.new.source.now) }

        ensures ok { OnOk result (failure self.new ≡ None) }
        ensures err { IfErr result (λ fault. failure self.new ≡ Some fault) }
        ensures read { failure self.old ≡ None → IsErrOf result TextFault.Read
            → Rose (S.faults self.old.source.now) (S.faults self.new.source.now) }
        ensures no_memory { failure self.old ≡ None → result ≢ Err TextFault.NoMemory }
        ensures counted { S.faults self.old.source.now ≤ S.faults self.new.source.now }
    {
        self.page.raw_line(self.source)
    }

    /// The line that `raw_line` read, without its end: empty before the first, after `Long`, `End` or
    /// an `Err`, and after `next_line`.
    pub fn raw(&self) -> &[u8]
        ensures { result.now ≡ raw self.now }
    {
        self.page.raw()
    }

    /// Gives the source back, as the reader left it: few bytes were taken from it beyond the line that was read
    /// last.
    pub fn into_source(self) -> &'a mut S
        ensures same_source { result.ghost_name ≡ self.entry.source.ghost_name }
        ensures source { result.now ≡ self.entry.source.now }
        ensures few { length (unread self.entry) ≤ MOST_AHEAD }
    {
        let LineReader { source, page } = self;
        // For the proof: the page says how few they are.
        let _ahead = page.ahead();
        drop(page);
        source
    }
}
