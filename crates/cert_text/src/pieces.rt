//! Reading up to the end of one twig.
ghost use Rattle.std.specs.Prelude.{◌≡◌, ◌<◌, ◌==◌, Bool, true, false, length, not};
ghost use Rattle.lift_text.specs.LineReader.{words};
ghost use Rattle.text_sections.specs.Sections.{Did};
ghost use Rattle.text_sections.specs.Judging.{in_order, Gives};

use crate::kinds::{Begun, Entry, LineWord};
use crate::said::{head_said, price_said, split_said, worth_said};
use call_sets::CarSet;
use call_state::Snapshot;
use lift_text::{LineReader, Source, TextCode};
use search_model::{Items, Leaf, MOST_CLAIM, PriceOf, Twig, WorthOf};
use std::alloc::Global;
use std::marker::Model;
use text_sections::{AfterLine, LineFault, Section, exactly, is_word};

/// The first line of a certificate, as a section of its own.
#[derive(Drop)]
pub(crate) struct FirstLine {
    pub(crate) is_read: bool,
}

impl Model for FirstLine {
    ghost use Rattle.std.specs.Prelude.{Bool};

    ghost Value = { Bool };

    ghost view = { λ f. f.is_read };
}

impl Section for FirstLine {
    ghost use Rattle.cert_text.specs.Pieces.{after_first};

    ghost after = { after_first };

    fn take_line<S: Source>(&mut self, lines: &LineReader<S>) -> Result<AfterLine, LineFault> {
        if !is_word(lines, 0, b"certificate") {
            return Err(LineFault::from(TextCode::NoLineWord));
        }
        let _version = head_said(lines)?;
        self.is_read = true;
        Ok(AfterLine::Whole)
    }
}

/// A twig that is being read. It is whole with the line that ends it: a split with its own, a leaf with the
/// first line after its prices and worths.
#[derive(Drop)]
pub(crate) struct TwigDraft<'a> {
    pub(crate) alloc: Global,
    pub(crate) snapshot: &'a Snapshot,
    /// How many places of the tree are open.
    pub(crate) places: u64,
    /// The claims so far, added up.
    pub(crate) claims: u64,
    /// The leaf that is being read.
    pub(crate) leaf: Option<Leaf>,
    /// The twig that is whole.
    pub(crate) ready: Option<Twig>,
    /// What the line after it began.
    pub(crate) begun: Begun,
}

impl<'a> Model for TwigDraft<'a> {
    ghost use Rattle.cert_text.specs.Pieces.{TwigDraft as Record};

    ghost Value = { Record };

    ghost view = { λ p. record {
      snapshot = p.snapshot.now;
      places = p.places;
      claims = p.claims;
      leaf = p.leaf;
      ready = p.ready;
      begun = p.begun;
    } };
}

impl<'a> TwigDraft<'a> {
    ghost use Rattle.cert_text.specs.declared.kinds.LineWord.TheVariants.{Split as SplitWord};
    ghost use Rattle.cert_text.specs.declared.kinds.Entry.TheVariants.{Split as SplitEntry};
    ghost use Rattle.cert_text.specs.declared.kinds.Entry.TheVariants.{Leaf as LeafEntry};
    ghost use Rattle.cert_text.specs.declared.kinds.Entry.TheVariants.{Price as PriceEntry};
    ghost use Rattle.cert_text.specs.declared.kinds.Entry.TheVariants.{Worth as WorthEntry, End as EndEntry};
    ghost use Rattle.cert_text.specs.Entries.{any_word, in_place, claimed, split_in, leaf_in, price_in};
    ghost use Rattle.cert_text.specs.Entries.{worth_in, end_in, entry_in};
    ghost use Rattle.cert_text.specs.Pieces.{has_leaf, piece_standing, piece_taken, after_piece};

    /// A place for a twig more is open.
    fn in_place(&self) -> Result<(), TextCode>
        ensures { result ≡ in_place (piece_standing self.now) }
    {
        if self.places == 0 {
            return Err(TextCode::OutOfOrder);
        }
        Ok(())
    }

    /// No place is open any more.
    fn in_end(&self) -> Result<(), TextCode>
        ensures { result ≡ in_order (self.now.places == 0) }
    {
        if self.places != 0 {
            return Err(TextCode::OutOfOrder);
        }
        Ok(())
    }

    /// Prices and worths may come.
    fn in_leaf(&self) -> Result<(), TextCode>
        ensures { result ≡ in_order (has_leaf self.now.leaf) }
    {
        if self.leaf.is_none() {
            return Err(TextCode::OutOfOrder);
        }
        Ok(())
    }

    /// The worth, where the claims with its own do not sum past their limit.
    fn claimed(&self, worth: WorthOf) -> Result<WorthOf, TextCode>
        ensures { result ≡ claimed (piece_standing self.now) worth }
    {
        match self.claims.checked_add(worth.claim) {
            Some(sum) if sum <= MOST_CLAIM => Ok(worth),
            _ => Err(TextCode::ClaimsPast),
        }
    }

    fn split_in<S: Source>(&self, lines: &LineReader<S>) -> Result<Entry, LineFault>
        ensures { Gives (split_in (piece_standing self.now) (words lines.now)) result }
    {
        self.in_place()?;
        split_said(self.alloc, self.snapshot, lines)
    }

    fn leaf_in<S: Source>(&self, lines: &LineReader<S>) -> Result<Entry, TextCode>
        ensures { result ≡ leaf_in (piece_standing self.now) (words lines.now) }
    {
        self.in_place()?;
        exactly(lines, 1)?;
        Ok(Entry::Leaf)
    }

    fn price_in<S: Source>(&self, lines: &LineReader<S>) -> Result<Entry, TextCode>
        ensures { result ≡ price_in (piece_standing self.now) (words lines.now) }
    {
        self.in_leaf()?;
        let price = price_said(self.snapshot, lines)?;
        Ok(Entry::Price(price))
    }

    fn worth_in<S: Source>(&self, lines: &LineReader<S>) -> Result<Entry, TextCode>
        ensures { result ≡ worth_in (piece_standing self.now) (words lines.now) }
    {
        self.in_leaf()?;
        let worth = worth_said(self.snapshot, lines)?;
        let taken = self.claimed(worth)?;
        Ok(Entry::Worth(taken))
    }

    fn end_in<S: Source>(&self, lines: &LineReader<S>) -> Result<Entry, TextCode>
        ensures { result ≡ end_in (piece_standing self.now) (words lines.now) }
    {
        self.in_end()?;
        exactly(lines, 1)?;
        Ok(Entry::End)
    }

    /// What the first word of a line is.
    fn any_word<S: Source>(lines: &LineReader<S>) -> Result<LineWord, TextCode>
        requires { 0 < length (words lines.now) }
        ensures { result ≡ any_word (words lines.now) }
    {
        if is_word(lines, 0, b"certificate") {
            return Ok(LineWord::Certificate);
        }
        if is_word(lines, 0, b"split") {
            return Ok(LineWord::Split);
        }
        if is_word(lines, 0, b"leaf") {
            return Ok(LineWord::Leaf);
        }
        if is_word(lines, 0, b"price") {
            return Ok(LineWord::Price);
        }
        if is_word(lines, 0, b"worth") {
            return Ok(LineWord::Worth);
        }
        if is_word(lines, 0, b"end") {
            return Ok(LineWord::End);
        }
        Err(TextCode::NoLineWord)
    }

    /// What the line says here.
    fn entry_in<S: Source>(&self, lines: &LineReader<S>) -> Result<Entry, LineFault>
        requires { 0 < length (words lines.now) }
        ensures { Gives (entry_in (piece_standing self.now) (words lines.now)) result }
    {
        match TwigDraft::any_word(lines)? {
            LineWord::Certificate => Err(LineFault::from(TextCode::OutOfOrder)),
            LineWord::Split => self.split_in(lines),
            LineWord::Leaf => Ok(self.leaf_in(lines)?),
            LineWord::Price => Ok(self.price_in(lines)?),
            LineWord::Worth => Ok(self.worth_in(lines)?),
            LineWord::End => Ok(self.end_in(lines)?),
        }
    }

    fn take_split(&mut self, call: u32, part: CarSet) -> Result<AfterLine, LineFault>
        ensures { Did (piece_taken self.old (SplitEntry call part)) result self.new }
    {
        // A text has far fewer lines than the count can hold.
        let Some(places) = self.places.checked_add(1) else {
            return Err(LineFault::NoMemory);
        };
        self.places = places;
        match self.leaf.take() {
            Some(leaf) => {
                self.ready = Some(Twig::Leaf(leaf));
                self.begun = Begun::Split { call, part };
            }
            None => {
                self.ready = Some(Twig::Split { call, part });
                self.begun = Begun::Nothing;
            }
        }
        Ok(AfterLine::Whole)
    }

    fn take_leaf(&mut self) -> Result<AfterLine, LineFault>
        ensures { Did (piece_taken self.old LeafEntry) result self.new }
    {
        self.places = self.places.saturating_sub(1);
        let fresh = Leaf {
            prices: Items::new(self.alloc),
            worths: Items::new(self.alloc),
        };
        match self.leaf.take() {
            Some(leaf) => {
                self.ready = Some(Twig::Leaf(leaf));
                self.begun = Begun::Leaf(fresh);
                Ok(AfterLine::Whole)
            }
            None => {
                self.leaf = Some(fresh);
                Ok(AfterLine::More)
            }
        }
    }

    fn take_price(&mut self, price: PriceOf) -> Result<AfterLine, LineFault>
        ensures { Did (piece_taken self.old (PriceEntry price)) result self.new }
    {
        if let Some(leaf) = &mut self.leaf {
            leaf.prices.push(price)?;
        }
        Ok(AfterLine::More)
    }

    fn take_worth(&mut self, worth: WorthOf) -> Result<AfterLine, LineFault>
        ensures { Did (piece_taken self.old (WorthEntry worth)) result self.new }
    {
        let Some(claims) = self.claims.checked_add(worth.claim) else {
            return Err(LineFault::NoMemory);
        };
        self.claims = claims;
        if let Some(leaf) = &mut self.leaf {
            leaf.worths.push(worth)?;
        }
        Ok(AfterLine::More)
    }

    fn take_end(&mut self) -> Result<AfterLine, LineFault>
        ensures { Did (piece_taken self.old EndEntry) result self.new }
    {
        self.ready = match self.leaf.take() {
            Some(leaf) => Some(Twig::Leaf(leaf)),
            None => None,
        };
        self.begun = Begun::End;
        Ok(AfterLine::Whole)
    }

    fn take(&mut self, entry: Entry) -> Result<AfterLine, LineFault>
        ensures { Did (piece_taken self.old entry) result self.new }
    {
        match entry {
            Entry::Split { call, part } => self.take_split(call, part),
            Entry::Leaf => self.take_leaf(),
            Entry::Price(price) => self.take_price(price),
            Entry::Worth(worth) => self.take_worth(worth),
            Entry::End => self.take_end(),
        }
    }
}

impl<'a> Section for TwigDraft<'a> {
    ghost use Rattle.cert_text.specs.Pieces.{after_piece};

    ghost after = { after_piece };

    fn take_line<S: Source>(&mut self, lines: &LineReader<S>) -> Result<AfterLine, LineFault> {
        let entry = self.entry_in(lines)?;
        self.take(entry)
    }
}
