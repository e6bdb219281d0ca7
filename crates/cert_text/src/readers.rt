//! Reading a tree twig by twig.
ghost use Rattle.std.specs.Prelude.{◌≡◌, ◌≤◌, None, Some, Ok, Err, IfErr, IfOk, IfSome, OnOk, IsErrOf, List};
ghost use Rattle.std.specs.Prelude.{[]};
ghost use Rattle.byte_streams.specs.Streams.{Rose};
ghost use Rattle.elevator_model.specs.Snapshot.{Snapshot as Model};
ghost use Rattle.lift_text.specs.LineReader.{text, failure};
ghost use Rattle.lift_text.specs.Shows.{FaultShows, WentOn};
ghost use Rattle.cert_text.specs.Pieces.{leaf_begun, reader_behind};
ghost use Rattle.cert_text.specs.Readers.{HasRead, HandsOut, IsRefusedFor, IsBegunFor, HandsOutFor};
ghost use Rattle.cert_text.specs.Readers.{IsNoneAtEnd, failure_of};

use crate::kinds::Begun;
use crate::pieces::{FirstLine, TwigDraft};
use call_state::Snapshot;
use lift_text::{LineReader, Source, TextFault};
use search_model::{Leaf, Twig};
use std::alloc::Global;
use std::marker::Model;
use std::mem;
use text_sections::read_section;

/// Reads a tree twig by twig, in preorder. Beside the twig that is being read only counts are kept, however
/// deep the tree is.
#[derive(Drop)]
pub struct TreeReader {
    alloc: Global,
    /// How many places of the tree are open.
    places: u64,
    /// The claims so far, added up.
    claims: u64,
    begun: Begun,
}

impl Model for TreeReader {
    ghost use Rattle.cert_text.specs.Pieces.{Reader};

    ghost Value = { Reader };

    ghost view = { λ r. record { places = r.places; claims = r.claims; begun = r.begun } };
}

impl TreeReader {
    /// Reads the first line of a certificate, `certificate 1`. The allocator comes first.
    ///
    /// Its first word must be `certificate`, or else the code is `NoLineWord`; then come `Missing`, `TooMany`,
    /// and `NoNumber` and `OutOfRange` for the version. `CutShort` comes where the input ends before it. The end
    /// of the bad line shows in the bytes that were taken. `Read` comes only where a read of the source failed.
    pub fn begin<S: Source>(
        alloc: Global,
        lines: &mut LineReader<S>,
    ) -> Result<TreeReader, TextFault>
        ensures same_source { lines.new.source.ghost_name ≡ lines.old.source.ghost_name }
        ensures begun { failure lines.old ≡ None
            → IfOk result (λ reader. IsBegunFor (text S.left lines.old) reader (text S.left lines.new)) }
        ensures refused { failure lines.old ≡ None
            → IfErr result (λ fault. IsRefusedFor (text S.left lines.old) fault) }
        ensures sound { IfOk result (λ reader. failure_of reader.begun ≡ None) }
        ensures went { failure lines.old ≡ None
            → OnOk result (WentOn (text S.left lines.old) (text S.left lines.new)) }
        ensures shows { failure lines.old ≡ None → IfErr result (λ fault.
            FaultShows (text S.left lines.old) fault (S.left lines.new.source.now)) }
        ensures again { IfSome (failure lines.old) (λ fault. result ≡ Err fault) }
        ensures ok { OnOk result (failure lines.new ≡ None) }
        ensures fault { IfSome (failure lines.new) (λ fault. result ≡ Err fault) }
        ensures read { failure lines.old ≡ None → IsErrOf result TextFault.Read
            → Rose (S.faults lines.old.source.now) (S.faults lines.new.source.now) }
        ensures counted { S.faults lines.old.source.now ≤ S.faults lines.new.source.now }
    {
        let mut first = FirstLine { is_read: false };
        match read_section(lines, &mut first) {
            Ok(()) => Ok(TreeReader {
                alloc,
                places: 1,
                claims: 0,
                begun: Begun::Nothing,
            }),
            Err(fault) => Err(fault),
        }
    }

    /// The reader after a piece that is whole, and its twig.
    fn behind(piece: TwigDraft) -> (TreeReader, Option<Twig>)
        ensures reader { result.0 ≡ reader_behind piece.entry }
        ensures twig { result.1 ≡ piece.entry.ready }
    {
        let reader = TreeReader {
            alloc: piece.alloc,
            places: piece.places,
            claims: piece.claims,
            begun: piece.begun,
        };
        (reader, piece.ready)
    }

    /// Reads up to the end of a twig, where this leaf is being read.
    fn read_on<S: Source>(
        &mut self,
        lines: &mut LineReader<S>,
        snapshot: &Snapshot,
        leaf: Option<Leaf>,
    ) -> Result<Option<Twig>, TextFault>
        ensures same_source { lines.new.source.ghost_name ≡ lines.old.source.ghost_name }
        ensures twig { failure lines.old ≡ None
            → HandsOutFor snapshot.now (record self.old { begun = leaf_begun leaf })
            (text S.left lines.old) result self.new (text S.left lines.new) }
        ensures failed { IfErr result (λ fault. failure_of self.new.begun ≡ Some fault) }
        ensures sound { OnOk result (failure_of self.new.begun ≡ None) }
        ensures at_end { IsNoneAtEnd result self.new }
        ensures went { failure lines.old ≡ None
            → OnOk result (WentOn (text S.left lines.old) (text S.left lines.new)) }
        ensures shows { failure lines.old ≡ None → IfErr result (λ fault.
            FaultShows (text S.left lines.old) fault (S.left lines.new.source.now)) }
        ensures ok { OnOk result (failure lines.new ≡ None) }
        ensures fault { IfSome (failure lines.new) (λ fault. result ≡ Err fault) }
        ensures read { failure lines.old ≡ None → IsErrOf result TextFault.Read
            → Rose (S.faults lines.old.source.now) (S.faults lines.new.source.now) }
        ensures counted { S.faults lines.old.source.now ≤ S.faults lines.new.source.now }
    {
        let mut piece = TwigDraft {
            alloc: self.alloc,
            snapshot,
            places: self.places,
            claims: self.claims,
            leaf,
            ready: None,
            begun: Begun::Nothing,
        };
        match read_section(lines, &mut piece) {
            Ok(()) => {
                let (reader, twig) = TreeReader::behind(piece);
                *self = reader;
                Ok(twig)
            }
            Err(fault) => {
                self.begun = Begun::Failed(fault);
                Err(fault)
            }
        }
    }

    /// The next twig in preorder. None exactly where the tree is complete and its line `end` was read, and
    /// from then on. A leaf is handed out once the line after its last price or worth was read.
    ///
    /// The reader has to be called with the lines that it began with, and always with the same snapshot. The
    /// first bad line decides, with one code, of which the first of these comes: `NoLineWord`, `OutOfOrder`
    /// for a price or worth without a leaf, for a twig after a complete tree and for an `end` before it,
    /// `Missing`, `TooMany`, `NoNumber` and `OutOfRange`, `UnknownId`, and then `ClaimsPast` for claims that
    /// sum past 10^10. `CutShort` comes where the input ends first. The end of the bad line shows in the bytes
    /// that were taken. `Read` comes only where a read of the source failed. After an `Err` the same is answered
    /// from then on.
    pub fn next<S: Source>(
        &mut self,
        lines: &mut LineReader<S>,
        snapshot: &Snapshot,
    ) -> Result<Option<Twig>, TextFault>
        ensures same_source { lines.new.source.ghost_name ≡ lines.old.source.ghost_name }
        ensures twig { failure lines.old ≡ None
            → HandsOutFor snapshot.now self.old (text S.left lines.old) result self.new (text S.left lines.new) }
        ensures failed { IfErr result (λ fault. failure_of self.new.begun ≡ Some fault) }
        ensures sound { OnOk result (failure_of self.new.begun ≡ None) }
        ensures again { IfSome (failure_of self.old.begun) (λ fault. result ≡ Err fault) }
        ensures at_end { IsNoneAtEnd result self.new }
        ensures ended { self.old.begun ≡ Begun.End → result ≡ Ok None }
        ensures went { failure lines.old ≡ None
            → OnOk result (WentOn (text S.left lines.old) (text S.left lines.new)) }
        ensures shows { failure lines.old ≡ None → failure_of self.old.begun ≡ None → IfErr result (λ fault.
            FaultShows (text S.left lines.old) fault (S.left lines.new.source.now)) }
        ensures ok { failure lines.old ≡ None → OnOk result (failure lines.new ≡ None) }
        ensures fault { failure lines.old ≡ None → IfSome (failure lines.new) (λ fault. result ≡ Err fault) }
        ensures read { failure lines.old ≡ None → failure_of self.old.begun ≡ None → IsErrOf result TextFault.Read
            → Rose (S.faults lines.old.source.now) (S.faults lines.new.source.now) }
        ensures counted { S.faults lines.old.source.now ≤ S.faults lines.new.source.now }
    {
        match mem::replace(&mut self.begun, Begun::End) {
            Begun::Nothing => self.read_on(lines, snapshot, None),
            Begun::Leaf(leaf) => self.read_on(lines, snapshot, Some(leaf)),
            Begun::Split { call, part } => {
                self.begun = Begun::Nothing;
                Ok(Some(Twig::Split { call, part }))
            }
            Begun::End => Ok(None),
            Begun::Failed(fault) => {
                self.begun = Begun::Failed(fault);
                Err(fault)
            }
        }
    }
}
