//! Reading and checking a case, its answer and a certificate.
ghost use Rattle.std.specs.Prelude.{◌≡◌, ◌+◌, ◌≤◌, None, Some, Ok, Err, IfErr, IfOk, OnOk, IsErrOf, []};
ghost use Rattle.std.specs.Prelude.{length};
ghost use Rattle.std.specs.Io.KnownBytes.{IsAtEnd};
ghost use Rattle.byte_streams.specs.Streams.{Rose};
ghost use Rattle.elevator_model.specs.Snapshot.{car_count};
ghost use Rattle.search_model.specs.declared.Stated.{Stated as StatedValue};
ghost use Rattle.lift_text.specs.LineReader.{text, failure};
ghost use Rattle.lift_text.specs.Shows.{FaultShows, WentOn};
ghost use Rattle.cert_checker.specs.Judging.{HasSeen, IsCheckerOf};
ghost use Rattle.cert_text.specs.Readers.{IsRefused, failure_of};
ghost use Rattle.check_text.specs.CheckTexts.{IsChecked, IsRefusedCheck, TakesChecks};
ghost use Rattle.check_text.specs.VerdictTexts.{IsToldOf};
ghost use Rattle.check_text.specs.Layers.{FeedsPieceFor, FeedsTree, HasHandedOut, HasSeenNone, IsJudged};
ghost use Rattle.check_text.specs.Layers.{IsRefusedCertified, IsRefusedTree, IsVerdict, ReadsPieceFor};
ghost use Rattle.check_text.specs.Layers.{TakesCertified, TakesTrees};
ghost use Rattle.check_text.specs.Pairs.{IsCertified, IsRefusedPair, IsVerdictRead};

use crate::checked::Checked;
use answer_text::read_answer;
use byte_streams::Gate;
use call_state::Snapshot;
use case_text::{read_case, read_end};
use cert_checker::{Checker, JudgingCrew};
use cert_text::TreeReader;
use lift_text::{LineReader, Source, TextFault};
use search_model::{Items, Stated, Twig, Verdict};
use std::alloc::Global;
use work_fan::Runtime;

/// The most twigs of a piece.
const MOST_TWIGS: usize = 256;

/// More pieces than a text has: each of them has 256 twigs, but the last one, and a twig is a line at least.
/// So the end of the count is never reached.
const MOST_PIECES: u32 = 4_000_000;

/// Reads a twig and adds it to the piece. True where the tree is complete, and no twig is left.
fn read_twig<S: Source>(
    reader: &mut TreeReader,
    lines: &mut LineReader<S>,
    snapshot: &Snapshot,
    piece: &mut Items<Twig>,
) -> Result<bool, TextFault>
    requires whole { failure lines.old ≡ None }
    requires sound { failure_of reader.old.begun ≡ None }
    ensures same_source { lines.new.source.ghost_name ≡ lines.old.source.ghost_name }
    ensures reads { ReadsPieceFor snapshot.now reader.old piece.old
        (text S.left lines.old) result reader.new piece.new (text S.left lines.new) }
    ensures few { OnOk result (length piece.new ≤ length piece.old + 1) }
    ensures went { OnOk result (WentOn (text S.left lines.old) (text S.left lines.new)) }
    ensures shows { IfErr result (λ fault.
        FaultShows (text S.left lines.old) fault (S.left lines.new.source.now)) }
    ensures sound { OnOk result (failure_of reader.new.begun ≡ None) }
    ensures ok { OnOk result (failure lines.new ≡ None) }
    ensures read { IsErrOf result TextFault.Read
        → Rose (S.faults lines.old.source.now) (S.faults lines.new.source.now) }
    ensures counted { S.faults lines.old.source.now ≤ S.faults lines.new.source.now }
{
    match reader.next(lines, snapshot)? {
        Some(twig) => {
            piece.push(twig)?;
            Ok(false)
        }
        None => Ok(true),
    }
}

/// Reads a piece: up to 256 twigs. True where the tree is complete, and no twig is left.
fn read_piece<S: Source>(
    reader: &mut TreeReader,
    lines: &mut LineReader<S>,
    snapshot: &Snapshot,
    piece: &mut Items<Twig>,
) -> Result<bool, TextFault>
    requires whole { failure lines.old ≡ None }
    requires sound { failure_of reader.old.begun ≡ None }
    requires empty { piece.old ≡ [] }
    ensures same_source { lines.new.source.ghost_name ≡ lines.old.source.ghost_name }
    ensures reads { ReadsPieceFor snapshot.now reader.old []
        (text S.left lines.old) result reader.new piece.new (text S.left lines.new) }
    ensures few { OnOk result (length piece.new ≤ 256) }
    ensures went { OnOk result (WentOn (text S.left lines.old) (text S.left lines.new)) }
    ensures shows { IfErr result (λ fault.
        FaultShows (text S.left lines.old) fault (S.left lines.new.source.now)) }
    ensures sound { OnOk result (failure_of reader.new.begun ≡ None) }
    ensures ok { OnOk result (failure lines.new ≡ None) }
    ensures read { IsErrOf result TextFault.Read
        → Rose (S.faults lines.old.source.now) (S.faults lines.new.source.now) }
    ensures counted { S.faults lines.old.source.now ≤ S.faults lines.new.source.now }
{
    for count in 0..MOST_TWIGS {
        let is_whole = read_twig(reader, lines, snapshot, piece)?;
        if is_whole {
            return Ok(true);
        }
    }
    Ok(false)
}

/// Reads a piece and hands it to the checker. True where the tree is complete.
fn check_piece<S: Source, C: JudgingCrew, G: Gate>(
    runtime: &Runtime<C, G>,
    reader: &mut TreeReader,
    lines: &mut LineReader<S>,
    snapshot: &Snapshot,
    checker: &mut Checker,
) -> Result<bool, TextFault>
    requires whole { failure lines.old ≡ None }
    requires sound { failure_of reader.old.begun ≡ None }
    requires begun { HasHandedOut snapshot.now reader.old (text S.left lines.old) }
    requires own { IsCheckerOf snapshot.now checker.old }
    ensures same_source { lines.new.source.ghost_name ≡ lines.old.source.ghost_name }
    ensures feeds { FeedsPieceFor snapshot.now reader.old checker.old
        (text S.left lines.old) result reader.new checker.new (text S.left lines.new) }
    ensures own { IsCheckerOf snapshot.now checker.new }
    ensures went { OnOk result (WentOn (text S.left lines.old) (text S.left lines.new)) }
    ensures shows { IfErr result (λ fault.
        FaultShows (text S.left lines.old) fault (S.left lines.new.source.now)) }
    ensures sound { OnOk result (failure_of reader.new.begun ≡ None) }
    ensures ok { OnOk result (failure lines.new ≡ None) }
    ensures read { IsErrOf result TextFault.Read
        → Rose (S.faults lines.old.source.now) (S.faults lines.new.source.now) }
    ensures counted { S.faults lines.old.source.now ≤ S.faults lines.new.source.now }
{
    let mut piece = Items::new(runtime.alloc);
    let is_whole = read_piece(reader, lines, snapshot, &mut piece)?;
    checker.feed(runtime, snapshot, piece.as_slice())?;
    Ok(is_whole)
}

/// Reads a certificate and hands it to the checker, piece by piece.
fn check_tree<S: Source, C: JudgingCrew, G: Gate>(
    runtime: &Runtime<C, G>,
    lines: &mut LineReader<S>,
    snapshot: &Snapshot,
    checker: &mut Checker,
) -> Result<(), TextFault>
    requires whole { failure lines.old ≡ None }
    requires own { IsCheckerOf snapshot.now checker.old }
    requires seen { HasSeenNone snapshot.now checker.old }
    ensures same_source { lines.new.source.ghost_name ≡ lines.old.source.ghost_name }
    ensures feeds { (claims : StatedValue) → HasSeen snapshot.now claims [] checker.old
        → FeedsTree snapshot.now claims (text S.left lines.old) result checker.new (text S.left lines.new) }
    ensures went { OnOk result (WentOn (text S.left lines.old) (text S.left lines.new)) }
    ensures shows { IfErr result (λ fault.
        FaultShows (text S.left lines.old) fault (S.left lines.new.source.now)) }
    ensures ok { OnOk result (failure lines.new ≡ None) }
    ensures read { IsErrOf result TextFault.Read
        → Rose (S.faults lines.old.source.now) (S.faults lines.new.source.now) }
    ensures counted { S.faults lines.old.source.now ≤ S.faults lines.new.source.now }
{
    let mut reader = TreeReader::begin(runtime.alloc, lines)?;
    for count in 0..MOST_PIECES {
        let is_whole = check_piece(runtime, &mut reader, lines, snapshot, checker)?;
        if is_whole {
            return Ok(());
        }
    }
    Err(TextFault::NoMemory)
}

/// Reads a certificate of a plan up to its line `end`, and says what it proves.
fn read_verdict<S: Source, C: JudgingCrew, G: Gate>(
    runtime: &Runtime<C, G>,
    lines: &mut LineReader<S>,
    snapshot: &Snapshot,
    stated: &Stated,
) -> Result<Verdict, TextFault>
    requires whole { failure lines.old ≡ None }
    requires cars { length stated.now.plan ≡ car_count snapshot.now }
    ensures same_source { lines.new.source.ghost_name ≡ lines.old.source.ghost_name }
    ensures verdict { IfOk result (IsVerdictRead (text S.left lines.old) snapshot.now stated.now
        (text S.left lines.new)) }
    ensures refused { IfErr result (IsRefused snapshot.now (text S.left lines.old)) }
    ensures went { OnOk result (WentOn (text S.left lines.old) (text S.left lines.new)) }
    ensures shows { IfErr result (λ fault.
        FaultShows (text S.left lines.old) fault (S.left lines.new.source.now)) }
    ensures ok { OnOk result (failure lines.new ≡ None) }
    ensures read { IsErrOf result TextFault.Read
        → Rose (S.faults lines.old.source.now) (S.faults lines.new.source.now) }
    ensures counted { S.faults lines.old.source.now ≤ S.faults lines.new.source.now }
{
    let mut checker = match Checker::new(runtime.alloc, snapshot, stated) {
        Ok(checker) => checker,
        Err(_) => return Err(TextFault::NoMemory),
    };
    match check_tree(runtime, lines, snapshot, &mut checker) {
        Ok(()) => Ok(checker.verdict()),
        Err(fault) => Err(fault),
    }
}

/// An answer to a snapshot, and what its certificate proves.
#[derive(Drop)]
pub struct Certified {
    /// The plan with its cost and a bound, as they are stated.
    pub stated: Stated,
    /// Whether the certificate proves them.
    pub verdict: Verdict,
}

/// Reads an answer to the snapshot and a certificate of it, up to the line `end` of the certificate, and says
/// what the certificate proves: what follows stays unread. The certificate is checked while it is read.
///
/// The first bad line decides, with its number and one code, also if it comes after what makes the verdict a
/// no. `Read` comes only where a read of the source failed.
pub fn read_certified<S: Source, C: JudgingCrew, G: Gate>(
    runtime: &Runtime<C, G>,
    lines: &mut LineReader<S>,
    snapshot: &Snapshot,
) -> Result<Certified, TextFault>
    requires whole { failure lines.old ≡ None }
    ensures same_source { lines.new.source.ghost_name ≡ lines.old.source.ghost_name }
    ensures certified { IfOk result (λ certified. IsCertified (text S.left lines.old) snapshot.now
        certified.stated certified.verdict (text S.left lines.new)) }
    ensures told { IfOk result (λ certified. IsToldOf snapshot.now certified.verdict) }
    ensures refused { IfErr result (IsRefusedPair (text S.left lines.old) snapshot.now) }
    ensures went { OnOk result (WentOn (text S.left lines.old) (text S.left lines.new)) }
    ensures shows { IfErr result (λ fault.
        FaultShows (text S.left lines.old) fault (S.left lines.new.source.now)) }
    ensures ok { OnOk result (failure lines.new ≡ None) }
    ensures read { IsErrOf result TextFault.Read
        → Rose (S.faults lines.old.source.now) (S.faults lines.new.source.now) }
    ensures counted { S.faults lines.old.source.now ≤ S.faults lines.new.source.now }
{
    let stated = match read_answer(runtime.alloc, lines, snapshot) {
        Ok(stated) => stated,
        Err(fault) => return Err(fault),
    };
    match read_verdict(runtime, lines, snapshot, &stated) {
        Ok(verdict) => Ok(Certified { stated, verdict }),
        Err(fault) => Err(fault),
    }
}

/// Reads a certificate of a plan and the text to its end, and says what the certificate proves.
fn judge_tree<S: Source, C: JudgingCrew, G: Gate>(
    runtime: &Runtime<C, G>,
    lines: &mut LineReader<S>,
    snapshot: &Snapshot,
    stated: &Stated,
) -> Result<Verdict, TextFault>
    requires whole { failure lines.old ≡ None }
    requires cars { length stated.now.plan ≡ car_count snapshot.now }
    ensures same_source { lines.new.source.ghost_name ≡ lines.old.source.ghost_name }
    ensures verdict { IfOk result (IsVerdict (text S.left lines.old) snapshot.now stated.now) }
    ensures refused { IfErr result (IsRefusedTree (text S.left lines.old) snapshot.now) }
    ensures takes { TakesTrees (text S.left lines.old) snapshot.now stated.now result }
    ensures ended { OnOk result (IsAtEnd (S.left lines.new.source.now)) }
    ensures shows { IfErr result (λ fault.
        FaultShows (text S.left lines.old) fault (S.left lines.new.source.now)) }
    ensures read { IsErrOf result TextFault.Read
        → Rose (S.faults lines.old.source.now) (S.faults lines.new.source.now) }
    ensures counted { S.faults lines.old.source.now ≤ S.faults lines.new.source.now }
{
    match read_verdict(runtime, lines, snapshot, stated) {
        Ok(verdict) => match read_end(lines) {
            Ok(()) => Ok(verdict),
            Err(fault) => Err(fault),
        },
        Err(fault) => Err(fault),
    }
}

/// What is stated of a plan, and what its certificate proves.
#[derive(Drop)]
struct Judged {
    cost: u64,
    bound: u64,
    verdict: Verdict,
}

/// Reads an answer to the snapshot, a certificate of it and the text to its end, and says what the
/// certificate proves.
fn judge<S: Source, C: JudgingCrew, G: Gate>(
    runtime: &Runtime<C, G>,
    lines: &mut LineReader<S>,
    snapshot: &Snapshot,
) -> Result<Judged, TextFault>
    requires whole { failure lines.old ≡ None }
    ensures same_source { lines.new.source.ghost_name ≡ lines.old.source.ghost_name }
    ensures judged { IfOk result (IsJudged (text S.left lines.old) snapshot.now) }
    ensures refused { IfErr result (IsRefusedCertified (text S.left lines.old) snapshot.now) }
    ensures takes { TakesCertified (text S.left lines.old) snapshot.now result }
    ensures ended { OnOk result (IsAtEnd (S.left lines.new.source.now)) }
    ensures shows { IfErr result (λ fault.
        FaultShows (text S.left lines.old) fault (S.left lines.new.source.now)) }
    ensures read { IsErrOf result TextFault.Read
        → Rose (S.faults lines.old.source.now) (S.faults lines.new.source.now) }
    ensures counted { S.faults lines.old.source.now ≤ S.faults lines.new.source.now }
{
    let stated = match read_answer(runtime.alloc, lines, snapshot) {
        Ok(stated) => stated,
        Err(fault) => return Err(fault),
    };
    match judge_tree(runtime, lines, snapshot, &stated) {
        Ok(verdict) => Ok(Judged {
            cost: stated.cost,
            bound: stated.bound,
            verdict,
        }),
        Err(fault) => Err(fault),
    }
}

/// Reads a case, an answer to it and a certificate, one after the other, and the text to its end, and says
/// whether the certificate proves the answer.
///
/// The certificate is checked while it is read, at most 256 twigs at a time: the runtime's crew judges the
/// leaves among them. The answer's plan need not be feasible.
///
/// The first bad line decides, with its number and one code, also if it comes after what makes the verdict a
/// no. Its end shows in the bytes that were taken. `Read` comes only where a read of the source failed.
pub fn read_check<S: Source, C: JudgingCrew, G: Gate>(
    runtime: &Runtime<C, G>,
    lines: &mut LineReader<S>,
) -> Result<Checked, TextFault>
    requires whole { failure lines.old ≡ None }
    ensures same_source { lines.new.source.ghost_name ≡ lines.old.source.ghost_name }
    ensures checked { IfOk result (IsChecked (text S.left lines.old)) }
    ensures told { IfOk result (λ checked. IsToldOf checked.snapshot checked.verdict) }
    ensures refused { IfErr result (IsRefusedCheck (text S.left lines.old)) }
    ensures takes { TakesChecks (text S.left lines.old) result }
    ensures ended { OnOk result (IsAtEnd (S.left lines.new.source.now)) }
    ensures shows { IfErr result (λ fault.
        FaultShows (text S.left lines.old) fault (S.left lines.new.source.now)) }
    ensures read { IsErrOf result TextFault.Read
        → Rose (S.faults lines.old.source.now) (S.faults lines.new.source.now) }
    ensures counted { S.faults lines.old.source.now ≤ S.faults lines.new.source.now }
{
    let snapshot = match read_case(runtime.alloc, lines) {
        Ok(snapshot) => snapshot,
        Err(fault) => return Err(fault),
    };
    match judge(runtime, lines, &snapshot) {
        Ok(judged) => Ok(Checked {
            snapshot,
            cost: judged.cost,
            bound: judged.bound,
            verdict: judged.verdict,
        }),
        Err(fault) => Err(fault),
    }
}
