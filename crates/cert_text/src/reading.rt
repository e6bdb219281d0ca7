//! Reading whole certificates.
ghost use Rattle.std.specs.Prelude.{◌≡◌, ◌≤◌, None, Some, Ok, Err, Option, IfErr, IfOk, IfSome, OnOk};
ghost use Rattle.std.specs.Prelude.{IsErrOf};
ghost use Rattle.byte_streams.specs.Streams.{Rose};
ghost use Rattle.lift_text.specs.Reading.{TextState};
ghost use Rattle.lift_text.specs.LineReader.{text, failure};
ghost use Rattle.lift_text.specs.Shows.{FaultShows, WentOn};
ghost use Rattle.cert_text.specs.Trees.{IsWithin};
ghost use Rattle.cert_text.specs.Certs.{IsReadCert, IsRefusedCert, IsSaid, ReadsLines};
ghost use Rattle.cert_text.specs.Written.{ReadsText};
ghost use Rattle.cert_text.specs.Readers.{IsRefused, AddsFor, TellsFor, failure_of};

use crate::readers::TreeReader;
use call_state::Snapshot;
use lift_text::{LineReader, Source, TextFault};
use search_model::{Items, Twig};
use std::alloc::Global;

/// Reads a twig and adds it to the tree. True where the tree is complete, and no twig is left.
fn read_twig<S: Source>(
    reader: &mut TreeReader,
    lines: &mut LineReader<S>,
    snapshot: &Snapshot,
    tree: &mut Items<Twig>,
) -> Result<bool, TextFault>
    requires whole { failure lines.old ≡ None }
    requires sound { failure_of reader.old.begun ≡ None }
    ensures same_source { lines.new.source.ghost_name ≡ lines.old.source.ghost_name }
    ensures adds { AddsFor snapshot.now reader.old tree.old (text S.left lines.old)
        result reader.new tree.new (text S.left lines.new) }
    ensures sound { OnOk result (failure_of reader.new.begun ≡ None) }
    ensures went { OnOk result (WentOn (text S.left lines.old) (text S.left lines.new)) }
    ensures shows { IfErr result (λ fault.
        FaultShows (text S.left lines.old) fault (S.left lines.new.source.now)) }
    ensures ok { OnOk result (failure lines.new ≡ None) }
    ensures fault { IfSome (failure lines.new) (λ fault. result ≡ Err fault) }
    ensures read { IsErrOf result TextFault.Read
        → Rose (S.faults lines.old.source.now) (S.faults lines.new.source.now) }
    ensures counted { S.faults lines.old.source.now ≤ S.faults lines.new.source.now }
{
    match reader.next(lines, snapshot)? {
        Some(twig) => {
            tree.push(twig)?;
            Ok(false)
        }
        None => Ok(true),
    }
}

/// Reads all twigs that are left and adds them to the tree.
fn read_twigs<S: Source>(
    reader: &mut TreeReader,
    lines: &mut LineReader<S>,
    snapshot: &Snapshot,
    tree: &mut Items<Twig>,
) -> Result<(), TextFault>
    requires whole { failure lines.old ≡ None }
    requires sound { failure_of reader.old.begun ≡ None }
    ensures same_source { lines.new.source.ghost_name ≡ lines.old.source.ghost_name }
    ensures tells { TellsFor snapshot.now reader.old tree.old (text S.left lines.old)
        result tree.new (text S.left lines.new) }
    ensures went { OnOk result (WentOn (text S.left lines.old) (text S.left lines.new)) }
    ensures shows { IfErr result (λ fault.
        FaultShows (text S.left lines.old) fault (S.left lines.new.source.now)) }
    ensures ok { OnOk result (failure lines.new ≡ None) }
    ensures fault { IfSome (failure lines.new) (λ fault. result ≡ Err fault) }
    ensures read { IsErrOf result TextFault.Read
        → Rose (S.faults lines.old.source.now) (S.faults lines.new.source.now) }
    ensures counted { S.faults lines.old.source.now ≤ S.faults lines.new.source.now }
{
    // No list holds more twigs than these.
    for _ in 0..u64::MAX {
        let is_whole = read_twig(reader, lines, snapshot, tree)?;
        if is_whole {
            return Ok(());
        }
    }
    Err(TextFault::NoMemory)
}

/// Reads a section, up to its line `end`.
fn read<S: Source>(
    alloc: Global,
    lines: &mut LineReader<S>,
    snapshot: &Snapshot,
) -> Result<Items<Twig>, TextFault>
    ensures same_source { lines.new.source.ghost_name ≡ lines.old.source.ghost_name }
    ensures said { failure lines.old ≡ None → IfOk result (λ tree.
        IsSaid (text S.left lines.old) snapshot.now tree (text S.left lines.new)) }
    ensures within { failure lines.old ≡ None → IfOk result (IsWithin snapshot.now) }
    ensures refused { failure lines.old ≡ None → IfErr result (λ fault.
        IsRefused snapshot.now (text S.left lines.old) fault) }
    ensures again { IfSome (failure lines.old) (λ fault. result ≡ Err fault) }
    ensures went { failure lines.old ≡ None
        → OnOk result (WentOn (text S.left lines.old) (text S.left lines.new)) }
    ensures shows { failure lines.old ≡ None → IfErr result (λ fault.
        FaultShows (text S.left lines.old) fault (S.left lines.new.source.now)) }
    ensures ok { OnOk result (failure lines.new ≡ None) }
    ensures fault { IfSome (failure lines.new) (λ fault. result ≡ Err fault) }
    ensures read { failure lines.old ≡ None → IsErrOf result TextFault.Read
        → Rose (S.faults lines.old.source.now) (S.faults lines.new.source.now) }
    ensures counted { S.faults lines.old.source.now ≤ S.faults lines.new.source.now }
{
    let mut reader = TreeReader::begin(alloc, lines)?;
    let mut tree = Items::new(alloc);
    read_twigs(&mut reader, lines, snapshot, &mut tree)?;
    Ok(tree)
}

/// Reads a certificate section up to its line `end`: what follows it stays unread. The allocator comes
/// first. The twigs are those of `TreeReader`, and so are the codes.
pub fn read_cert<S: Source>(
    alloc: Global,
    lines: &mut LineReader<S>,
    snapshot: &Snapshot,
) -> Result<Items<Twig>, TextFault>
    ensures same_source { lines.new.source.ghost_name ≡ lines.old.source.ghost_name }
    ensures answer { failure lines.old ≡ None → IfOk result (λ tree.
        IsReadCert (text S.left lines.old) snapshot.now tree (text S.left lines.new)) }
    ensures refused { failure lines.old ≡ None → IfErr result (λ fault.
        IsRefusedCert (text S.left lines.old) snapshot.now fault (text S.left lines.new)) }
    ensures said { failure lines.old ≡ None → IfOk result (λ tree.
        IsSaid (text S.left lines.old) snapshot.now tree (text S.left lines.new)) }
    ensures lines { failure lines.old ≡ None
        → ReadsLines (text S.left lines.old) snapshot.now result (text S.left lines.new) }
    ensures written { failure lines.old ≡ None
        → ReadsText (text S.left lines.old) snapshot.now result (text S.left lines.new) }
    ensures within { failure lines.old ≡ None → IfOk result (IsWithin snapshot.now) }
    ensures again { IfSome (failure lines.old) (λ fault. result ≡ Err fault) }
    ensures went { failure lines.old ≡ None
        → OnOk result (WentOn (text S.left lines.old) (text S.left lines.new)) }
    ensures shows { failure lines.old ≡ None → IfErr result (λ fault.
        FaultShows (text S.left lines.old) fault (S.left lines.new.source.now)) }
    ensures ok { OnOk result (failure lines.new ≡ None) }
    ensures fault { IfSome (failure lines.new) (λ fault. result ≡ Err fault) }
    ensures read { failure lines.old ≡ None → IsErrOf result TextFault.Read
        → Rose (S.faults lines.old.source.now) (S.faults lines.new.source.now) }
    ensures counted { S.faults lines.old.source.now ≤ S.faults lines.new.source.now }
{
    // For the proof: no two calls have the same id.
    let _calls = snapshot.calls();
    read(alloc, lines, snapshot)
}
