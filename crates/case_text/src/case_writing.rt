//! Writing cases.
ghost use Rattle.std.specs.Prelude.{◌≡◌, ◌++◌, OnErr, OnOk};
ghost use Rattle.case_text.specs.CaseTexts.{HasText, IsCaseText, case_text};

use building_text::write_building;
use call_state::Snapshot;
use snapshot_text::write_snapshot;
use std::alloc::{AllocError, Global};

/// Appends the canonical text of a snapshot's building and then of the snapshot.
///
/// What is written is the text of that snapshot: it is read as it again. The only error is that memory runs
/// out, which leaves `out` as it was.
#[tactic(auto, using(crate::proofs::AgainLemmas::case_again))]
pub fn write_case(alloc: Global, snapshot: &Snapshot, out: &mut Vec<u8>) -> Result<(), AllocError>
    ensures text { OnOk result (out.new.items ≡ out.old.items ++ case_text snapshot.now) }
    ensures again { HasText snapshot.now → IsCaseText (case_text snapshot.now) snapshot.now }
    ensures memory { OnErr result (out.new.items ≡ out.old.items) }
{
    let mut text = Vec::new(alloc);
    write_building(alloc, snapshot.building(), &mut text)?;
    write_snapshot(snapshot, &mut text)?;
    out.extend_from_slice(&text)
}
