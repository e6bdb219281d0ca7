//! Plans a row.

ghost use Rattle.std.specs.Prelude.{◌≡◌, ◌++◌, ◌≤◌, ◌^◌, All, IfOk, IfSome};
ghost use Rattle.std.specs.Io.{appended_bytes};
ghost use Rattle.search_model.specs.Certificates.{Proves};
ghost use Rattle.search_model.specs.Solving.{floor_of_bound};
ghost use Rattle.search_tree.specs.Sheets.{IsSizedTwig};
ghost use Rattle.answer_text.specs.Plans.{FitsSnapshot};
ghost use Rattle.day_planner.specs.SolvedRows.{IsCertifiedRow, IsSolvedPlan};

use answer_text::write_answer;
use assign_branch::Tree;
use byte_streams::Gate;
use call_state::Snapshot;
use cert_claims::CountingCrew;
use cert_text::write_cert;
use certified_search::certify;
use search_model::{Limits, Stated};
use snapshot_solver::{SearchCrew, solve};
use std::alloc::AllocError;
use work_fan::Runtime;

/// Appends the plan that a search found as an answer with its certificate, whose claims sum to no more than
/// this, and gives it with the bound that the certificate proves. It fails only where there is no memory left:
/// then a beginning of that may be appended.
fn write_certified<C: CountingCrew, G: Gate>(
    runtime: &Runtime<C, G>,
    snapshot: &Snapshot,
    stated: Stated,
    tree: Tree,
    claims: u64,
    log: &mut Vec<u8>,
) -> Result<Stated, AllocError>
    requires proves { Proves snapshot.now stated.plan stated.cost stated.bound tree.twigs }
    requires least { floor_of_bound snapshot.now ≤ stated.bound }
    requires sized { All IsSizedTwig tree.twigs }
    requires tours { FitsSnapshot snapshot.now stated.plan }
    requires claims { claims ≤ 10 ^ 10 }
    ensures plan { IfOk result (λ printed. printed.plan ≡ stated.plan) }
    ensures cost { IfOk result (λ printed. printed.cost ≡ stated.cost) }
    ensures written { IfOk result (λ printed. IsCertifiedRow snapshot.now claims stated tree.twigs
        printed (appended_bytes log.old.items log.new.items)) }
    ensures kept { log.new.items ≡ log.old.items ++ appended_bytes log.old.items log.new.items }
{
    let claimed = certify(runtime, snapshot, &stated, tree, claims)?;
    let printed = Stated {
        bound: claimed.bound,
        ..stated
    };
    write_answer(snapshot, &printed, log)?;
    write_cert(snapshot, claimed.tree.twigs.as_slice(), log)?;
    Ok(printed)
}

/// A plan of the snapshot, as a search within these limits finds it; appended with its certificate where the
/// claims of that have a limit. It fails only where there is no memory left: then a beginning of that may be
/// appended.
pub(crate) fn plan_within<C: SearchCrew + CountingCrew, G: Gate>(
    runtime: &Runtime<C, G>,
    limits: Limits,
    claims: Option<u64>,
    snapshot: &Snapshot,
    log: &mut Vec<u8>,
) -> Result<Stated, AllocError>
    requires claims { IfSome claims (λ most. most ≤ 10 ^ 10) }
    ensures planned { IfOk result (λ stated. IsSolvedPlan limits.rounds limits.most_tours claims
        snapshot.now stated (appended_bytes log.old.items log.new.items)) }
    ensures kept { log.new.items ≡ log.old.items ++ appended_bytes log.old.items log.new.items }
{
    // For the proof: a reader tells that the snapshot keeps the rules.
    let _moment = snapshot.now();
    let found = solve(runtime, snapshot, limits)?;
    let Some(most) = claims else {
        return Ok(found.stated);
    };
    write_certified(runtime, snapshot, found.stated, found.tree, most, log)
}
