// The turns of a job's batches.
ghost use Rattle.std.specs.Prelude.{◌≡◌, ◌≤◌, ℕ, List, IfOk};
ghost use Rattle.series_model.specs.declared.measure.Measure.{Measure};
ghost use Rattle.series_model.specs.Accepted.{latest};
ghost use Rattle.series_model.specs.Tail.{accepts_from, tail_of};
ghost use Rattle.regroup.specs.Work.{AreTaken};

use archive_policy::Policy;
use bound_series::{Raw, earlier_of};
use gno_num::{Memory, Stamp};
use series_model::Batch;

/// What turns leave: the kept values without truncation, and the least timestamp that was accepted.
#[derive(Debug, Drop)]
pub struct Turned {
    pub raw: Raw,
    pub from: Option<Stamp>,
}

/// Each batch takes its turn behind the kept values, in order.
pub fn take_turns(policy: &Policy, base: &Raw, batches: &[Batch]) -> Result<Turned, Memory>
    ensures { IfOk result (λ turned. (cut : ℕ) (accepted : List Measure)
        → cut ≤ accepts_from policy.now (latest accepted)
        → base.now ≡ tail_of cut accepted
        → AreTaken policy.now cut accepted batches.now turned.raw turned.from) }
{
    let mut raw = base.copy()?;
    let mut from = None;
    for batch in batches {
        let touched = raw.accept(policy, batch)?;
        from = earlier_of(from, touched.from);
    }
    Ok(Turned { raw, from })
}
