// Queries.
ghost use Rattle.std.specs.Prelude.{◌≡◌, ◌==◌, Some};
ghost use Rattle.std.specs.List.{list_any};
ghost use Rattle.archive_policy.specs.Kinds.{is_among};
ghost use Rattle.sack_history.specs.Answering.{lacks_granularity, lacks_kind, query_refusal};
ghost use Rattle.sack_state.specs.Answering.{AnswersFrom, answer_fault_of};
ghost use Rattle.sack_state.specs.Books.{AreWhole};

use crate::books::Books;
use crate::claiming::fault_of_shelf;
use archive_policy::{Definition, Kind, Policy};
use gno_disk::Disk;
use gno_num::Span;
use sack_history::{AnswerFault, SackFault};
use series_model::{Answer, MetricId, Query};
use shelf_query::answer_of;
use std::alloc::Global;

/// Whether a kind is one of these.
fn is_among(kinds: &[Kind], kind: Kind) -> bool
    ensures { result ≡ is_among kinds.now kind }
{
    kinds.iter().any(|k| k.index() == kind.index())
}

/// Whether one of these definitions has a granularity.
fn have_granularity(definitions: &[Definition], span: Span) -> bool
    ensures { result ≡ list_any (λ d. d.granularity == span) definitions.now }
{
    definitions
        .iter()
        .any(|d| d.granularity.nanos() == span.nanos())
}

/// Whether a policy lacks the kind that is asked for; what is no kind is one that it lacks.
fn lacks_kind(policy: &Policy, kind: Option<Kind>) -> bool
    ensures { result ≡ lacks_kind policy.now kind }
{
    match kind {
        Some(kind) => !is_among(policy.kinds(), kind),
        None => true,
    }
}

/// Whether a policy lacks the granularity that is asked for, where one is.
fn lacks_granularity(policy: &Policy, granularity: Option<Span>) -> bool
    ensures { result ≡ lacks_granularity policy.now granularity }
{
    match granularity {
        Some(span) => !have_granularity(policy.definitions(), span),
        None => false,
    }
}

/// Why a query is refused, of a metric with this policy.
fn query_refusal(policy: &Policy, query: &Query) -> Option<AnswerFault>
    ensures { result ≡ query_refusal query.now (Some policy.now) }
{
    if lacks_kind(policy, query.kind) {
        return Some(AnswerFault::NoAggregation);
    }
    if lacks_granularity(policy, query.granularity) {
        return Some(AnswerFault::NoGranularity);
    }
    None
}

/// How a query answers a fault.
pub fn answering_fault(fault: SackFault) -> AnswerFault
    ensures { result ≡ answer_fault_of fault }
{
    match fault {
        SackFault::Unknown => AnswerFault::Unknown,
        SackFault::Spent(spent) => AnswerFault::Spent(spent),
        SackFault::DiskFault(fault) => AnswerFault::DiskFault(fault),
        SackFault::Damaged(damaged) => AnswerFault::Damaged(damaged),
        SackFault::Memory => AnswerFault::Memory,
    }
}

impl<D: Disk> Books<D> {
    /// The rows that a query of a live metric asks for. It reads, and writes nothing.
    pub fn answer(
        &mut self,
        alloc: Global,
        metric: MetricId,
        query: &Query,
    ) -> Result<Answer, AnswerFault>
        requires { AreWhole self.old }
        ensures { AnswersFrom D.Disk metric query.now self.old self.new result }
    {
        let before = self.faults();
        let Some(policy) = self.shelf.policy_of(metric) else {
            return Err(AnswerFault::Unknown);
        };
        if let Some(refusal) = query_refusal(policy, query) {
            return Err(refusal);
        }
        let Some(kind) = query.kind else {
            return Err(AnswerFault::NoAggregation);
        };
        match answer_of(alloc, &mut self.shelf, metric, kind, query) {
            Ok(rows) => Ok(rows),
            Err(fault) => Err(answering_fault(fault_of_shelf(fault, before, self.faults()))),
        }
    }
}
