// Measures posted and read.
ghost use Rattle.std.specs.Prelude.{◌≡◌, [], None, Some};
ghost use Rattle.front_api.specs.Seen.{LeadsTo};
ghost use Rattle.measure_json.specs.Answer.{answer_json};
ghost use Rattle.rest_replies.specs.Error.{plain_error};
ghost use Rattle.rest_replies.specs.Handled.{AnswersWith};
ghost use Rattle.rest_api.specs.Doing.{TellsError};
ghost use Rattle.rest_api.specs.Measures.{AnswersRows, FindsMetric, OfMetric, OfNamed, OnBatch, OnMeasures, OnNamedMeasures, PostsAll, PostsTo, ReadsRows};

use crate::shown::first_id;
use archive_policy::Name;
use front_api::{Command, Front};
use measure_json::{read_batch, read_measures, write_answer};
use measure_query::{Asked, read_query};
use rest_replies::{ErrorCode, Handled, HttpStatus, NamedIn, RestError};
use rest_routes::Method;
use series_model::{Answer, Batch, MetricId};
use std::alloc::Global;

/// The measures of a metric: a batch is posted, or rows are read.
pub(crate) fn measures<F: Front>(
    front: &mut F,
    alloc: Global,
    id: Option<MetricId>,
    method: Method,
    query: &[u8],
    body: &[u8],
) -> Handled
    ensures does { LeadsTo F.stands front.old front.new (OnMeasures id method query.now body.now result) }
    ensures same { (F.sack_count front.new ≡ F.sack_count front.old) × (F.duty front.new ≡ F.duty front.old) × (F.made front.new ≡ F.made front.old) }
{
    match method {
        Method::Post => match read_measures(alloc, body) {
            Ok(batch) => post_of(front, alloc, id, &batch),
            Err(fault) => Handled::of_error(alloc, fault.into(), None),
        },
        Method::Get | Method::Delete => match read_query(alloc, query) {
            Ok(asked) => rows_of(front, alloc, id, &asked),
            Err(fault) => Handled::of_error(alloc, fault.into(), None),
        },
    }
}

/// The measures of a metric that has a name in a resource.
pub(crate) fn named_measures<F: Front>(
    front: &mut F,
    alloc: Global,
    resource: Option<u128>,
    name: Option<Name>,
    method: Method,
    query: &[u8],
    body: &[u8],
) -> Handled
    ensures does { LeadsTo F.stands front.old front.new (OnNamedMeasures resource name method query.now body.now result) }
    ensures same { (F.sack_count front.new ≡ F.sack_count front.old) × (F.duty front.new ≡ F.duty front.old) × (F.made front.new ≡ F.made front.old) }
{
    match method {
        Method::Post => match read_measures(alloc, body) {
            Ok(batch) => named_post(front, alloc, resource, name, &batch),
            Err(fault) => Handled::of_error(alloc, fault.into(), None),
        },
        Method::Get | Method::Delete => match read_query(alloc, query) {
            Ok(asked) => named_rows(front, alloc, resource, name, &asked),
            Err(fault) => Handled::of_error(alloc, fault.into(), None),
        },
    }
}

// ---- the metric

/// That the metric is unknown.
fn unknown_metric(alloc: Global) -> Handled
    ensures { TellsError (plain_error ErrorCode.MetricUnknown) None result }
{
    Handled::of_error(alloc, RestError::of(ErrorCode::MetricUnknown), None)
}

fn post_of<F: Front>(front: &mut F, alloc: Global, id: Option<MetricId>, batch: &Batch) -> Handled
    ensures does { LeadsTo F.stands front.old front.new (OfMetric id (PostsTo batch.now) result) }
    ensures same { (F.sack_count front.new ≡ F.sack_count front.old) × (F.duty front.new ≡ F.duty front.old) × (F.made front.new ≡ F.made front.old) }
{
    match id {
        Some(metric) => post_to(front, alloc, metric, batch),
        None => unknown_metric(alloc),
    }
}

fn rows_of<F: Front>(front: &mut F, alloc: Global, id: Option<MetricId>, asked: &Asked) -> Handled
    ensures does { LeadsTo F.stands front.old front.new (OfMetric id (ReadsRows asked.now) result) }
    ensures same { (F.sack_count front.new ≡ F.sack_count front.old) × (F.duty front.new ≡ F.duty front.old) × (F.made front.new ≡ F.made front.old) }
{
    match id {
        Some(metric) => read_rows(front, alloc, metric, asked),
        None => unknown_metric(alloc),
    }
}

fn named_post<F: Front>(
    front: &mut F,
    alloc: Global,
    resource: Option<u128>,
    name: Option<Name>,
    batch: &Batch,
) -> Handled
    ensures does { LeadsTo F.stands front.old front.new (OfNamed resource name (PostsTo batch.now) result) }
    ensures same { (F.sack_count front.new ≡ F.sack_count front.old) × (F.duty front.new ≡ F.duty front.old) × (F.made front.new ≡ F.made front.old) }
{
    match find_metric(front, alloc, resource, name) {
        Ok(metric) => post_to(front, alloc, metric, batch),
        Err(answer) => answer,
    }
}

fn named_rows<F: Front>(
    front: &mut F,
    alloc: Global,
    resource: Option<u128>,
    name: Option<Name>,
    asked: &Asked,
) -> Handled
    ensures does { LeadsTo F.stands front.old front.new (OfNamed resource name (ReadsRows asked.now) result) }
    ensures same { (F.sack_count front.new ≡ F.sack_count front.old) × (F.duty front.new ≡ F.duty front.old) × (F.made front.new ≡ F.made front.old) }
{
    match find_metric(front, alloc, resource, name) {
        Ok(metric) => read_rows(front, alloc, metric, asked),
        Err(answer) => answer,
    }
}

/// The metric of this name in a resource, or what is answered where there is none.
fn find_metric<F: Front>(
    front: &mut F,
    alloc: Global,
    resource: Option<u128>,
    name: Option<Name>,
) -> Result<MetricId, Handled>
    ensures does { LeadsTo F.stands front.old front.new (FindsMetric resource name result) }
    ensures same { (F.sack_count front.new ≡ F.sack_count front.old) × (F.duty front.new ≡ F.duty front.old) × (F.made front.new ≡ F.made front.old) }
{
    match resource {
        Some(resource) => match name {
            Some(name) => ask_metric(front, alloc, resource, name),
            None => Err(unknown_metric(alloc)),
        },
        None => {
            let error = RestError::of(ErrorCode::ResourceUnknown);
            Err(Handled::of_error(alloc, error, None))
        }
    }
}

fn ask_metric<F: Front>(
    front: &mut F,
    alloc: Global,
    resource: u128,
    name: Name,
) -> Result<MetricId, Handled>
    ensures does { LeadsTo F.stands front.old front.new (FindsMetric (Some resource) (Some name) result) }
    ensures same { (F.sack_count front.new ≡ F.sack_count front.old) × (F.duty front.new ≡ F.duty front.old) × (F.made front.new ≡ F.made front.old) }
{
    let command = Command::FindMetric { resource, name };
    match front.control(alloc, &command) {
        Ok(reply) => match first_id(&reply) {
            Some(metric) => Ok(metric),
            None => Err(unknown_metric(alloc)),
        },
        Err(fault) => {
            let error = RestError::of_command(fault, NamedIn::Path);
            Err(Handled::of_error(alloc, error, None))
        }
    }
}

// ---- a batch

/// Posts a batch to a metric, and tells that it stands.
fn post_to<F: Front>(front: &mut F, alloc: Global, metric: MetricId, batch: &Batch) -> Handled
    ensures does { LeadsTo F.stands front.old front.new (PostsTo batch.now metric result) }
    ensures same { (F.sack_count front.new ≡ F.sack_count front.old) × (F.duty front.new ≡ F.duty front.old) × (F.made front.new ≡ F.made front.old) }
{
    match front.post(alloc, metric, batch) {
        Ok(_) => Handled::without_body(alloc, HttpStatus::Accepted),
        Err(refusal) => Handled::of_error(alloc, refusal.into(), None),
    }
}

/// Posts the batches of several metrics.
pub(crate) fn batch<F: Front>(front: &mut F, alloc: Global, body: &[u8]) -> Handled
    ensures does { LeadsTo F.stands front.old front.new (OnBatch body.now result) }
    ensures same { (F.sack_count front.new ≡ F.sack_count front.old) × (F.duty front.new ≡ F.duty front.old) × (F.made front.new ≡ F.made front.old) }
{
    match read_batch(alloc, body) {
        Ok(entries) => post_all(front, alloc, &entries),
        Err(fault) => Handled::of_error(alloc, fault.into(), Some(0)),
    }
}

/// Posts batches one after another, up to the first refusal, which is told with how many stand.
fn post_all<F: Front>(front: &mut F, alloc: Global, entries: &[(MetricId, Batch)]) -> Handled
    ensures does { LeadsTo F.stands front.old front.new (PostsAll entries.now result) }
    ensures same { (F.sack_count front.new ≡ F.sack_count front.old) × (F.duty front.new ≡ F.duty front.old) × (F.made front.new ≡ F.made front.old) }
{
    for (stored, entry) in entries.iter().enumerate() {
        if let Err(fault) = front.post(alloc, entry.0, &entry.1) {
            return Handled::of_error(alloc, fault.into(), Some(stored as u64));
        }
    }
    Handled::without_body(alloc, HttpStatus::Accepted)
}

// ---- rows

/// Reads the rows that are asked for. Where it is asked, what waits of the metric is processed first.
fn read_rows<F: Front>(front: &mut F, alloc: Global, metric: MetricId, asked: &Asked) -> Handled
    ensures does { LeadsTo F.stands front.old front.new (ReadsRows asked.now metric result) }
    ensures same { (F.sack_count front.new ≡ F.sack_count front.old) × (F.duty front.new ≡ F.duty front.old) × (F.made front.new ≡ F.made front.old) }
{
    if !asked.refresh {
        return answer_rows(front, alloc, metric, asked);
    }
    match front.refresh(alloc, metric) {
        Ok(_) => answer_rows(front, alloc, metric, asked),
        Err(fault) => Handled::of_error(alloc, fault.into(), None),
    }
}

fn answer_rows<F: Front>(front: &mut F, alloc: Global, metric: MetricId, asked: &Asked) -> Handled
    ensures does { LeadsTo F.stands front.old front.new (AnswersRows asked.now metric result) }
    ensures same { (F.sack_count front.new ≡ F.sack_count front.old) × (F.duty front.new ≡ F.duty front.old) × (F.made front.new ≡ F.made front.old) }
{
    match front.answer(alloc, metric, &asked.query) {
        Ok(answer) => rows(alloc, &answer, asked.exact),
        Err(fault) => Handled::of_error(alloc, fault.into(), None),
    }
}

fn rows(alloc: Global, answer: &Answer, exact: bool) -> Handled
    ensures { AnswersWith result HttpStatus.Okay [] (answer_json exact answer.now) }
{
    let mut text = Vec::new(alloc);
    match write_answer(answer, exact, &mut text) {
        Ok(()) => Handled::with_body(HttpStatus::Okay, text),
        Err(_) => Handled::no_memory(alloc),
    }
}
