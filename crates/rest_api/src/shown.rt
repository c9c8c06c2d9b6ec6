// What is shown of replies.
ghost use Rattle.std.specs.Prelude.{◌≡◌, ◌++◌, [], map, IfOk, OnOk};
ghost use Rattle.rest_api.specs.Shown.{documents_of, first_id, first_text, list_text, metric_shown, metrics_in, resource_shown, shown_status, shown_text};
ghost use Rattle.rest_replies.specs.Handled.{AnswersWith};
ghost use Rattle.control_docs.specs.Lists.{separator};
ghost use Rattle.serde_json.specs.Written.{compact_text};

use control_docs::{
    begin_list, end_list, metric_document, next_in_list, policy_document, policy_list,
    resource_document, rule_document, rule_list,
};
use front_api::{MetricDoc, Reply, ResourceDoc};
use gno_num::Memory;
use rest_replies::{Handled, HttpStatus};
use series_model::MetricId;
use std::alloc::Global;

/// What is shown of the reply to a command that is done.
#[derive(Clone, Copy, Debug, PartialEq, Eq)]
pub(crate) enum Shown {
    /// The list of the documents.
    Listed,
    /// The document.
    Single,
    /// The document of what was made.
    Made,
    /// That it is gone.
    Gone,
}

/// The answer that shows a reply.
pub(crate) fn show(alloc: Global, reply: &Reply, shown: Shown) -> Handled
    ensures { AnswersWith result (shown_status shown) [] (shown_text shown reply.now) }
{
    match text_of(alloc, reply, shown) {
        Ok(text) => Handled::with_body(status_of(shown), text),
        Err(Memory) => Handled::no_memory(alloc),
    }
}

fn status_of(shown: Shown) -> HttpStatus
    ensures { result ≡ shown_status shown }
{
    match shown {
        Shown::Listed | Shown::Single => HttpStatus::Okay,
        Shown::Made => HttpStatus::Created,
        Shown::Gone => HttpStatus::NoContent,
    }
}

fn text_of(alloc: Global, reply: &Reply, shown: Shown) -> Result<Vec<u8>, Memory>
    ensures { IfOk result (λ text. text.items ≡ shown_text shown reply.now) }
{
    let mut text = Vec::new(alloc);
    match shown {
        Shown::Listed => push_list(reply, &mut text)?,
        Shown::Single | Shown::Made => push_first(reply, &mut text)?,
        Shown::Gone => {}
    }
    Ok(text)
}

// After `Memory` some first bytes may be appended; so with the functions below.
fn push_list(reply: &Reply, text: &mut Vec<u8>) -> Result<(), Memory>
    ensures { OnOk result (text.new.items ≡ text.old.items ++ list_text (documents_of reply.now)) }
{
    match reply {
        Reply::Done => push_metrics(&[], text),
        Reply::Policies(policies) => policy_list(policies.items(), text),
        Reply::Rules(rules) => rule_list(rules.items(), text),
        Reply::Metrics(docs) => push_metrics(docs.items(), text),
        Reply::Resources(docs) => push_resources(docs.items(), text),
    }
}

fn push_metrics(docs: &[MetricDoc], text: &mut Vec<u8>) -> Result<(), Memory>
    ensures { OnOk result (text.new.items ≡ text.old.items ++ list_text (map metric_shown docs.now)) }
{
    begin_list(text)?;
    for (place, doc) in docs.iter().enumerate() {
        push_metric(doc, place, text)?;
    }
    end_list(text)?;
    Ok(())
}

/// Appends the document of a metric behind so many others of a list.
pub(crate) fn push_metric(doc: &MetricDoc, count: usize, text: &mut Vec<u8>) -> Result<(), Memory>
    ensures { OnOk result (text.new.items ≡ text.old.items ++ (separator count ++ compact_text (metric_shown doc.now))) }
{
    next_in_list(count, text)?;
    push_document(doc, text)
}

fn push_document(doc: &MetricDoc, text: &mut Vec<u8>) -> Result<(), Memory>
    ensures { OnOk result (text.new.items ≡ text.old.items ++ compact_text (metric_shown doc.now)) }
{
    metric_document(
        doc.id,
        &doc.policy,
        &doc.name,
        &doc.unit,
        doc.resource,
        text,
    )
}

fn push_resources(docs: &[ResourceDoc], text: &mut Vec<u8>) -> Result<(), Memory>
    ensures { OnOk result (text.new.items ≡ text.old.items ++ list_text (map resource_shown docs.now)) }
{
    begin_list(text)?;
    for (place, doc) in docs.iter().enumerate() {
        push_resource(doc, place, text)?;
    }
    end_list(text)?;
    Ok(())
}

fn push_resource(doc: &ResourceDoc, count: usize, text: &mut Vec<u8>) -> Result<(), Memory>
    ensures { OnOk result (text.new.items ≡ text.old.items ++ (separator count ++ compact_text (resource_shown doc.now))) }
{
    next_in_list(count, text)?;
    push_resource_document(doc, text)
}

fn push_resource_document(doc: &ResourceDoc, text: &mut Vec<u8>) -> Result<(), Memory>
    ensures { OnOk result (text.new.items ≡ text.old.items ++ compact_text (resource_shown doc.now)) }
{
    resource_document(doc.id, doc.metrics.items(), text)
}

#[tactic(auto, using(crate::proofs::ListLemmas::first_shown))]
fn push_first(reply: &Reply, text: &mut Vec<u8>) -> Result<(), Memory>
    ensures { OnOk result (text.new.items ≡ text.old.items ++ first_text (documents_of reply.now)) }
{
    match reply {
        Reply::Done => Ok(()),
        Reply::Policies(policies) => match policies.items() {
            [first, ..] => policy_document(first, text),
            [] => Ok(()),
        },
        Reply::Rules(rules) => match rules.items() {
            [first, ..] => rule_document(first, text),
            [] => Ok(()),
        },
        Reply::Metrics(docs) => match docs.items() {
            [first, ..] => push_document(first, text),
            [] => Ok(()),
        },
        Reply::Resources(docs) => match docs.items() {
            [first, ..] => push_resource_document(first, text),
            [] => Ok(()),
        },
    }
}

/// The metrics of a reply.
pub(crate) fn metrics_in(reply: &Reply) -> &[MetricDoc]
    ensures { result.now ≡ metrics_in reply.now }
{
    match reply {
        Reply::Metrics(docs) => docs.items(),
        _ => &[],
    }
}

/// The identifier of the first metric of a reply.
pub(crate) fn first_id(reply: &Reply) -> Option<MetricId>
    ensures { result ≡ first_id (metrics_in reply.now) }
{
    match metrics_in(reply) {
        [first, ..] => Some(first.id),
        [] => None,
    }
}
