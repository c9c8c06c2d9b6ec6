// The metrics of a resource.
ghost use Rattle.std.specs.Prelude.{◌≡◌, ◌+◌, ◌<◌, ◌^◌, ◌++◌, ◌∷◌, [], List, length, map, filter, take, unwrap_or, IfOk, IfErr, OnOk, Ok, None, Some};
ghost use Rattle.std.specs.Borrow.{Bor};
ghost use Rattle.front_api.specs.Seen.{LeadsTo};
ghost use Rattle.front_api.specs.declared.command.MetricDoc.{MetricDoc};
ghost use Rattle.front_api.specs.declared.command.Reply.{Reply};
ghost use Rattle.front_api.specs.declared.fault.ControlFault.{ControlFault};
ghost use Rattle.front_api.specs.Front.{Controls};
ghost use Rattle.front_api.specs.Maps.{is_in};
ghost use Rattle.front_api.specs.Tables.{name_cmp};
ghost use Rattle.control_docs.specs.Lists.{list_front};
ghost use Rattle.rest_api.specs.Doing.{TellsError};
ghost use Rattle.rest_api.specs.Members.{AddsMembers, AreItsMetrics, FindsResource, ListsItsMetrics, OnResourceMetrics, StopsAdding, WithResource, borrowed, documents_made, member_command};
ghost use Rattle.rest_api.specs.Shown.{list_text, metric_shown, text_behind};
ghost use Rattle.rest_replies.specs.Faults.{control_error};
ghost use Rattle.rest_replies.specs.Handled.{AnswersWith, IsNoMemory};

use crate::shown::{metrics_in, push_metric};
use archive_policy::Name;
use control_docs::{begin_list, end_list, read_metrics_of_resource};
use front_api::{Command, ControlFault, Front, MetricDoc};
use gno_num::Memory;
use rest_replies::{ErrorCode, Handled, HttpStatus, NamedIn, RestError};
use rest_routes::Method;
use std::alloc::Global;
use std::cmp::Ordering;

/// The metrics of a resource: all of them, or some more.
pub(crate) fn resource_metrics<F: Front>(
    front: &mut F,
    alloc: Global,
    id: Option<u128>,
    method: Method,
    body: &[u8],
) -> Handled
    ensures does { LeadsTo F.stands front.old front.new (OnResourceMetrics id method body.now result) }
    ensures same { (F.sack_count front.new ≡ F.sack_count front.old) × (F.duty front.new ≡ F.duty front.old) × (F.made front.new ≡ F.made front.old) }
{
    match method {
        Method::Post => match read_metrics_of_resource(alloc, body) {
            Ok(members) => add_to(front, alloc, id, &members),
            Err(fault) => Handled::of_error(alloc, fault.into(), Some(0)),
        },
        Method::Get | Method::Delete => tell_its_metrics(front, alloc, id),
    }
}

fn tell_its_metrics<F: Front>(front: &mut F, alloc: Global, id: Option<u128>) -> Handled
    ensures does { LeadsTo F.stands front.old front.new (WithResource None id ListsItsMetrics result) }
    ensures same { (F.sack_count front.new ≡ F.sack_count front.old) × (F.duty front.new ≡ F.duty front.old) × (F.made front.new ≡ F.made front.old) }
{
    match find_resource(front, alloc, id, None) {
        Ok(resource) => list_its_metrics(front, alloc, resource),
        Err(answer) => answer,
    }
}

fn add_to<F: Front>(
    front: &mut F,
    alloc: Global,
    id: Option<u128>,
    members: &[(Name, Option<Name>)],
) -> Handled
    ensures does { LeadsTo F.stands front.old front.new (WithResource (Some 0) id (λ resource. AddsMembers resource members.now) result) }
    ensures same { (F.sack_count front.new ≡ F.sack_count front.old) × (F.duty front.new ≡ F.duty front.old) × (F.made front.new ≡ F.made front.old) }
{
    match find_resource(front, alloc, id, Some(0)) {
        Ok(resource) => add_members(front, alloc, resource, members),
        Err(answer) => answer,
    }
}

/// Asks for the resource that the path names. Where there is none, this is what is answered, with how
/// many members of the body stand, where that is told.
fn find_resource<F: Front>(
    front: &mut F,
    alloc: Global,
    id: Option<u128>,
    stored: Option<u64>,
) -> Result<u128, Handled>
    ensures does { LeadsTo F.stands front.old front.new (FindsResource stored id result) }
    ensures same { (F.sack_count front.new ≡ F.sack_count front.old) × (F.duty front.new ≡ F.duty front.old) × (F.made front.new ≡ F.made front.old) }
{
    match id {
        Some(resource) => ask_resource(front, alloc, resource, stored),
        None => {
            let error = RestError::of(ErrorCode::ResourceUnknown);
            Err(Handled::of_error(alloc, error, stored))
        }
    }
}

fn ask_resource<F: Front>(
    front: &mut F,
    alloc: Global,
    resource: u128,
    stored: Option<u64>,
) -> Result<u128, Handled>
    ensures does { LeadsTo F.stands front.old front.new (FindsResource stored (Some resource) result) }
    ensures same { (F.sack_count front.new ≡ F.sack_count front.old) × (F.duty front.new ≡ F.duty front.old) × (F.made front.new ≡ F.made front.old) }
{
    match front.control(alloc, &Command::GetResource(resource)) {
        Ok(_) => Ok(resource),
        Err(fault) => {
            let error = RestError::of_command(fault, NamedIn::Path);
            Err(Handled::of_error(alloc, error, stored))
        }
    }
}

// ---- those that it has

/// Lists all metrics, and tells those of the resource.
fn list_its_metrics<F: Front>(front: &mut F, alloc: Global, resource: u128) -> Handled
    ensures does { LeadsTo F.stands front.old front.new (ListsItsMetrics resource result) }
    ensures same { (F.sack_count front.new ≡ F.sack_count front.old) × (F.duty front.new ≡ F.duty front.old) × (F.made front.new ≡ F.made front.old) }
{
    match front.control(alloc, &Command::ListMetrics) {
        Ok(reply) => match text_of_its(alloc, resource, metrics_in(&reply)) {
            Ok(text) => Handled::with_body(HttpStatus::Okay, text),
            Err(Memory) => Handled::no_memory(alloc),
        },
        Err(fault) => {
            let error = RestError::of_command(fault, NamedIn::Path);
            Handled::of_error(alloc, error, None)
        }
    }
}

fn text_of_its(alloc: Global, resource: u128, docs: &[MetricDoc]) -> Result<Vec<u8>, Memory>
    ensures { IfOk result (λ text. (its : List MetricDoc) × AreItsMetrics resource docs.now its
        × (text.items ≡ list_text (map metric_shown its))) }
{
    let its = its_metrics(alloc, resource, docs)?;
    let mut text = Vec::new(alloc);
    push_borrowed(&its, &mut text)?;
    Ok(text)
}

/// Those of these metrics that are in the resource, by rising name.
fn its_metrics<'d>(
    alloc: Global,
    resource: u128,
    docs: &'d [MetricDoc],
) -> Result<Vec<&'d MetricDoc>, Memory>
    ensures { IfOk result (λ its. AreItsMetrics resource docs.now (borrowed its.items)) }
{
    let mut its = in_resource(alloc, resource, docs)?;
    its.sort_by(|one, other| by_name(one, other))?;
    Ok(its)
}

fn in_resource<'d>(
    alloc: Global,
    resource: u128,
    docs: &'d [MetricDoc],
) -> Result<Vec<&'d MetricDoc>, Memory>
    ensures { IfOk result (λ its. borrowed its.items ≡ filter (is_in resource) docs.now) }
{
    let mut its = Vec::new(alloc);
    for doc in docs {
        if doc.resource == Some(resource) {
            its.push(doc)?;
        }
    }
    Ok(its)
}

fn by_name(one: &MetricDoc, other: &MetricDoc) -> Ordering
    ensures { result ≡ name_cmp (unwrap_or one.now.name []) (unwrap_or other.now.name []) }
{
    name_of(one).cmp(name_of(other))
}

fn name_of(doc: &MetricDoc) -> &[u8]
    ensures { result.now ≡ unwrap_or doc.now.name [] }
{
    match &doc.name {
        Some(name) => name.bytes(),
        None => b"",
    }
}

fn push_borrowed(docs: &[&MetricDoc], text: &mut Vec<u8>) -> Result<(), Memory>
    ensures { OnOk result (text.new.items ≡ text.old.items ++ list_text (map metric_shown (borrowed docs.now))) }
{
    begin_list(text)?;
    for (place, doc) in docs.iter().enumerate() {
        push_metric(doc, place, text)?;
    }
    end_list(text)?;
    Ok(())
}

// ---- new ones

/// Why no more members are added.
#[derive(Clone, Copy, Debug, PartialEq, Eq)]
enum AddStop {
    /// There was no memory.
    Starved,
    Refused(ControlFault),
}

/// Adds metrics to a resource one after another, up to the first refusal, which is told with how many
/// stand; else the documents of the new ones are told.
fn add_members<F: Front>(
    front: &mut F,
    alloc: Global,
    resource: u128,
    members: &[(Name, Option<Name>)],
) -> Handled
    ensures does { LeadsTo F.stands front.old front.new (AddsMembers resource members.now result) }
    ensures same { (F.sack_count front.new ≡ F.sack_count front.old) × (F.duty front.new ≡ F.duty front.old) × (F.made front.new ≡ F.made front.old) }
{
    match begun_list(alloc) {
        Ok(text) => add_each(front, alloc, resource, members, text),
        Err(Memory) => Handled::no_memory(alloc),
    }
}

/// A list of documents that is begun.
fn begun_list(alloc: Global) -> Result<Vec<u8>, Memory>
    ensures { IfOk result (λ text. text.items ≡ list_front []) }
{
    let mut text = Vec::new(alloc);
    begin_list(&mut text)?;
    Ok(text)
}

fn add_each<F: Front>(
    front: &mut F,
    alloc: Global,
    resource: u128,
    members: &[(Name, Option<Name>)],
    text: Vec<u8>,
) -> Handled
    requires { text.items ≡ list_front [] }
    ensures does { LeadsTo F.stands front.old front.new (AddsMembers resource members.now result) }
    ensures same { (F.sack_count front.new ≡ F.sack_count front.old) × (F.duty front.new ≡ F.duty front.old) × (F.made front.new ≡ F.made front.old) }
{
    let mut text = text;
    let mut count = 0;
    for (stored, member) in members.iter().enumerate() {
        match add_member(front, alloc, resource, member, count, &mut text) {
            Ok(more) => count = more,
            Err(stop) => return stopped(alloc, stop, stored as u64),
        }
    }
    whole_list(alloc, text)
}

/// Adds a member, and its document behind so many others. Gives how many there are then.
fn add_member<F: Front>(
    front: &mut F,
    alloc: Global,
    resource: u128,
    member: &(Name, Option<Name>),
    count: usize,
    text: &mut Vec<u8>,
) -> Result<usize, AddStop>
    requires { count + 1 < 2 ^ 64 }
    ensures added { IfOk result (λ more. (reply : Reply) × (more ≡ count + length (documents_made reply))
        × (text.new.items ≡ text.old.items ++ text_behind count (documents_made reply))
        × LeadsTo F.stands front.old front.new (Controls (member_command resource member.now) (Ok reply))) }
    ensures stopped { IfErr result (λ stop. LeadsTo F.stands front.old front.new (StopsAdding resource member.now stop)) }
    ensures same { (F.sack_count front.new ≡ F.sack_count front.old) × (F.duty front.new ≡ F.duty front.old) × (F.made front.new ≡ F.made front.old) }
{
    let Ok(command) = member_command(resource, member) else {
        return Err(AddStop::Starved);
    };
    match front.control(alloc, &command) {
        Ok(reply) => match push_made(metrics_in(&reply), count, text) {
            Ok(more) => Ok(more),
            Err(Memory) => Err(AddStop::Starved),
        },
        Err(fault) => Err(AddStop::Refused(fault)),
    }
}

/// The command that adds a member.
fn member_command(resource: u128, member: &(Name, Option<Name>)) -> Result<Command, Memory>
    ensures { IfOk result (λ command. command ≡ member_command resource member.now) }
{
    let name = member.0.copy()?;
    let policy = match &member.1 {
        Some(policy) => Some(policy.copy()?),
        None => None,
    };
    Ok(Command::AddMetric {
        policy,
        name: Some(name),
        unit: None,
        resource: Some(resource),
    })
}

/// Appends the first of these documents behind so many others. Gives how many there are then.
fn push_made(docs: &[MetricDoc], count: usize, text: &mut Vec<u8>) -> Result<usize, Memory>
    requires { count + 1 < 2 ^ 64 }
    ensures { IfOk result (λ more. (more ≡ count + length (map metric_shown (take 1 docs.now)))
        × (text.new.items ≡ text.old.items ++ text_behind count (map metric_shown (take 1 docs.now)))) }
{
    match docs {
        [first, ..] => {
            push_metric(first, count, text)?;
            Ok(count + 1)
        }
        [] => Ok(count),
    }
}

/// What is told where no more members are added.
fn stopped(alloc: Global, stop: AddStop, stored: u64) -> Handled
    ensures starved { stop ≡ AddStop.Starved → IsNoMemory result }
    ensures refused { (fault : ControlFault) → stop ≡ AddStop.Refused fault
        → TellsError (control_error NamedIn.Both fault) (Some stored) result }
{
    match stop {
        AddStop::Starved => Handled::no_memory(alloc),
        AddStop::Refused(fault) => {
            let error = RestError::of_command(fault, NamedIn::Both);
            Handled::of_error(alloc, error, Some(stored))
        }
    }
}

/// Tells the list whose documents were written.
fn whole_list(alloc: Global, text: Vec<u8>) -> Handled
    ensures { AnswersWith result HttpStatus.Created [] (text.items ++ 93 ∷ []) }
{
    let mut text = text;
    match end_list(&mut text) {
        Ok(()) => Handled::with_body(HttpStatus::Created, text),
        Err(Memory) => Handled::no_memory(alloc),
    }
}
