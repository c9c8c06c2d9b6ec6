// Commands, as they enter the index and, where they add or drop a metric, the metric's sack.
ghost use Rattle.std.specs.Prelude.{◌≡◌, ◌≤◌, ◌↔◌, ◌∷◌, [], IfOk, IsSome, IsTrue, length, vec_capacity};
ghost use Rattle.front_api.specs.Calls.{IsAdded};
ghost use Rattle.front_api.specs.Front.{Controls, LeavesBroken, NamesMember, creating_refused, dropping_refused};
ghost use Rattle.front_api.specs.Seen.{EntersIndex, LeadsTo};
ghost use Rattle.metric_index.specs.IndexCalls.{IsAddMetric, IsBegunBy};
ghost use Rattle.front.specs.Adding.{AddsDocument, IsDocumentBy};
ghost use Rattle.front.specs.SoloView.{StandsForBooks};

use crate::solo::Solo;
use archive_policy::{Name, Policy};
use front_api::{Command, ControlFault, MetricDoc, Reply};
use gno_disk::Disk;
use gno_num::{List, Memory};
use sack_history::{CreateFault, SackFault};
use series_model::MetricId;
use std::alloc::Global;

/// How it is answered that a new metric wasn't created in its sack.
fn creating_refused(metric: MetricId, fault: CreateFault) -> ControlFault
    ensures { result ≡ creating_refused metric fault }
{
    match fault {
        CreateFault::Exists => ControlFault::IdTaken(metric),
        CreateFault::Spent(spent) => ControlFault::Spent(spent),
        CreateFault::DiskFault(fault) => ControlFault::DiskFault(fault),
        CreateFault::Damaged(damaged) => ControlFault::Damaged(damaged),
        CreateFault::Memory => ControlFault::Memory,
    }
}

/// How it is answered that a metric wasn't dropped in its sack, unless it wasn't live there.
fn dropping_refused(dropping: Result<(), SackFault>) -> Option<ControlFault>
    ensures { result ≡ dropping_refused dropping }
{
    match dropping {
        Ok(()) => None,
        Err(SackFault::Unknown) => None,
        Err(SackFault::Spent(spent)) => Some(ControlFault::Spent(spent)),
        Err(SackFault::DiskFault(fault)) => Some(ControlFault::DiskFault(fault)),
        Err(SackFault::Damaged(damaged)) => Some(ControlFault::Damaged(damaged)),
        Err(SackFault::Memory) => Some(ControlFault::Memory),
    }
}

/// Whether the index isn't known to be as it was, after this refusal.
fn leaves_broken(fault: &ControlFault) -> bool
    ensures { IsTrue result ↔ LeavesBroken fault.now }
{
    matches!(fault, ControlFault::DiskFault(_) | ControlFault::Damaged(_))
}

/// An equal name, where there is one.
fn copy_if_some(name: &Option<Name>) -> Result<Option<Name>, Memory>
    ensures { IfOk result (λ copy. copy ≡ name.now) }
{
    match name {
        Some(name) => {
            let copy = name.copy()?;
            Ok(Some(copy))
        }
        None => Ok(None),
    }
}

/// The document of a new metric.
fn document_of(command: &Command, id: MetricId, policy: &Policy) -> Result<MetricDoc, Memory>
    requires { IsAddMetric command.now }
    ensures { IfOk result (IsDocumentBy command.now id policy.now) }
{
    match command {
        Command::AddMetric {
            policy: _policy,
            name,
            unit,
            resource,
        } => Ok(MetricDoc {
            id,
            policy: policy.name().copy()?,
            name: copy_if_some(name)?,
            unit: copy_if_some(unit)?,
            resource: *resource,
        }),
        _ => unreachable!(),
    }
}

/// A document, and room for the list in which it is answered.
#[derive(Drop)]
struct NewMetric {
    doc: MetricDoc,
    list: Vec<MetricDoc>,
}

/// Takes all memory that adding a metric wants of its own.
fn new_metric(
    alloc: Global,
    command: &Command,
    id: MetricId,
    policy: &Policy,
) -> Result<NewMetric, Memory>
    requires { IsAddMetric command.now }
    ensures doc { IfOk result (λ p. IsDocumentBy command.now id policy.now p.doc) }
    ensures empty { IfOk result (λ p. p.list.items ≡ []) }
    ensures room { IfOk result (λ p. 1 ≤ vec_capacity p.list) }
{
    let doc = document_of(command, id, policy)?;
    let list = Vec::with_capacity(alloc, 1)?;
    Ok(NewMetric { doc, list })
}

/// The reply with one document.
fn reply_of_one(list: Vec<MetricDoc>, doc: MetricDoc) -> Reply
    requires empty { list.items ≡ [] }
    requires room { 1 ≤ vec_capacity list }
    ensures { result ≡ Reply.Metrics (doc ∷ []) }
{
    let mut list = list;
    match list.push(doc) {
        Ok(()) => Reply::Metrics(List::of(list)),
        Err(_doc) => unreachable!(),
    }
}

impl<D: Disk> Solo<D> {
    /// Does what a command asks, and answers it.
    pub(crate) fn do_command(
        &mut self,
        alloc: Global,
        command: &Command,
    ) -> Result<Reply, ControlFault>
        requires { NamesMember command.now }
        ensures controls { LeadsTo (StandsForBooks D.Disk) self.old self.new (Controls command.now result) }
        ensures same { self.new ≡ record self.old { index = self.new.index; sacks = self.new.sacks } }
        ensures as_many { length self.new.sacks ≡ length self.old.sacks }
    {
        match command {
            Command::AddMetric { .. } => self.add_metric(alloc, command),
            Command::DropMetric(metric) => self.drop_metric(*metric, command),
            _ => self.ask_index(command),
        }
    }

    /// Adds a metric: its identifier is drawn, it is created in its sack, and its document is added.
    fn add_metric(&mut self, alloc: Global, command: &Command) -> Result<Reply, ControlFault>
        requires adds { IsAddMetric command.now }
        requires named { NamesMember command.now }
        ensures controls { LeadsTo (StandsForBooks D.Disk) self.old self.new (Controls command.now result) }
        ensures same { self.new ≡ record self.old { index = self.new.index; sacks = self.new.sacks } }
        ensures as_many { length self.new.sacks ≡ length self.old.sacks }
    {
        let (id, policy) = match self.begin(command) {
            Ok(begun) => begun,
            Err(fault) => return Err(fault),
        };
        let Ok(metric) = new_metric(alloc, command, id, &policy) else {
            return Err(ControlFault::Memory);
        };
        match self.create_in_sack(id, &policy) {
            Ok(()) => self.add_document(metric),
            Err(fault) => Err(creating_refused(id, fault)),
        }
    }

    /// Draws the identifier of a new metric in the index.
    fn begin(&mut self, command: &Command) -> Result<(MetricId, Policy), ControlFault>
        requires { IsAddMetric command.now }
        ensures begins { LeadsTo (StandsForBooks D.Disk) self.old self.new (EntersIndex (IsBegunBy command.now) result) }
        ensures same { self.new ≡ record self.old { index = self.new.index } }
    {
        self.index.begin_metric(command)
    }

    /// Adds the document of a metric that was created in its sack. Where it is refused and the index isn't broken, the metric
    /// is dropped from the sack again.
    fn add_document(&mut self, metric: NewMetric) -> Result<Reply, ControlFault>
        requires named { IsSome metric.doc.resource → IsSome metric.doc.name }
        requires empty { metric.list.items ≡ [] }
        requires room { 1 ≤ vec_capacity metric.list }
        ensures adds { LeadsTo (StandsForBooks D.Disk) self.old self.new (λ old new. AddsDocument metric.doc old new result) }
        ensures same { self.new ≡ record self.old { index = self.new.index; sacks = self.new.sacks } }
        ensures as_many { length self.new.sacks ≡ length self.old.sacks }
    {
        let NewMetric { doc, list } = metric;
        match self.put_document(&doc) {
            Ok(()) => Ok(reply_of_one(list, doc)),
            Err(fault) => {
                if !leaves_broken(&fault) {
                    let _dropping = self.drop_in_sack(doc.id);
                }
                Err(fault)
            }
        }
    }

    /// Adds a document in the index.
    fn put_document(&mut self, doc: &MetricDoc) -> Result<(), ControlFault>
        requires { IsSome doc.now.resource → IsSome doc.now.name }
        ensures adds { LeadsTo (StandsForBooks D.Disk) self.old self.new (EntersIndex (IsAdded doc.now) result) }
        ensures same { self.new ≡ record self.old { index = self.new.index } }
    {
        self.index.add_metric(doc)
    }

    /// Drops a metric in its sack, where it need not be live, and then its document in the index.
    fn drop_metric(&mut self, metric: MetricId, command: &Command) -> Result<Reply, ControlFault>
        requires { command.now ≡ Command.DropMetric metric }
        ensures controls { LeadsTo (StandsForBooks D.Disk) self.old self.new (Controls command.now result) }
        ensures same { self.new ≡ record self.old { index = self.new.index; sacks = self.new.sacks } }
        ensures as_many { length self.new.sacks ≡ length self.old.sacks }
    {
        let dropping = self.drop_in_sack(metric);
        match dropping_refused(dropping) {
            Some(fault) => Err(fault),
            None => self.ask_index(command),
        }
    }
}
