// Requests that ask one command.
ghost use Rattle.std.specs.Prelude.{◌≡◌, None, IsSome};
ghost use Rattle.front_api.specs.Front.{NamesMember};
ghost use Rattle.front_api.specs.Seen.{LeadsTo};
ghost use Rattle.rest_replies.specs.Error.{plain_error};
ghost use Rattle.rest_api.specs.Doing.{TellsError};
ghost use Rattle.rest_api.specs.Commands.{Asks, metric_command, OnMetric, OnMetrics, OnPolicies, OnPolicy, OnResource, OnResources, OnRule, OnRules};

use crate::shown::{Shown, show};
use archive_policy::Name;
use control_docs::{MetricBody, read_metric, read_policy, read_resource, read_rule};
use front_api::{Command, Front};
use rest_replies::{ErrorCode, Handled, NamedIn, RestError};
use rest_routes::Method;
use series_model::MetricId;
use std::alloc::Global;

/// Asks a command, and tells its result.
pub(crate) fn ask<F: Front>(
    front: &mut F,
    alloc: Global,
    command: &Command,
    named: NamedIn,
    shown: Shown,
) -> Handled
    requires { NamesMember command.now }
    ensures asks { LeadsTo F.stands front.old front.new (Asks named command.now shown result) }
    ensures same { (F.sack_count front.new ≡ F.sack_count front.old) × (F.duty front.new ≡ F.duty front.old) × (F.made front.new ≡ F.made front.old) }
{
    match front.control(alloc, command) {
        Ok(reply) => show(alloc, &reply, shown),
        Err(fault) => Handled::of_error(alloc, RestError::of_command(fault, named), None),
    }
}

/// That a name or an identifier of the path is unknown.
fn unknown(alloc: Global, code: ErrorCode) -> Handled
    ensures { TellsError (plain_error code) None result }
{
    Handled::of_error(alloc, RestError::of(code), None)
}

/// The policies: all of them, or one more.
pub(crate) fn policies<F: Front>(
    front: &mut F,
    alloc: Global,
    method: Method,
    body: &[u8],
) -> Handled
    ensures does { LeadsTo F.stands front.old front.new (OnPolicies method body.now result) }
    ensures same { (F.sack_count front.new ≡ F.sack_count front.old) × (F.duty front.new ≡ F.duty front.old) × (F.made front.new ≡ F.made front.old) }
{
    match method {
        Method::Post => match read_policy(alloc, body) {
            Ok(policy) => ask(
                front,
                alloc,
                &Command::AddPolicy(policy),
                NamedIn::Body,
                Shown::Made,
            ),
            Err(fault) => Handled::of_error(alloc, fault.into(), None),
        },
        Method::Get | Method::Delete => {
            ask(
                front,
                alloc,
                &Command::ListPolicies,
                NamedIn::Path,
                Shown::Listed,
            )
        }
    }
}

/// A policy: its document, or that it is dropped.
pub(crate) fn policy<F: Front>(
    front: &mut F,
    alloc: Global,
    name: Option<Name>,
    method: Method,
) -> Handled
    ensures does { LeadsTo F.stands front.old front.new (OnPolicy name method result) }
    ensures same { (F.sack_count front.new ≡ F.sack_count front.old) × (F.duty front.new ≡ F.duty front.old) × (F.made front.new ≡ F.made front.old) }
{
    let Some(name) = name else {
        return unknown(alloc, ErrorCode::PolicyUnknown);
    };
    match method {
        Method::Delete => ask(
            front,
            alloc,
            &Command::DropPolicy(name),
            NamedIn::Path,
            Shown::Gone,
        ),
        Method::Get | Method::Post => {
            ask(
                front,
                alloc,
                &Command::GetPolicy(name),
                NamedIn::Path,
                Shown::Single,
            )
        }
    }
}

/// The rules: all of them, or one more.
pub(crate) fn rules<F: Front>(front: &mut F, alloc: Global, method: Method, body: &[u8]) -> Handled
    ensures does { LeadsTo F.stands front.old front.new (OnRules method body.now result) }
    ensures same { (F.sack_count front.new ≡ F.sack_count front.old) × (F.duty front.new ≡ F.duty front.old) × (F.made front.new ≡ F.made front.old) }
{
    match method {
        Method::Post => match read_rule(alloc, body) {
            Ok(rule) => ask(
                front,
                alloc,
                &Command::AddRule(rule),
                NamedIn::Body,
                Shown::Made,
            ),
            Err(fault) => Handled::of_error(alloc, fault.into(), None),
        },
        Method::Get | Method::Delete => {
            ask(
                front,
                alloc,
                &Command::ListRules,
                NamedIn::Path,
                Shown::Listed,
            )
        }
    }
}

/// A rule: its document, or that it is dropped.
pub(crate) fn rule<F: Front>(
    front: &mut F,
    alloc: Global,
    name: Option<Name>,
    method: Method,
) -> Handled
    ensures does { LeadsTo F.stands front.old front.new (OnRule name method result) }
    ensures same { (F.sack_count front.new ≡ F.sack_count front.old) × (F.duty front.new ≡ F.duty front.old) × (F.made front.new ≡ F.made front.old) }
{
    let Some(name) = name else {
        return unknown(alloc, ErrorCode::RuleUnknown);
    };
    match method {
        Method::Delete => ask(
            front,
            alloc,
            &Command::DropRule(name),
            NamedIn::Path,
            Shown::Gone,
        ),
        Method::Get | Method::Post => {
            ask(
                front,
                alloc,
                &Command::GetRule(name),
                NamedIn::Path,
                Shown::Single,
            )
        }
    }
}

/// The metrics: all of them, or one more.
pub(crate) fn metrics<F: Front>(
    front: &mut F,
    alloc: Global,
    method: Method,
    body: &[u8],
) -> Handled
    ensures does { LeadsTo F.stands front.old front.new (OnMetrics method body.now result) }
    ensures same { (F.sack_count front.new ≡ F.sack_count front.old) × (F.duty front.new ≡ F.duty front.old) × (F.made front.new ≡ F.made front.old) }
{
    match method {
        Method::Post => match read_metric(alloc, body) {
            Ok(metric) => add_metric(front, alloc, metric),
            Err(fault) => Handled::of_error(alloc, fault.into(), None),
        },
        Method::Get | Method::Delete => {
            ask(
                front,
                alloc,
                &Command::ListMetrics,
                NamedIn::Path,
                Shown::Listed,
            )
        }
    }
}

fn add_metric<F: Front>(front: &mut F, alloc: Global, asked: MetricBody) -> Handled
    requires { IsSome asked.resource → IsSome asked.name }
    ensures asks { LeadsTo F.stands front.old front.new (Asks NamedIn.Body (metric_command asked) Shown.Made result) }
    ensures same { (F.sack_count front.new ≡ F.sack_count front.old) × (F.duty front.new ≡ F.duty front.old) × (F.made front.new ≡ F.made front.old) }
{
    let command = Command::AddMetric {
        policy: asked.policy,
        name: asked.name,
        unit: asked.unit,
        resource: asked.resource,
    };
    ask(front, alloc, &command, NamedIn::Body, Shown::Made)
}

/// A metric: its document, or that it is dropped.
pub(crate) fn metric<F: Front>(
    front: &mut F,
    alloc: Global,
    id: Option<MetricId>,
    method: Method,
) -> Handled
    ensures does { LeadsTo F.stands front.old front.new (OnMetric id method result) }
    ensures same { (F.sack_count front.new ≡ F.sack_count front.old) × (F.duty front.new ≡ F.duty front.old) × (F.made front.new ≡ F.made front.old) }
{
    let Some(id) = id else {
        return unknown(alloc, ErrorCode::MetricUnknown);
    };
    match method {
        Method::Delete => ask(
            front,
            alloc,
            &Command::DropMetric(id),
            NamedIn::Path,
            Shown::Gone,
        ),
        Method::Get | Method::Post => {
            ask(
                front,
                alloc,
                &Command::GetMetric(id),
                NamedIn::Path,
                Shown::Single,
            )
        }
    }
}

/// The resources: all of them, or one more.
pub(crate) fn resources<F: Front>(
    front: &mut F,
    alloc: Global,
    method: Method,
    body: &[u8],
) -> Handled
    ensures does { LeadsTo F.stands front.old front.new (OnResources method body.now result) }
    ensures same { (F.sack_count front.new ≡ F.sack_count front.old) × (F.duty front.new ≡ F.duty front.old) × (F.made front.new ≡ F.made front.old) }
{
    match method {
        Method::Post => match read_resource(alloc, body) {
            Ok(id) => ask(
                front,
                alloc,
                &Command::AddResource(id),
                NamedIn::Body,
                Shown::Made,
            ),
            Err(fault) => Handled::of_error(alloc, fault.into(), None),
        },
        Method::Get | Method::Delete => {
            ask(
                front,
                alloc,
                &Command::ListResources,
                NamedIn::Path,
                Shown::Listed,
            )
        }
    }
}

/// A resource: its document, or that it is dropped.
pub(crate) fn resource<F: Front>(
    front: &mut F,
    alloc: Global,
    id: Option<u128>,
    method: Method,
) -> Handled
    ensures does { LeadsTo F.stands front.old front.new (OnResource id method result) }
    ensures same { (F.sack_count front.new ≡ F.sack_count front.old) × (F.duty front.new ≡ F.duty front.old) × (F.made front.new ≡ F.made front.old) }
{
    let Some(id) = id else {
        return unknown(alloc, ErrorCode::ResourceUnknown);
    };
    match method {
        Method::Delete => ask(
            front,
            alloc,
            &Command::DropResource(id),
            NamedIn::Path,
            Shown::Gone,
        ),
        Method::Get | Method::Post => {
            ask(
                front,
                alloc,
                &Command::GetResource(id),
                NamedIn::Path,
                Shown::Single,
            )
        }
    }
}
