// The records of commands and documents.
ghost use Rattle.std.specs.Prelude.{◌≡◌, Some, true, false, IfOk, IfNone, IfSome, IsSome};
ghost use Rattle.front_api.specs.declared.history.IndexCounted.{IndexCounted};
ghost use Rattle.front_api.specs.Maps.{is_change};
ghost use Rattle.gno_codec.specs.Index.{IsUsable};
ghost use Rattle.metric_index.specs.Items.{counted_of};

use crate::reply::{copy_doc, copy_rule};
use front_api::{Command, MetricDoc};
use gno_codec::IndexItem;
use gno_num::Memory;

/// The record that a command writes, if it writes one.
pub fn item_of(command: &Command) -> Result<Option<IndexItem>, Memory>
    ensures none { IfOk result (λ item. IfNone item (is_change command.now ≡ false)) }
    ensures counted { IfOk result (λ item. IfSome item (λ i. (is_change command.now ≡ true) × (counted_of i ≡ Some (IndexCounted.Command command.now)))) }
    ensures usable { IfOk result (λ item. IfSome item IsUsable) }
{
    match command {
        Command::AddPolicy(policy) => {
            let copy = policy.copy()?;
            Ok(Some(IndexItem::AddPolicy(copy)))
        }
        Command::DropPolicy(name) => {
            let copy = name.copy()?;
            Ok(Some(IndexItem::DropPolicy(copy)))
        }
        Command::AddRule(rule) => {
            let copy = copy_rule(rule)?;
            Ok(Some(IndexItem::AddRule(copy)))
        }
        Command::DropRule(name) => {
            let copy = name.copy()?;
            Ok(Some(IndexItem::DropRule(copy)))
        }
        Command::DropMetric(id) => Ok(Some(IndexItem::DropMetric(*id))),
        Command::AddResource(id) => Ok(Some(IndexItem::AddResource(*id))),
        Command::DropResource(id) => Ok(Some(IndexItem::DropResource(*id))),
        _ => Ok(None),
    }
}

/// The record of a metric's document.
pub fn item_of_doc(doc: &MetricDoc) -> Result<IndexItem, Memory>
    requires { IsSome doc.now.resource → IsSome doc.now.name }
    ensures counted { IfOk result (λ item. counted_of item ≡ Some (IndexCounted.Add doc.now)) }
    ensures usable { IfOk result IsUsable }
{
    let copy = copy_doc(doc)?;
    let MetricDoc {
        id,
        policy,
        name,
        unit,
        resource,
    } = copy;
    Ok(IndexItem::AddMetric {
        id,
        policy,
        name,
        unit,
        resource,
    })
}
