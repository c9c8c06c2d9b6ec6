// The records of the index's log.
ghost use Rattle.std.specs.Prelude.{◌≡◌, ◌≢◌, ◌<◌, ◌^◌, ◌∷◌, ◌++◌, ℕ, IsSome, IfSome, IfOk, OnOk, Ok, Err};
ghost use Rattle.archive_policy.specs.Names.{IsName};
ghost use Rattle.archive_policy.specs.Policies.{IsArchivePolicy};
ghost use Rattle.byteorder.specs.Endian.{big_bytes};
ghost use Rattle.gno_codec.specs.declared.item.IndexItem.{IndexItem};
ghost use Rattle.gno_codec.specs.Policy.{name_bytes, policy_bytes};
ghost use Rattle.gno_codec.specs.Shelf.{optional_bytes};
ghost use Rattle.gno_codec.specs.Index.{rule_bytes, metric_bytes, index_bytes, IsRule, IsMetric, IsIndex, IsUsable};
ghost use Rattle.gno_codec.specs.Reading.{Answers, Gives, by_kind, optional_at, number_at};
ghost use Rattle.gno_codec.specs.IndexReading.{store_at, add_policy_at, drop_policy_at, add_rule_at, drop_rule_at, draw_at, resource_where, add_metric_at, drop_metric_at, add_resource_at, drop_resource_at, index_kinds, index_of};

use crate::policy::{
    put_name, put_optional_name, put_policy, read_name, read_optional_name, read_policy,
};
use crate::reading::Reader;
use crate::writing::{put_u8, put_u32, put_u64, put_u128};
use crate::{IndexItem, ReadFault};
use archive_policy::{Name, Policy};
use gno_num::Memory;
use policy_rules::Rule;
use series_model::MetricId;
use std::alloc::Global;

const STORE: u8 = 1;

const ADD_POLICY: u8 = 2;

const DROP_POLICY: u8 = 3;

const ADD_RULE: u8 = 4;

const DROP_RULE: u8 = 5;

const DRAW: u8 = 6;

const ADD_METRIC: u8 = 7;

const DROP_METRIC: u8 = 8;

const ADD_RESOURCE: u8 = 9;

const DROP_RESOURCE: u8 = 10;

const LAST_COUNTER: u64 = 0xff_ffff_ffff_ffff;

// ---- written

/// The record of a change of the index.
pub fn write_index(alloc: Global, item: &IndexItem) -> Result<Vec<u8>, Memory>
    ensures bytes { IfOk result (λ bytes. bytes.items ≡ index_bytes item.now) }
    // What was written is a record, so it is read again, where its counter is in range, and its
    // metric has a name where it has a resource.
    ensures has { OnOk result (IsUsable item.now → IsIndex item.now) }
{
    let mut out = Vec::new(alloc);
    put_item(&mut out, item)?;
    Ok(out)
}

fn put_item(out: &mut Vec<u8>, item: &IndexItem) -> Result<(), Memory>
    ensures bytes { OnOk result (out.new.items ≡ out.old.items ++ index_bytes item.now) }
    ensures has { OnOk result (IsUsable item.now → IsIndex item.now) }
{
    match item {
        IndexItem::Store { number, counter } => put_store(out, *number, *counter),
        IndexItem::AddPolicy(policy) => put_added(out, policy),
        IndexItem::DropPolicy(name) => put_named(out, DROP_POLICY, name),
        IndexItem::AddRule(rule) => put_rule(out, rule),
        IndexItem::DropRule(name) => put_named(out, DROP_RULE, name),
        IndexItem::Draw { counter } => put_draw(out, *counter),
        IndexItem::AddMetric {
            id,
            policy,
            name,
            unit,
            resource,
        } => put_metric(out, *id, policy, name, unit, *resource),
        IndexItem::DropMetric(id) => put_numbered(out, DROP_METRIC, id.0),
        IndexItem::AddResource(id) => put_numbered(out, ADD_RESOURCE, *id),
        IndexItem::DropResource(id) => put_numbered(out, DROP_RESOURCE, *id),
    }
}

fn put_store(out: &mut Vec<u8>, number: u32, counter: u64) -> Result<(), Memory>
    ensures bytes { OnOk result (out.new.items ≡ out.old.items ++ (1 ∷ big_bytes 4 number ++ big_bytes 8 counter)) }
    ensures range { OnOk result (number < 2 ^ 32) }
{
    put_u8(out, STORE)?;
    put_u32(out, number)?;
    put_u64(out, counter)?;
    Ok(())
}

fn put_draw(out: &mut Vec<u8>, counter: u64) -> Result<(), Memory>
    ensures { OnOk result (out.new.items ≡ out.old.items ++ (6 ∷ big_bytes 8 counter)) }
{
    put_u8(out, DRAW)?;
    put_u64(out, counter)?;
    Ok(())
}

fn put_added(out: &mut Vec<u8>, policy: &Policy) -> Result<(), Memory>
    ensures bytes { OnOk result (out.new.items ≡ out.old.items ++ (2 ∷ policy_bytes policy.now)) }
    ensures is { OnOk result (IsArchivePolicy policy.now) }
{
    put_u8(out, ADD_POLICY)?;
    put_policy(out, policy)?;
    Ok(())
}

// The first byte of a record, and a name.
fn put_named(out: &mut Vec<u8>, kind: u8, name: &Name) -> Result<(), Memory>
    ensures bytes { OnOk result (out.new.items ≡ out.old.items ++ (big_bytes 1 kind ++ name_bytes name.now)) }
    ensures is { OnOk result (IsName name.now) }
{
    put_u8(out, kind)?;
    put_name(out, name)?;
    Ok(())
}

// The first byte of a record, and an identifier.
fn put_numbered(out: &mut Vec<u8>, kind: u8, id: u128) -> Result<(), Memory>
    ensures bytes { OnOk result (out.new.items ≡ out.old.items ++ (big_bytes 1 kind ++ big_bytes 16 id)) }
    ensures is { OnOk result (id < 2 ^ 128) }
{
    put_u8(out, kind)?;
    put_u128(out, id)?;
    Ok(())
}

fn put_rule(out: &mut Vec<u8>, rule: &Rule) -> Result<(), Memory>
    ensures bytes { OnOk result (out.new.items ≡ out.old.items ++ (4 ∷ rule_bytes rule.now)) }
    ensures is { OnOk result (IsRule rule.now) }
{
    put_named(out, ADD_RULE, &rule.name)?;
    put_name(out, &rule.pattern)?;
    put_name(out, &rule.policy)?;
    Ok(())
}

fn put_metric(
    out: &mut Vec<u8>,
    id: MetricId,
    policy: &Name,
    name: &Option<Name>,
    unit: &Option<Name>,
    resource: Option<u128>,
) -> Result<(), Memory>
    ensures bytes { OnOk result (out.new.items ≡ out.old.items
        ++ (7 ∷ metric_bytes id.0 policy.now name.now unit.now resource)) }
    ensures is { OnOk result ((IsSome resource → IsSome name.now)
        → IsMetric id.0 policy.now name.now unit.now resource) }
{
    put_numbered(out, ADD_METRIC, id.0)?;
    put_name(out, policy)?;
    put_optional_name(out, name)?;
    put_optional_name(out, unit)?;
    put_resource(out, resource)?;
    Ok(())
}

fn put_resource(out: &mut Vec<u8>, resource: Option<u128>) -> Result<(), Memory>
    ensures bytes { OnOk result (out.new.items ≡ out.old.items ++ optional_bytes (big_bytes 16) resource) }
    ensures is { OnOk result (IfSome resource (λ id. id < 2 ^ 128)) }
{
    match resource {
        None => put_u8(out, 0),
        Some(id) => put_numbered(out, 1, id),
    }
}

// ---- read

/// The record that the bytes spell, all of them. `Bad` comes exactly where they spell none, and
/// gives the place of the first field that is cut off or out of its range (for a policy that can't
/// be made, and for a resource whose metric has no name, that of its first byte), or of the first
/// byte behind a whole record.
pub fn read_index(alloc: Global, bytes: &[u8]) -> Result<IndexItem, ReadFault>
    // What is read is spelled so.
    ensures found { IfOk result (λ item. IsIndex item × (bytes.now ≡ index_bytes item)) }
    // What is spelled so is read, unless memory runs out.
    ensures only { (item : IndexItem) → IsIndex item → bytes.now ≡ index_bytes item
        → Answers result (Ok item) }
    // What is refused is spelled by no record.
    ensures bad { (at : ℕ) → result ≡ Err (ReadFault.Bad at) → (item : IndexItem) → IsIndex item
        → bytes.now ≢ index_bytes item }
    // Which fault it is.
    ensures exact { Answers result (index_of bytes.now) }
{
    read_all(alloc, bytes)
}

#[tactic(auto, unfolding(crate::specs::IndexReading::index_of, crate::specs::Reading::whole))]
fn read_all(alloc: Global, bytes: &[u8]) -> Result<IndexItem, ReadFault>
    ensures { Answers result (index_of bytes.now) }
{
    let mut reader = Reader::new(bytes);
    let item = read_item(alloc, &mut reader)?;
    if reader.is_at_end() {
        Ok(item)
    } else {
        Err(ReadFault::Bad { at: reader.at() })
    }
}

#[tactic(auto, unfolding(crate::specs::Reading::by_kind, crate::specs::Reading::standing_for, crate::specs::Reading::then_at, crate::specs::IndexReading::index_kinds))]
fn read_item(alloc: Global, reader: &mut Reader<'_>) -> Result<IndexItem, ReadFault>
    ensures { Gives (λ item. item) result reader.new (by_kind index_kinds reader.old) }
{
    let at = reader.at();
    match reader.u8()? {
        STORE => read_store(reader),
        ADD_POLICY => read_added_policy(alloc, reader),
        DROP_POLICY => read_dropped_policy(alloc, reader),
        ADD_RULE => read_added_rule(alloc, reader),
        DROP_RULE => read_dropped_rule(alloc, reader),
        DRAW => read_draw(reader),
        ADD_METRIC => read_added_metric(alloc, reader),
        DROP_METRIC => read_dropped_metric(reader),
        ADD_RESOURCE => read_added_resource(reader),
        DROP_RESOURCE => read_dropped_resource(reader),
        _ => Err(ReadFault::Bad { at }),
    }
}

#[tactic(auto, unfolding(crate::specs::IndexReading::store_at, crate::specs::Reading::then_at, crate::specs::Reading::done))]
fn read_store(reader: &mut Reader<'_>) -> Result<IndexItem, ReadFault>
    ensures { Gives (λ item. item) result reader.new (store_at reader.old) }
{
    let number = reader.u32()?;
    let counter = reader.u64_to(LAST_COUNTER)?;
    Ok(IndexItem::Store { number, counter })
}

#[tactic(auto, unfolding(crate::specs::IndexReading::add_policy_at, crate::specs::Reading::then_at, crate::specs::Reading::done))]
fn read_added_policy(alloc: Global, reader: &mut Reader<'_>) -> Result<IndexItem, ReadFault>
    ensures { Gives (λ item. item) result reader.new (add_policy_at reader.old) }
{
    let policy = read_policy(alloc, reader)?;
    Ok(IndexItem::AddPolicy(policy))
}

#[tactic(auto, unfolding(crate::specs::IndexReading::drop_policy_at, crate::specs::Reading::then_at, crate::specs::Reading::done))]
fn read_dropped_policy(alloc: Global, reader: &mut Reader<'_>) -> Result<IndexItem, ReadFault>
    ensures { Gives (λ item. item) result reader.new (drop_policy_at reader.old) }
{
    let name = read_name(alloc, reader)?;
    Ok(IndexItem::DropPolicy(name))
}

#[tactic(auto, unfolding(crate::specs::IndexReading::add_rule_at, crate::specs::Reading::then_at, crate::specs::Reading::done))]
fn read_added_rule(alloc: Global, reader: &mut Reader<'_>) -> Result<IndexItem, ReadFault>
    ensures { Gives (λ item. item) result reader.new (add_rule_at reader.old) }
{
    let name = read_name(alloc, reader)?;
    let pattern = read_name(alloc, reader)?;
    let policy = read_name(alloc, reader)?;
    Ok(IndexItem::AddRule(Rule {
        name,
        pattern,
        policy,
    }))
}

#[tactic(auto, unfolding(crate::specs::IndexReading::drop_rule_at, crate::specs::Reading::then_at, crate::specs::Reading::done))]
fn read_dropped_rule(alloc: Global, reader: &mut Reader<'_>) -> Result<IndexItem, ReadFault>
    ensures { Gives (λ item. item) result reader.new (drop_rule_at reader.old) }
{
    let name = read_name(alloc, reader)?;
    Ok(IndexItem::DropRule(name))
}

#[tactic(auto, unfolding(crate::specs::IndexReading::draw_at, crate::specs::Reading::then_at, crate::specs::Reading::done))]
fn read_draw(reader: &mut Reader<'_>) -> Result<IndexItem, ReadFault>
    ensures { Gives (λ item. item) result reader.new (draw_at reader.old) }
{
    let counter = reader.u64_within(1, LAST_COUNTER)?;
    Ok(IndexItem::Draw { counter })
}

#[tactic(auto, unfolding(crate::specs::IndexReading::add_metric_at, crate::specs::Reading::then_at, crate::specs::Reading::done))]
fn read_added_metric(alloc: Global, reader: &mut Reader<'_>) -> Result<IndexItem, ReadFault>
    ensures { Gives (λ item. item) result reader.new (add_metric_at reader.old) }
{
    let id = MetricId(reader.u128()?);
    let policy = read_name(alloc, reader)?;
    let name = read_optional_name(alloc, reader)?;
    let unit = read_optional_name(alloc, reader)?;
    let resource = read_resource(name.is_some(), reader)?;
    Ok(IndexItem::AddMetric {
        id,
        policy,
        name,
        unit,
        resource,
    })
}

// The resource of a metric; there is none where the metric has no name.
#[tactic(auto, unfolding(crate::specs::IndexReading::resource_where, crate::specs::Reading::tested))]
fn read_resource(has_name: bool, reader: &mut Reader<'_>) -> Result<Option<u128>, ReadFault>
    ensures { Gives (λ resource. resource) result reader.new (resource_where has_name reader.old) }
{
    let at = reader.at();
    let resource = read_optional_id(reader)?;
    if resource.is_none() || has_name {
        Ok(resource)
    } else {
        Err(ReadFault::Bad { at })
    }
}

#[tactic(auto, unfolding(crate::specs::Reading::optional_at, crate::specs::Reading::then_at, crate::specs::Reading::done))]
fn read_optional_id(reader: &mut Reader<'_>) -> Result<Option<u128>, ReadFault>
    ensures { Gives (λ id. id) result reader.new (optional_at (number_at 16) reader.old) }
{
    if reader.u8_to(1)? == 0 {
        return Ok(None);
    }
    let id = reader.u128()?;
    Ok(Some(id))
}

#[tactic(auto, unfolding(crate::specs::IndexReading::drop_metric_at, crate::specs::Reading::then_at, crate::specs::Reading::done))]
fn read_dropped_metric(reader: &mut Reader<'_>) -> Result<IndexItem, ReadFault>
    ensures { Gives (λ item. item) result reader.new (drop_metric_at reader.old) }
{
    let id = MetricId(reader.u128()?);
    Ok(IndexItem::DropMetric(id))
}

#[tactic(auto, unfolding(crate::specs::IndexReading::add_resource_at, crate::specs::Reading::then_at, crate::specs::Reading::done))]
fn read_added_resource(reader: &mut Reader<'_>) -> Result<IndexItem, ReadFault>
    ensures { Gives (λ item. item) result reader.new (add_resource_at reader.old) }
{
    let id = reader.u128()?;
    Ok(IndexItem::AddResource(id))
}

#[tactic(auto, unfolding(crate::specs::IndexReading::drop_resource_at, crate::specs::Reading::then_at, crate::specs::Reading::done))]
fn read_dropped_resource(reader: &mut Reader<'_>) -> Result<IndexItem, ReadFault>
    ensures { Gives (λ item. item) result reader.new (drop_resource_at reader.old) }
{
    let id = reader.u128()?;
    Ok(IndexItem::DropResource(id))
}
