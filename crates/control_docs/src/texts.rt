// The documents, byte for byte. After `Memory` some first bytes may be appended.
ghost use Rattle.std.specs.Prelude.{◌≡◌, ◌++◌, ◌∷◌, ◌*◌, ◌≤◌, ◌==◌, ◌||◌, [], All, OnOk, OnErr, decimal};
ghost use Rattle.std.specs.List.{flat_map};
ghost use Rattle.json.specs.Print.{escape, escape_byte, quoted};
ghost use Rattle.archive_policy.specs.Names.{IsName, IsNameByte};
ghost use Rattle.archive_policy.specs.Policies.{IsDefinition};
ghost use Rattle.gno_time.specs.Text.{span_text_of};
ghost use Rattle.control_docs.specs.Documents.{id_text};
ghost use Rattle.control_docs.specs.Texts.{definition_end_text, definition_text, in_quotes, kind_text, metric_end_text, metric_text, name_text, named_id_text, policy_end_text, policy_text, resource_id_text, resource_text, rule_text, with_commas};

use archive_policy::{Definition, Kind, Name, Policy};
use gno_num::{Memory, Span};
use gno_time::span_text;
use itoa::Buffer;
use policy_rules::Rule;
use series_model::MetricId;
use uuid::Uuid;

// ---- pieces

fn push_word(word: &[u8], text: &mut Vec<u8>) -> Result<(), Memory>
    ensures { OnOk result (text.new.items ≡ text.old.items ++ word.now) }
{
    text.extend_from_slice(word)?;
    Ok(())
}

fn push_window(window: u16, text: &mut Vec<u8>) -> Result<(), Memory>
    ensures { OnOk result (text.new.items ≡ text.old.items ++ decimal window) }
{
    let mut buffer = Buffer::new();
    push_word(buffer.format(window).as_bytes(), text)
}

fn push_points(points: u32, text: &mut Vec<u8>) -> Result<(), Memory>
    ensures { OnOk result (text.new.items ≡ text.old.items ++ decimal points) }
{
    let mut buffer = Buffer::new();
    push_word(buffer.format(points).as_bytes(), text)
}

// The length of a span in quotes: no byte of it wants an escape.
fn push_span(span: Span, text: &mut Vec<u8>) -> Result<(), Memory>
    ensures { OnOk result (text.new.items ≡ text.old.items ++ in_quotes (span_text_of span)) }
{
    text.push(b'"')?;
    span_text(span, text)?;
    text.push(b'"')?;
    Ok(())
}

fn push_id(id: u128, text: &mut Vec<u8>) -> Result<(), Memory>
    ensures { OnOk result (text.new.items ≡ text.old.items ++ in_quotes (id_text id)) }
{
    let mut buffer = Uuid::encode_buffer();
    let spelled = Uuid::from_u128(id).hyphenated().encode_lower(&mut buffer);
    text.push(b'"')?;
    text.extend_from_slice(spelled.as_bytes())?;
    text.push(b'"')?;
    Ok(())
}

fn push_id_or_null(id: Option<u128>, text: &mut Vec<u8>) -> Result<(), Memory>
    ensures { OnOk result (text.new.items ≡ text.old.items ++ resource_id_text id) }
{
    match id {
        Some(id) => push_id(id, text),
        None => push_word(b"null", text),
    }
}

fn push_name(name: &Name, text: &mut Vec<u8>) -> Result<(), Memory>
    ensures { OnOk result (text.new.items ≡ text.old.items ++ quoted name.now) }
{
    text.push(b'"')?;
    push_escaped(name.bytes(), text)?;
    text.push(b'"')?;
    Ok(())
}

fn push_name_or_null(name: &Option<Name>, text: &mut Vec<u8>) -> Result<(), Memory>
    ensures { OnOk result (text.new.items ≡ text.old.items ++ name_text name.now) }
{
    match name {
        Some(name) => push_name(name, text),
        None => push_word(b"null", text),
    }
}

fn push_escaped(name: &[u8], text: &mut Vec<u8>) -> Result<(), Memory>
    requires { All IsNameByte name.now }
    ensures { OnOk result (text.new.items ≡ text.old.items ++ escape name.now) }
{
    for byte in name {
        push_byte(*byte, text)?;
    }
    Ok(())
}

fn push_byte(byte: u8, text: &mut Vec<u8>) -> Result<(), Memory>
    requires { 32 ≤ byte }
    ensures { OnOk result (text.new.items ≡ text.old.items ++ escape_byte byte) }
{
    if is_marked(byte) {
        return push_word(&[b'\\', byte], text);
    }
    text.push(byte)?;
    Ok(())
}

// The quote and the backslash have a backslash in front.
fn is_marked(byte: u8) -> bool
    ensures { result ≡ ((byte == 34) || (byte == 92)) }
{
    byte == b'"' || byte == b'\\'
}

// ---- policies

pub fn push_policy(policy: &Policy, text: &mut Vec<u8>) -> Result<(), Memory>
    ensures { OnOk result (text.new.items ≡ text.old.items ++ policy_text policy.now) }
{
    push_word(b"{\"aggregation_methods\":[", text)?;
    push_kinds(policy.kinds(), text)?;
    push_word(b"],\"back_window\":", text)?;
    push_window(policy.back_window(), text)?;
    push_policy_end(policy, text)?;
    Ok(())
}

fn push_policy_end(policy: &Policy, text: &mut Vec<u8>) -> Result<(), Memory>
    ensures { OnOk result (text.new.items ≡ text.old.items ++ policy_end_text policy.now) }
{
    push_word(b",\"definition\":[", text)?;
    push_definitions(policy.definitions(), text)?;
    push_word(b"],\"name\":", text)?;
    push_name(policy.name(), text)?;
    text.push(b'}')?;
    Ok(())
}

fn push_kinds(kinds: &[Kind], text: &mut Vec<u8>) -> Result<(), Memory>
    ensures { OnOk result (text.new.items ≡ text.old.items ++ with_commas kind_text kinds.now) }
{
    let Some((first, others)) = kinds.split_first() else {
        return Ok(());
    };
    push_kind(*first, text)?;
    for kind in others {
        text.push(b',')?;
        push_kind(*kind, text)?;
    }
    Ok(())
}

fn push_kind(kind: Kind, text: &mut Vec<u8>) -> Result<(), Memory>
    ensures { OnOk result (text.new.items ≡ text.old.items ++ kind_text kind) }
{
    text.push(b'"')?;
    text.extend_from_slice(kind.name().as_bytes())?;
    text.push(b'"')?;
    Ok(())
}

fn push_definitions(definitions: &[Definition], text: &mut Vec<u8>) -> Result<(), Memory>
    requires { All IsDefinition definitions.now }
    ensures { OnOk result (text.new.items ≡ text.old.items ++ with_commas definition_text definitions.now) }
{
    let Some((first, others)) = definitions.split_first() else {
        return Ok(());
    };
    push_definition(first, text)?;
    for definition in others {
        text.push(b',')?;
        push_definition(definition, text)?;
    }
    Ok(())
}

fn push_definition(definition: &Definition, text: &mut Vec<u8>) -> Result<(), Memory>
    requires { IsDefinition definition.now }
    ensures { OnOk result (text.new.items ≡ text.old.items ++ definition_text definition.now) }
{
    push_word(b"{\"granularity\":", text)?;
    push_span(definition.granularity, text)?;
    push_word(b",\"points\":", text)?;
    push_points(definition.points, text)?;
    push_definition_end(timespan_of(definition), text)?;
    Ok(())
}

fn push_definition_end(timespan: Span, text: &mut Vec<u8>) -> Result<(), Memory>
    ensures { OnOk result (text.new.items ≡ text.old.items ++ definition_end_text timespan) }
{
    push_word(b",\"timespan\":", text)?;
    push_span(timespan, text)?;
    text.push(b'}')?;
    Ok(())
}

// The time that the points take.
fn timespan_of(definition: &Definition) -> Span
    requires { IsDefinition definition.now }
    ensures { result ≡ definition.now.granularity * definition.now.points }
{
    Span::of_nanos(definition.granularity.nanos() * u64::from(definition.points)).unwrap()
}

pub fn push_policies(policies: &[Policy], text: &mut Vec<u8>) -> Result<(), Memory>
    ensures { OnOk result (text.new.items ≡ text.old.items ++ (91 ∷ with_commas policy_text policies.now ++ 93 ∷ [])) }
{
    text.push(b'[')?;
    push_policies_within(policies, text)?;
    text.push(b']')?;
    Ok(())
}

fn push_policies_within(policies: &[Policy], text: &mut Vec<u8>) -> Result<(), Memory>
    ensures { OnOk result (text.new.items ≡ text.old.items ++ with_commas policy_text policies.now) }
{
    let Some((first, others)) = policies.split_first() else {
        return Ok(());
    };
    push_policy(first, text)?;
    for policy in others {
        text.push(b',')?;
        push_policy(policy, text)?;
    }
    Ok(())
}

// ---- rules

pub fn push_rule(rule: &Rule, text: &mut Vec<u8>) -> Result<(), Memory>
    ensures { OnOk result (text.new.items ≡ text.old.items ++ rule_text rule.now) }
{
    push_member(b"{\"archive_policy_name\":", &rule.policy, text)?;
    push_member(b",\"metric_pattern\":", &rule.pattern, text)?;
    push_member(b",\"name\":", &rule.name, text)?;
    text.push(b'}')?;
    Ok(())
}

// A key as it stands in the text, and a name.
fn push_member(key: &[u8], name: &Name, text: &mut Vec<u8>) -> Result<(), Memory>
    ensures { OnOk result (text.new.items ≡ text.old.items ++ (key.now ++ quoted name.now)) }
{
    push_word(key, text)?;
    push_name(name, text)
}

pub fn push_rules(rules: &[Rule], text: &mut Vec<u8>) -> Result<(), Memory>
    ensures { OnOk result (text.new.items ≡ text.old.items ++ (91 ∷ with_commas rule_text rules.now ++ 93 ∷ [])) }
{
    text.push(b'[')?;
    push_rules_within(rules, text)?;
    text.push(b']')?;
    Ok(())
}

fn push_rules_within(rules: &[Rule], text: &mut Vec<u8>) -> Result<(), Memory>
    ensures { OnOk result (text.new.items ≡ text.old.items ++ with_commas rule_text rules.now) }
{
    let Some((first, others)) = rules.split_first() else {
        return Ok(());
    };
    push_rule(first, text)?;
    for rule in others {
        text.push(b',')?;
        push_rule(rule, text)?;
    }
    Ok(())
}

// ---- metrics and resources

pub fn push_metric(
    id: MetricId,
    policy: &Name,
    name: &Option<Name>,
    unit: &Option<Name>,
    resource: Option<u128>,
    text: &mut Vec<u8>,
) -> Result<(), Memory>
    ensures { OnOk result (text.new.items ≡ text.old.items ++ metric_text id policy.now name.now unit.now resource) }
{
    push_member(b"{\"archive_policy_name\":", policy, text)?;
    push_id_member(b",\"id\":", id.0, text)?;
    push_optional_member(b",\"name\":", name, text)?;
    push_metric_end(unit, resource, text)?;
    Ok(())
}

fn push_metric_end(
    unit: &Option<Name>,
    resource: Option<u128>,
    text: &mut Vec<u8>,
) -> Result<(), Memory>
    ensures { OnOk result (text.new.items ≡ text.old.items ++ metric_end_text unit.now resource) }
{
    push_word(b",\"resource_id\":", text)?;
    push_id_or_null(resource, text)?;
    push_optional_member(b",\"unit\":", unit, text)?;
    text.push(b'}')?;
    Ok(())
}

// A key as it stands in the text, and a name or null.
fn push_optional_member(key: &[u8], name: &Option<Name>, text: &mut Vec<u8>) -> Result<(), Memory>
    ensures { OnOk result (text.new.items ≡ text.old.items ++ (key.now ++ name_text name.now)) }
{
    push_word(key, text)?;
    push_name_or_null(name, text)
}

// A key as it stands in the text, and an identifier.
fn push_id_member(key: &[u8], id: u128, text: &mut Vec<u8>) -> Result<(), Memory>
    ensures { OnOk result (text.new.items ≡ text.old.items ++ (key.now ++ in_quotes (id_text id))) }
{
    push_word(key, text)?;
    push_id(id, text)
}

pub fn push_resource(
    id: u128,
    metrics: &[(Name, MetricId)],
    text: &mut Vec<u8>,
) -> Result<(), Memory>
    ensures { OnOk result (text.new.items ≡ text.old.items ++ resource_text id metrics.now) }
{
    push_id_member(b"{\"id\":", id, text)?;
    push_word(b",\"metrics\":{", text)?;
    push_named_ids(metrics, text)?;
    push_word(b"},\"type\":\"generic\"}", text)?;
    Ok(())
}

fn push_named_ids(metrics: &[(Name, MetricId)], text: &mut Vec<u8>) -> Result<(), Memory>
    ensures { OnOk result (text.new.items ≡ text.old.items ++ with_commas named_id_text metrics.now) }
{
    let Some((first, others)) = metrics.split_first() else {
        return Ok(());
    };
    push_named_id(first, text)?;
    for metric in others {
        text.push(b',')?;
        push_named_id(metric, text)?;
    }
    Ok(())
}

fn push_named_id(metric: &(Name, MetricId), text: &mut Vec<u8>) -> Result<(), Memory>
    ensures { OnOk result (text.new.items ≡ text.old.items ++ named_id_text metric.now) }
{
    let (name, id) = metric;
    push_name(name, text)?;
    push_id_member(b":", id.0, text)?;
    Ok(())
}
