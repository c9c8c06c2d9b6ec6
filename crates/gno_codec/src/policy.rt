// Names and policies in records.
ghost use Rattle.std.specs.Prelude.{◌≡◌, ◌≤◌, ◌<◌, ◌==◌, ◌^◌, ◌++◌, ◌↔◌, IsTrue, if◌then◌else◌, map, OnOk, IfSome, IfOk, None, Some, Ok, Err, slice_get};
ghost use Rattle.std.specs.List.{flat_map};
ghost use Rattle.std.specs.List.Sorted.{IsStrictlyIncreasing};
ghost use Rattle.archive_policy.specs.Kinds.{AreInTableOrder, all_kinds};
ghost use Rattle.archive_policy.specs.Names.{IsName};
ghost use Rattle.archive_policy.specs.Policies.{IsArchivePolicy, granularities};
ghost use Rattle.archive_policy.specs.PolicyLaws.{as_kept};
ghost use Rattle.gno_codec.specs.Policy.{name_bytes, optional_name_bytes, definition_bytes, kind_bits, policy_bytes};
ghost use Rattle.gno_codec.specs.Reading.{Answers, Gives, is_above, items_at, last_of};
ghost use Rattle.gno_codec.specs.PolicyReading.{text_at, name_at, optional_name_at, granularity_after, definition_after, has_bit, kinds_with, can_be_made, policy_fields_at, policy_at};

use crate::ReadFault;
use crate::reading::Reader;
use crate::writing::{put_u8, put_u16, put_u32, put_u64};
use archive_policy::{Definition, Kind, Name, NameFault, Policy, PolicyFault, Wanted};
use gno_num::{Memory, Span};
use std::alloc::{AllocError, Global};
use std::marker::Model;

const KINDS: u8 = 16;

// ---- written

pub(crate) fn put_name(out: &mut Vec<u8>, name: &Name) -> Result<(), Memory>
    ensures bytes { OnOk result (out.new.items ≡ out.old.items ++ name_bytes name.now) }
    ensures is { OnOk result (IsName name.now) }
{
    let text = name.bytes();
    put_u8(out, text.len() as u8)?;
    out.extend_from_slice(text)?;
    Ok(())
}

pub(crate) fn put_optional_name(out: &mut Vec<u8>, name: &Option<Name>) -> Result<(), Memory>
    ensures bytes { OnOk result (out.new.items ≡ out.old.items ++ optional_name_bytes name.now) }
    ensures is { OnOk result (IfSome name.now IsName) }
{
    match name {
        None => put_u8(out, 0),
        Some(name) => put_name(out, name),
    }
}

pub(crate) fn put_policy(out: &mut Vec<u8>, policy: &Policy) -> Result<(), Memory>
    ensures bytes { OnOk result (out.new.items ≡ out.old.items ++ policy_bytes policy.now) }
    ensures is { OnOk result (IsArchivePolicy policy.now) }
{
    put_name(out, policy.name())?;
    put_u16(out, policy.back_window())?;
    put_u8(out, policy.definitions().len() as u8)?;
    put_definitions(out, policy.definitions())?;
    put_u16(out, kind_bits(policy.kinds()))
}

fn put_definitions(out: &mut Vec<u8>, definitions: &[Definition]) -> Result<(), Memory>
    ensures { OnOk result (out.new.items ≡ out.old.items ++ flat_map definition_bytes definitions.now) }
{
    for definition in definitions {
        put_definition(out, definition)?;
    }
    Ok(())
}

fn put_definition(out: &mut Vec<u8>, definition: &Definition) -> Result<(), Memory>
    ensures { OnOk result (out.new.items ≡ out.old.items ++ definition_bytes definition.now) }
{
    put_u64(out, definition.granularity.nanos())?;
    put_u32(out, definition.points)
}

// The bit k, counted from the lowest, is the kind at the place k of the table.
fn kind_bits(kinds: &[Kind]) -> u16
    requires { AreInTableOrder kinds.now }
    ensures { result ≡ kind_bits kinds.now }
{
    let mut bits = 0;
    for kind in kinds {
        bits += 1 << kind.index();
    }
    bits
}

// ---- read

// So many bytes of a name.
#[tactic(auto, unfolding(crate::specs::PolicyReading::text_at, crate::specs::Reading::tested))]
fn read_text(alloc: Global, len: u8, reader: &mut Reader<'_>) -> Result<Name, ReadFault>
    requires { 1 ≤ len }
    ensures { Gives (λ name. name) result reader.new (text_at len reader.old) }
{
    let at = reader.at();
    let text = reader.bytes(usize::from(len))?;
    match Name::of(alloc, text) {
        Ok(name) => Ok(name),
        Err(NameFault::BadName) => Err(ReadFault::Bad { at }),
        Err(NameFault::Memory) => Err(ReadFault::Memory),
    }
}

#[tactic(auto, unfolding(crate::specs::PolicyReading::name_at, crate::specs::Reading::then_at))]
pub(crate) fn read_name(alloc: Global, reader: &mut Reader<'_>) -> Result<Name, ReadFault>
    ensures { Gives (λ name. name) result reader.new (name_at reader.old) }
{
    let len = reader.u8_from(1)?;
    read_text(alloc, len, reader)
}

#[tactic(auto, unfolding(crate::specs::PolicyReading::optional_name_at, crate::specs::Reading::then_at, crate::specs::Reading::done))]
pub(crate) fn read_optional_name(
    alloc: Global,
    reader: &mut Reader<'_>,
) -> Result<Option<Name>, ReadFault>
    ensures { Gives (λ name. name) result reader.new (optional_name_at reader.old) }
{
    let len = reader.u8()?;
    if len == 0 {
        return Ok(None);
    }
    let name = read_text(alloc, len, reader)?;
    Ok(Some(name))
}

#[tactic(auto, unfolding(crate::specs::PolicyReading::definition_after, crate::specs::Reading::then_at, crate::specs::Reading::done))]
fn read_definition(before: &[Definition], reader: &mut Reader<'_>) -> Result<Definition, ReadFault>
    ensures { Gives (λ definition. definition) result reader.new (definition_after (last_of before.now) reader.old) }
{
    let granularity = read_granularity(before, reader)?;
    let points = reader.u32()?;
    Ok(Definition {
        granularity,
        points,
    })
}

#[tactic(auto, unfolding(crate::specs::PolicyReading::granularity_after, crate::specs::Reading::tested))]
fn read_granularity(before: &[Definition], reader: &mut Reader<'_>) -> Result<Span, ReadFault>
    ensures { Gives (λ granularity. granularity) result reader.new (granularity_after (last_of before.now) reader.old) }
{
    let at = reader.at();
    let nanos = reader.u64()?;
    match Span::of_nanos(nanos) {
        Some(granularity) if is_above(before, nanos) => Ok(granularity),
        _ => Err(ReadFault::Bad { at }),
    }
}

// Whether a granularity is greater than that of the definition before.
fn is_above(before: &[Definition], nanos: u64) -> bool
    ensures { result ≡ is_above (λ d. d.granularity) (last_of before.now) nanos }
{
    match before {
        [] => true,
        [.., last] => last.granularity.nanos() < nanos,
    }
}

fn read_definitions(
    alloc: Global,
    count: u8,
    reader: &mut Reader<'_>,
) -> Result<Vec<Definition>, ReadFault>
    ensures read { Gives (λ definitions. definitions.items) result reader.new (items_at definition_after None count reader.old) }
    ensures rising { IfOk result (λ definitions. IsStrictlyIncreasing (granularities definitions.items)) }
{
    let mut definitions = Vec::new(alloc);
    for _ in 0..count {
        let definition = read_definition(definitions.as_slice(), reader)?;
        definitions.push(definition)?;
    }
    Ok(definitions)
}

// The kinds whose bits are set.
fn kinds_with(alloc: Global, bits: u16) -> Result<Vec<Kind>, Memory>
    ensures value { IfOk result (λ kinds. kinds.items ≡ kinds_with bits) }
    ensures in_order { IfOk result (λ kinds. AreInTableOrder kinds.items) }
{
    let mut kinds = Vec::new(alloc);
    for place in 0..KINDS {
        if has_bit(bits, place) {
            kinds.push(kind_of_place(place))?;
        }
    }
    Ok(kinds)
}

fn has_bit(bits: u16, place: u8) -> bool
    requires { place < 16 }
    ensures { result ≡ has_bit bits place }
{
    (bits >> place) % 2 == 1
}

// The kind at this place of the table.
fn kind_of_place(place: u8) -> Kind
    requires { place < 16 }
    ensures { slice_get all_kinds place ≡ Some result }
{
    Kind::of_index(place).unwrap()
}

// The fields of a policy, each in its range.
#[derive(Drop)]
struct Fields {
    name: Name,
    back_window: u16,
    definitions: Vec<Definition>,
    kinds: Vec<Kind>,
}

impl Model for Fields {
    ghost use Rattle.std.specs.List.Sorted.{IsStrictlyIncreasing};
    ghost use Rattle.archive_policy.specs.Kinds.{AreInTableOrder, all_kinds};
    ghost use Rattle.archive_policy.specs.Policies.{ArchivePolicy, granularities};

    ghost Value = { ArchivePolicy };

    ghost view = { λ f. record { name = f.name; back_window = f.back_window; definitions = f.definitions.items; kinds = f.kinds.items } };

    ghost invariant = { λ f. IsStrictlyIncreasing (granularities f.definitions.items) × AreInTableOrder f.kinds.items };
}

#[tactic(auto, unfolding(crate::specs::PolicyReading::policy_fields_at, crate::specs::Reading::then_at, crate::specs::Reading::done))]
fn read_fields(alloc: Global, reader: &mut Reader<'_>) -> Result<Fields, ReadFault>
    ensures { Gives (λ fields. fields) result reader.new (policy_fields_at reader.old) }
{
    let name = read_name(alloc, reader)?;
    let back_window = reader.u16()?;
    let count = reader.u8()?;
    let definitions = read_definitions(alloc, count, reader)?;
    let bits = reader.u16()?;
    let kinds = kinds_with(alloc, bits)?;
    Ok(Fields {
        name,
        back_window,
        definitions,
        kinds,
    })
}

// Each definition, asked for as it is kept.
fn wanted_of(alloc: Global, definitions: &[Definition]) -> Result<Vec<Wanted>, AllocError>
    ensures { IfOk result (λ wanted. wanted.items ≡ map as_kept definitions.now) }
{
    definitions
        .iter()
        .map(|definition| Wanted {
            granularity: Some(definition.granularity),
            points: Some(u64::from(definition.points)),
            timespan: None,
        })
        .collect(alloc)
}

// The policy with these fields, which stand at this place, where one can be made.
fn make_policy(alloc: Global, at: u64, fields: Fields) -> Result<Policy, ReadFault>
    ensures { Answers result (if can_be_made fields then Ok fields else Err at) }
{
    let wanted = wanted_of(alloc, fields.definitions.as_slice())?;
    let Fields {
        name,
        back_window,
        definitions: _,
        kinds,
    } = fields;
    match Policy::make(
        alloc,
        name,
        u64::from(back_window),
        wanted.as_slice(),
        kinds.as_slice(),
    ) {
        Ok(policy) => Ok(policy),
        Err(PolicyFault::Memory) => Err(ReadFault::Memory),
        Err(_) => Err(ReadFault::Bad { at }),
    }
}

#[tactic(auto, unfolding(crate::specs::PolicyReading::policy_at, crate::specs::Reading::tested))]
pub(crate) fn read_policy(alloc: Global, reader: &mut Reader<'_>) -> Result<Policy, ReadFault>
    ensures { Gives (λ policy. policy) result reader.new (policy_at reader.old) }
{
    let at = reader.at();
    let fields = read_fields(alloc, reader)?;
    make_policy(alloc, at, fields)
}
