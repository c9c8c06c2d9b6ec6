// Policies.
ghost use Rattle.std.specs.Prelude.{◌≡◌, ◌≢◌, ◌≤◌, ◌↔◌, Some, Err, IsTrue, IfOk, IfErr, OnOk, All, length};
ghost use Rattle.archive_policy.specs.declared.fault.PolicyFault.{PolicyFault};
ghost use Rattle.std.specs.List.{insert};
ghost use Rattle.archive_policy.specs.Asked.{definition_of};
ghost use Rattle.archive_policy.specs.Faults.{IsFirst, first_fault};
ghost use Rattle.archive_policy.specs.Kinds.{is_among, kinds_of};
ghost use Rattle.archive_policy.specs.Names.{IsName};
ghost use Rattle.archive_policy.specs.Policies.{AreDefinitions, AreKinds, IsDefinition, IsGranularity, definitions_of, largest_of, policy_of, put};
ghost use Rattle.archive_policy.specs.PolicyLaws.{IsAsked};

use crate::first_fault::first_fault;
use crate::wanted::definition_of;
use crate::{Definition, Kind, Name, PolicyFault, Wanted};
use gno_num::{Memory, Span};
use std::alloc::Global;
use std::marker::Model;

/// By which definitions and kinds a metric's series are kept, and how late a measure may be.
#[derive(Debug, Drop)]
pub struct Policy {
    name: Name,
    back_window: u16,
    definitions: Vec<Definition>,
    kinds: Vec<Kind>,
}

impl Model for Policy {
    ghost use Rattle.archive_policy.specs.Policies.{ArchivePolicy, IsArchivePolicy};

    ghost Value = { ArchivePolicy };

    ghost view = { λ p. record { name = p.name; back_window = p.back_window; definitions = p.definitions.items; kinds = p.kinds.items } };

    ghost invariant = { λ p. IsArchivePolicy (record { name = p.name; back_window = p.back_window; definitions = p.definitions.items; kinds = p.kinds.items }) };
}

impl Policy {
    /// The policy that is asked for: definitions by rising granularity, and kinds in table order
    /// without repeats. Otherwise the first fault; `Memory` comes only where no other fault holds.
    pub fn make(
        alloc: Global,
        name: Name,
        back_window: u64,
        wanted: &[Wanted],
        kinds: &[Kind],
    ) -> Result<Policy, PolicyFault>
        ensures ok { IfOk result (λ policy. policy ≡ policy_of name back_window wanted.now kinds.now) }
        ensures none { OnOk result (first_fault back_window wanted.now kinds.now ≡ None) }
        ensures asked { IfOk result (IsAsked name back_window wanted.now kinds.now) }
        ensures fault { (fault : PolicyFault) → first_fault back_window wanted.now kinds.now ≡ Some fault
            → result ≡ Err fault }
        ensures err { IfErr result (λ fault. fault ≢ PolicyFault.Memory
            → first_fault back_window wanted.now kinds.now ≡ Some fault) }
        ensures first { IfErr result (λ fault. fault ≢ PolicyFault.Memory
            → IsFirst back_window wanted.now kinds.now fault) }
    {
        if let Some(fault) = first_fault(back_window, wanted, kinds) {
            return Err(fault);
        }
        Ok(Policy {
            name,
            back_window: back_window as u16,
            definitions: definitions_of(alloc, wanted)?,
            kinds: kinds_of(alloc, kinds)?,
        })
    }

    /// The name.
    pub fn name(&self) -> &Name
        ensures value { result.now ≡ self.now.name }
        ensures is_name { IsName result.now }
    {
        &self.name
    }

    /// How many of the largest granularity late measures may be.
    pub fn back_window(&self) -> u16
        ensures value { result ≡ self.now.back_window }
        ensures limit { result ≤ 1000 }
    {
        self.back_window
    }

    /// The definitions, by rising granularity.
    pub fn definitions(&self) -> &[Definition]
        ensures value { result.now ≡ self.now.definitions }
        ensures valid { AreDefinitions result.now }
    {
        self.definitions.as_slice()
    }

    /// The kinds of aggregation, in table order.
    pub fn kinds(&self) -> &[Kind]
        ensures value { result.now ≡ self.now.kinds }
        ensures valid { AreKinds result.now }
    {
        self.kinds.as_slice()
    }

    /// The largest granularity.
    pub fn largest(&self) -> Span
        ensures value { result ≡ largest_of self.now.definitions }
        ensures range { IsGranularity result }
    {
        self.definitions[self.definitions.len() - 1].granularity
    }

    /// Whether the two are equal.
    pub fn equals(&self, other: &Policy) -> bool
        ensures { IsTrue result ↔ (self.now ≡ other.now) }
    {
        if !self.name.equals(&other.name) {
            return false;
        }
        if self.back_window != other.back_window {
            return false;
        }
        same_definitions(self.definitions.as_slice(), other.definitions.as_slice())
            && same_kinds(self.kinds.as_slice(), other.kinds.as_slice())
    }

    /// An equal policy.
    pub fn copy(&self) -> Result<Policy, Memory>
        ensures { IfOk result (λ copy. copy ≡ self.now) }
    {
        let alloc = *self.definitions.allocator();
        Ok(Policy {
            name: self.name.copy()?,
            back_window: self.back_window,
            definitions: Vec::from_slice(alloc, self.definitions.as_slice())?,
            kinds: Vec::from_slice(alloc, self.kinds.as_slice())?,
        })
    }
}

/// Whether the definitions are equal.
fn same_definitions(definitions: &[Definition], others: &[Definition]) -> bool
    ensures { IsTrue result ↔ (definitions.now ≡ others.now) }
{
    definitions == others
}

/// Whether the kinds are equal.
fn same_kinds(kinds: &[Kind], others: &[Kind]) -> bool
    ensures { IsTrue result ↔ (kinds.now ≡ others.now) }
{
    kinds == others
}

/// The definitions that are asked for, by rising granularity.
fn definitions_of(alloc: Global, wanted: &[Wanted]) -> Result<Vec<Definition>, Memory>
    requires { All (λ w. IsDefinition (definition_of w)) wanted.now }
    ensures { IfOk result (λ definitions. definitions.items ≡ definitions_of wanted.now) }
{
    let mut definitions = Vec::new(alloc);
    for w in wanted {
        let definition = definition_of(w);
        let place = place_of(&definition, definitions.as_slice());
        definitions.insert(place, definition)?;
    }
    Ok(definitions)
}

/// The place of a definition among others by granularity.
fn place_of(definition: &Definition, among: &[Definition]) -> usize
    ensures inside { result ≤ length among.now }
    ensures place { insert among.now result definition.now ≡ put among.now definition.now }
{
    let granularity = definition.granularity.nanos();
    for (place, x) in among.iter().enumerate() {
        if granularity < x.granularity.nanos() {
            return place;
        }
    }
    among.len()
}

/// The kinds by table order, without repeats.
fn kinds_of(alloc: Global, kinds: &[Kind]) -> Result<Vec<Kind>, Memory>
    ensures { IfOk result (λ kept. kept.items ≡ kinds_of kinds.now) }
{
    let mut kept = Vec::new(alloc);
    let table = Kind::table();
    for kind in table {
        if is_among(kinds, *kind) {
            kept.push(*kind)?;
        }
    }
    Ok(kept)
}

/// Whether the kind is one of these.
fn is_among(kinds: &[Kind], kind: Kind) -> bool
    ensures { result ≡ is_among kinds.now kind }
{
    kinds.iter().any(|k| k.index() == kind.index())
}
