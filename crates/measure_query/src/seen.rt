// What was seen of a query so far.
ghost use Rattle.std.specs.Prelude.{◌≡◌, ◌⊎◌, [], ◌∷◌, ◌++◌, List, None, IsSome, IfErr, OnOk, OnErr};
ghost use Rattle.measure_query.specs.declared.query.QueryFault.TheVariants.{BadQuery};
ghost use Rattle.measure_query.specs.Key.{Pair, decoded, key_name};
ghost use Rattle.measure_query.specs.Query.{IsAsked, IsNoQuery};
ghost use Rattle.measure_query.specs.Seen.{IsSeen};

use crate::form::{kind_of, span_of, switch_of, time_of};
use crate::key::{Key, key_of};
use crate::{Asked, QueryFault};
use archive_policy::Kind;
use form_urlencoded::decode;
use gno_num::{Span, Stamp};
use series_model::Query;
use std::alloc::Global;

/// The readings of the values that were seen.
#[derive(Clone, Copy)]
pub struct Seen {
    pub start: Option<Stamp>,
    pub stop: Option<Stamp>,
    pub kind: Option<Option<Kind>>,
    pub granularity: Option<Span>,
    pub refresh: Option<bool>,
    pub exact: Option<bool>,
}

impl Seen {
    pub fn nothing() -> Seen
        ensures { IsSeen [] result }
    {
        Seen {
            start: None,
            stop: None,
            kind: None,
            granularity: None,
            refresh: None,
            exact: None,
        }
    }

    /// Takes a pair as it stands in the text.
    pub fn take_encoded(
        &mut self,
        alloc: Global,
        name: &[u8],
        value: &[u8],
    ) -> Result<(), QueryFault>
        ensures ok { OnOk result ((pairs : List Pair) → IsSeen pairs self.old
            → IsSeen (pairs ++ (decoded name.now, decoded value.now) ∷ []) self.new) }
        ensures bad { IfErr result (λ fault. fault ≡ QueryFault.BadQuery → (pairs others : List Pair) → IsSeen pairs self.old
            → IsNoQuery (pairs ++ (decoded name.now, decoded value.now) ∷ others)) }
    {
        let name = decode(alloc, name)?;
        let value = decode(alloc, value)?;
        match key_of(name.as_str().as_bytes()) {
            Some(key) => self.take(key, value.as_str().as_bytes()),
            None => Err(QueryFault::BadQuery),
        }
    }

    /// Takes the value of a key.
    fn take(&mut self, key: Key, value: &[u8]) -> Result<(), QueryFault>
        ensures ok { OnOk result ((pairs : List Pair) → IsSeen pairs self.old
            → IsSeen (pairs ++ (key_name key, value.now) ∷ []) self.new) }
        ensures bad { OnErr result ((pairs others : List Pair) → IsSeen pairs self.old
            → IsNoQuery (pairs ++ (key_name key, value.now) ∷ others)) }
    {
        match key {
            Key::Start => put(&mut self.start, time_of(value)),
            Key::Stop => put(&mut self.stop, time_of(value)),
            Key::Aggregation => put(&mut self.kind, Some(kind_of(value))),
            Key::Granularity => put(&mut self.granularity, span_of(value)),
            Key::Refresh => put(&mut self.refresh, switch_of(value)),
            Key::Exact => put(&mut self.exact, switch_of(value)),
        }
    }

    /// What is asked for, where nothing more is to be seen.
    pub fn asked(&self) -> Asked
        ensures { (pairs : List Pair) → IsSeen pairs self.now → IsAsked pairs result }
    {
        Asked {
            query: Query {
                start: self.start,
                stop: self.stop,
                kind: self.kind.unwrap_or(Some(Kind::Mean)),
                granularity: self.granularity,
            },
            refresh: self.refresh.unwrap_or(false),
            exact: self.exact.unwrap_or(false),
        }
    }
}

/// Puts a reading where none was seen yet.
fn put<T: Copy>(slot: &mut Option<T>, reading: Option<T>) -> Result<(), QueryFault>
    ensures ok { OnOk result ((slot.old ≡ None) × (slot.new ≡ reading) × IsSome reading) }
    ensures bad { OnErr result (IsSome slot.old ⊎ (reading ≡ None)) }
{
    if slot.is_some() || reading.is_none() {
        return Err(QueryFault::BadQuery);
    }
    *slot = reading;
    Ok(())
}
