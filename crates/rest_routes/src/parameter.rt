// What the parameters of a path stand for.
ghost use Rattle.std.specs.Prelude.{◌≡◌, IfOk};
ghost use Rattle.rest_routes.specs.Parameter.{as_id, as_name, id_in, metric_in, name_in};

use crate::escapes::unescape;
use archive_policy::{Name, NameFault};
use gno_num::Memory;
use series_model::MetricId;
use std::alloc::Global;
use uuid::Uuid;

/// The name in a parameter.
pub fn name_in(alloc: Global, parameter: &str) -> Result<Option<Name>, Memory>
    ensures { IfOk result (λ name. name ≡ name_in parameter.now) }
{
    let Some(text) = unescape(alloc, parameter)? else {
        return Ok(None);
    };
    as_name(alloc, text.as_slice())
}

/// A text as a name, if it may be one.
fn as_name(alloc: Global, text: &[u8]) -> Result<Option<Name>, Memory>
    ensures { IfOk result (λ name. name ≡ as_name text.now) }
{
    match Name::of(alloc, text) {
        Ok(name) => Ok(Some(name)),
        Err(NameFault::BadName) => Ok(None),
        Err(NameFault::Memory) => Err(Memory),
    }
}

/// The identifier in a parameter.
pub fn id_in(alloc: Global, parameter: &str) -> Result<Option<u128>, Memory>
    ensures { IfOk result (λ id. id ≡ id_in parameter.now) }
{
    let Some(text) = unescape(alloc, parameter)? else {
        return Ok(None);
    };
    Ok(as_id(text.as_slice()))
}

/// The identifier that a text is, as a number.
fn as_id(text: &[u8]) -> Option<u128>
    ensures { result ≡ as_id text.now }
{
    match Uuid::try_parse_ascii(text) {
        Ok(id) => Some(id.as_u128()),
        Err(_) => None,
    }
}

/// The identifier of a metric in a parameter.
pub fn metric_in(alloc: Global, parameter: &str) -> Result<Option<MetricId>, Memory>
    ensures { IfOk result (λ id. id ≡ metric_in parameter.now) }
{
    match id_in(alloc, parameter)? {
        Some(id) => Ok(Some(MetricId(id))),
        None => Ok(None),
    }
}
