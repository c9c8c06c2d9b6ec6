// Reading a query.
ghost use Rattle.std.specs.Prelude.{◌≡◌, MatchResult, IfOk, IfErr};
ghost use Rattle.measure_query.specs.declared.query.QueryFault.TheVariants.{Memory};
ghost use Rattle.measure_query.specs.declared.query.Asked.{Asked as A_Query};
ghost use Rattle.measure_query.specs.Key.{pairs_of};
ghost use Rattle.measure_query.specs.Query.{IsAsked, IsNoQuery};

use crate::seen::Seen;
use form_urlencoded::raw_pairs;
use series_model::Query;
use std::alloc::{AllocError, Global};

/// What is asked for: the buckets, whether what waits is processed first, and whether values are
/// printed exactly.
#[derive(Clone, Copy, Debug, PartialEq, Eq)]
pub struct Asked {
    pub query: Query,
    pub refresh: bool,
    pub exact: bool,
}

/// Why a text asks for nothing.
#[derive(Clone, Copy, Debug, PartialEq, Eq)]
pub enum QueryFault {
    /// It has another key, a key twice, or a value that isn't of its form.
    BadQuery,
    Memory,
}

impl From<AllocError> for QueryFault {
    ghost from_gives = { λ _ e. e ≡ Memory };

    fn from(_: AllocError) -> QueryFault {
        QueryFault::Memory
    }
}

/// What the query of a `GET` on measures asks for, which is the bytes behind `?`, as
/// `application/x-www-form-urlencoded`. The keys are `start` and `stop`, times; `aggregation`, any
/// text; `granularity`, a length of time; `refresh` and `exact`, `true`, `1`, `false` or `0`. Each
/// may be absent: an absent aggregation is the mean, an absent switch is `false`.
pub fn read_query(alloc: Global, text: &[u8]) -> Result<Asked, QueryFault>
    // What is read is what the pairs ask for; what they ask for is read, unless memory runs out.
    ensures ok { IfOk result (IsAsked (pairs_of text.now)) }
    ensures only { (asked : A_Query) → IsAsked (pairs_of text.now) asked
        → MatchResult result (λ found. found ≡ asked) (λ fault. fault ≡ QueryFault.Memory) }
    // What is refused is no query.
    ensures bad { IfErr result (λ fault. fault ≡ QueryFault.BadQuery → IsNoQuery (pairs_of text.now)) }
{
    let mut seen = Seen::nothing();
    for (name, value) in raw_pairs(text) {
        seen.take_encoded(alloc, name, value)?;
    }
    Ok(seen.asked())
}
