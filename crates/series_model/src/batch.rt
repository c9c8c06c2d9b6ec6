// Batches of measures.
ghost use Rattle.std.specs.Prelude.{◌≡◌, ◌<◌, ◌≤◌, length, IfOk, IfErr};

use crate::Measure;
use gno_num::Memory;
use std::marker::Model;

const MOST: usize = 50_000;

/// The measures that were posted together, at most 50,000. An empty batch is a batch.
#[derive(Debug, Drop)]
pub struct Batch {
    measures: Vec<Measure>,
}

/// There were more measures than a batch may have.
#[derive(Clone, Copy, Debug, PartialEq, Eq)]
pub struct TooMany {
    pub given: u64,
}

impl Model for Batch {
    ghost use Rattle.std.specs.Prelude.{List, length, ◌≤◌};
    ghost use Rattle.series_model.specs.declared.measure.Measure.{Measure};

    ghost Value = { List Measure };

    ghost view = { λ b. b.measures.items };

    ghost invariant = { λ b. length b.measures.items ≤ 50000 };
}

impl Batch {
    /// The batch of these measures, in order, unless they are over 50,000.
    pub fn make(measures: Vec<Measure>) -> Result<Batch, TooMany>
        ensures ok { IfOk result (λ batch. (batch ≡ measures.items) × (length measures.items ≤ 50000)) }
        ensures err { IfErr result (λ e. (e.given ≡ length measures.items) × (50000 < length measures.items)) }
    {
        if measures.len() <= MOST {
            Ok(Batch { measures })
        } else {
            Err(TooMany {
                given: measures.len() as u64,
            })
        }
    }

    /// An equal batch.
    pub fn copy(&self) -> Result<Batch, Memory>
        ensures { IfOk result (λ copy. copy ≡ self.now) }
    {
        let measures = Vec::from_slice(*self.measures.allocator(), self.measures.as_slice())?;
        Ok(Batch { measures })
    }

    /// The measures, in order.
    pub fn measures(&self) -> &[Measure]
        ensures value { result.now ≡ self.now }
        ensures limit { length result.now ≤ 50000 }
    {
        self.measures.as_slice()
    }
}
