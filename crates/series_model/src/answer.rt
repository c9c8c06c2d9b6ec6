// Answers of queries.
ghost use Rattle.std.specs.Prelude.{◌≡◌, [], ◌∷◌, ◌++◌, OnOk, OnErr};

use gno_num::{Frac, Memory, Span, Stamp};
use std::alloc::Global;
use std::marker::Model;

/// The value of the bucket of this granularity that begins at this time.
#[derive(Clone, Copy, Debug, PartialEq, Eq)]
pub struct Row {
    pub at: Stamp,
    pub granularity: Span,
    pub value: Frac,
}

/// The rows that a query is answered with.
#[derive(Debug, Drop)]
pub struct Answer {
    rows: Vec<Row>,
}

impl Model for Answer {
    ghost use Rattle.std.specs.Prelude.{List};
    ghost use Rattle.series_model.specs.declared.answer.Row.{Row};

    ghost Value = { List Row };

    ghost view = { λ a. a.rows.items };
}

impl Answer {
    /// No rows yet.
    pub fn new(alloc: Global) -> Answer
        ensures { result ≡ [] }
    {
        Answer {
            rows: Vec::new(alloc),
        }
    }

    /// Adds a row at the end, or leaves the rows.
    pub fn add(&mut self, row: Row) -> Result<(), Memory>
        ensures ok { OnOk result (self.new ≡ self.old ++ row ∷ []) }
        ensures err { OnErr result (self.new ≡ self.old) }
    {
        self.rows.push(row)?;
        Ok(())
    }

    /// The rows, in order.
    pub fn rows(&self) -> &[Row]
        ensures { result.now ≡ self.now }
    {
        self.rows.as_slice()
    }
}
