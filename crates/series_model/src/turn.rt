// The turns of batches.
ghost use Rattle.std.specs.Prelude.{◌≡◌, IsTrue, [], ◌∷◌, ◌++◌, OnOk, OnErr};
ghost use Rattle.series_model.specs.Accepted.{after_turn, is_within};

use crate::Measure;
use crate::window::{later_of, window_of};
use gno_num::{Memory, Span, Stamp};
use std::alloc::Global;
use std::marker::Model;

/// The measures that were accepted so far, and the greatest timestamp among them.
#[derive(Drop)]
pub struct Turns {
    accepted: Vec<Measure>,
    last: Option<Stamp>,
}

impl Model for Turns {
    ghost use Rattle.std.specs.Prelude.{List, ◌≡◌};
    ghost use Rattle.series_model.specs.declared.measure.Measure.{Measure};
    ghost use Rattle.series_model.specs.Accepted.{latest};

    ghost Value = { List Measure };

    ghost view = { λ t. t.accepted.items };

    ghost invariant = { λ t. t.last ≡ latest t.accepted.items };
}

impl Turns {
    /// No turn yet.
    pub fn new(alloc: Global) -> Turns
        ensures { result ≡ [] }
    {
        Turns {
            accepted: Vec::new(alloc),
            last: None,
        }
    }

    /// A batch's turn. The window that stands as it begins judges all its measures. After an `Err`
    /// some of them were added.
    pub fn take(&mut self, largest: Span, back_window: u16, batch: &[Measure]) -> Result<(), Memory>
        ensures { OnOk result (self.new ≡ after_turn largest back_window self.old batch.now) }
    {
        let window = window_of(largest, back_window, &self.last);
        for m in batch {
            if is_within(&window, m) {
                self.add(*m)?;
            }
        }
        Ok(())
    }

    /// Adds an accepted measure, or leaves the turns.
    fn add(&mut self, m: Measure) -> Result<(), Memory>
        ensures ok { OnOk result (self.new ≡ self.old ++ m ∷ []) }
        ensures err { OnErr result (self.new ≡ self.old) }
    {
        let last = later_of(m.at, &self.last);
        self.accepted.push(m)?;
        self.last = Some(last);
        Ok(())
    }

    /// The accepted measures, in the order of acceptance.
    pub fn into_measures(self) -> Vec<Measure>
        ensures { result.items ≡ self }
    {
        self.accepted
    }
}

/// Whether the measure isn't before the window.
fn is_within(window: &Option<Stamp>, m: &Measure) -> bool
    ensures { result ≡ is_within window.now m.now }
{
    match window {
        None => true,
        Some(from) => from.nanos() <= m.at.nanos(),
    }
}
