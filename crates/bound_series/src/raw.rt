// The raw values that are kept of a series.
ghost use Rattle.std.specs.Prelude.{◌≡◌, ◌≤◌, ◌<◌, ◌^◌, ◌++◌, ◌+◌, ◌↔◌, [], ℕ, List, None, IsTrue, IfOk, OnOk, OnErr, drop, fold, length, map, not, take};
ghost use Rattle.std.specs.List.Sorted.{IsStrictlyIncreasing};
ghost use Rattle.std.specs.Option.{SomeIff, option_to_list};
ghost use Rattle.series_model.specs.declared.measure.Measure.{Measure};
ghost use Rattle.series_model.specs.Accepted.{latest};
ghost use Rattle.series_model.specs.Series.{put};
ghost use Rattle.series_model.specs.Tail.{accepts_from, kept_window, last_onto, last_time, members_before, members_from, members_of, newly_accepted, tail_of, window_by};
ghost use Rattle.bound_series.specs.Turn.{after_batch, cut_at, earliest, reaches, taken, with_series};

use crate::merge::{end_before, put_all};
use crate::settle::{accepted_of, earliest_of, rises, settle};
use archive_policy::Policy;
use gno_num::{Memory, Stamp};
use series_model::{Batch, Measure, window_of};
use std::alloc::Global;
use std::marker::Model;

/// What a turn accepted: the least timestamp, where there is one, and how many measures.
#[derive(Clone, Copy, Debug, PartialEq, Eq)]
pub struct Touched {
    pub from: Option<Stamp>,
    pub accepted: u64,
}

/// The members of a series from some time on, by time, and the greatest earlier one, the anchor,
/// where there is one. Contracts see them as a tail, whose last timestamp is that of the last point.
#[derive(Debug, Drop)]
pub struct Raw {
    points: Vec<Measure>,
    anchor: Option<Measure>,
}

impl Model for Raw {
    ghost use Rattle.std.specs.Prelude.{◌++◌, map};
    ghost use Rattle.std.specs.Option.{option_to_list};
    ghost use Rattle.std.specs.List.Sorted.{IsStrictlyIncreasing};
    ghost use Rattle.series_model.specs.Tail.{Tail};
    ghost use Rattle.bound_series.specs.Turn.{tail_with};

    ghost Value = { Tail };

    ghost view = { λ r. tail_with r.points.items r.anchor };

    ghost invariant = { λ r. IsStrictlyIncreasing (map (λ m. m.at) (option_to_list r.anchor ++ r.points.items)) };
}

impl Raw {
    /// Nothing was accepted yet.
    pub fn empty(alloc: Global) -> Raw
        ensures { result ≡ record { points = []; anchor = None; last = None } }
    {
        Raw {
            points: Vec::new(alloc),
            anchor: None,
        }
    }

    /// The kept values with these points, anchor and last timestamp; none where times don't rise
    /// strictly from the anchor on, or the last timestamp isn't the last point's.
    pub fn of(anchor: Option<Measure>, points: Vec<Measure>, last: Option<Stamp>) -> Option<Raw>
        ensures { SomeIff result
            (IsStrictlyIncreasing (map (λ m. m.at) (option_to_list anchor ++ points.items)) × (last ≡ last_time points.items))
            (record { points = points.items; anchor = anchor; last = last }) }
    {
        if !is_series(&anchor, points.as_slice()) {
            return None;
        }
        if !is_same_time(&last, &last_of(points.as_slice())) {
            return None;
        }
        Some(Raw { points, anchor })
    }

    /// The points, by time.
    pub fn points(&self) -> &[Measure]
        ensures value { result.now ≡ self.now.points }
        ensures rising { IsStrictlyIncreasing (map (λ m. m.at) (members_of self.now)) }
        ensures last { self.now.last ≡ last_time self.now.points }
    {
        self.points.as_slice()
    }

    /// The member before them, where one is kept.
    pub fn anchor(&self) -> Option<Measure>
        ensures { result ≡ self.now.anchor }
    {
        self.anchor
    }

    /// The greatest accepted timestamp, where there is one.
    pub fn last(&self) -> Option<Stamp>
        ensures { result ≡ self.now.last }
    {
        last_of(self.points.as_slice())
    }

    /// The time from which on measures are accepted, where there is a window.
    pub fn window(&self, policy: &Policy) -> Option<Stamp>
        ensures { result ≡ window_by policy.now self.now.last }
    {
        window_of(policy.largest(), policy.back_window(), &self.last())
    }

    /// A batch's turn, without truncation: the window that stands as it begins judges all its
    /// measures. After `Memory` the values are as before.
    pub fn accept(&mut self, policy: &Policy, batch: &Batch) -> Result<Touched, Memory>
        ensures turn { OnOk result (self.new ≡ after_batch policy.now self.old batch.now) }
        ensures from { IfOk result (λ touched. touched.from ≡ earliest (taken policy.now self.old batch.now)) }
        ensures accepted { IfOk result (λ touched. touched.accepted ≡ length (taken policy.now self.old batch.now)) }
        ensures err { OnErr result (self.new ≡ self.old) }

        // by all measures that were accepted before, and for each cut that isn't after the window
        ensures from_scratch { OnOk result ((cut : ℕ) (accepted : List Measure)
            → cut ≤ accepts_from policy.now (latest accepted)
            → self.old ≡ tail_of cut accepted
            → self.new ≡ tail_of cut (accepted ++ newly_accepted policy.now accepted batch.now)) }
    {
        let alloc = *self.points.allocator();
        let window = self.window(policy);
        let accepted = accepted_of(alloc, &window, batch.measures())?;
        let touched = Touched {
            from: earliest_of(accepted.as_slice()),
            accepted: accepted.len() as u64,
        };
        let series = settle(alloc, accepted)?;
        self.put_series(alloc, series.as_slice())?;
        Ok(touched)
    }

    /// Leaves what is kept: the points that aren't before the window, and the nearest before them.
    pub fn cut(&mut self, policy: &Policy)
        ensures cut { self.new ≡ cut_at (accepts_from policy.now self.old.last) self.old }
        ensures from_scratch { (cut : ℕ) (accepted : List Measure)
            → cut ≤ accepts_from policy.now (latest accepted)
            → self.old ≡ tail_of cut accepted
            → self.new ≡ kept_window policy.now accepted }
    {
        let from = accepts_from(policy, &self.last());
        let place = place_of(self.points.as_slice(), from);
        let anchor = anchor_at(&self.anchor, self.points.as_slice(), place);
        drop_front(&mut self.points, place);
        self.anchor = anchor;
    }

    /// Equal values.
    pub fn copy(&self) -> Result<Raw, Memory>
        ensures { IfOk result (λ copy. copy ≡ self.now) }
    {
        let points = Vec::from_slice(*self.points.allocator(), self.points.as_slice())?;
        Ok(Raw {
            points,
            anchor: self.anchor,
        })
    }

    /// Puts a series in its place. After `Memory` the values are as before.
    fn put_series(&mut self, alloc: Global, series: &[Measure]) -> Result<(), Memory>
        requires rising { IsStrictlyIncreasing (map (λ m. m.at) series.now) }
        ensures ok { OnOk result (self.new ≡ with_series self.old series.now) }
        ensures err { OnErr result (self.new ≡ self.old) }
    {
        if reaches(&self.anchor, series) {
            let members = members_of(alloc, &self.anchor, self.points.as_slice())?;
            self.points = put_all(alloc, members.as_slice(), series)?;
            self.anchor = None;
            return Ok(());
        }
        put_points(alloc, &mut self.points, series)?;
        Ok(())
    }
}

/// Puts a series in its place among points. After `Memory` they are as before.
fn put_points(alloc: Global, points: &mut Vec<Measure>, series: &[Measure]) -> Result<(), Memory>
    requires points { IsStrictlyIncreasing (map (λ m. m.at) points.old.items) }
    requires series { IsStrictlyIncreasing (map (λ m. m.at) series.now) }
    ensures ok { OnOk result (points.new.items ≡ fold put points.old.items series.now) }
    ensures err { OnErr result (points.new.items ≡ points.old.items) }
{
    if is_behind(&last_member(points.as_slice()), series) {
        points.extend_from_slice(series)?;
        return Ok(());
    }
    let merged = put_all(alloc, points.as_slice(), series)?;
    *points = merged;
    Ok(())
}

/// The time from which on measures are accepted, by the last timestamp.
fn accepts_from(policy: &Policy, last: &Option<Stamp>) -> u64
    ensures { result ≡ accepts_from policy.now last.now }
{
    match window_of(policy.largest(), policy.back_window(), last) {
        None => 0,
        Some(window) => window.nanos(),
    }
}

/// Whether times rise strictly from the anchor on.
fn is_series(anchor: &Option<Measure>, points: &[Measure]) -> bool
    ensures { IsTrue result ↔ IsStrictlyIncreasing (map (λ m. m.at) (option_to_list anchor.now ++ points.now)) }
{
    if reaches(anchor, points) {
        return false;
    }
    rises(points)
}

/// The anchor and the points.
fn members_of(
    alloc: Global,
    anchor: &Option<Measure>,
    points: &[Measure],
) -> Result<Vec<Measure>, Memory>
    ensures { IfOk result (λ members. members.items ≡ option_to_list anchor.now ++ points.now) }
{
    let mut members = Vec::with_capacity(alloc, points.len().saturating_add(1))?;
    if let Some(anchor) = anchor {
        members.push(*anchor)?;
    }
    members.extend_from_slice(points)?;
    Ok(members)
}

/// Whether the first of a series isn't after the anchor.
fn reaches(anchor: &Option<Measure>, series: &[Measure]) -> bool
    ensures { result ≡ reaches anchor.now series.now }
{
    match (anchor, series) {
        (Some(anchor), [first, ..]) => first.at.nanos() <= anchor.at.nanos(),
        _ => false,
    }
}

/// Whether a series is behind a measure, where there is one.
fn is_behind(before: &Option<Measure>, series: &[Measure]) -> bool
    ensures { result ≡ not (reaches before.now series.now) }
{
    !reaches(before, series)
}

/// The last member.
fn last_member(series: &[Measure]) -> Option<Measure>
    ensures { result ≡ last_onto None series.now }
{
    series.last().copied()
}

/// The time of the last member.
fn last_of(series: &[Measure]) -> Option<Stamp>
    ensures { result ≡ last_time series.now }
{
    match last_member(series) {
        None => None,
        Some(m) => Some(m.at),
    }
}

/// Whether two times are the same, or neither is there.
fn is_same_time(at: &Option<Stamp>, other: &Option<Stamp>) -> bool
    ensures { IsTrue result ↔ (at.now ≡ other.now) }
{
    match (at, other) {
        (None, None) => true,
        (Some(at), Some(other)) => at.nanos() == other.nanos(),
        _ => false,
    }
}

/// How many members of a series are before a time.
fn place_of(series: &[Measure], from: u64) -> usize
    requires { IsStrictlyIncreasing (map (λ m. m.at) series.now) }
    ensures inside { result ≤ length series.now }
    ensures before { take result series.now ≡ members_before from series.now }
    ensures behind { drop result series.now ≡ members_from from series.now }
{
    end_before(series, 0, from)
}

/// The last member before a place, or the anchor where there is none.
fn anchor_at(anchor: &Option<Measure>, points: &[Measure], place: usize) -> Option<Measure>
    requires { place ≤ length points.now }
    ensures { result ≡ last_onto anchor.now (take place points.now) }
{
    if place == 0 {
        return *anchor;
    }
    Some(points[place - 1])
}

/// Drops the first members, and takes no memory.
fn drop_front(points: &mut Vec<Measure>, count: usize)
    requires { count ≤ length points.old.items }
    ensures { points.new.items ≡ drop count points.old.items }
{
    let rest = points.len() - count;
    points.copy_within(count.., 0);
    points.truncate(rest);
}
