// What is kept in memory of an incoming log.
ghost use Rattle.std.specs.Prelude.{◌≡◌, ℕ, ◌+◌, ◌<◌, ◌≤◌, ◌^◌, ◌++◌, ◌∷◌, [], List, length, IfOk, IfSome, OnOk, true, false, max, map, slice_get};
ghost use Rattle.series_model.specs.declared.measure.Measure.{Measure};
ghost use Rattle.gno_codec.specs.Incoming.{incoming_bytes, next_bytes, post_bytes, IsIncoming, IsNext, IsPost};
ghost use Rattle.incoming.specs.Contents.{AreOf, HasRoom, IsKept};
ghost use Rattle.incoming.specs.Damage.{IsOddBehind};
ghost use Rattle.incoming.specs.Lists.{list_of, number_at, places_where};
ghost use Rattle.incoming.specs.Posts.{is_above, last_number, numbers_above};
ghost use Rattle.incoming.specs.Reading.{IsReadAs};

use crate::Mark;
use crate::lists::{Lists, list_of, push_at, reach, reserve_at};
use gno_codec::IncomingItem;
use gno_num::Memory;
use series_model::MetricId;
use std::alloc::Global;
use std::collections::BTreeMap;

/// The marks of all posts, and by metric where they stand.
#[derive(Drop)]
pub struct Contents {
    pub marks: Vec<Mark>,
    pub lists: Lists,
    /// The index of the first post's record: 1 where a `Next` stands before it, and else 0.
    pub first: u64,
    /// The number of the next post.
    pub next: u64,
}

impl Contents {
    /// What an empty log has.
    pub fn empty(alloc: Global) -> Contents
        ensures kept { IsKept result }
        ensures none { result.marks.items ≡ [] }
        ensures next { (result.first ≡ 0) × (result.next ≡ 1) }
        ensures are { AreOf result [] }
    {
        Contents {
            marks: Vec::new(alloc),
            lists: BTreeMap::new(alloc),
            first: 0,
            next: 1,
        }
    }

    /// Takes the memory for one mark more, of this metric.
    pub fn reserve(&mut self, metric: MetricId) -> Result<(), Memory>
        ensures room { OnOk result (HasRoom self.new metric.0) }
        ensures marks { self.new.marks.items ≡ self.old.marks.items }
        ensures numbers { (self.new.first ≡ self.old.first) × (self.new.next ≡ self.old.next) }
        ensures lists { (m : ℕ) → list_of self.new.lists m ≡ list_of self.old.lists m }
    {
        self.marks.reserve(1)?;
        reserve_at(&mut self.lists, *self.marks.allocator(), metric.0)
    }

    /// Puts a mark to the end.
    pub fn push(&mut self, mark: Mark)
        requires room { HasRoom self.old mark.metric.0 }
        requires kept { IsKept self.old }
        requires above { last_number self.old.marks.items < mark.number }
        requires limit { mark.number < 2 ^ 63 }
        ensures marks { self.new.marks.items ≡ self.old.marks.items ++ mark ∷ [] }
        ensures numbers { (self.new.first ≡ self.old.first) × (self.new.next ≡ max self.old.next (mark.number + 1)) }
        ensures kept { IsKept self.new }
    {
        push_at(&mut self.lists, mark.metric.0, self.marks.len());
        self.marks.push_reserved(mark);
        self.next = self.next.max(mark.number + 1);
    }

    /// The number of the last mark, 0 where there is none.
    fn last_number(&self) -> u64
        ensures { result ≡ last_number self.now.marks.items }
    {
        match self.marks.last() {
            Some(mark) => mark.number,
            None => 0,
        }
    }

    /// Takes in what the record at this index was read as, behind those taken in, and answers whether it
    /// may stand there.
    pub fn take_in(&mut self, index: u64, item: &Option<IncomingItem>) -> Result<bool, Memory>
        requires kept { IsKept self.old }
        requires counted { index ≡ self.old.first + length self.old.marks.items }
        requires fits { IfSome item.now IsIncoming }
        ensures kept { IsKept self.new }
        ensures counted { IfOk result (λ may. may ≡ true → self.new.first + length self.new.marks.items ≡ index + 1) }
        ensures taken { IfOk result (λ may. may ≡ true → (records : List (List ℕ)) (body : List ℕ) → IsReadAs item.now body
            → AreOf self.old records → AreOf self.new (records ++ body ∷ [])) }
        ensures odd { IfOk result (λ may. may ≡ false → (records : List (List ℕ)) (body : List ℕ) → IsReadAs item.now body
            → AreOf self.old records → IsOddBehind records body) }
    {
        match item {
            None => Ok(false),
            Some(item) => self.take_item(index, item),
        }
    }

    /// Takes in a record, if it may stand there.
    fn take_item(&mut self, index: u64, item: &IncomingItem) -> Result<bool, Memory>
        requires kept { IsKept self.old }
        requires counted { index ≡ self.old.first + length self.old.marks.items }
        requires fits { IsIncoming item.now }
        ensures kept { IsKept self.new }
        ensures counted { IfOk result (λ may. may ≡ true → self.new.first + length self.new.marks.items ≡ index + 1) }
        ensures taken { IfOk result (λ may. may ≡ true → (records : List (List ℕ)) → AreOf self.old records
            → AreOf self.new (records ++ incoming_bytes item.now ∷ [])) }
        ensures odd { IfOk result (λ may. may ≡ false → (records : List (List ℕ)) → AreOf self.old records
            → IsOddBehind records (incoming_bytes item.now)) }
    {
        match item {
            IncomingItem::Next { number } => Ok(self.take_next(index, *number)),
            IncomingItem::Post {
                number,
                metric,
                batch: _batch,
            } => self.take_post(*number, *metric),
        }
    }

    /// Takes in a `Next`, if it is the first record.
    fn take_next(&mut self, index: u64, number: u64) -> bool
        requires kept { IsKept self.old }
        requires counted { index ≡ self.old.first + length self.old.marks.items }
        requires fits { IsNext number }
        ensures kept { IsKept self.new }
        ensures counted { result ≡ true → self.new.first + length self.new.marks.items ≡ index + 1 }
        ensures taken { result ≡ true → (records : List (List ℕ)) → AreOf self.old records
            → AreOf self.new (records ++ next_bytes number ∷ []) }
        ensures odd { result ≡ false → (records : List (List ℕ)) → AreOf self.old records
            → IsOddBehind records (next_bytes number) }
    {
        if index > 0 {
            return false;
        }
        self.first = 1;
        self.next = number;
        true
    }

    /// Takes in a post, if its number is above those before it.
    fn take_post(&mut self, number: u64, metric: MetricId) -> Result<bool, Memory>
        requires kept { IsKept self.old }
        requires limit { number < 2 ^ 63 }
        ensures kept { IsKept self.new }
        ensures counted { IfOk result (λ may. may ≡ true → self.new.first + length self.new.marks.items ≡ self.old.first + length self.old.marks.items + 1) }
        ensures taken { IfOk result (λ may. may ≡ true → (measures : List Measure) → IsPost number metric.0 measures
            → (records : List (List ℕ)) → AreOf self.old records → AreOf self.new (records ++ post_bytes number metric.0 measures ∷ [])) }
        ensures odd { IfOk result (λ may. may ≡ false → (measures : List Measure) → IsPost number metric.0 measures
            → (records : List (List ℕ)) → AreOf self.old records → IsOddBehind records (post_bytes number metric.0 measures)) }
    {
        if number <= self.last_number() {
            return Ok(false);
        }
        self.reserve(metric)?;
        self.push(Mark { number, metric });
        Ok(true)
    }

    /// The places of a metric's marks above a number, in order.
    pub fn places_above(&self, metric: MetricId, above: u64) -> &[usize]
        requires { IsKept self.now }
        ensures { result.now ≡ places_where (is_above metric above) 0 self.now.marks.items }
    {
        let list = list_of(&self.lists, metric.0);
        let upto = reach(self.marks.as_slice(), list, above);
        &list[upto..]
    }

    /// The number of a metric's first mark above a number.
    pub fn first_above(&self, metric: MetricId, above: u64) -> Option<u64>
        requires { IsKept self.now }
        ensures { result ≡ slice_get (numbers_above metric above self.now.marks.items) 0 }
    {
        let places = self.places_above(metric, above);
        first_number(self.marks.as_slice(), places)
    }
}

/// The number of the mark at the first of these places.
fn first_number(marks: &[Mark], places: &[usize]) -> Option<u64>
    ensures { result ≡ slice_get (map (number_at marks.now) places.now) 0 }
{
    match places.first() {
        Some(at) => Some(number_at(marks, *at)),
        None => None,
    }
}

/// The number of the mark at a place, 0 where there is none.
fn number_at(marks: &[Mark], at: usize) -> u64
    ensures { result ≡ number_at marks.now at }
{
    match marks.get(at) {
        Some(mark) => mark.number,
        None => 0,
    }
}
