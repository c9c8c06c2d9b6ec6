// The extents of a disk of blocks.
ghost use Rattle.std.specs.Prelude.{◌≡◌, ℕ, ◌+◌, ◌^◌, ◌<◌, ◌≤◌, ◌↔◌, min, nat_le, [], All, AllPairs, Any, IfOk, OnOk, OnErr, IsSomeAnd, MatchOption, position, slice_get};
ghost use Rattle.std.specs.Bool.{OnTrue, OnFalse};
ghost use Rattle.extent_map.specs.Extents.{Claims, Gives, HoldsUsed, IsLastEnd, IsUsed, Takes, TakesEnd, TakesFront};
ghost use Rattle.extent_map.specs.Ranges.{AreDisjoint, AreFreeRanges, LiesIn};

use crate::holder::{first_fit, holder};
use crate::ranges::{cut, cut_front, join};
use gno_num::Memory;
use std::alloc::Global;
use std::marker::Model;

/// Which places of a disk of blocks are used: those below the end that no free range holds.
#[derive(Drop)]
pub struct Extents {
    end: u64,
    free: Vec<(u64, u64)>,
}

impl Model for Extents {
    ghost use Rattle.std.specs.Prelude.{vec_len, vec_capacity, ◌-◌};
    ghost use Rattle.extent_map.specs.Extents.{ExtentsView};
    ghost use Rattle.extent_map.specs.Ranges.{AreFreeRanges};

    ghost Value = { ExtentsView };

    ghost view = { λ e. record { end = e.end; free = e.free.items; spare = vec_capacity e.free - vec_len e.free } };

    ghost invariant = { λ e. AreFreeRanges e.end e.free.items };
}

impl Extents {
    /// Nothing is below the end, which is 0.
    pub fn new(alloc: Global) -> Extents
        ensures end { result.end ≡ 0 }
        ensures free { result.free ≡ [] }
    {
        Extents {
            end: 0,
            free: Vec::new(alloc),
        }
    }

    /// The places of these ranges are used, and no others; the end is the greatest end of a range.
    /// The ranges come in any order.
    pub fn of_used(alloc: Global, used: &[(u64, u32)]) -> Result<Extents, Memory>
        requires disjoint { AllPairs AreDisjoint used.now }
        requires filled { All (λ r. 1 ≤ r.1) used.now }
        requires within { All (λ r. r.0 + r.1 ≤ 2 ^ 60) used.now }
        ensures used { IfOk result (λ e. (place : ℕ) → IsUsed e place ↔ Any (LiesIn place) used.now) }
        ensures end { IfOk result (λ e. IsLastEnd used.now e.end) }
        ensures form { IfOk result (λ e. AreFreeRanges e.end e.free) }
    {
        let mut sorted = used.to_vec(alloc)?;
        sorted.sort_unstable_by_key(|range| range.0);
        Extents::of_sorted(alloc, sorted.as_slice())
    }

    /// The same, fast where the ranges come by rising place.
    fn of_sorted(alloc: Global, used: &[(u64, u32)]) -> Result<Extents, Memory>
        requires disjoint { AllPairs AreDisjoint used.now }
        requires filled { All (λ r. 1 ≤ r.1) used.now }
        requires within { All (λ r. r.0 + r.1 ≤ 2 ^ 60) used.now }
        ensures used { IfOk result (λ e. (place : ℕ) → IsUsed e place ↔ Any (LiesIn place) used.now) }
        ensures end { IfOk result (λ e. IsLastEnd used.now e.end) }
        ensures form { IfOk result (λ e. AreFreeRanges e.end e.free) }
    {
        let mut extents = Extents::new(alloc);
        for range in used {
            let _claimed = extents.claim(range.0, range.1)?;
        }
        Ok(extents)
    }

    /// The place below which each place is used or free.
    pub fn end(&self) -> u64
        ensures { result ≡ self.now.end }
    {
        self.end
    }

    /// The free ranges, each as its place with its length.
    pub fn free(&self) -> &[(u64, u64)]
        ensures value { result.now ≡ self.now.free }
        ensures form { AreFreeRanges self.now.end self.now.free }
    {
        self.free.as_slice()
    }

    /// Makes at least so many gives sure of their memory. An `Err` leaves all as it was.
    pub fn reserve(&mut self, gives: u64) -> Result<(), Memory>
        ensures end { self.new.end ≡ self.old.end }
        ensures free { self.new.free ≡ self.old.free }
        ensures spare { self.old.spare ≤ self.new.spare }
        ensures ok { OnOk result (gives ≤ self.new.spare) }
        ensures err { OnErr result (self.new ≡ self.old) }
        ensures short { OnErr result (self.old.spare < gives) }
    {
        self.free.reserve(gives as usize)?;
        Ok(())
    }

    /// Takes the front of the first free range that has so many places, or else the places behind
    /// the end, which grows; answers the first place. It takes no memory.
    pub fn take(&mut self, len: u32) -> u64
        requires filled { 1 ≤ len }
        requires within { self.old.end ≤ 2 ^ 60 }
        ensures exact { MatchOption (position (λ r. nat_le len r.1) self.old.free)
            (TakesEnd len result self.old self.new) (λ i. TakesFront i len result self.old self.new) }
        ensures used { Takes (record { 0 = result; 1 = len }) self.old self.new }
        ensures form { AreFreeRanges self.new.end self.new.free }
        ensures spare { self.old.spare ≤ self.new.spare }
    {
        let len = u64::from(len);
        match first_fit(self.free.as_slice(), len) {
            Some(i) => self.take_front(i, len),
            None => self.take_end(len),
        }
    }

    /// Takes the front of a free range.
    fn take_front(&mut self, i: usize, len: u64) -> u64
        requires { IsSomeAnd (slice_get self.old.free i) (λ r. len ≤ r.1) }
        ensures exact { TakesFront i len result self.old self.new }
        ensures used { Takes (record { 0 = result; 1 = len }) self.old self.new }
        ensures form { AreFreeRanges self.new.end self.new.free }
        ensures spare { self.old.spare ≤ self.new.spare }
    {
        let at = self.free[i].0;
        cut_front(&mut self.free, i, len);
        at
    }

    /// Takes the places behind the end.
    fn take_end(&mut self, len: u64) -> u64
        requires { self.old.end + len < 2 ^ 64 }
        ensures exact { TakesEnd len result self.old self.new }
        ensures used { Takes (record { 0 = result; 1 = len }) self.old self.new }
        ensures form { AreFreeRanges self.new.end self.new.free }
        ensures spare { self.old.spare ≤ self.new.spare }
    {
        let at = self.end;
        self.end = at + len;
        at
    }

    /// Gives back a range that is used, joined with the free ranges that it touches. It takes no
    /// memory.
    pub fn give(&mut self, at: u64, len: u32)
        requires filled { 1 ≤ len }
        requires used { (place : ℕ) → LiesIn place (record { 0 = at; 1 = len }) → IsUsed self.old place }
        requires sure { 1 ≤ self.old.spare }
        ensures end { self.new.end ≡ self.old.end }
        ensures used { Gives (record { 0 = at; 1 = len }) self.old self.new }
        ensures form { AreFreeRanges self.new.end self.new.free }
        ensures spare { self.old.spare ≤ self.new.spare + 1 }
    {
        let _given = join(&mut self.free, at, u64::from(len));
    }

    /// Takes a range where no place of it is used, and answers whether it did. What lies between the
    /// old end and the range becomes free. Where it didn't, and after an `Err`, all is as it was.
    pub fn claim(&mut self, at: u64, len: u32) -> Result<bool, Memory>
        requires filled { 1 ≤ len }
        requires within { at + len ≤ 2 ^ 60 }
        ensures claimed { IfOk result (λ claimed. OnTrue claimed (Claims (record { 0 = at; 1 = len }) self.old self.new)) }
        ensures refused { IfOk result (λ claimed. OnFalse claimed (HoldsUsed (record { 0 = at; 1 = len }) self.old × (self.new ≡ self.old))) }
        ensures form { AreFreeRanges self.new.end self.new.free }
        ensures err { OnErr result (self.new ≡ self.old) }
        ensures short { OnErr result (self.old.spare ≡ 0) }
    {
        let len = u64::from(len);
        if self.end <= at {
            self.claim_behind(at, len)?;
            return Ok(true);
        }
        match holder(self.free.as_slice(), self.end, at, at + len) {
            Some(i) => self.claim_within(i, at, len)?,
            None => return Ok(false),
        }
        Ok(true)
    }

    /// Takes a range behind the end.
    fn claim_behind(&mut self, at: u64, len: u64) -> Result<(), Memory>
        requires behind { self.old.end ≤ at }
        requires within { at + len < 2 ^ 64 }
        ensures ok { OnOk result (Claims (record { 0 = at; 1 = len }) self.old self.new) }
        ensures form { AreFreeRanges self.new.end self.new.free }
        ensures err { OnErr result (self.new ≡ self.old) }
        ensures short { OnErr result (self.old.spare ≡ 0) }
    {
        if self.end == at {
            self.end = at + len;
            return Ok(());
        }
        join(&mut self.free, self.end, at - self.end)?;
        self.end = at + len;
        Ok(())
    }

    /// Takes a range whose places below the end a free range holds.
    fn claim_within(&mut self, i: usize, at: u64, len: u64) -> Result<(), Memory>
        requires held { IsSomeAnd (slice_get self.old.free i) (λ r. (r.0 ≤ at) × (min (at + len) self.old.end ≤ r.0 + r.1)) }
        requires filled { 1 ≤ len }
        requires below { at < self.old.end }
        requires within { at + len < 2 ^ 64 }
        ensures ok { OnOk result (Claims (record { 0 = at; 1 = len }) self.old self.new) }
        ensures form { AreFreeRanges self.new.end self.new.free }
        ensures err { OnErr result (self.new ≡ self.old) }
        ensures short { OnErr result (self.old.spare ≡ 0) }
    {
        let stop = at + len;
        cut(&mut self.free, i, at, stop.min(self.end) - at)?;
        self.end = self.end.max(stop);
        Ok(())
    }
}
