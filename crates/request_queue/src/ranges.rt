//! Sorted ranges of sectors with the greatest end so far: finds conflicts by a search that can stop early.
//!
//! It goes down from the last range that begins before the request ends, to where all that are left
//! are known to end at or before its first sector. (That it stops there is read, not proved: its
//! contract says what is found.) `new` alone takes memory. Ids tell which request is earlier.
ghost use Rattle.std.specs.{Prelude.{◌≡◌, ◌≢◌, ◌↔◌, ℕ, ◌<◌, ◌≤◌, length, All, Contains, IfNone, IfOk, IfSome, IsTrue, Some, false, true, [], slice_get, slice_index_or, insert, remove, vec_capacity}, List.{list_any}};
ghost use Rattle.ata_types.specs.Range.{range_end};
ghost use Rattle.request_queue.specs.{BookRanges.{AreSorted, StandsBefore, EndIsGreatestUpTo, is_earlier_conflict_on_port}, declared.ranges.IndexEntry.{IndexEntry}, declared.ranges.RequestRange.{RequestRange}, RangeIndex.{NextEndIsGreatestIfThis, IsSortedWithGreatestEndSoFar, items_of}};
ghost use Rattle.block_machine.specs.DueRequests as machine;

use ata_types::{MOST_UNANSWERED_OF_ALL_CLIENTS, Port, Range, RequestId};
use std::alloc::{AllocError, Global};
use std::marker::Model;

/// The sectors of a request on its port's disk, and whether it writes or trims them.
#[derive(Clone, Copy, Debug, PartialEq, Eq)]
pub struct RequestRange {
    pub id: RequestId,
    pub range: Range,
    pub port: Port,
    pub changes_sectors: bool,
}

/// An item, and the greatest end of it and of all before it.
#[derive(Clone, Copy, Debug)]
struct IndexEntry {
    item: RequestRange,
    /// Ends don't fit `u64`, since a range may reach past 2^64.
    greatest_end: u128,
}

/// Items, sorted by first sector, then by id.
#[derive(Drop)]
pub struct RangeIndex {
    entries: Vec<IndexEntry>,
}

impl Model for RangeIndex {
    ghost use Rattle.std.specs.Prelude.{List, ◌≤◌, vec_capacity};
    ghost use Rattle.ata_types.specs.declared.limits.TheConstants.{MOST_UNANSWERED_OF_ALL_CLIENTS};
    ghost use Rattle.request_queue.specs.{declared.ranges.RequestRange.{RequestRange as One}, RangeIndex.{IsSortedWithGreatestEndSoFar, items_of}};

    ghost Value = { List One };

    ghost view = { λ r. items_of r.entries.items };

    ghost invariant = { λ r. IsSortedWithGreatestEndSoFar r.entries.items
        × (MOST_UNANSWERED_OF_ALL_CLIENTS ≤ vec_capacity r.entries) };
}

impl RangeIndex {
    /// No items, with room for 128. No other call takes memory.
    pub fn new(alloc: Global) -> Result<Self, AllocError>
        ensures { IfOk result (λ ranges. ranges ≡ []) }
    {
        let entries = Vec::with_capacity(alloc, MOST_UNANSWERED_OF_ALL_CLIENTS)?;
        Ok(RangeIndex { entries })
    }

    /// Puts an item in its place.
    pub fn insert(&mut self, item: RequestRange)
        requires room { length self.old < MOST_UNANSWERED_OF_ALL_CLIENTS }
        requires id_is_new { All (λ x. x.id ≢ item.id) self.old }
        ensures { (place : ℕ) × (place ≤ length self.old) × (self.new ≡ insert self.old place item) }
    {
        let first = u128::from(item.range.first.0);
        let place = count_before(self.entries.as_slice(), first, item.id.0);
        let entry = IndexEntry {
            item,
            greatest_end: 0,
        };
        match self.entries.insert(place, entry) {
            Ok(()) => {}
            Err(_) => unreachable!(),
        }
        note_ends(&mut self.entries, place);
    }

    /// Takes an item out.
    pub fn remove(&mut self, item: &RequestRange)
        requires { Contains self.old item.now }
        ensures { (place : ℕ) × (slice_get self.old place ≡ Some item.now) × (self.new ≡ remove self.old place) }
    {
        let first = u128::from(item.range.first.0);
        let own = count_before(self.entries.as_slice(), first, item.id.0);
        self.entries.remove(own);
        note_ends(&mut self.entries, own);
    }

    /// An item that was accepted before this one and conflicts with it, if there is one.
    pub fn earlier_conflict(&self, item: &RequestRange) -> Option<RequestRange>
        ensures none_conflicts { IfNone result (list_any (is_earlier_conflict_on_port item.now) self.now ≡ false) }
        ensures found { IfSome result (λ x. Contains self.now x × (is_earlier_conflict_on_port item.now x ≡ true)) }
    {
        earlier_conflict(self.entries.as_slice(), item)
    }
}

/// Whether the other item is of the same port, was accepted before this one, and conflicts with it.
pub fn is_earlier_conflict_on_port(item: &RequestRange, other: &RequestRange) -> bool
    ensures { result ≡ is_earlier_conflict_on_port item.now other.now }
{
    other.port.0 == item.port.0
        && other.id.0 < item.id.0
        && (other.changes_sectors || item.changes_sectors)
        && are_overlapping(&other.range, &item.range)
}

/// Whether some sector is in both ranges.
fn are_overlapping(a: &Range, b: &Range) -> bool
    ensures { result ≡ machine.are_overlapping a.now b.now }
{
    u128::from(a.first.0) < end_of(b)
        && u128::from(b.first.0) < end_of(a)
        && a.count > 0
        && b.count > 0
}

/// The number after the last sector.
fn end_of(range: &Range) -> u128
    ensures { result ≡ range_end range.now }
{
    u128::from(range.first.0) + u128::from(range.count)
}

/// Whether the item stands before this first sector and id.
fn is_before(item: &RequestRange, first: u128, id: u64) -> bool
    ensures { IsTrue result ↔ StandsBefore item.now first id }
{
    let own = u128::from(item.range.first.0);
    own < first || (own == first && item.id.0 < id)
}

/// How many items stand before this first sector and id: half of those that are left fall away at a time.
fn count_before(entries: &[IndexEntry], first: u128, id: u64) -> usize
    requires { AreSorted (items_of entries.now) }
    ensures within { result ≤ length entries.now }
    ensures before { (k : ℕ) (d : RequestRange) → k < result
        → StandsBefore (slice_index_or (items_of entries.now) k d) first
        id }
    ensures behind { (k : ℕ) (d : RequestRange) → result ≤ k → k < length entries.now
        → StandsBefore (slice_index_or (items_of entries.now) k d) first id → ⊥ }
{
    let mut low = 0;
    let mut high = entries.len();
    while low < high {
        let middle = low + (high - low) / 2;
        if is_before(&entries[middle].item, first, id) {
            low = middle + 1;
        } else {
            high = middle;
        }
    }
    low
}

/// Searches down from the last item that begins before this one ends. It stops at an entry whose greatest end is at or
/// below this one's first sector: no range up to that entry reaches it.
fn earlier_conflict(entries: &[IndexEntry], item: &RequestRange) -> Option<RequestRange>
    requires { IsSortedWithGreatestEndSoFar entries.now }
    ensures none_conflicts { IfNone result (list_any (is_earlier_conflict_on_port item.now) (items_of entries.now)
        ≡ false) }
    ensures found { IfSome result (λ x. Contains (items_of entries.now) x
        × (is_earlier_conflict_on_port item.now x ≡ true)) }
{
    let first = u128::from(item.range.first.0);
    // No id is below 0, so what begins where the item ends isn't counted.
    let mut past = count_before(entries, end_of(&item.range), 0);
    while past > 0 {
        let entry = entries[past - 1];
        if entry.greatest_end <= first {
            return None;
        }
        if is_earlier_conflict_on_port(item, &entry.item) {
            return Some(entry.item);
        }
        past -= 1;
    }
    None
}

/// Notes the greatest ends from a place on, where those before it are noted. It stops behind that place at the first
/// that is noted: each end there follows from the one before it, as it did before the change at that place.
fn note_ends(entries: &mut Vec<IndexEntry>, from: usize)
    requires before { (k : ℕ) (d : IndexEntry) → k < from
        → EndIsGreatestUpTo (items_of entries.old.items) k (slice_index_or entries.old.items k d).greatest_end }
    requires within { from ≤ length entries.old.items }
    requires follow { (k : ℕ) (d : IndexEntry) → from < k → NextEndIsGreatestIfThis entries.old.items k d }
    ensures items { items_of entries.new.items ≡ items_of entries.old.items }
    ensures ends { (k : ℕ) (d : IndexEntry) → k < length entries.old.items
        → EndIsGreatestUpTo (items_of entries.old.items) k (slice_index_or entries.new.items k d).greatest_end }
    ensures room { vec_capacity entries.new ≡ vec_capacity entries.old }
{
    for place in from..entries.len() {
        let greatest_end = greatest_end_at(entries.as_slice(), place);
        if place > from && entries[place].greatest_end == greatest_end {
            return;
        }
        entries[place].greatest_end = greatest_end;
    }
}

/// The greatest end of the item at a place and of all before it, where it is noted at those.
fn greatest_end_at(entries: &[IndexEntry], place: usize) -> u128
    requires within { place < length entries.now }
    requires before { (k : ℕ) (d : IndexEntry) → k < place
        → EndIsGreatestUpTo (items_of entries.now) k (slice_index_or entries.now k d).greatest_end }
    ensures { EndIsGreatestUpTo (items_of entries.now) place result }
{
    let end = end_of(&entries[place].item.range);
    if place == 0 {
        return end;
    }
    let before = entries[place - 1].greatest_end;
    if before < end {
        return end;
    }
    before
}
