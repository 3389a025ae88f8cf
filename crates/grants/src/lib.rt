//! Keeps the grants, and decides whether a request breaks a rule (this project's own).
//!
//! `decide` tells the first of the eight rules that a request breaks. What is refused for its port
//! or disk, or for a full book, is the server's.
#![tactic(auto)]

ghost use Rattle.std.specs.Prelude.{◌≡◌, ◌≢◌, ◌≤◌, ◌<◌, ◌+◌, ◌*◌, ◌^◌, ◌↔◌, length, map, All, AllPairs, Contains, None, Some, IsTrue, OnOk, IfErr, IfOk, IfSome};
ghost use Rattle.ata_types.specs.{SectorGrants.{CoversSectors}, declared.grant.GrantRow.{GrantRow}, declared.request.Op.TheVariants.{Flush}};
ghost use Rattle.block_machine.specs.Rules.{HasGrantName, DifferInName, HasRow, without_row, BreaksNone, IsFirstBroken};
ghost use Rattle.dma_frames.specs.FrameTables.{owner_of, lent_to};
ghost use Rattle.grants.specs.{NamedRows.{AreInOrder, IsPlaceOf, IsRowPlace, row_name_of}, Rows.{SameRows}};

mod key;

use ata_types::{ClientId, GrantRow, NoMemory, Op, Request, Rule};
use block_machine::{frame_count, is_allowed_count};
use dma_frames::FrameTable;
pub use key::Compared;
use key::Key;
use std::alloc::{AllocError, Global};
use std::cmp::Ordering;
use std::marker::Model;

/// Grant rows, no two of them under one client and number. They are sorted by client, then by number, so that a binary
/// search finds one.
#[derive(Drop)]
pub struct Grants {
    keys: Vec<Key>,
    rows: Vec<GrantRow>,
}

impl Model for Grants {
    ghost use Rattle.std.specs.Prelude.{List};
    ghost use Rattle.ata_types.specs.declared.grant.GrantRow.{GrantRow as Row};
    ghost use Rattle.grants.specs.NamedRows.{IsIndexed};

    ghost Value = { List Row };

    ghost view = { λ g. g.rows.items };

    ghost invariant = { λ g. IsIndexed g.keys.items g.rows.items };
}

impl Grants {
    /// Grants with these rows, at most 64. The only error is want of memory.
    pub fn from_rows(alloc: Global, rows: &[GrantRow]) -> Result<Self, NoMemory>
        requires rows_are_at_most_64 { length rows.now ≤ 64 }
        requires names_differ { AllPairs DifferInName rows.now }
        ensures holds_same_rows { IfOk result (SameRows rows.now) }
        ensures names_differ { IfOk result (AllPairs DifferInName) }
        ensures kept_rows_are_at_most_64 { IfOk result (λ kept. length kept ≤ 64) }
    {
        let mut rows = Vec::from_slice(alloc, rows)?;
        rows.sort_unstable_by_key(|row| name_rank(row.client.0, row.number));
        let keys = keys_of(alloc, rows.as_slice())?;
        Ok(Grants { keys, rows })
    }

    /// The place of the client's row under this number, if there is one. At most 7 keys are compared.
    pub fn find(&self, client: ClientId, number: u8, compared: &mut Compared) -> Option<usize>
        requires count_has_room { compared.old + 7 < 2 ^ 32 }
        ensures place { IsRowPlace client number self.now result }
        ensures count_does_not_fall { compared.old ≤ compared.new }
        ensures at_most_7_comparisons { compared.new ≤ compared.old + 7 }
    {
        find_key(self.keys.as_slice(), client, number, compared)
    }

    /// The client's row under this number, if there is one.
    pub fn row(&self, client: ClientId, number: u8) -> Option<GrantRow>
        ensures { (row : GrantRow) → (result ≡ Some row) ↔ (Contains self.now row × HasGrantName client number row) }
    {
        let mut compared = Compared::none();
        match self.find(client, number, &mut compared) {
            Some(place) => Some(self.rows[place]),
            None => None,
        }
    }

    /// Takes the client's row under this number out, and gives it. There may be none: then nothing changes. The others
    /// stay in their order. No memory is taken.
    pub fn revoke(&mut self, client: ClientId, number: u8) -> Option<GrantRow>
        ensures found { IfSome result (λ row. Contains self.old row × HasGrantName client number row
            × (self.new ≡ without_row client number self.old)) }
        ensures absent_changes_nothing { result ≡ None → (self.new ≡ self.old) × (HasRow client number self.old → ⊥) }
    {
        let mut compared = Compared::none();
        let place = self.find(client, number, &mut compared)?;
        self.keys.remove(place);
        let row = self.rows.remove(place);
        Some(row)
    }
}

/// By what rows are sorted.
fn name_rank(client: u8, number: u8) -> u32
    ensures { result ≡ 256 * client + number }
{
    256 * u32::from(client) + u32::from(number)
}

/// The rows' keys.
fn keys_of(alloc: Global, rows: &[GrantRow]) -> Result<Vec<Key>, AllocError>
    ensures keys { IfOk result (λ keys. keys.items ≡ map row_name_of rows.now) }
    ensures bytes { IfOk result (λ keys. All (λ name. name.1 < 256) keys.items) }
{
    let mut keys = Vec::with_capacity(alloc, rows.len())?;
    for row in rows {
        keys.push_reserved(Key::new(row.client, row.number));
    }
    Ok(keys)
}

/// The place of the key of this name, if there is one. Each comparison leaves at most half of the keys that were left,
/// so 64 keys take at most 7.
fn find_key(keys: &[Key], client: ClientId, number: u8, compared: &mut Compared) -> Option<usize>
    requires few { length keys.now ≤ 64 }
    requires order { AreInOrder keys.now }
    requires room { compared.old + 7 < 2 ^ 32 }
    ensures place { IsPlaceOf (client, number) keys.now result }
    ensures counts { compared.old ≤ compared.new }
    ensures few { compared.new ≤ compared.old + 7 }
{
    let mut low = 0;
    let mut high = keys.len();
    while low < high {
        let middle = low + (high - low) / 2;
        match keys[middle].order(client, number, compared) {
            Ordering::Less => low = middle + 1,
            Ordering::Greater => high = middle,
            Ordering::Equal => return Some(middle),
        }
    }
    None
}

/// Says whether the request breaks no rule, and else the first rule that it breaks, in the order of `Rule`'s variants
/// and of `FrameTable::check`.
pub fn decide(request: &Request, grants: &Grants, table: &FrameTable) -> Result<(), Rule>
    ensures ok { OnOk result (BreaksNone grants.now (owner_of table.now) (lent_to table.now) request.now) }
    ensures err { IfErr result (IsFirstBroken grants.now (owner_of table.now) (lent_to table.now) request.now) }
{
    let mut compared = Compared::none();
    let Some(place) = grants.find(request.client, request.grant, &mut compared) else {
        return Err(Rule::NoGrant);
    };
    let row = grants.rows[place];
    if !row.rights.allows(request.op) {
        return Err(Rule::NoRight);
    }
    if !is_allowed_count(request.op, request.count) {
        return Err(Rule::BadCount);
    }
    if leaves_row(&row, request) {
        return Err(Rule::OutsideGrant);
    }
    if request.frames.len() != frame_count(request.op, request.count) {
        return Err(Rule::FrameCount);
    }
    match table.check(request.client, request.frames.as_slice()) {
        Ok(()) => Ok(()),
        Err(fault) => Err(Rule::Frames(fault)),
    }
}

/// Whether the request has sectors and they leave the row's.
fn leaves_row(row: &GrantRow, request: &Request) -> bool
    ensures { IsTrue result ↔ ((request.now.op ≢ Flush) × (CoversSectors row.now request.now.first.0 request.now.count →
        ⊥)) }
{
    request.op != Op::Flush && !row.covers(request.first, request.count)
}
