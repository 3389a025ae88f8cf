//! The rules that the values of a configuration have to meet.

ghost use Rattle.std.specs.Prelude.{◌≡◌, ◌↔◌, IsTrue, IfErr, OnOk, All, AllPairs, string_bytes};
ghost use Rattle.configuration.specs.{Ranges.{IsClientInRange, IsGrantInRange, IsPortInRange, IsRightsText, IsSerialText, without_first_letter}, Rules.{FramesApart, DifferInId, DifferInGrant, DifferInNumber, HasClient, ConfiguresPort}};

use super::{ClientConfig, Config, FaultKind, GrantConfig, PortConfig};
use ata_types::{CLIENTS, DRIVER_FRAMES, FEWEST_FRAMES, MOST_FRAMES, MOST_GRANTS, PORTS, SLOTS};

/// The most command slots that a port can have, and the greatest queue depth that a disk can have.
const MOST_SLOTS: u64 = SLOTS as u64;

/// The greatest number of a client.
const LAST_CLIENT: u64 = CLIENTS as u64;

/// One past the highest number that a grant may have.
const GRANT_NUMBERS: u64 = 64;

/// One past the last sector of the largest disk.
const SECTORS_END: u64 = 1 << 48;

/// The length of a serial number (ACS-3, 7.12.7.10).
const SERIAL_LENGTH: usize = 20;

/// What is left of a text after a letter that it may begin with.
fn without_first_letter(letter: u8, text: &[u8]) -> &[u8]
    ensures { result.now ≡ without_first_letter letter text.now }
{
    match text.split_first() {
        Some((first, rest)) if *first == letter => rest,
        _ => text,
    }
}

/// Whether a text is a choice of the letters r, w, t and f, in this order, that isn't empty.
fn are_rights(text: &str) -> bool
    ensures { IsTrue result ↔ IsRightsText text.now }
{
    let rest = without_first_letter(b'w', without_first_letter(b'r', text.as_bytes()));
    !text.is_empty() && without_first_letter(b'f', without_first_letter(b't', rest)).is_empty()
}

/// Whether a text may be a disk's serial number.
fn is_serial(text: &str) -> bool
    ensures { IsTrue result ↔ IsSerialText text.now }
{
    let bytes = text.as_bytes();
    !bytes.is_empty()
        && bytes.len() <= SERIAL_LENGTH
        && bytes.iter().all(|byte| (b' '..=b'~').contains(byte))
}

impl PortConfig {
    fn is_in_range(&self) -> bool
        ensures { IsTrue result ↔ IsPortInRange self.now }
    {
        self.number < PORTS as u64
            && match &self.serial {
                Some(serial) => is_serial(serial.as_str()),
                None => true,
            }
    }
}

impl ClientConfig {
    fn is_in_range(&self, memory_frames: u64) -> bool
        ensures { IsTrue result ↔ IsClientInRange memory_frames self.now }
    {
        (1..=LAST_CLIENT).contains(&self.id)
            && u64::from(DRIVER_FRAMES) <= self.first_frame
            && 1 <= self.frames
            && self.frames <= memory_frames
            && self.first_frame <= memory_frames - self.frames
    }
}

impl GrantConfig {
    fn is_in_range(&self) -> bool
        ensures { IsTrue result ↔ IsGrantInRange self.now }
    {
        (1..=LAST_CLIENT).contains(&self.client)
            && self.number < GRANT_NUMBERS
            && self.port < PORTS as u64
            && 1 <= self.count
            && self.count <= SECTORS_END
            && self.first <= SECTORS_END - self.count
            && are_rights(self.rights.as_str())
    }
}

fn are_ports(ports: &[PortConfig]) -> bool
    ensures { IsTrue result ↔ All IsPortInRange ports.now }
{
    ports.iter().all(|port| port.is_in_range())
}

fn are_clients(clients: &[ClientConfig], memory_frames: u64) -> bool
    ensures { IsTrue result ↔ All (IsClientInRange memory_frames) clients.now }
{
    clients
        .iter()
        .all(|client| client.is_in_range(memory_frames))
}

fn are_grants(grants: &[GrantConfig]) -> bool
    ensures { IsTrue result ↔ All IsGrantInRange grants.now }
{
    grants.iter().all(|grant| grant.is_in_range())
}

/// In what two parts of a configuration have to differ.
pub trait MustDiffer<T> {
    ghost apart: { T → T → Type 0 };

    fn are_apart(first: &T, second: &T) -> bool
        ensures { IsTrue result ↔ apart first.now second.now };
}

/// Ports differ in their numbers.
pub struct PortNumbers;

impl MustDiffer<PortConfig> for PortNumbers {
    ghost apart = { DifferInNumber };

    fn are_apart(first: &PortConfig, second: &PortConfig) -> bool {
        first.number != second.number
    }
}

/// Clients differ in their ids.
pub struct ClientIds;

impl MustDiffer<ClientConfig> for ClientIds {
    ghost apart = { DifferInId };

    fn are_apart(first: &ClientConfig, second: &ClientConfig) -> bool {
        first.id != second.id
    }
}

/// Grants of one client differ in their numbers.
pub struct GrantNames;

impl MustDiffer<GrantConfig> for GrantNames {
    ghost apart = { DifferInGrant };

    fn are_apart(first: &GrantConfig, second: &GrantConfig) -> bool {
        first.client != second.client || first.number != second.number
    }
}

/// Clients have no frame in common.
pub struct ClientFrames;

impl MustDiffer<ClientConfig> for ClientFrames {
    ghost apart = { FramesApart };

    fn are_apart(first: &ClientConfig, second: &ClientConfig) -> bool {
        let first_end = u128::from(first.first_frame) + u128::from(first.frames);
        let second_end = u128::from(second.first_frame) + u128::from(second.frames);
        let begin = u128::from(first.first_frame).max(u128::from(second.first_frame));
        first_end.min(second_end) <= begin
    }
}

/// Whether a part is apart from each of these.
fn is_apart_from<T, A: MustDiffer<T>>(part: &T, others: &[T]) -> bool
    ensures { IsTrue result ↔ All (A.apart part.now) others.now }
{
    others.iter().all(|other| A::are_apart(part, other))
}

/// Whether each two of these parts are apart.
fn all_apart<T, A: MustDiffer<T>>(parts: &[T]) -> bool
    ensures { IsTrue result ↔ AllPairs A.apart parts.now }
{
    let mut rest = parts;
    while let Some((part, others)) = rest.split_first() {
        if !is_apart_from::<T, A>(part, others) {
            return false;
        }
        rest = others;
    }
    true
}

#[tactic(auto, unfolding(crate::specs::Rules::ConfiguresPort))]
fn has_port(ports: &[PortConfig], number: u64) -> bool
    ensures { IsTrue result ↔ ConfiguresPort ports.now number }
{
    ports.iter().any(|port| port.number == number)
}

/// Whether the client of each grant is there.
fn have_clients(grants: &[GrantConfig], clients: &[ClientConfig]) -> bool
    ensures { IsTrue result ↔ All (λ g. HasClient clients.now g.client) grants.now }
{
    grants.iter().all(|grant| has_client(clients, grant.client))
}

/// Whether the port of each grant is there.
fn have_ports(grants: &[GrantConfig], ports: &[PortConfig]) -> bool
    ensures { IsTrue result ↔ All (λ g. ConfiguresPort ports.now g.port) grants.now }
{
    grants.iter().all(|grant| has_port(ports, grant.port))
}

#[tactic(auto, unfolding(crate::specs::Rules::HasClient))]
fn has_client(clients: &[ClientConfig], id: u64) -> bool
    ensures { IsTrue result ↔ HasClient clients.now id }
{
    clients.iter().any(|client| client.id == id)
}

impl Config {
    ghost use Rattle.configuration.specs.Rules.{IsInRange, HasOwnNumbersInRange, HasPartsInRange, IsLeastFault, LacksEveryFault, IsTrimWord, HasNoDuplicate};

    fn has_numbers_in_range(&self) -> bool
        ensures { IsTrue result ↔ HasOwnNumbersInRange self.now }
    {
        (u64::from(FEWEST_FRAMES)..=u64::from(MOST_FRAMES)).contains(&self.frames)
            && (1..=MOST_SLOTS).contains(&self.slots)
            && (1..=MOST_SLOTS).contains(&self.depth)
            && self.grant.len() <= MOST_GRANTS
    }

    fn has_trim(&self) -> bool
        ensures { IsTrue result ↔ IsTrimWord (string_bytes self.now.trim) }
    {
        let trim = self.trim.as_str();
        trim == "full" || trim == "weak" || trim == "none"
    }

    fn has_parts_in_range(&self) -> bool
        ensures { IsTrue result ↔ HasPartsInRange self.now }
    {
        are_ports(self.port.as_slice())
            && are_clients(self.client.as_slice(), self.frames)
            && are_grants(self.grant.as_slice())
    }

    fn is_in_range(&self) -> bool
        ensures { IsTrue result ↔ IsInRange self.now }
    {
        self.has_numbers_in_range() && self.has_trim() && self.has_parts_in_range()
    }

    fn names_once(&self) -> bool
        ensures { IsTrue result ↔ HasNoDuplicate self.now }
    {
        all_apart::<PortConfig, PortNumbers>(self.port.as_slice())
            && all_apart::<ClientConfig, ClientIds>(self.client.as_slice())
            && all_apart::<GrantConfig, GrantNames>(self.grant.as_slice())
    }

    fn has_frames_apart(&self) -> bool
        ensures { IsTrue result ↔ AllPairs FramesApart self.now.client.items }
    {
        all_apart::<ClientConfig, ClientFrames>(self.client.as_slice())
    }

    fn has_clients(&self) -> bool
        ensures { IsTrue result ↔ All (λ g. HasClient self.now.client.items g.client) self.now.grant.items }
    {
        have_clients(self.grant.as_slice(), self.client.as_slice())
    }

    fn has_ports(&self) -> bool
        ensures { IsTrue result ↔ All (λ g. ConfiguresPort self.now.port.items g.port) self.now.grant.items }
    {
        have_ports(self.grant.as_slice(), self.port.as_slice())
    }

    /// Checks whether these values may configure a server. Values that `parse` returns may.
    ///
    /// # Errors
    ///
    /// The least that applies of the kinds 4 to 8 (this project's own).
    pub fn check(&self) -> Result<(), FaultKind>
        ensures lacks_every_fault { OnOk result (LacksEveryFault self.now) }
        ensures least_fault_is_told { IfErr result (IsLeastFault self.now) }
    {
        if !self.is_in_range() {
            return Err(FaultKind::OutOfRange);
        }
        if !self.names_once() {
            return Err(FaultKind::Duplicate);
        }
        if !self.has_frames_apart() {
            return Err(FaultKind::SharedFrames);
        }
        if !self.has_clients() {
            return Err(FaultKind::UnknownClient);
        }
        if !self.has_ports() {
            return Err(FaultKind::UnknownPort);
        }
        Ok(())
    }
}
