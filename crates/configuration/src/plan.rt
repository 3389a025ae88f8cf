//! Makes of a configuration what a server serves: owners, grants and wanted disks.
//!
//! It knows no register, and takes no memory. Each plan may be given to `FrameTable::new` and
//! `Grants::from_rows` as it is.
ghost use Rattle.std.specs.Prelude.{◌≡◌, ◌≤◌, OnOk, IfOk, IfErr, All, AllPairs, length, map, option_map, string_bytes};
ghost use Rattle.ata_types.specs.declared.limits.TheConstants.{CLIENTS, MOST_GRANTS};
ghost use Rattle.configuration.specs.{Ranges.{IsClientInRange, IsGrantInRange, IsPortInRange, IsSerialText}, Rules.{DifferInNumber}, PlanParts.{owner_extent, rights_of, row_of, filled_serial, wanted_disk, AreWantedOf, IsWantedIn}};

use crate::{ClientConfig, Config, FaultKind, GrantConfig, PortConfig};
use arrayvec::ArrayVec;
use ata_types::{
    CLIENTS, ClientId, Frame, GrantRow, MOST_FRAMES, MOST_GRANTS, PORTS, Port, Rights, Sector,
};
use identify::Wanted;
use std::marker::Model;

/// The length of a serial number (ACS-3, 7.12.7.10).
const SERIAL_LENGTH: usize = 20;

/// What a server serves: how many frames of memory there are, who owns which of them, what may be done with which
/// sectors, and which disks are wanted (this project's own).
#[derive(Debug, Drop)]
pub struct Plan {
    frames: u16,
    owners: ArrayVec<(ClientId, Frame, u16), CLIENTS>,
    grants: ArrayVec<GrantRow, MOST_GRANTS>,
    wanted: [Wanted; PORTS],
}

impl Model for Plan {
    ghost use Rattle.configuration.specs.Plan.{PlanView, plan_view_of, IsServablePlan};

    ghost Value = { PlanView };

    ghost view = { λ p. plan_view_of p.frames p.owners.items p.grants.items p.wanted };

    ghost invariant = { λ p. IsServablePlan (plan_view_of p.frames p.owners.items p.grants.items p.wanted) };
}

impl Plan {
    ghost use Rattle.configuration.specs.{Rules.{LacksEveryFault, IsLeastFault}, Plan.{IsServablePlan, IsPlanOf}};

    /// Makes the plan of a configuration: a run of frames for each client and a row for each grant, in their order, and
    /// for each port that it names the disk with the serial number that it asks for, or any disk. It takes no memory.
    ///
    /// # Errors
    ///
    /// A configuration that breaks a rule has no plan. The least of its kinds of fault is returned.
    #[inline(never)]
    pub fn of(config: &Config) -> Result<Plan, FaultKind>
        ensures config_has_no_fault { OnOk result (LacksEveryFault config.now) }
        ensures is_plan_of { IfOk result (IsPlanOf config.now) }
        ensures is_servable { IfOk result IsServablePlan }
        ensures refused { IfErr result (IsLeastFault config.now) }
    {
        config.check()?;
        Ok(Plan {
            frames: config.frames as u16,
            owners: runs_of(config.client.as_slice()),
            grants: rows_of(config.grant.as_slice()),
            wanted: wanted_of(config.port.as_slice()),
        })
    }

    /// How many frames of memory there are.
    pub fn frames(&self) -> u16
        ensures { result ≡ self.now.frames }
    {
        self.frames
    }

    /// The runs of frames: owner, first frame and number of frames.
    pub fn owners(&self) -> &[(ClientId, Frame, u16)]
        ensures owners { result.now ≡ self.now.owners }
        ensures is_servable { IsServablePlan self.now }
    {
        self.owners.as_slice()
    }

    /// The grants.
    pub fn grants(&self) -> &[GrantRow]
        ensures grants { result.now ≡ self.now.grants }
        ensures is_servable { IsServablePlan self.now }
    {
        self.grants.as_slice()
    }

    /// The disks that are wanted, by port.
    pub fn wanted(&self) -> &[Wanted; PORTS]
        ensures wanted { result.now ≡ self.now.wanted }
        ensures fits { IsServablePlan self.now }
    {
        &self.wanted
    }
}

/// The frames that each client owns.
fn runs_of(clients: &[ClientConfig]) -> ArrayVec<(ClientId, Frame, u16), CLIENTS>
    requires few { length clients.now ≤ CLIENTS }
    requires clients { All (IsClientInRange MOST_FRAMES) clients.now }
    ensures { result.items ≡ map owner_extent clients.now }
{
    let mut runs = ArrayVec::new();
    for client in clients {
        runs.push(owner_extent(client));
    }
    runs
}

fn owner_extent(client: &ClientConfig) -> (ClientId, Frame, u16)
    requires { IsClientInRange MOST_FRAMES client.now }
    ensures { result ≡ owner_extent client.now }
{
    (
        ClientId(client.id as u8),
        Frame(client.first_frame as u16),
        client.frames as u16,
    )
}

/// What each grant allows.
fn rows_of(grants: &[GrantConfig]) -> ArrayVec<GrantRow, MOST_GRANTS>
    requires few { length grants.now ≤ MOST_GRANTS }
    requires grants { All IsGrantInRange grants.now }
    ensures { result.items ≡ map row_of grants.now }
{
    let mut rows = ArrayVec::new();
    for grant in grants {
        rows.push(row_of(grant));
    }
    rows
}

fn row_of(grant: &GrantConfig) -> GrantRow
    requires { IsGrantInRange grant.now }
    ensures { result ≡ row_of grant.now }
{
    GrantRow {
        client: ClientId(grant.client as u8),
        number: grant.number as u8,
        port: Port(grant.port as u8),
        first: Sector(grant.first),
        count: grant.count,
        rights: rights_of(grant.rights.as_str()),
    }
}

/// The rights that the letters of a text name.
fn rights_of(text: &str) -> Rights
    ensures { result ≡ rights_of text.now }
{
    let letters = text.as_bytes();
    Rights {
        read: letters.contains(&b'r'),
        write: letters.contains(&b'w'),
        trim: letters.contains(&b't'),
        flush: letters.contains(&b'f'),
    }
}

/// The disks that are wanted, by port.
fn wanted_of(ports: &[PortConfig]) -> [Wanted; PORTS]
    requires ports { All IsPortInRange ports.now }
    requires once { AllPairs DifferInNumber ports.now }
    ensures { AreWantedOf ports.now result }
{
    [
        wanted_in(ports, 0),
        wanted_in(ports, 1),
        wanted_in(ports, 2),
        wanted_in(ports, 3),
    ]
}

/// The disk that is wanted in the port with this number.
fn wanted_in(ports: &[PortConfig], number: u64) -> Wanted
    requires ports { All IsPortInRange ports.now }
    requires once { AllPairs DifferInNumber ports.now }
    ensures { IsWantedIn ports.now number result }
{
    match ports.iter().find(|port| port.number == number) {
        Some(port) => wanted_disk(port),
        None => Wanted::Nothing,
    }
}

/// The disk that a port asks for.
fn wanted_disk(port: &PortConfig) -> Wanted
    requires { IsPortInRange port.now }
    ensures { result ≡ wanted_disk (option_map string_bytes port.now.serial) }
{
    match &port.serial {
        Some(serial) => Wanted::Serial(filled_serial(serial.as_str())),
        None => Wanted::Any,
    }
}

/// A serial number, filled with spaces.
fn filled_serial(serial: &str) -> [u8; SERIAL_LENGTH]
    requires { IsSerialText serial.now }
    ensures { result ≡ filled_serial serial.now }
{
    let mut bytes = [b' '; SERIAL_LENGTH];
    bytes[..serial.len()].copy_from_slice(serial.as_bytes());
    bytes
}
