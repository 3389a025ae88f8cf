// Why a request, or a client's access to a frame, is refused, as a plain and slow program: each cause by itself, and
// then the first that applies.
ghost use Rattle.std.specs.Prelude.{false, ◌≡◌, ◌⊎◌, ◌<◌, ◌≤◌, ◌↔◌, IsTrue, IfSome, IfNone, slice_get, count_by, ◌==◌};
ghost use Rattle.ata_types.specs.SectorGrants.{AllowsOp, CoversSectors};
ghost use Rattle.block_machine.specs.{Rules.{IsNamed, HasGrantName, Breaks, HasFault, BreaksNone, IsFirstBroken, refusal_rank}, Refusals.{RefusalApplies, IsAcceptable, IsFirstRefusal, MemFaultApplies, MayAccessFrame, IsFirstMemFault}};
ghost use Rattle.machine_rules.specs.ReferenceSituations.{frame_or_none, port_or_absent, reference_admission_context, RowHasRowPartOfCause, SomeNamedRowMeetsCause, IsFirstApplyingCauseOfNumber};

use arrayvec::ArrayVec;
use ata_types::{
    ClientId, FRAME_BYTES, Frame, FrameFault, GrantRow, MOST_UNANSWERED_OF_A_CLIENT, MemFault, Op,
    Port, PortState, Refusal, Request, RequestId, Rule,
};
use block_machine::{frame_count, is_allowed_count};

/// What a port shows of itself.
#[derive(Clone, Copy, Debug, PartialEq, Eq)]
pub struct ShownPort {
    pub state: PortState,
    /// The size of its disk.
    pub sectors: u64,
    /// Whether its disk promises zeros after a trim.
    pub zeroes_after_trim: bool,
}

impl Default for ShownPort {
    /// A port that isn't there.
    fn default() -> Self
        ensures { result ≡ record { state = PortState.Absent; sectors = 0; zeroes_after_trim = false } }
    {
        ShownPort {
            state: PortState::Absent,
            sectors: 0,
            zeroes_after_trim: false,
        }
    }
}

/// What a request meets, in small tables. A frame past their ends is nobody's and lent to none, and a port past the end
/// is absent.
#[derive(Debug, Drop)]
pub struct ReferenceSituation {
    pub rows: ArrayVec<GrantRow, 64>,
    /// The owner of each frame.
    pub owners: ArrayVec<Option<ClientId>, 128>,
    /// The request that each frame is lent to.
    pub lent: ArrayVec<Option<RequestId>, 128>,
    pub ports: ArrayVec<ShownPort, 4>,
    /// The client of each unanswered request.
    pub unanswered_clients: ArrayVec<ClientId, 128>,
    /// The last id that was given to a request, or 0 if none was.
    pub last_id: u64,
}

/// The fault with this number at this place.
fn fault_at(number: u8, place: usize) -> FrameFault
    requires low { 6 ≤ number }
    requires high { number ≤ 8 }
    ensures { refusal_rank (Refusal.Rule (Rule.Frames result)) ≡ (number, place) }
{
    match number {
        6 => FrameFault::FrameForeign(place),
        7 => FrameFault::FrameTwice(place),
        _ => FrameFault::FrameLent(place),
    }
}

/// The rule, if the cause is one.
fn rule_of(cause: Refusal) -> Option<Rule>
    ensures some { IfSome result (λ rule. cause ≡ Refusal.Rule rule) }
    ensures none { IfNone result (8 < (refusal_rank cause).0) }
{
    match cause {
        Refusal::Rule(rule) => Some(rule),
        Refusal::PortNotReady(_) => None,
        Refusal::OutsideDisk | Refusal::TrimUnsupported => None,
        Refusal::ClientFull | Refusal::IdsSpent => None,
    }
}

/// What the list has for a frame, or nothing if the list ends before it.
fn at_frame<T: Copy>(list: &[Option<T>], frame: Frame) -> Option<T>
    ensures { result ≡ frame_or_none list.now frame }
{
    list.get(frame.0 as usize).copied().flatten()
}

impl ReferenceSituation {
    /// The owner of the frame.
    fn owner(&self, frame: Frame) -> Option<ClientId>
        ensures { result ≡ frame_or_none self.now.owners.items frame }
    {
        at_frame(self.owners.as_slice(), frame)
    }

    /// The request that the frame is lent to.
    fn lent_to(&self, frame: Frame) -> Option<RequestId>
        ensures { result ≡ frame_or_none self.now.lent.items frame }
    {
        at_frame(self.lent.as_slice(), frame)
    }

    /// What the port shows.
    fn shown(&self, port: Port) -> ShownPort
        ensures { result ≡ port_or_absent self.now.ports.items port }
    {
        match self.ports.as_slice().get(port.0 as usize) {
            Some(shown) => *shown,
            None => ShownPort::default(),
        }
    }

    /// How many unanswered requests the client has.
    fn count_of(&self, client: ClientId) -> usize
        ensures { result ≡ count_by (λ c. c.0 == client.0) self.now.unanswered_clients.items }
    {
        let mut count = 0;
        for other in self.unanswered_clients.as_slice() {
            if other.0 == client.0 {
                count += 1;
            }
        }
        count
    }

    /// Whether the row, which the request names, has what the cause says of it.
    fn row_has(&self, request: &Request, cause: Refusal, row: &GrantRow) -> bool
        ensures { IsTrue result
            ↔ RowHasRowPartOfCause (reference_admission_context self.now) request.now cause row.now }
    {
        match cause {
            Refusal::Rule(Rule::NoRight) => !row.rights.allows(request.op),
            Refusal::Rule(Rule::OutsideGrant) => !row.covers(request.first, request.count),
            Refusal::PortNotReady(state) => self.shown(row.port).state == state,
            Refusal::OutsideDisk => {
                let end = request.first.0 as u128 + request.count as u128;
                (self.shown(row.port).sectors as u128) < end
            }
            Refusal::TrimUnsupported => !self.shown(row.port).zeroes_after_trim,
            _ => true,
        }
    }

    /// Whether a row that the request names has what the cause says of it.
    fn some_row_has(&self, request: &Request, cause: Refusal) -> bool
        ensures { IsTrue result ↔ SomeNamedRowMeetsCause (reference_admission_context self.now) request.now cause }
    {
        for row in self.rows.as_slice() {
            let named = row.client == request.client && row.number == request.grant;
            if named && self.row_has(request, cause, row) {
                return true;
            }
        }
        false
    }

    /// Whether the frames of the request have this fault.
    fn has_fault(&self, client: ClientId, frames: &[Frame], fault: FrameFault) -> bool
        ensures { IsTrue result ↔ HasFault (frame_or_none self.now.owners.items)
            (frame_or_none self.now.lent.items)
            client frames.now fault }
    {
        match fault {
            FrameFault::FrameForeign(i) => match frames.get(i) {
                Some(frame) => self.owner(*frame) != Some(client),
                None => false,
            },
            FrameFault::FrameTwice(i) => match frames.get(i) {
                Some(frame) => frames[..i].contains(frame),
                None => false,
            },
            FrameFault::FrameLent(i) => match frames.get(i) {
                Some(frame) => self.lent_to(*frame).is_some(),
                None => false,
            },
        }
    }

    /// Whether the request breaks the rule.
    fn breaks(&self, request: &Request, rule: Rule) -> bool
        ensures { IsTrue result ↔ Breaks self.now.rows.items (frame_or_none self.now.owners.items)
            (frame_or_none self.now.lent.items) request.now rule }
    {
        match rule {
            Rule::NoGrant => !self.some_row_has(request, Refusal::Rule(rule)),
            Rule::NoRight => self.some_row_has(request, Refusal::Rule(rule)),
            Rule::BadCount => !is_allowed_count(request.op, request.count),
            Rule::OutsideGrant => {
                request.op != Op::Flush && self.some_row_has(request, Refusal::Rule(rule))
            }
            Rule::FrameCount => request.frames.len() != frame_count(request.op, request.count),
            Rule::Frames(fault) => self.has_fault(request.client, request.frames.as_slice(), fault),
        }
    }

    /// Whether the cause applies to the request.
    pub fn applies(&self, request: &Request, cause: Refusal) -> bool
        ensures { IsTrue result ↔ RefusalApplies (reference_admission_context self.now) request.now cause }
    {
        match cause {
            Refusal::Rule(rule) => self.breaks(request, rule),
            Refusal::PortNotReady(state) => {
                state != PortState::Ready && self.some_row_has(request, cause)
            }
            Refusal::OutsideDisk => request.op != Op::Flush && self.some_row_has(request, cause),
            Refusal::TrimUnsupported => request.op == Op::Trim && self.some_row_has(request, cause),
            Refusal::ClientFull => MOST_UNANSWERED_OF_A_CLIENT <= self.count_of(request.client),
            Refusal::IdsSpent => self.last_id == u64::MAX,
        }
    }

    /// The cause, if it applies.
    fn if_applies(&self, request: &Request, cause: Refusal) -> Option<Refusal>
        requires { ((refusal_rank cause).0 < 6) ⊎ (9 < (refusal_rank cause).0) }
        ensures { IsFirstApplyingCauseOfNumber (reference_admission_context self.now) request.now
            (refusal_rank cause).0 result }
    {
        if self.applies(request, cause) {
            Some(cause)
        } else {
            None
        }
    }

    /// The first fault of the frames with this number.
    fn first_fault(&self, request: &Request, number: u8) -> Option<Refusal>
        requires low { 6 ≤ number }
        requires high { number ≤ 8 }
        ensures { IsFirstApplyingCauseOfNumber (reference_admission_context self.now) request.now number result }
    {
        for place in 0..request.frames.len() {
            let cause = Refusal::Rule(Rule::Frames(fault_at(number, place)));
            if self.applies(request, cause) {
                return Some(cause);
            }
        }
        None
    }

    /// The state of the request's port, if it isn't ready.
    fn not_ready(&self, request: &Request) -> Option<Refusal>
        ensures { IsFirstApplyingCauseOfNumber (reference_admission_context self.now) request.now 9 result }
    {
        for row in self.rows.as_slice() {
            let named = row.client == request.client && row.number == request.grant;
            let cause = Refusal::PortNotReady(self.shown(row.port).state);
            if named && self.applies(request, cause) {
                return Some(cause);
            }
        }
        None
    }

    /// The first cause with this number that applies.
    fn first_numbered(&self, request: &Request, number: u8) -> Option<Refusal>
        requires low { 1 ≤ number }
        requires high { number ≤ 13 }
        ensures { IsFirstApplyingCauseOfNumber (reference_admission_context self.now) request.now number result }
    {
        match number {
            1 => self.if_applies(request, Refusal::Rule(Rule::NoGrant)),
            2 => self.if_applies(request, Refusal::Rule(Rule::NoRight)),
            3 => self.if_applies(request, Refusal::Rule(Rule::BadCount)),
            4 => self.if_applies(request, Refusal::Rule(Rule::OutsideGrant)),
            5 => self.if_applies(request, Refusal::Rule(Rule::FrameCount)),
            6 | 7 | 8 => self.first_fault(request, number),
            9 => self.not_ready(request),
            10 => self.if_applies(request, Refusal::OutsideDisk),
            11 => self.if_applies(request, Refusal::TrimUnsupported),
            12 => self.if_applies(request, Refusal::ClientFull),
            _ => self.if_applies(request, Refusal::IdsSpent),
        }
    }

    /// Returns the first cause that applies to the request, or none if it is acceptable.
    pub fn first_refusal(&self, request: &Request) -> Option<Refusal>
        ensures some { IfSome result (IsFirstRefusal (reference_admission_context self.now) request.now) }
        ensures none { IfNone result (IsAcceptable (reference_admission_context self.now) request.now) }
    {
        for number in 1..14 {
            if let Some(cause) = self.first_numbered(request, number) {
                return Some(cause);
            }
        }
        None
    }

    /// The first rule that the request breaks, if it breaks one.
    pub fn first_broken(&self, request: &Request) -> Option<Rule>
        ensures some { IfSome result (IsFirstBroken self.now.rows.items
            (frame_or_none self.now.owners.items)
            (frame_or_none self.now.lent.items) request.now) }
        ensures none { IfNone result (BreaksNone self.now.rows.items
            (frame_or_none self.now.owners.items)
            (frame_or_none self.now.lent.items) request.now) }
    {
        match self.first_refusal(request) {
            Some(cause) => rule_of(cause),
            None => None,
        }
    }

    /// Whether the cause applies to the client's access to `count` bytes of the frame from byte `offset` on.
    pub fn mem_fault_applies(
        &self,
        client: ClientId,
        frame: Frame,
        offset: u32,
        count: usize,
        fault: MemFault,
    ) -> bool
        ensures { IsTrue result ↔ MemFaultApplies (frame_or_none self.now.owners.items)
            (frame_or_none self.now.lent.items) client frame offset count fault }
    {
        match fault {
            MemFault::FrameForeign => self.owner(frame) != Some(client),
            MemFault::FrameLent => self.lent_to(frame).is_some(),
            MemFault::OutsideFrame => u128::from(FRAME_BYTES) < offset as u128 + count as u128,
        }
    }

    /// Returns the first cause that applies to the client's access to `count` bytes of the frame from byte `offset` on,
    /// or none if the client may make it.
    pub fn first_mem_fault(
        &self,
        client: ClientId,
        frame: Frame,
        offset: u32,
        count: usize,
    ) -> Option<MemFault>
        ensures some { IfSome result (IsFirstMemFault (frame_or_none self.now.owners.items)
            (frame_or_none self.now.lent.items) client frame offset count) }
        ensures none { IfNone result (MayAccessFrame (frame_or_none self.now.owners.items)
            (frame_or_none self.now.lent.items) client frame offset count) }
    {
        if self.mem_fault_applies(client, frame, offset, count, MemFault::FrameForeign) {
            Some(MemFault::FrameForeign)
        } else if self.mem_fault_applies(client, frame, offset, count, MemFault::FrameLent) {
            Some(MemFault::FrameLent)
        } else if self.mem_fault_applies(client, frame, offset, count, MemFault::OutsideFrame) {
            Some(MemFault::OutsideFrame)
        } else {
            None
        }
    }
}
