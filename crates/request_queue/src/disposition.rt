//! What becomes of the unanswered requests of a port that was stopped.
ghost use Rattle.std.specs.Prelude.{◌≡◌};
ghost use Rattle.request_queue.specs.Dispositions.{disposition_of, keeps_loan};

use super::PendingRequest;
use ata_types::{Outcome, RequestId};

/// How often a request is issued at most.
const MOST_ISSUES: u8 = 4;

/// The request whose command failed, with the bytes that the device told of it.
#[derive(Clone, Copy, PartialEq, Eq, Debug)]
pub struct FailedRequest {
    pub id: RequestId,
    /// The status that the disk ended its command with (ACS-3, 6.2).
    pub status: u8,
    /// The bits of the disk's error (ACS-3, 6.3).
    pub error: u8,
}

/// What a port is once it was stopped, and booted where it had to be.
#[derive(Clone, Copy, PartialEq, Eq, Debug)]
pub enum Revalidation {
    /// It is ready, with the disk that it had.
    SameDisk,
    /// Its disk was lost, or it is ready with another, or it isn't ready, and isn't dead.
    DiskLost,
    /// It is dead.
    Dead,
}

/// What becomes of a request.
#[derive(Clone, Copy, PartialEq, Eq, Debug)]
pub enum Disposition {
    /// It waits, as it did.
    Wait,
    /// It waits again, in its old place and with its loan.
    Requeue,
    /// It is answered.
    Complete(Outcome),
}

impl PendingRequest {
    /// What becomes of the request, when its port was stopped: the one that failed is told so. On the disk that it had,
    /// one that was issued goes again, unless its grant was revoked or it was issued four times; one that waits goes on
    /// waiting. Where the disk is another, or there is none, or the port is dead, each is told that.
    pub fn disposition(
        &self,
        failed: &Option<FailedRequest>,
        revalidation: Revalidation,
    ) -> Disposition
        ensures { result ≡ disposition_of failed.now revalidation self.now }
    {
        if let Some(its) = failed {
            if its.id == self.id {
                return Disposition::Complete(Outcome::DeviceError {
                    status: its.status,
                    error: its.error,
                });
            }
        }
        match revalidation {
            Revalidation::DiskLost => Disposition::Complete(Outcome::Unplugged),
            Revalidation::Dead => Disposition::Complete(Outcome::PortDead),
            Revalidation::SameDisk if !self.issued => Disposition::Wait,
            Revalidation::SameDisk if self.revoked => Disposition::Complete(Outcome::Revoked),
            Revalidation::SameDisk if self.issue_count == MOST_ISSUES => Disposition::Complete(
                Outcome::Aborted,
            ),
            Revalidation::SameDisk => Disposition::Requeue,
        }
    }

    /// Whether the request's frames stay lent when it is answered so: its command may still move where it was issued
    /// and the port is dead.
    pub fn keeps_loan(&self, outcome: Outcome) -> bool
        ensures { result ≡ keeps_loan outcome self.now }
    {
        match outcome {
            Outcome::PortDead => self.issued,
            _ => false,
        }
    }
}
