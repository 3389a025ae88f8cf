// Whom a waiting request waits for, in one word.
ghost use Rattle.std.specs.Prelude.{◌≡◌, ◌<◌, None, Some, is_some, not};
ghost use Rattle.request_queue.specs.Blockers.{is_blocked_by};

use ata_types::RequestId;
use std::marker::Model;

/// Stands for no blocker. A blocker was accepted before the request that waits for it, so no blocker has the greatest
/// id.
const NOBODY: u64 = u64::MAX;

/// The earlier request that a waiting one waits for, if there is one. It is one word, not an `Option` of two: a walk
/// over the book passes each request that waits, and looks at nothing of it but this.
#[derive(Drop)]
pub struct Blocker {
    id: u64,
}

impl Model for Blocker {
    ghost use Rattle.std.specs.Prelude.{Option};
    ghost use Rattle.ata_types.specs.declared.request.RequestId.{RequestId};
    ghost use Rattle.request_queue.specs.Blockers.{blocker_unless_greatest_id};

    ghost Value = { Option RequestId };

    ghost view = { λ h. blocker_unless_greatest_id h.id };
}

impl Blocker {
    /// No blocker.
    pub fn nobody() -> Self
        ensures { result ≡ None }
    {
        Blocker { id: NOBODY }
    }

    /// The blocker of a request, which was accepted later.
    pub fn of(request: RequestId, blocker: RequestId) -> Self
        requires { blocker.0 < request.0 }
        ensures { result ≡ Some blocker }
    {
        Blocker { id: blocker.0 }
    }

    /// Whether there is no blocker.
    pub fn is_none(&self) -> bool
        ensures { is_some self.now ≡ not result }
    {
        self.id == NOBODY
    }

    /// Whether the blocker is the request with this id.
    pub fn is_request(&self, id: RequestId) -> bool
        ensures { result ≡ is_blocked_by id self.now }
    {
        self.id == id.0 && self.id != NOBODY
    }
}
