// The calls that store and load a client's own bytes.
ghost use Rattle.std.specs.Prelude.{◌≡◌, ◌+◌, ◌*◌, ℕ, Err, IfErr, IfOk, List, length};

use super::Server;
use adapter::Adapter;
use ata_types::{ClientId, FRAME_BYTES, Frame, MemFault};
use server_history::laws::{
    law_client_loads_and_stores_extend_history, law_device_never_owns_accessible_frames,
    law_refusals_extend_history,
};
use server_history::stuck_server::law_in_call_gives_server_invariant;

impl<A: Adapter> Server<A> {
    ghost use Rattle.adapter.specs.{AccessBounds.{MakesAtMost}, Rules.{IsStable, IsInMemoryNotOwnedByDevice}};
    ghost use Rattle.block_machine.specs.{Events.{LoadAt, StoreAt}, Refusals.{IsFirstMemFault, MayAccessFrame}};
    ghost use Rattle.block_server.specs.{Calls.{LoadsFrame, StoresFrame}, ServerView.{server_of}};
    ghost use Rattle.dma_frames.specs.FrameTables.{lent_to, owner_of};
    ghost use Rattle.server_history.specs.Histories.{ExtendsHistory, load_result, store_result};

    /// Returns the address of `count` bytes of a client's own frame, which begin at an offset in bytes. They may be
    /// stored and loaded there. Otherwise it returns the first that applies of `FrameForeign`, `FrameLent` and
    /// `OutsideFrame`. A store or load that is refused so adds its event to the history.
    fn open_frame_address(
        &self,
        client: ClientId,
        frame: Frame,
        offset: u32,
        count: usize,
    ) -> Result<u32, MemFault>
        ensures ok { IfOk result (λ address. MayAccessFrame (owner_of self.now.table)
            (lent_to self.now.table) client frame
            offset count × (address ≡ FRAME_BYTES * frame.0 + offset)) }
        ensures accessible { IfOk result (λ address. IsStable (IsInMemoryNotOwnedByDevice address count)
            (A.device self.now.adapter)) }
        ensures err { IfErr result (IsFirstMemFault (owner_of self.now.table) (lent_to self.now.table) client frame
            offset count) }
        ensures refused_store { IfErr result (λ fault. (bytes : List ℕ) → length bytes ≡ count
            → ExtendsHistory (server_of A.device self.now) (server_of A.device self.now)
            (StoreAt client frame offset bytes) (store_result (Err fault))) }
        ensures refused_load { IfErr result (λ fault. (out : List ℕ)
            → ExtendsHistory (server_of A.device self.now) (server_of A.device self.now)
            (LoadAt client frame offset count) (load_result (Err fault) out)) }
    {
        law_refusals_extend_history();
        law_in_call_gives_server_invariant();
        law_device_never_owns_accessible_frames();
        if self.shared.table.owner(frame) != Some(client) {
            return Err(MemFault::FrameForeign);
        }
        if self.shared.table.lent_to(frame).is_some() {
            return Err(MemFault::FrameLent);
        }
        if offset as u128 + count as u128 > FRAME_BYTES as u128 {
            return Err(MemFault::OutsideFrame);
        }
        Ok(FRAME_BYTES * frame.0 as u32 + offset)
    }

    /// Copies bytes into a client's own frame. `offset` is the place of the first one, in bytes, and a frame has 4096.
    ///
    /// # Errors
    ///
    /// The first that applies is returned. Then nothing changes, and no access is made.
    ///
    /// - `FrameForeign`: the client doesn't own the frame.
    /// - `FrameLent`: the frame is lent to a request.
    /// - `OutsideFrame`: a byte would be past the end of the frame. An offset of 4096 is allowed for no bytes.
    pub fn client_store(
        &mut self,
        client: ClientId,
        frame: Frame,
        offset: u32,
        bytes: &[u8],
    ) -> Result<(), MemFault>
        ensures stores { StoresFrame A.device self.old self.new client frame offset bytes.now result }
        ensures extends_history { ExtendsHistory (server_of A.device self.old) (server_of A.device self.new)
            (StoreAt client frame offset bytes.now) (store_result result) }
        ensures cost { MakesAtMost 1 (A.access_count self.old.adapter) (A.access_count self.new.adapter) }
    {
        law_client_loads_and_stores_extend_history();
        let address = self.open_frame_address(client, frame, offset, bytes.len())?;
        self.adapter.store(address, bytes);
        Ok(())
    }

    /// Copies bytes of a client's own frame into `out`, as many as it has. `offset` is the place of the first one.
    ///
    /// # Errors
    ///
    /// Those of `client_store`, in the same order. Then `out` stays as it was, and no access is made.
    pub fn client_load(
        &mut self,
        client: ClientId,
        frame: Frame,
        offset: u32,
        out: &mut [u8],
    ) -> Result<(), MemFault>
        ensures loads { LoadsFrame A.device self.old self.new client frame offset out.old out.new result }
        ensures extends_history { ExtendsHistory (server_of A.device self.old) (server_of A.device self.new)
            (LoadAt client frame offset (length out.old)) (load_result result out.new) }
        ensures cost { MakesAtMost 1 (A.access_count self.old.adapter) (A.access_count self.new.adapter) }
    {
        law_client_loads_and_stores_extend_history();
        let address = self.open_frame_address(client, frame, offset, out.len())?;
        self.adapter.load(address, out);
        Ok(())
    }
}
