// Where commands are read that are not taken yet.
ghost use Rattle.std.specs.Prelude.{◌≡◌, ◌<◌, ℕ, List, IfOk, IfSome, None};
ghost use Rattle.adapter.specs.{Commands.{Meaning}, Decoding.{DecodesTo}};
ghost use Rattle.device_model.specs.{FetchedBytes.{IsNewlyTaken, bytes_of}, PortView.{taken_of}};

use crate::fetch::decode_into;
use crate::port::TakenCommand;
use std::alloc::{AllocError, Global};
use std::marker::Model;

/// Room for a command that is read, found once, since a command is large. What was read there counts as long as it is
/// looked at, so contracts say nothing of it afterwards.
#[derive(Drop)]
pub struct CommandBuffer {
    room: Vec<TakenCommand>,
}

impl Model for CommandBuffer {
    ghost use Rattle.std.specs.Prelude.{◌≡◌, length};

    ghost Value = { Unit {0} };

    ghost view = { λ _. tt };

    ghost invariant = { λ r. length r.room.items ≡ 1 };
}

impl CommandBuffer {
    /// Room for one.
    pub fn new(alloc: Global) -> Result<CommandBuffer, AllocError> {
        let mut room = Vec::with_capacity(alloc, 1)?;
        room.push(TakenCommand::room())?;
        Ok(CommandBuffer { room })
    }

    /// The command that the bytes of a slot say, if it is one that the model takes.
    pub fn read(&mut self, memory: &[u8], list: u32, slot: u8) -> Option<&TakenCommand>
        requires { slot < 32 }
        ensures found { IfSome result (λ t. IsNewlyTaken t.now
            × DecodesTo (bytes_of memory.now) list slot (taken_of t.now).meaning (taken_of t.now).places) }
        ensures complete { result ≡ None → (m : Meaning) (places : List ℕ)
            → DecodesTo (bytes_of memory.now) list slot m places → ⊥ }
    {
        let command = &mut self.room[0];
        command.prds.clear();
        if decode_into(memory, list, slot, command) {
            Some(&self.room[0])
        } else {
            None
        }
    }
}
