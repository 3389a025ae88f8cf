// A bit for each frame in words of 64 bits.
ghost use Rattle.std.specs.Prelude.{◌≡◌, ◌≢◌, ℕ, ◌<◌, length, IsTrue, ◌↔◌};
ghost use Rattle.dma_frames.specs.FrameBits.{frame_bit};

use super::FRAMES;
use ata_types::Frame;

/// The words that hold a bit for each frame.
pub const BIT_WORDS: usize = FRAMES / 64;

/// Whether a frame's bit is set; none past the memory is.
pub fn is_frame_bit_set(words: &[u64], frame: Frame) -> bool
    ensures { IsTrue result ↔ (frame_bit words.now frame.0 ≡ 1) }
{
    let frame = frame.0 as usize;
    match words.get(frame / 64) {
        Some(word) => (*word >> (frame % 64)) & 1 == 1,
        None => false,
    }
}

/// Sets a frame's bit, or clears it.
pub fn set_frame_bit(words: &mut [u64], frame: Frame, is_set: bool)
    requires words { length words.old ≡ BIT_WORDS }
    requires frame { frame.0 < FRAMES }
    ensures this { IsTrue is_set ↔ (frame_bit words.new frame.0 ≡ 1) }
    ensures others { (k : ℕ) → k ≢ frame.0 → frame_bit words.new k ≡ frame_bit words.old k }
{
    let frame = frame.0 as usize;
    let bit = 1u64 << (frame % 64);
    if is_set {
        words[frame / 64] |= bit;
    } else {
        words[frame / 64] &= !bit;
    }
}
