// Bits of registers.
ghost use Rattle.std.specs.Prelude.{◌≡◌, ◌↔◌, ◌<◌, ◌≤◌, ◌^◌, ◌&&◌, ℕ, IsTrue, true, false, not, if◌then◌else◌};
ghost use Rattle.adapter.specs.Memory.{changed};
ghost use Rattle.device_model.specs.WordBits.{word_bits};

use hba_regs::{with_bit, without_bit};

/// A value of this one bit, or none.
pub fn bit_if(set: bool, place: u32) -> u32
    requires { place < 32 }
    ensures { result ≡ (if set then 2 ^ place else 0) }
{
    if set { 1 << place } else { 0 }
}

/// Whether no bit is a one from this place on.
pub fn is_clear_from(value: u32, place: u32) -> bool
    requires { place < 32 }
    ensures { IsTrue result ↔ ((k : ℕ) → place ≤ k → word_bits value k ≡ false) }
{
    value >> place == 0
}

/// The value with this bit as said.
pub fn with_bit_as(value: u32, place: u32, set: bool) -> u32
    requires { place < 32 }
    ensures { word_bits result ≡ changed (word_bits value) place set }
{
    if set {
        with_bit(value, place)
    } else {
        without_bit(value, place)
    }
}

/// The value without the bits that are ones in the other.
pub fn without_ones(value: u32, ones: u32) -> u32
    ensures { word_bits result ≡ (λ place. word_bits value place && not (word_bits ones place)) }
{
    value & !ones
}
