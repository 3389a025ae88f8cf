// One bit of a register's value, by its place or by the mask that has it alone.
ghost use Rattle.std.specs.Prelude.{◌≡◌, ◌≢◌, ◌<◌, ◌^◌, ℕ, false, true};
ghost use Rattle.hba_regs.specs.Bits.{bit};

/// Whether the bit at this place is one. Bit 0 is the lowest.
pub fn is_set(value: u32, place: u32) -> bool
    requires { place < 32 }
    ensures { result ≡ bit value place }
{
    value >> place & 1 == 1
}

/// The value with the bit at this place one.
pub fn with_bit(value: u32, place: u32) -> u32
    requires { place < 32 }
    ensures set { bit result place ≡ true }
    ensures others_are_kept { (k : ℕ) → k < 32 → k ≢ place → bit result k ≡ bit value k }
{
    value | 1 << place
}

/// The value with the bit at this place zero.
pub fn without_bit(value: u32, place: u32) -> u32
    requires { place < 32 }
    ensures cleared { bit result place ≡ false }
    ensures others_are_kept { (k : ℕ) → k < 32 → k ≢ place → bit result k ≡ bit value k }
{
    value & !(1 << place)
}

/// Whether the value has the mask's bit. A method whose body names the mask and whose clause names the place has the
/// two checked against each other.
pub(crate) fn has(value: u32, mask: u32) -> bool
    ensures { (place : ℕ) → mask ≡ 2 ^ place → result ≡ bit value place }
{
    value & mask == mask
}
