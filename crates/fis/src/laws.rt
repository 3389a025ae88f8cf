// Laws of the codecs, for callers. What is encoded comes back from its decoder, and each value has one spelling.
ghost use Rattle.std.specs.{Prelude.{◌≡◌, ◌<◌, ◌^◌, ℕ, List, Some}, Int.RustNames.{bit_and}};
ghost use Rattle.adapter.specs.{Encoding.{EncodesCommand}, declared.command.Command.{Command}};
ghost use Rattle.fis.specs.{declared.DeviceToHost.{DeviceToHost}, declared.PioSetup.{PioSetup}, declared.SetDeviceBits.{SetDeviceBits}, Encoding.{AreBytes, EncodesDeviceToHost, EncodesPioSetup, EncodesSetDeviceBits}};

use crate::{
    DeviceToHost, PioSetup, SetDeviceBits, decode_d2h, decode_h2d, decode_pio_setup,
    decode_set_device_bits, encode_d2h, encode_h2d, encode_pio_setup, encode_set_device_bits,
};
use adapter::Command;

/// A command that is encoded and decoded is the same command. Its LBA is below 2^48.
pub fn round_trip_h2d(command: &Command) -> Option<Command>
    requires { command.now.lba < 2 ^ 48 }
    ensures { result ≡ Some command.now }
{
    decode_h2d(&encode_h2d(command))
}

/// Registers that are encoded and decoded are the same registers. Their LBA is below 2^48.
pub fn round_trip_d2h(fis: &DeviceToHost) -> Option<DeviceToHost>
    requires { fis.now.lba < 2 ^ 48 }
    ensures { result ≡ Some fis.now }
{
    decode_d2h(&encode_d2h(fis))
}

/// Tags that are encoded and decoded are the same tags. Bits 7 and 3 of their status are zero.
pub fn round_trip_set_device_bits(fis: &SetDeviceBits) -> Option<SetDeviceBits>
    requires { bit_and fis.now.status 0x88 ≡ 0 }
    ensures { result ≡ Some fis.now }
{
    decode_set_device_bits(&encode_set_device_bits(fis))
}

/// A transfer that is encoded and decoded is the same transfer. Its LBA is below 2^48.
pub fn round_trip_pio_setup(fis: &PioSetup) -> Option<PioSetup>
    requires { fis.now.lba < 2 ^ 48 }
    ensures { result ≡ Some fis.now }
{
    decode_pio_setup(&encode_pio_setup(fis))
}

/// No value has two spellings in bytes. This function does nothing.
pub fn law_each_value_has_at_most_one_encoding()
    ensures command { (c : Command) (a b : List ℕ) → AreBytes a → AreBytes b → EncodesCommand a c → EncodesCommand b c
        → a ≡ b }
    ensures device_to_host { (d : DeviceToHost) (a b : List ℕ) → AreBytes a → AreBytes b → EncodesDeviceToHost a d
        → EncodesDeviceToHost b d → a ≡ b }
    ensures set_device_bits { (s : SetDeviceBits) (a b : List ℕ) → AreBytes a → AreBytes b → EncodesSetDeviceBits a s
        → EncodesSetDeviceBits b s → a ≡ b }
    ensures pio_setup { (p : PioSetup) (a b : List ℕ) → AreBytes a → AreBytes b → EncodesPioSetup a p
        → EncodesPioSetup b p
        → a ≡ b }
{}
