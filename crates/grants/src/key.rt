// The keys by which rows are sorted and found, and how many of them were compared.

ghost use Rattle.std.specs.Prelude.{◌≡◌, ◌+◌, ◌<◌, ◌^◌};
ghost use Rattle.grants.specs.NamedRows.{IsOrderOf};

use ata_types::ClientId;
use std::cmp::Ordering;
use std::marker::Model;

/// How many keys were compared.
#[derive(Drop)]
pub struct Compared {
    count: u32,
}

impl Model for Compared {
    ghost use Rattle.std.specs.Prelude.{ℕ};

    ghost Value = { ℕ };

    ghost view = { λ c. c.count };
}

impl Compared {
    /// None was compared yet.
    pub fn none() -> Self
        ensures { result ≡ 0 }
    {
        Compared { count: 0 }
    }

    /// How many were.
    pub fn count(&self) -> u32
        ensures { result ≡ self.now }
    {
        self.count
    }
}

/// The name of a row: its client and number. No other module sees the fields, so keys are compared by `order` alone.
#[derive(Drop)]
pub struct Key {
    client: ClientId,
    number: u8,
}

impl Model for Key {
    ghost use Rattle.std.specs.Prelude.{◌<◌};
    ghost use Rattle.grants.specs.NamedRows.{RowName};

    ghost Value = { RowName };

    ghost view = { λ k. (k.client, k.number) };

    ghost invariant = { λ k. k.number < 256 };
}

impl Key {
    /// The key of a name.
    pub fn new(client: ClientId, number: u8) -> Self
        ensures name { result ≡ (client, number) }
        ensures number_is_a_byte { number < 256 }
    {
        Key { client, number }
    }

    /// The key's order to this name. The comparison is counted.
    pub fn order(&self, client: ClientId, number: u8, compared: &mut Compared) -> Ordering
        requires { compared.old + 1 < 2 ^ 32 }
        ensures counted { compared.new ≡ compared.old + 1 }
        ensures order { IsOrderOf self.now (client, number) result }
    {
        compared.count += 1;
        if self.client.0 < client.0 {
            Ordering::Less
        } else if client.0 < self.client.0 {
            Ordering::Greater
        } else if self.number < number {
            Ordering::Less
        } else if number < self.number {
            Ordering::Greater
        } else {
            Ordering::Equal
        }
    }
}
