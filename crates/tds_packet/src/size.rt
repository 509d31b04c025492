ghost use Rattle.std.specs.Prelude.{◌≡◌, SomeIff};
ghost use Rattle.tds_packet.specs.Size.{IsPacketSize};

use std::marker::Model;

/// The greatest length of a packet in bytes, its header counted: 512 to 32,767.
///
/// Both ends hold the same one. It is handed in, since its negotiation at login is not spoken here.
#[derive(Clone, Copy, PartialEq, Eq, Debug)]
pub struct PacketSize(u16);

impl Model for PacketSize {
    ghost use Rattle.std.specs.Prelude.{ℕ};
    ghost use Rattle.tds_packet.specs.Size.{IsPacketSize};

    ghost Value = { ℕ };

    ghost view = { λ s. s.0 };

    ghost invariant = { λ s. IsPacketSize s.0 };

    ghost inverse = { λ n. record { 0 = n } };
}

impl PacketSize {
    /// The packet size of this many bytes, or none where it is out of range.
    pub fn new(size: u16) -> Option<PacketSize>
        ensures { SomeIff result (IsPacketSize size) size }
    {
        if size < 512 || size > 32767 {
            return None;
        }
        Some(PacketSize(size))
    }

    /// The number of bytes that it was made of.
    pub fn get(self) -> u16
        ensures value { result ≡ self }
        ensures range { IsPacketSize self }
    {
        self.0
    }
}
