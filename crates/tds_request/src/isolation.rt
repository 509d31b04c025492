ghost use Rattle.std.specs.Prelude.{◌≡◌, SomeIff};
ghost use Rattle.tds_request.specs.Values.{IsIsolation};

use std::marker::Model;

/// The isolation level that a begin asks for (MS-TDS 2.2.6.9): 0 no change, 1 read uncommitted,
/// 2 read committed, 3 repeatable read, 4 serializable, 5 snapshot.
#[derive(Clone, Copy, Debug, PartialEq, Eq)]
pub struct Isolation(u8);

impl Model for Isolation {
    ghost use Rattle.std.specs.Prelude.{ℕ};
    ghost use Rattle.tds_request.specs.Values.{IsIsolation};

    ghost Value = { ℕ };

    ghost view = { λ level. level.0 };

    ghost invariant = { λ level. IsIsolation level.0 };

    ghost inverse = { λ n. record { 0 = n } };
}

impl Isolation {
    /// The level of this number, if it is from 0 to 5.
    pub fn new(level: u8) -> Option<Isolation>
        ensures { SomeIff result (IsIsolation level) level }
    {
        if level > 5 {
            return None;
        }
        Some(Isolation(level))
    }

    /// The number that it was made of.
    pub fn get(self) -> u8
        ensures value { result ≡ self }
        ensures range { IsIsolation self }
    {
        self.0
    }
}
