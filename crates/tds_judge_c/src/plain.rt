//! What crosses to C.

ghost use Rattle.std.specs.Prelude.{◌≡◌};
ghost use Rattle.tds_judge_c.specs.Judged as judged;
ghost use Rattle.tds_judge_c.specs.Judged.{shown};

use tds_judge::{Direction, Features, Finding, Level, Limits};

/// What a judge goes by: `struct tds_judge_limits`.
#[repr(C)]
#[derive(Clone, Copy)]
pub struct TdsJudgeLimits {
    /// How long a transaction may be idle, in microseconds; 0: as long as it likes.
    pub idle: u64,
    /// The most columns of a result, at most 4,096.
    pub columns: u16,
    /// Whether the login acknowledged column encryption, and data classification of version 2.
    pub encryption: u8,
    pub ranks: u8,
}

/// A piece of a connection: `struct tds_judge_piece`.
#[repr(C)]
#[derive(Clone, Copy)]
pub struct TdsJudgePiece {
    /// When it came, in microseconds.
    pub time: u64,
    /// How many bytes it has.
    pub length: usize,
    /// 0 to the server, 1 to the client; 2 where the connection is lent to somebody else, 3 where it is
    /// closed (any other number is as 3).
    pub what: u8,
}

/// A finding: `struct tds_judge_finding`.
#[repr(C)]
#[derive(Clone, Copy)]
pub struct TdsJudgeFinding {
    /// At which byte of its direction, and the time of its piece.
    pub offset: u64,
    pub time: u64,
    /// What goes with it, or 0.
    pub value: u64,
    /// 1 to 45.
    pub number: u8,
    /// 0 breach, 1 risk, 2 note.
    pub level: u8,
    /// 0 to the server, 1 to the client.
    pub direction: u8,
}

impl TdsJudgeLimits {
    pub fn limits(&self) -> Limits
        ensures { result ≡ judged.limits_of self.now }
    {
        Limits {
            idle: self.idle,
            columns: self.columns,
            features: Features {
                encryption: self.encryption != 0,
                ranks: self.ranks != 0,
            },
        }
    }
}

fn level_number(level: Level) -> u8
    ensures { result ≡ judged.level_number level }
{
    match level {
        Level::Breach => 0,
        Level::Risk => 1,
        Level::Note => 2,
    }
}

fn direction_number(direction: Direction) -> u8
    ensures { result ≡ judged.direction_number direction }
{
    match direction {
        Direction::ToServer => 0,
        Direction::ToClient => 1,
    }
}

impl TdsJudgeFinding {
    pub fn of(finding: &Finding) -> TdsJudgeFinding
        ensures { result ≡ shown finding.now }
    {
        TdsJudgeFinding {
            offset: finding.spot.offset,
            time: finding.spot.time,
            value: finding.value,
            number: finding.name.number(),
            level: level_number(finding.name.level()),
            direction: direction_number(finding.spot.direction),
        }
    }
}
