//! A run from a schedule file to the printed report, over sockets.
ghost use Rattle.std.specs.Prelude.{◌≡◌, ◌⊎◌};
ghost use Rattle.tds_play.specs.Pipe.{AreFaithful};
ghost use Rattle.tds_play.specs.Runs.{EndsTold, FitsFile, Reports};
ghost use Rattle.tds_tcp.specs.Pairs.{pipe_at};

use crate::carrier::TcpCarrier;
use std::alloc::Global;
use std::io::{Read, Write};
use std::net::Net;
use tds_play::run_play;

/// Reads a schedule, plays it over sockets of this machine, and prints the report to `output`, or a
/// line about the first fault to `errors`, with the clauses of [`run_play`]. Where what came of each
/// socket in the end is the first of what was written, what is printed is the report of that play.
pub fn run_loopback<N: Net + Drop, R: Read, W: Write, F: Write>(
    alloc: Global,
    reader: &mut R,
    carrier: &mut TcpCarrier<N, N::Listener, N::Stream>,
    output: &mut W,
    errors: &mut F,
) -> u8
    ensures status { (result ≡ 0) ⊎ (result ≡ 1) }
    ensures fits { result ≡ 0 → FitsFile (R.remaining reader.old) }
    ensures report { AreFaithful (pipe_at carrier.new.pairs) → result ≡ 0 → Reports
        (pipe_at carrier.new.pairs) (R.remaining reader.old) (W.contents output.old)
        (W.contents output.new) }
    ensures silent { result ≡ 0 → F.contents errors.new ≡ F.contents errors.old }
    ensures fault { AreFaithful (pipe_at carrier.new.pairs) → result ≡ 1 → EndsTold
        (pipe_at carrier.new.pairs) (R.remaining reader.old) (W.contents output.old)
        (W.contents output.new) (F.contents errors.old) (F.contents errors.new) }
{
    run_play(alloc, reader, carrier, output, errors)
}
