// The records of a file, by value. What is read of an accepted one lies in its range: proofs/Ranges.antt says so of each field.
ghost use Rattle.std.specs.Prelude.{◌<◌};
ghost use Rattle.paper.specs.File.{network_of};
ghost use Rattle.paper.specs.Refusals.{Accepted};
ghost use Rattle.network.specs.Records.{IsHeader, IsRegister, IsPath, PathThere};

use crate::{Header, Path, Register, field};
use paper::{Delay, Latency};

#[tactic(auto, using(paper::proofs::Legal::accepted_length, paper::proofs::Naturals::accepted_read), unfolding(paper::specs::File::network_of))]
pub fn header(file: &[u8]) -> Header
    requires { Accepted file.now }
    ensures { IsHeader (network_of file.now) result }
{
    Header {
        registers: field::count(file, 2),
        paths: field::count(file, 6),
        floor: whole::number(file, 10),
        ceiling: whole::number(file, 14),
    }
}

#[tactic(auto, using(paper::proofs::Legal::accepted_length), unfolding(paper::specs::File::network_of))]
pub fn register(file: &[u8], i: usize) -> Register
    requires { Accepted file.now × (i < (network_of file.now).registers) }
    ensures { IsRegister (network_of file.now) i result }
{
    let r = records::read(file, 22 + 18 * i);
    Register {
        setup: Delay(r.first),
        hold: Delay(r.second),
        low: Latency(r.third),
        high: Latency(r.fourth),
    }
}

// The caller has the count n of registers at hand, by which the place of a path's record is found.
#[tactic(auto, using(paper::proofs::Legal::accepted_length), unfolding(paper::specs::File::network_of))]
pub fn path(file: &[u8], n: usize, p: usize) -> Path
    requires { PathThere file.now n p }
    ensures { IsPath (network_of file.now) p result }
{
    let r = records::read(file, 22 + 18 * (n + p));
    Path {
        from: field::natural(r.first),
        to: field::natural(r.second),
        dmin: Delay(r.third),
        dmax: Delay(r.fourth),
        uncertainty: Delay(whole::number(file, 18)),
    }
}
