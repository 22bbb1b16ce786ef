// The network file in code: whether it is accepted, which fault comes first where it is not, and its records as structs by value. Each
// contract cites a definition of the paper, or one of specs/ that says a record's fields are those of the network that the file means.
#![tactic(auto)]

ghost use Rattle.std.specs.Prelude.{◌≡◌, true};
ghost use Rattle.paper.specs.File.{counted, sized};
ghost use Rattle.paper.specs.Outcome.{Judged};
ghost use Rattle.network.specs.Search.{RecordsJudged};

mod fault;
pub mod field;
pub mod read;

use paper::{Delay, Fault, Latency};

// What the header says, but for the clock uncertainty, which each path carries.
#[derive(Clone, Copy, PartialEq, Eq, Debug)]
pub struct Header {
    pub registers: usize,
    pub paths: usize,
    pub floor: i32,
    pub ceiling: i32,
}

// Register 0 is the host, whose window is 0 to 0.
#[derive(Clone, Copy, PartialEq, Eq, Debug)]
pub struct Register {
    pub setup: Delay,
    pub hold: Delay,
    pub low: Latency,
    pub high: Latency,
}

// The uncertainty is that of which the path's rules are charged: all of it in setup, and in hold what `rules::charged` says.
#[derive(Clone, Copy, PartialEq, Eq, Debug)]
pub struct Path {
    pub from: usize,
    pub to: usize,
    pub dmin: Delay,
    pub dmax: Delay,
    pub uncertainty: Delay,
}

// The first of the numbers 1 to 6 that applies, with its place, or that the file is accepted.
#[tactic(auto, unfolding(paper::specs::File::headed))]
pub fn judge(file: &[u8]) -> Result<(), Fault>
    ensures { Judged file.now result }
{
    if !fault::headed(file) {
        return Err(Fault::Header);
    }
    if !fault::counted(file) {
        return Err(Fault::Counts);
    }
    if !fault::sized(file) {
        return Err(Fault::Length);
    }
    if !fault::ranged(file) {
        return Err(Fault::Ranges);
    }
    judge_records(file)
}

// The first of the numbers 5 and 6 that applies to a file of the right length.
#[tactic(auto, using(paper::proofs::Legal::counts_to), unfolding(paper::specs::File::sized))]
fn judge_records(file: &[u8]) -> Result<(), Fault>
    requires { (counted file.now ≡ true) × (sized file.now ≡ true) }
    ensures { RecordsJudged file.now result }
{
    let n = field::count(file, 2);
    let m = field::count(file, 6);
    if let Some(i) = fault::lowest_register(file, n) {
        return Err(Fault::Register(i));
    }
    if let Some(p) = fault::lowest_path(file, n, m) {
        return Err(Fault::Path(p));
    }
    Ok(())
}
