// The module's two public functions for callers in C and in Rust: include/skew.h declares them. Each lends its slices to the function of
// `skew` that does the work, and packs what that returns into one integer, since an enum cannot cross the boundary. A slice is two
// arguments there: where its bytes stand, then how many there are.
#![tactic(auto)]

ghost use Rattle.std.specs.Prelude.{◌≡◌, ◌<◌};
ghost use Rattle.whole.specs.Four.{word_of};
ghost use Rattle.paper.specs.Question.{asked};
ghost use Rattle.skew_c.specs.Packed.{packed, above_of};
ghost use Rattle.skew_c.specs.Returned.{Scheduled, Replied};

use paper::codes::Numbered;
use paper::{Delay, Refusal};

// Reads the network in `file` and leaves the answer in `out`. It returns for every file and every size of `out`.
#[unsafe(no_mangle)]
pub extern "C" fn skew_schedule(file: &[u8], out: &mut [u8]) -> u64
    ensures { Scheduled file.now out.old result out.new }
{
    let o = skew::schedule::schedule(file, out);
    pack(o.number(), o.place() as u64)
}

// By how much the rule of this kind and number is met at `period` by the latencies at its arrow's tail and head.
#[unsafe(no_mangle)]
pub extern "C" fn skew_question(
    file: &[u8],
    period: i32,
    kind: i32,
    number: i32,
    tail: i32,
    head: i32,
) -> u64
    ensures { Replied file.now (asked period kind number tail head) result }
{
    let o = skew::question::question(file, period, kind, number, tail, head);
    pack(o.number(), above(o))
}

// What stands above a reply's number: the slack, or a refusal's place.
fn above(o: Result<Delay, Refusal>) -> u64
    ensures { result ≡ above_of o }
{
    match o {
        Ok(s) => u64::from(whole::unsigned(s.0)),
        Err(x) => x.place() as u64,
    }
}

// The integer that carries a number and what stands above it.
fn pack(number: u32, above: u64) -> u64
    requires { above < 4294967296 }
    ensures { result ≡ packed number above }
{
    u64::from(number) + above * 4_294_967_296
}
