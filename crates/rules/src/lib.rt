// The sums of the four rules, each once: the amount of a rule without the period, a setup rule's amount at a period, and by how much an
// arrow with its amount is met. Each is worked out between instants and lengths, so that nothing is added that has no meaning.
#![tactic(auto)]

ghost use Rattle.std.specs.Prelude.{◌≡◌, ◌+ℤ◌, ◌-ℤ◌};
ghost use Rattle.std.specs.Int.{w32};
ghost use Rattle.std.proofs.Common.{SFits};
ghost use Rattle.paper.specs.declared.Rule.TheVariants.{Setup, Hold, Low, High};
ghost use Rattle.paper.specs.Rules.{charge};
ghost use Rattle.rules.specs.Amounts.{SmallRegister, SmallEnds, SmallArrow, OfPath, OfRegister};

use network::{Path, Register};
use paper::{Delay, Latency};

// dmax + s_j + u, by what the receiver asks; the period is not in it yet.
pub fn setup(road: Path, receiver: Register) -> Delay
    requires { SmallEnds road receiver }
    ensures { OfPath Setup road receiver result.0 }
{
    road.dmax.plus(receiver.setup).plus(road.uncertainty)
}

// c: a path from a register to itself is timed by one edge at one clock pin, which cannot be early and late at once.
fn charged(road: Path) -> Delay
    ensures { result.0 ≡ charge road.from road.to road.uncertainty.0 }
{
    if road.from == road.to {
        Delay(0)
    } else {
        road.uncertainty
    }
}

// h_j + c - dmin, by what the receiver asks.
pub fn hold(road: Path, receiver: Register) -> Delay
    requires { SmallEnds road receiver }
    ensures { OfPath Hold road receiver result.0 }
{
    receiver.hold.plus(charged(road)).less(road.dmin)
}

// low_i: from the host's instant to the earliest.
pub fn low(r: Register) -> Delay
    requires { SmallRegister r }
    ensures { OfRegister Low r result.0 }
{
    r.low.since(Latency(0))
}

// -high_i: from the latest instant back to the host's.
pub fn high(r: Register) -> Delay
    requires { SmallRegister r }
    ensures { OfRegister High r result.0 }
{
    Latency(0).since(r.high)
}

// A setup rule's amount at a period, from what it is without one.
pub fn setup_at(base: Delay, period: Delay) -> Delay
    requires { SFits w32 (base.0 -ℤ period.0) }
    ensures { result.0 ≡ base.0 -ℤ period.0 }
{
    base.less(period)
}

// The same, of numbers as an array keeps them.
pub fn at(base: i32, period: i32) -> i32
    requires { SFits w32 (base -ℤ period) }
    ensures { result ≡ base -ℤ period }
{
    setup_at(Delay(base), Delay(period)).0
}

// RULES 2.3: "the latency at the arrow's head .. is at least the latency at its tail .. plus the amount": by how much.
pub fn slack(amount: Delay, tail: Latency, head: Latency) -> Delay
    requires { SmallArrow amount.0 tail.0 head.0 }
    ensures { result.0 ≡ head.0 -ℤ (tail.0 +ℤ amount.0) }
{
    head.since(tail.after(amount))
}
