// The climb to the smallest period: from a period below which none has a schedule, each loop that is found leads to the next period to try.
#![tactic(auto)]

ghost use Rattle.climb.specs.Trial.{Climbable, Climbed};

mod begin;

use answer::{answered, loop_alone};
use arrayvec::ArrayVec;
use arrows::at_period;
use begin::begin;
use loops::{Arrow, Graph};
use network::Header;
use paper::limits::MOST_REGISTERS;
use paper::{Rule, Unanswered};
use places::Places;
use rounds::relax::{Kept, resume};

// Where some period has a schedule: finds where to begin, and goes from trial to trial. Each trial but the first is at a longer period than the
// one before and none lies above the ceiling, so that there are at most ceiling - floor + 1 of them; the benchmark's networks take a few, and
// those that are made to take many 33. Each takes one pass over the paths for the amounts and one relaxation of all rules.
pub fn climb(
    h: Header,
    rules: &[Rule],
    arrows: &mut [Arrow],
    base: &[i32],
    kept: Kept,
    a: &mut [i32],
    b: &mut [i32],
    preds: &mut [u16],
    ring: &mut ArrayVec<u16, MOST_REGISTERS>,
    out: &mut [u8],
) -> Result<(), Unanswered>
    requires { Climbable h rules.now arrows.old base.now kept.row.now kept.preds.now kept.passed a.old b.old preds.old out.old }
    ensures { Climbed h rules.now arrows.old base.now out.old out.new result }
{
    let places = Places {
        registers: h.registers,
        paths: h.paths,
    };
    let mut period = begin(h, rules, arrows, base, preds, ring);
    // The period lies from floor to ceiling, and `ring` is a loop that contradicts itself at the period before, or empty at the floor; the
    // output is untouched (`Going`).
    loop {
        at_period(places, period, arrows, base);
        let graph = Graph {
            registers: h.registers,
            arrows: &arrows[..places.all()],
        };
        if let Some(row) = resume(graph, kept, a, b, preds, ring) {
            answered(out, period, row, rules, ring);
            return Ok(());
        }
        let above = needs::next(arrows, rules, period, ring);
        if h.ceiling < above {
            loop_alone(out, rules, ring);
            return Err(Unanswered::NoneToCeiling);
        }
        period = above;
    }
}
