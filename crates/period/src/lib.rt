// The search for the smallest period: first a look at the rules that do not know it, then the climb. All memory is the module's own: no heap,
// no recursion.
#![tactic(auto)]

ghost use Rattle.std.specs.Prelude.{◌+◌, ◌*◌, ◌≤◌, length};
ghost use Rattle.paper.specs.File.{network_of};
ghost use Rattle.paper.specs.Refusals.{Accepted};
ghost use Rattle.climb.specs.Solved.{Solved};
ghost use Rattle.period.specs.Search.{Searchable, Searched};
ghost use Rattle.paper.specs.Limits.{room_for};

use answer::loop_alone;
use arrayvec::ArrayVec;
use climb::climb;
use look::look;
use loops::{Arrow, Graph};
use network::Header;
use paper::limits::{MOST_PATHS, MOST_REGISTERS};
use paper::{Number, Rule, Unanswered};
use places::Places;
use rounds::relax::Kept;

// A low and a high rule for each register, a setup and a hold rule for each path; the host has no window, so two places stay free.
const MOST_RULES: usize = 2 * MOST_REGISTERS + 2 * MOST_PATHS;

// The parts of the search, over rows of its own.
fn search(
    h: Header,
    rules: &[Rule],
    arrows: &mut [Arrow],
    base: &[i32],
    out: &mut [u8],
) -> Result<(), Unanswered>
    requires { Searchable h rules.now arrows.old base.now out.old }
    ensures { Searched h rules.now arrows.old base.now out.old out.new result }
{
    let n = h.registers;
    let mut a = [0i32; MOST_REGISTERS];
    let mut b = [0i32; MOST_REGISTERS];
    let mut preds = [0u16; MOST_REGISTERS];
    let mut kept_row = [0i32; MOST_REGISTERS];
    let mut kept_preds = [0u16; MOST_REGISTERS];
    let mut ring = ArrayVec::new();
    let a = &mut a[..n];
    let b = &mut b[..n];
    let preds = &mut preds[..n];
    let kept_row = &mut kept_row[..n];
    let kept_preds = &mut kept_preds[..n];
    let places = Places {
        registers: n,
        paths: h.paths,
    };
    let graph = Graph {
        registers: n,
        arrows: &arrows[..places.fixed()],
    };
    let Some(passed) = look(graph, a, b, preds, &mut ring, kept_row, kept_preds) else {
        loop_alone(out, rules, &ring);
        return Err(Unanswered::NoPeriod);
    };
    let kept = Kept {
        row: kept_row,
        preds: kept_preds,
        passed,
    };
    climb(h, rules, arrows, base, kept, a, b, preds, &mut ring, out)
}

// The smallest period of an accepted network with its least latencies, or that there is none.
pub fn solve(file: &[u8], out: &mut [u8]) -> Result<(), Unanswered>
    requires { (Accepted file.now) × (room_for (network_of file.now).registers ≤ length out.old) }
    ensures { Solved (network_of file.now) out.old result out.new }
{
    let h = network::read::header(file);
    let mut rules = [Rule::Setup(Number::from(0)); MOST_RULES];
    let mut arrows = [Arrow {
        tail: 0,
        head: 0,
        amount: 0,
    }; MOST_RULES];
    let mut base = [0i32; MOST_PATHS];
    arrows::fill(file, h, &mut rules, &mut arrows, &mut base);
    search(h, &rules, &mut arrows, &base, out)
}
