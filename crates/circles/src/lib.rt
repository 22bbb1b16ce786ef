// The search for a circle among the preds, from a register that is not grounded, and the arrows of the circle that it found. Nothing here
// writes a pred. Each walk takes at most as many steps as there are registers.
#![tactic(auto)]

ghost use Rattle.std.specs.Prelude.{◌≡◌, ◌<◌, length, get_or};
ghost use Rattle.loops.specs.Graphs.{of};
ghost use Rattle.loops.specs.Model.{back, trail, rooted, lowest, around};
ghost use Rattle.circles.specs.Circle.{Unending, Astray, IsCircle, Listable, ShowsCircle};

use arrayvec::ArrayVec;
use loops::Preds;
use paper::limits::MOST_REGISTERS;

// The register one step back from v, whose pred is an arrow.
#[tactic(auto, unfolding(loops::specs::Model::back))]
fn step(preds: Preds, v: usize) -> usize
    requires register { v < preds.graph.registers }
    requires arrow { get_or preds.list.now v 0 < length preds.graph.arrows.now }
    ensures { result ≡ back (of preds.entry.graph) preds.entry.list.now 1 v }
{
    preds.graph.tail(usize::from(preds.list[v]))
}

// Whether the walk back from s comes to a register without a pred. n steps are enough: after them a register has come twice.
pub fn grounded(preds: Preds, s: usize) -> bool
    requires { s < preds.graph.registers }
    ensures { result ≡ rooted (of preds.entry.graph) preds.entry.list.now preds.entry.graph.registers s }
{
    let mut v = s;
    // After k steps the walk stands at v, and it ends from s exactly where it ends from v with the steps that are left (`Followed`).
    for k in 0..preds.graph.registers {
        match preds.of(v) {
            Some(arrow) => v = usize::from(arrow.tail),
            None => return true,
        }
    }
    preds.of(v).is_none()
}

// The register as many steps back from s as there are registers. Where the preds go on so far, it is on a circle.
fn onto(preds: Preds, s: usize) -> usize
    requires { Unending (of preds.graph) preds.list.now s }
    ensures { result ≡ back (of preds.entry.graph) preds.entry.list.now preds.entry.graph.registers s }
{
    let mut v = s;
    // v is k steps back from s.
    for k in 0..preds.graph.registers {
        v = step(preds, v);
    }
    v
}

// The lowest register on as many steps back from s.
fn lowest(preds: Preds, s: usize) -> usize
    requires { Unending (of preds.graph) preds.list.now s }
    ensures { result ≡ lowest (of preds.entry.graph) preds.entry.list.now preds.entry.graph.registers s }
{
    let mut v = s;
    let mut low = s;
    // v is k steps back from s, and low the lowest register met so far.
    for k in 0..preds.graph.registers {
        v = step(preds, v);
        low = low.min(v);
    }
    low
}

// How many steps back from s until s comes again; 0 where it does not come. n steps are enough for any circle.
fn around(preds: Preds, s: usize) -> usize
    requires { s < preds.graph.registers }
    ensures { result ≡ around (of preds.entry.graph) preds.entry.list.now s preds.entry.graph.registers 0 s }
{
    let mut v = s;
    // After k steps the walk stands at v, and what the model's search answers is what it answers from there (`Circling`).
    for k in 0..preds.graph.registers {
        let Some(arrow) = preds.of(v) else {
            return 0;
        };
        v = usize::from(arrow.tail);
        if v == s {
            return k + 1;
        }
    }
    0
}

// A circle by its lowest register and the steps that it takes.
#[derive(Clone, Copy)]
struct Cycle {
    start: usize,
    steps: usize,
}

// The circle on which the walk back from s ends, where s is not grounded: onto it, to its lowest register, and once around.
fn circle(preds: Preds, s: usize) -> Cycle
    requires { Astray (of preds.graph) preds.list.now s }
    ensures { IsCircle (of preds.entry.graph) preds.entry.list.now s result.start result.steps }
{
    let start = lowest(preds, onto(preds, s));
    Cycle {
        start,
        steps: around(preds, start),
    }
}

// The arrows of the steps back from `start`, in the order of the arrows: the walk meets the last arrow first, so they are turned round.
fn list(preds: Preds, cycle: Cycle, ring: &mut ArrayVec<u16, MOST_REGISTERS>)
    requires { Listable (of preds.graph) preds.list.now cycle.start cycle.steps }
    ensures { ring.new.items ≡ trail (of preds.entry.graph) preds.entry.list.now cycle.steps cycle.start }
{
    ring.clear();
    let mut v = cycle.start;
    // After k steps the ring has their arrows, the first one first (`RingListing`).
    for k in 0..cycle.steps {
        let e = preds.list[v];
        ring.push(e);
        v = usize::from(preds.graph.arrows[usize::from(e)].tail);
    }
    ring.as_mut_slice().reverse();
}

// Lists the circle on which the walk back from s ends.
pub fn show(preds: Preds, s: usize, ring: &mut ArrayVec<u16, MOST_REGISTERS>)
    requires { Astray (of preds.graph) preds.list.now s }
    ensures { ShowsCircle (of preds.entry.graph) preds.entry.list.now s ring.new.items }
{
    list(preds, circle(preds, s), ring);
}
