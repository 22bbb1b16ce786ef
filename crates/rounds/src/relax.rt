// One relaxation from a tight row: rounds over two rows, the next the other way, until nothing is raised or a circle is found among the preds.
ghost use Rattle.std.specs.Prelude.{IfSome, IfNone};
ghost use Rattle.loops.specs.Graphs.{of};
ghost use Rattle.rounds.specs.Relaxation.{Relaxable, Continues, Turned, Rested, Circled};

use crate::round::turn_round;
use arrayvec::ArrayVec;
use circles::show;
use loops::{Graph, Preds};
use paper::limits::MOST_REGISTERS;
use settling::settle;

// The row that the relaxation comes to rest with, and how many pairs of rounds it took. What is counted only guides a caller.
#[derive(Drop)]
pub struct Rest<'a> {
    pub row: &'a mut [i32],
    pub pairs: usize,
}

// A row that was kept with its preds, to go on from, and how many of the first arrows it meets.
#[derive(Clone, Copy)]
pub struct Kept<'a> {
    pub row: &'a [i32],
    pub preds: &'a [u16],
    pub passed: usize,
}

// What a round and its settling come to: another round is to follow, nothing was raised, or a circle is found.
#[derive(Clone, Copy)]
pub enum Progress {
    GoesOn,
    Rests,
    Circles,
}

// A round from row a to row b, over the arrows from `from` on, and settling in b. A circle that it finds is listed in `ring`.
fn turn(
    graph: Graph,
    from: usize,
    a: &[i32],
    b: &mut [i32],
    preds: &mut [u16],
    ring: &mut ArrayVec<u16, MOST_REGISTERS>,
) -> Progress
    requires { Relaxable (of graph) a.now b.old preds.old from }
    ensures { Turned (of graph.entry) a.now b.new preds.new ring.old.items ring.new.items result }
{
    if !turn_round(graph, from, a, b, preds) {
        return Progress::Rests;
    }
    let noted = Preds { graph, list: preds };
    let Some(s) = settle(noted, b) else {
        return Progress::GoesOn;
    };
    show(noted, s, ring);
    Progress::Circles
}

// Relaxes the arrows from row a with its preds, which meet the arrows below `from` already: only the first round may pass over those. The row
// that holds the last round is handed on, not copied; where a circle is found there is none, and `ring` lists the circle. A round takes a step
// for each arrow and at most 6 n more, to copy the row and to settle it. How many rounds there are is bounded by `gap` alone, which each of them
// lowers and which is some n · 2 ^ 25 at most.
pub fn go_on<'a>(
    graph: Graph,
    from: usize,
    a: &'a mut [i32],
    b: &'a mut [i32],
    preds: &mut [u16],
    ring: &mut ArrayVec<u16, MOST_REGISTERS>,
) -> Option<Rest<'a>>
    requires { Relaxable (of graph) a.old b.old preds.old from }
    ensures rests { IfSome result (λ rest. Rested (of graph.entry) rest.row.now preds.new ring.old.items ring.new.items) }
    ensures circles { IfNone result (Circled (of graph.entry) ring.new.items) }
{
    let mut start = from;
    let mut pairs: usize = 0;
    // Row a is one that a relaxation may start from, past the arrows below `start`, and the ring is as it was.
    loop {
        pairs = pairs.saturating_add(1);
        match turn(graph, start, a, b, preds, ring) {
            Progress::GoesOn => {}
            Progress::Rests => return Some(Rest { row: b, pairs }),
            Progress::Circles => return None,
        }
        start = 0;
        match turn(graph, start, b, a, preds, ring) {
            Progress::GoesOn => {}
            Progress::Rests => return Some(Rest { row: a, pairs }),
            Progress::Circles => return None,
        }
    }
}

// Goes on from a row that was kept with its preds, and leaves both as they are.
pub fn resume<'a>(
    graph: Graph,
    kept: Kept,
    a: &'a mut [i32],
    b: &'a mut [i32],
    preds: &mut [u16],
    ring: &mut ArrayVec<u16, MOST_REGISTERS>,
) -> Option<&'a mut [i32]>
    requires { Continues (of graph) kept.row.now b.old kept.preds.now kept.passed a.old preds.old }
    ensures rests { IfSome result (λ row. Rested (of graph.entry) row.now preds.new ring.old.items ring.new.items) }
    ensures circles { IfNone result (Circled (of graph.entry) ring.new.items) }
{
    a.copy_from_slice(kept.row);
    preds.copy_from_slice(kept.preds);
    let rest = go_on(graph, kept.passed, a, b, preds, ring)?;
    Some(rest.row)
}
