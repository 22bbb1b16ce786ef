// The look for refusal 8. The rules that do not know the period are relaxed by themselves: a loop of them leaves no period a schedule. Where
// they rest, their row and its preds are tight for all rules at every period, so that each trial of a period may start from a copy.
#![tactic(auto)]

ghost use Rattle.loops.specs.Graphs.{of};
ghost use Rattle.look.specs.Firsts.{FirstRoom, Firsts, Keepable, Kept};
ghost use Rattle.look.specs.Looking.{Lookable, Looked};

use arrayvec::ArrayVec;
use loops::{Graph, NO_ARROW};
use paper::limits::MOST_REGISTERS;
use rounds::relax::{Rest, go_on};

// After more pairs of rounds than this the kept row is the first row. On long chains the row that rests lies far from where a trial ends, and
// its preds hang deep, so that going on from it costs more than starting anew. Nothing that is promised rests on the number.
const MANY: usize = 16;

// The first row and its preds.
fn first(graph: Graph, a: &mut [i32], preds: &mut [u16])
    requires { FirstRoom graph.registers graph.arrows.now a.old preds.old }
    ensures { Firsts graph.entry.registers graph.entry.arrows.now a.new preds.new }
{
    a[0] = 0;
    preds[0] = NO_ARROW;
    // The registers below v have their time and their pred (`FirstsBelow`).
    for v in 1..graph.registers {
        let e = places::low(v);
        a[v] = graph.arrows[e].amount;
        preds[v] = e as u16;
    }
}

// What a relaxation of more arrows may go on from, by how many pairs of rounds the arrows took to rest: the first row, or the row that rests,
// each with its preds. Answers how many of the first arrows it meets.
fn keep(
    graph: Graph,
    rest: Rest,
    preds: &[u16],
    kept_row: &mut [i32],
    kept_preds: &mut [u16],
) -> usize
    requires { Keepable graph.registers graph.arrows.now rest.row.now preds.now kept_row.old kept_preds.old }
    ensures { Kept graph.entry.registers (of graph.entry).count graph.entry.arrows.now rest.entry.row.now preds.now kept_row.new kept_preds.new result }
{
    if MANY < rest.pairs {
        first(graph, kept_row, kept_preds);
        return 0;
    }
    kept_row.copy_from_slice(rest.row);
    kept_preds.copy_from_slice(preds);
    graph.arrows.len()
}

// Relaxes the arrows that do not know the period from the first row, and keeps a row with its preds that a relaxation of more arrows may go on
// from. Answers how many of the first arrows that row meets; where there is none, `ring` lists a loop that contradicts itself.
pub fn look(
    graph: Graph,
    a: &mut [i32],
    b: &mut [i32],
    preds: &mut [u16],
    ring: &mut ArrayVec<u16, MOST_REGISTERS>,
    kept_row: &mut [i32],
    kept_preds: &mut [u16],
) -> Option<usize>
    requires { Lookable (of graph) a.old b.old preds.old kept_row.old kept_preds.old }
    ensures { Looked (of graph.entry) ring.new.items kept_row.new kept_preds.new result }
{
    first(graph, a, preds);
    let rest = go_on(graph, 0, a, b, preds, ring)?;
    let passed = keep(graph, rest, preds, kept_row, kept_preds);
    Some(passed)
}
