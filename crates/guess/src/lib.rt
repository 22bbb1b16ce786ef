// A loop that may show that a period is too short: one of the heaviest arrow into each register, of those that know the period. Nothing that
// is promised rests on which loop that is: another one, or none, only makes the climb longer or shorter.
#![tactic(auto)]

ghost use Rattle.std.specs.Prelude.{◌≡◌, length};
ghost use Rattle.loops.specs.Graphs.{of};
ghost use Rattle.guess.specs.Guessing.{Chosen, Guessed};

use arrayvec::ArrayVec;
use circles::{grounded, show};
use loops::{Graph, NO_ARROW, Preds};
use needs::total_of;
use paper::limits::MOST_REGISTERS;

// Whether arrow e is to take the place of the pred `noted`: that names no arrow, or e is heavier. Nothing is promised of the answer.
fn is_heavier(graph: Graph, noted: u16, amount: i32) -> bool {
    graph
        .arrows
        .get(usize::from(noted))
        .is_none_or(|arrow| arrow.amount < amount)
}

// Of the arrows from `from` on, the heaviest into each register is noted as its pred.
fn choose(graph: Graph, from: usize, preds: &mut [u16])
    requires { Chosen (of graph) preds.old }
    ensures { Chosen (of graph.entry) preds.new }
{
    // Each pred that is an arrow leads into its register (`Chosen`).
    for e in from..graph.arrows.len() {
        let arrow = &graph.arrows[e];
        let v = usize::from(arrow.head);
        if is_heavier(graph, preds[v], arrow.amount) {
            preds[v] = e as u16;
        }
    }
}

// Lists a loop of the heaviest arrows that contradicts itself; an empty list where there is no such loop. The walk to it begins at the last
// register: any would do.
pub fn guess(graph: Graph, from: usize, preds: &mut [u16], ring: &mut ArrayVec<u16, MOST_REGISTERS>)
    requires { length preds.old ≡ graph.registers }
    ensures { Guessed (of graph.entry) ring.new.items }
{
    ring.clear();
    preds.fill(NO_ARROW);
    choose(graph, from, preds);
    let noted = Preds { graph, list: preds };
    let s = graph.registers - 1;
    if grounded(noted, s) {
        return;
    }
    show(noted, s, ring);
    if total_of(graph.arrows, ring) <= 0 {
        ring.clear();
    }
}
