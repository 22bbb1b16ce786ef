// One round: it reads one row and writes the other; where a head is raised, the arrow is noted as its pred.
ghost use Rattle.std.specs.Prelude.{◌≡◌, length};
ghost use Rattle.loops.specs.Graphs.{of};
ghost use Rattle.loops.specs.Model.{step, round};
ghost use Rattle.rounds.specs.Turning.{turn, Liftable, Roundable};

use loops::Graph;
use settling::offer;

// One arrow: its head is raised where what it asks is higher. Answers whether anything was raised so far.
#[tactic(auto, unfolding(loops::specs::Model::step))]
fn lift(graph: Graph, e: usize, a: &[i32], b: &mut [i32], preds: &mut [u16], raised: bool) -> bool
    requires { Liftable (of graph) a.now b.old preds.old e }
    ensures { turn b.new preds.new result ≡ step (of graph.entry) a.now e (turn b.old preds.old raised) }
{
    let arrow = &graph.arrows[e];
    let h = usize::from(arrow.head);
    let x = offer(a, arrow);
    if b[h] < x {
        b[h] = x;
        preds[h] = e as u16;
        return true;
    }
    raised
}

// Row b becomes row a. By `copy_from_slice` it would be a call of `memmove`, since nothing tells a compiler that the two rows lie apart, and so
// a name more that the library for C needs from outside.
#[tactic(auto, using(crate::proofs::Copies::copied_none, crate::proofs::Copies::copied_more))]
fn copy(a: &[i32], b: &mut [i32])
    requires { length b.old ≡ length a.now }
    ensures { b.new ≡ a.now }
{
    // The first i elements of b are those of a.
    for (i, &x) in a.iter().enumerate() {
        b[i] = x;
    }
}

// A round from row a to row b: b becomes a copy of a, and then the arrows from `from` on are taken in their order. Those before it are met by
// row a, so a round over all arrows comes to the same. Answers whether it raised anything.
#[tactic(auto, using(loops::proofs::Begun::pass_met), unfolding(loops::specs::Model::pass, loops::specs::Model::round))]
pub fn turn_round(graph: Graph, from: usize, a: &[i32], b: &mut [i32], preds: &mut [u16]) -> bool
    requires { Roundable (of graph) a.now b.old preds.old from }
    ensures { turn b.new preds.new result ≡ round (of graph.entry) a.now preds.old }
{
    copy(a, b);
    let mut raised = false;
    // Row, preds and flag are those of the model's pass over the first e arrows.
    for e in from..graph.arrows.len() {
        raised = lift(graph, e, a, b, preds, raised);
    }
    raised
}
