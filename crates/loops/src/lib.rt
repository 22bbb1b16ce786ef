// Arrows in memory, as the code is lent them: what is known of every graph and of every list of preds is a ghost field, which whoever makes one
// proves. The theory of their schedules and loops is in specs/ and proofs/.
#![tactic(auto)]

ghost use Rattle.std.specs.Prelude.{◌≡◌, ◌<◌, length, ◌↔◌, IsSome, IfSome};
ghost use Rattle.loops.specs.Arrows.{among, arrow_at, tail};
ghost use Rattle.loops.specs.Shape.{Shape};
ghost use Rattle.loops.specs.Model.{pred};

// The number that names no arrow, `no_arrow` of specs/Shape.antt.
pub const NO_ARROW: u16 = 65_535;

// From the register `tail` to the register `head`, whose time is to lie by the amount above the tail's.
#[derive(Clone, Copy, PartialEq, Eq, Debug)]
pub struct Arrow {
    pub tail: u16,
    pub head: u16,
    pub amount: i32,
}

// Registers and the arrows between them. An arrow is named by its place.
#[derive(Clone, Copy)]
pub struct Graph<'a> {
    pub registers: usize,
    pub arrows: &'a [Arrow],
    ghost shape: { Shape (among registers arrows.now) },
}

impl<'a> Graph<'a> {
    // The register that an arrow leaves.
    pub fn tail(self, e: usize) -> usize
        requires { e < length self.arrows.now }
        ensures { result ≡ tail (among self.entry.registers self.entry.arrows.now) e }
    {
        usize::from(self.arrows[e].tail)
    }
}

// For each register of a graph the arrow that is noted as its pred. A number that names no arrow stands for none.
#[derive(Clone, Copy)]
pub struct Preds<'a> {
    pub graph: Graph<'a>,
    pub list: &'a [u16],
    ghost long: { length list.now ≡ graph.registers },
}

impl<'a> Preds<'a> {
    // The pred of register v, where it has one.
    pub fn of(self, v: usize) -> Option<&'a Arrow>
        requires { v < self.graph.registers }
        ensures some { IsSome result ↔ (pred self.entry.list.now v < length self.entry.graph.arrows.now) }
        ensures is { IfSome result (λ arrow. arrow.now ≡ arrow_at self.entry.graph.arrows.now (pred self.entry.list.now v)) }
    {
        self.graph.arrows.get(usize::from(self.list[v]))
    }
}
