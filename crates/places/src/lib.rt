// Where the rules stand in memory, of n registers and m paths: each place has its function here, and no other crate works one out, but
// that `arrows::at_period` counts on from `fixed`. Their definitions are those of loops/specs/Layout.antt.
#![tactic(auto)]

ghost use Rattle.std.specs.Prelude.{◌≡◌, ◌<◌};
ghost use Rattle.loops.specs.Layout.{low_place, high_place, hold_place, setup_place, fixed_places, all_places};
ghost use Rattle.places.specs.Few.{Few};

// The low rule of register i, which is not the host, in every network.
pub fn low(i: usize) -> usize
    requires { 0 < i }
    ensures { result ≡ low_place i }
{
    i - 1
}

// The places of a network's other rules, by how many registers and paths it has.
#[derive(Clone, Copy, PartialEq, Eq, Debug)]
pub struct Places {
    pub registers: usize,
    pub paths: usize,
    ghost few: { Few registers paths },
}

impl Places {
    // The high rule of register i, which is not the host.
    pub fn high(self, i: usize) -> usize
        requires other { 0 < i }
        requires below { i < self.registers }
        ensures { result ≡ high_place self.registers i }
    {
        (self.registers - 1) + (i - 1)
    }

    // The hold rule of path p.
    pub fn hold(self, p: usize) -> usize
        requires { p < self.paths }
        ensures { result ≡ hold_place self.registers p }
    {
        2 * (self.registers - 1) + p
    }

    // The setup rule of path p.
    pub fn setup(self, p: usize) -> usize
        requires { p < self.paths }
        ensures { result ≡ setup_place self.registers self.paths p }
    {
        self.fixed() + p
    }

    // How many rules do not know the period: they stand before all that do.
    pub fn fixed(self) -> usize
        ensures { result ≡ fixed_places self.registers self.paths }
    {
        2 * (self.registers - 1) + self.paths
    }

    // How many rules there are.
    pub fn all(self) -> usize
        ensures { result ≡ all_places self.registers self.paths }
    {
        2 * (self.registers - 1) + 2 * self.paths
    }
}
