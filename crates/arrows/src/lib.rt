// The rules of an accepted network in memory, in arrays that the caller lends: at each place a rule, and its arrow with its amount. Where a rule
// stands is said by `places` alone, but that `at_period` counts on from `fixed`. What a setup rule's amount is without the period is kept in an
// array of its own, so that another period costs one subtraction a path.
#![tactic(auto)]

ghost use Rattle.paper.specs.File.{network_of};
ghost use Rattle.loops.specs.Layout.{fixed_places};
ghost use Rattle.arrows.specs.Filled.{Filled, Weighable, Weighed};
ghost use Rattle.arrows.specs.Filling.{Windows, AtFill, AtWindows};

use loops::Arrow;
use network::{Header, read};
use paper::{Number, Rule};
use places::Places;

// The low and the high rules of all registers but the host. Before each turn the registers below i have theirs (`Windows`).
fn windows(file: &[u8], h: Header, rules: &mut [Rule], arrows: &mut [Arrow])
    requires { AtWindows file.now h rules.old arrows.old }
    ensures { Windows (network_of file.now) rules.new arrows.new h.registers }
{
    let places = Places {
        registers: h.registers,
        paths: h.paths,
    };
    for i in 1..h.registers {
        let r = read::register(file, i);
        let v = i as u16;
        let k = Number::from(v);
        let e = places::low(i);
        let g = places.high(i);
        rules[e] = Rule::Low(k);
        arrows[e] = Arrow {
            tail: 0,
            head: v,
            amount: rules::low(r).0,
        };
        rules[g] = Rule::High(k);
        arrows[g] = Arrow {
            tail: v,
            head: 0,
            amount: rules::high(r).0,
        };
    }
}

// All rules that do not know the period, and all that is needed of those that do: the windows, and then path by path the hold and the setup
// rule. Before each turn the paths below p have theirs (`Paths`).
pub fn fill(file: &[u8], h: Header, rules: &mut [Rule], arrows: &mut [Arrow], base: &mut [i32])
    requires { AtFill file.now h rules.old arrows.old base.old }
    ensures { Filled (network_of file.now) rules.new arrows.new base.new }
{
    windows(file, h, rules, arrows);
    let places = Places {
        registers: h.registers,
        paths: h.paths,
    };
    for p in 0..h.paths {
        let road = read::path(file, h.registers, p);
        let receiver = read::register(file, road.to);
        let k = Number::from(p as u16);
        let from = road.from as u16;
        let to = road.to as u16;
        let e = places.hold(p);
        let g = places.setup(p);
        rules[e] = Rule::Hold(k);
        arrows[e] = Arrow {
            tail: to,
            head: from,
            amount: rules::hold(road, receiver).0,
        };
        rules[g] = Rule::Setup(k);
        arrows[g] = Arrow {
            tail: from,
            head: to,
            amount: 0,
        };
        base[p] = rules::setup(road, receiver).0;
    }
}

// The setup rules' amounts at a period. Before each turn those of the paths below p are written (`WeighedBelow`).
pub fn at_period(places: Places, period: i32, arrows: &mut [Arrow], base: &[i32])
    requires { Weighable places.registers places.paths period arrows.old base.now }
    ensures { Weighed (fixed_places places.registers places.paths) places.paths period base.now arrows.old arrows.new }
{
    let first = places.fixed();
    for p in 0..places.paths {
        arrows[first + p].amount = rules::at(base[p], period);
    }
}
