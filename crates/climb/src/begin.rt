// Where the climb begins. A loop that contradicts itself at the floor shows that no period below the next one that it leads to has a schedule,
// so the climb may begin there. Nothing that is promised rests on which loop is guessed: another one, or none, only makes the climb longer
// or shorter.
ghost use Rattle.std.specs.Prelude.{◌<◌, length};
ghost use Rattle.needs.specs.Raising.{Raisable};
ghost use Rattle.climb.specs.Begin.{Beginnings, Begun, Led};

use arrayvec::ArrayVec;
use arrows::at_period;
use guess::guess;
use loops::{Arrow, Graph};
use network::Header;
use paper::Rule;
use paper::limits::MOST_REGISTERS;
use places::Places;

// The period that the listed loop leads to, or the ceiling where that is lower; the floor, and an empty list, where there is no loop. Where floor
// and ceiling are one, there is no other period to try, and at the floor no loop is shown.
fn lead(
    h: Header,
    rules: &[Rule],
    arrows: &[Arrow],
    ring: &mut ArrayVec<u16, MOST_REGISTERS>,
) -> i32
    requires { 0 < length ring.old.items → Raisable arrows.now rules.now h.floor ring.old.items }
    ensures { Led arrows.now rules.now ring.old.items h.floor h.ceiling result ring.new.items }
{
    if ring.is_empty() || h.ceiling <= h.floor {
        ring.clear();
        return h.floor;
    }
    needs::next(arrows, rules, h.floor, ring).min(h.ceiling)
}

// Guesses a loop among the rules at the floor, and answers the period where it leads: the first to try, with the loop that shows why in `ring`.
pub fn begin(
    h: Header,
    rules: &[Rule],
    arrows: &mut [Arrow],
    base: &[i32],
    preds: &mut [u16],
    ring: &mut ArrayVec<u16, MOST_REGISTERS>,
) -> i32
    requires { Beginnings h rules.now arrows.old base.now preds.old }
    ensures { Begun h rules.now arrows.old arrows.new base.now ring.new.items result }
{
    let places = Places {
        registers: h.registers,
        paths: h.paths,
    };
    at_period(places, h.floor, arrows, base);
    let graph = Graph {
        registers: h.registers,
        arrows: &arrows[..places.all()],
    };
    guess(graph, places.fixed(), preds, ring);
    lead(h, rules, arrows, ring)
}
