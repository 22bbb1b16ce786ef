// What a loop that contradicts itself asks of the next period. Its arrows are listed by place. With k setup rules its sum falls by k for each
// unit of the period, so that what the sum is over, shared among the k and rounded up, is by how much the period has to rise.
#![tactic(auto)]

ghost use Rattle.std.specs.Prelude.{◌≡◌, length};
ghost use Rattle.needs.specs.Raising.{Places, sum_at, setups_at, Raisable, Raised};

use loops::Arrow;
use paper::Rule;

// What the amounts of the listed arrows add up to. A loop's sum can leave 32 bits, so it is kept in 64.
pub fn total_of(arrows: &[Arrow], ring: &[u16]) -> i64
    requires { Places (length arrows.now) ring.now }
    ensures { result ≡ sum_at arrows.now ring.now }
{
    let mut sum: i64 = 0;
    // Kept: the library bounds the `sum` of an iterator only where its numbers have no sign.
    for &e in ring {
        sum += i64::from(arrows[usize::from(e)].amount);
    }
    sum
}

// How many of the listed arrows are those of setup rules.
pub fn setups_of(rules: &[Rule], ring: &[u16]) -> usize
    requires { Places (length rules.now) ring.now }
    ensures { result ≡ setups_at rules.now ring.now }
{
    let mut count = 0;
    // `count` of the entries passed are those of setup rules.
    // Kept: of a closure that reads a list of rules the prover does not find that the place is in it.
    for &e in ring {
        if rules[usize::from(e)].is_setup() {
            count += 1;
        }
    }
    count
}

// The next period that the loop allows, from its arrows' amounts at `period`.
pub fn next(arrows: &[Arrow], rules: &[Rule], period: i32, ring: &[u16]) -> i32
    requires { Raisable arrows.now rules.now period ring.now }
    ensures { Raised arrows.now rules.now period ring.now result }
{
    let over = total_of(arrows, ring);
    let k = setups_of(rules, ring);
    period + whole::round_up(over, k) as i32
}
