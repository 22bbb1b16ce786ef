// The answer's bytes: a record of three numbers, then the latencies, then the loop. Each contract ends in the paper's `Front`: the bytes
// stand at the front of the output, and every byte past the last one written keeps its value. The loop is given by the places of its
// arrows, at which its rules stand.
#![tactic(auto)]

ghost use Rattle.std.specs.Prelude.{map, ◌+◌, ◌*◌, ◌≤◌, length};
ghost use Rattle.paper.specs.Output.{LoopAlone};
ghost use Rattle.loops.specs.Names.{named};
ghost use Rattle.answer.specs.Records.{Nameable, Answerable, AnswerBytes};

mod record;
mod run;

use paper::Rule;

// A period, the latencies of all registers, and the loop that shows the period to be least.
pub fn answered(out: &mut [u8], period: i32, row: &[i32], rules: &[Rule], ring: &[u16])
    requires { Answerable rules.now ring.now row.now out.old }
    ensures { AnswerBytes period row.now (map (named rules.now) ring.now) out.old out.new }
{
    record::put_skew(out, period, row.len() as i32, ring.len() as i32);
    run::put_latencies(out, row);
    run::put_entries(out, 14 + 6 * row.len(), rules, ring);
}

// No period and no latencies: only the loop that contradicts itself.
pub fn loop_alone(out: &mut [u8], rules: &[Rule], ring: &[u16])
    requires nameable { Nameable rules.now ring.now }
    requires in_bounds { 14 + 10 * length ring.now ≤ length out.old }
    ensures { LoopAlone (map (named rules.now) ring.now) out.old out.new }
{
    record::put_skew(out, 0, 0, ring.len() as i32);
    run::put_entries(out, 14, rules, ring);
}
