// Records that follow one another.
ghost use Rattle.std.specs.Prelude.{◌≡◌, map, ◌+◌, ◌*◌, ◌≤◌, length};
ghost use Rattle.std.proofs.lemmas.List.Edits.{sets};
ghost use Rattle.paper.specs.Output.{latency_records, entry_records};
ghost use Rattle.loops.specs.Model.{at};
ghost use Rattle.loops.specs.Names.{named};
ghost use Rattle.answer.specs.Records.{Nameable, Timeable};

use crate::record::{put_entry, put_latency};
use paper::Rule;

// The latencies stand behind the answer's first record, which takes 14 bytes.
pub fn put_latencies(out: &mut [u8], row: &[i32])
    requires { Timeable row.now out.old }
    ensures { out.new ≡ sets out.old 14 (latency_records (at row.now) (length row.now)) }
{
    // The latencies of the registers before i stand in the output, and nothing else changed.
    for (i, &x) in row.iter().enumerate() {
        put_latency(out, 14 + 6 * i, x);
    }
}

// The loop is given as places of arrows; each entry names the rule that stands at its place.
pub fn put_entries(out: &mut [u8], at: usize, rules: &[Rule], ring: &[u16])
    requires nameable { Nameable rules.now ring.now }
    requires in_bounds { at + 10 * length ring.now ≤ length out.old }
    ensures { out.new ≡ sets out.old at (entry_records (map (named rules.now) ring.now)) }
{
    // The records of the first j entries stand in the output from `at` on, and nothing else changed.
    for (j, &e) in ring.iter().enumerate() {
        let rule = &rules[usize::from(e)];
        put_entry(
            out,
            at + 10 * j,
            i32::from(rule.kind()),
            i32::from(rule.number()),
        );
    }
}
