// Settling: every register takes the time that its preds give it, so that a rise reaches all that hangs on it in the same round.
#![tactic(auto)]

ghost use Rattle.std.specs.Prelude.{◌≡◌, ◌<◌, length, ◌+ℤ◌, ◌-ℤ◌};
ghost use Rattle.std.specs.Int.{w32, w64};
ghost use Rattle.std.proofs.Common.{SFits};
ghost use Rattle.loops.specs.Graphs.{of};
ghost use Rattle.loops.specs.Model.{at};
ghost use Rattle.settling.specs.Settling.{Offers, Walks, Settleable, Unmarked, Walked, Hopped, Puttable, Marks, SettledOne, Settles};

use loops::{Arrow, Preds};
use paper::limits::MOST_REGISTERS;
use paper::{Delay, Latency};

// What an arrow asks of its head, by the time of its tail in a row.
pub fn offer(row: &[i32], arrow: &Arrow) -> i32
    requires { Offers row.now arrow.now }
    ensures { result ≡ at row.now arrow.now.tail +ℤ arrow.now.amount }
{
    let x = Latency(row[usize::from(arrow.tail)]).after(Delay(arrow.amount));
    x.0
}

// The time at the tail of an arrow, where its head stands at z.
fn earlier(z: i32, arrow: &Arrow) -> i32
    requires { SFits w32 (z -ℤ arrow.now.amount) }
    ensures { result ≡ z -ℤ arrow.now.amount }
{
    let x = Latency(z).before(Delay(arrow.amount));
    x.0
}

// One more amount on a walk. The sum of a walk that goes round a circle leaves 32 bits, so it is kept in 64.
fn further(sum: i64, arrow: &Arrow) -> i64
    requires { SFits w64 (sum +ℤ arrow.now.amount) }
    ensures { result ≡ sum +ℤ arrow.now.amount }
{
    sum + i64::from(arrow.amount)
}

// The time at a walk's end and the amounts on the way.
fn landed(row: &[i32], v: usize, sum: i64) -> i32
    requires stands { v < length row.now }
    requires fits { SFits w32 (at row.now v +ℤ sum) }
    ensures { result ≡ at row.now v +ℤ sum }
{
    (i64::from(row[v]) + sum) as i32
}

// One step back from s: where it comes to a marked register, s takes its time and its mark, and the two walks are spared. That is so for
// most registers. Answers whether it did.
fn hop(preds: Preds, row: &mut [i32], marks: &mut [bool], s: usize) -> bool
    requires { Walks (of preds.graph) preds.list.now row.old marks.old s }
    ensures { Hopped (of preds.entry.graph) preds.entry.list.now s row.old row.new marks.old marks.new result }
{
    let Some(arrow) = preds.of(s) else {
        return false;
    };
    if marks[usize::from(arrow.tail)] {
        row[s] = offer(row, arrow);
        marks[s] = true;
        return true;
    }
    false
}

// Follows the preds from s to a marked register or to one without a pred, adding amounts: the time that the preds give s; none where the walk
// comes to no end. It writes nothing.
fn reach(preds: Preds, row: &[i32], marks: &[bool], s: usize) -> Option<i32>
    requires { Walks (of preds.graph) preds.list.now row.now marks.now s }
    ensures { Walked (of preds.entry.graph) preds.entry.list.now s result }
{
    let mut v = s;
    let mut sum: i64 = 0;
    // v is k steps back from s, and whatever the preds give v, they give s that and `sum` (`Walking`).
    for k in 0..=preds.graph.registers {
        if marks[v] {
            return Some(landed(row, v, sum));
        }
        let Some(arrow) = preds.of(v) else {
            return Some(sum as i32);
        };
        sum = further(sum, arrow);
        v = usize::from(arrow.tail);
    }
    None
}

// Walks the same way again: each register takes its time and its mark, up to one that has them.
fn put(preds: Preds, row: &mut [i32], marks: &mut [bool], s: usize, time: i32)
    requires { Puttable (of preds.graph) preds.list.now row.old marks.old s time }
    ensures { Marks (of preds.entry.graph) preds.entry.list.now s row.new marks.old marks.new }
{
    let mut v = s;
    let mut z = time;
    // The preds give v the time z, every marked register stands where its preds put it, and past the first step s is marked (`Putting`).
    for k in 0..=preds.graph.registers {
        if marks[v] {
            return;
        }
        row[v] = z;
        marks[v] = true;
        let Some(arrow) = preds.of(v) else {
            return;
        };
        z = earlier(z, arrow);
        v = usize::from(arrow.tail);
    }
}

// One register: a step back, or both walks. Answers whether it is grounded.
fn settle_one(preds: Preds, row: &mut [i32], marks: &mut [bool], s: usize) -> bool
    requires { Walks (of preds.graph) preds.list.now row.old marks.old s }
    ensures { SettledOne (of preds.entry.graph) preds.entry.list.now s row.new marks.old marks.new result }
{
    if hop(preds, row, marks, s) {
        return true;
    }
    let Some(time) = reach(preds, row, marks, s) else {
        return false;
    };
    put(preds, row, marks, s, time);
    true
}

// All registers, one after another. Answers the first that is not grounded, if there is one.
fn settle_all(preds: Preds, row: &mut [i32], marks: &mut [bool]) -> Option<usize>
    requires { Unmarked (of preds.graph) preds.list.now row.old marks.old }
    ensures { Settles (of preds.entry.graph) preds.entry.list.now row.new result }
{
    // The registers before s are marked, and each marked register stands where its preds put it (`Settling`).
    for s in 0..preds.graph.registers {
        if !settle_one(preds, row, marks, s) {
            return Some(s);
        }
    }
    None
}

// Settles the row that a round has just written. Where some register is not grounded it answers the first such, and the row is given up.
// Every step of a walk but its last leaves a register that is marked then, so that all walks of one kind together take at most 2 n steps.
// Only the walk from a register that is not grounded goes on for n + 1, and after it nothing follows.
pub fn settle(preds: Preds, row: &mut [i32]) -> Option<usize>
    requires { Settleable (of preds.graph) preds.list.now row.old }
    ensures { Settles (of preds.entry.graph) preds.entry.list.now row.new result }
{
    let mut marks = [false; MOST_REGISTERS];
    settle_all(preds, row, &mut marks)
}
