// The text of a listing, from an outcome, the network's ceiling and the answer's bytes, into a lent buffer. Each writer puts its bytes at a
// place and returns the place behind them; its contract is `Ended`, of the crate text.
// Kept: writers by place, for no clause says which bytes a `write!` leaves in a lent slice, nor that it succeeds where there is room.
#![tactic(auto)]

ghost use Rattle.std.specs.Prelude.{◌≡◌, ◌++◌, ◌+◌, ◌*◌, ◌≤◌, pos, length, Err};
ghost use Rattle.whole.specs.Four.{number_at};
ghost use Rattle.paper.specs.Output.{Front};
ghost use Rattle.text.specs.Decimal.{decimal};
ghost use Rattle.text.specs.Written.{Ended, Written};
ghost use Rattle.listing.specs.Text.{line, latency_line, refused_line, latency_lines, entry_lines, loop_lines, kind_word, refused, answered_text, looped_text, text_of};
ghost use Rattle.listing.specs.Listable.{FullAnswer, LoopAnswer, InRoom, Listable, LatencyRoom, LatenciesRoom, EntriesRoom, Countable, text_room};

use paper::Unanswered;
use paper::codes::Numbered;
use text::{put_digits, put_text, put_whole};

// The room that any text fits in.
pub const TEXT_ROOM: usize = 16_384;

// A word and a number from 0 up.
fn put_count(text: &mut [u8], at: usize, word: &[u8], n: u64) -> usize
    requires { at + length word.now + length (decimal n) ≤ length text.old }
    ensures { Written text.old at (word.now ++ decimal n) text.new result }
{
    let next = put_text(text, at, word);
    put_digits(text, next, n)
}

// A word, a number and a newline.
fn put_line(text: &mut [u8], at: usize, word: &[u8], z: i32) -> usize
    requires { at + length word.now + 12 ≤ length text.old }
    ensures { Ended text.old at (line word.now z) text.new result (at + length word.now + 12) }
{
    let next = put_text(text, at, word);
    let end = put_whole(text, next, z);
    text[end] = b'\n';
    end + 1
}

fn put_latency(text: &mut [u8], at: usize, i: usize, z: i32) -> usize
    requires { LatencyRoom text.old at i }
    ensures { Ended text.old at (latency_line i z) text.new result (at + 24) }
{
    let next = put_count(text, at, b"latency ", i as u64);
    put_line(text, next, b" ", z)
}

// The only line that stands at the text's start alone: its number may be any of 32 bits, its place any of 64.
fn put_refused(text: &mut [u8], number: u32, place: usize) -> usize
    requires { 40 ≤ length text.old }
    ensures { Ended text.old 0 (refused_line number place) text.new result 40 }
{
    let next = put_count(text, 0, b"refused ", number as u64);
    let end = put_count(text, next, b" ", place as u64);
    text[end] = b'\n';
    end + 1
}

// The line of an outcome that is no answer.
fn put_refusal(text: &mut [u8], e: Unanswered) -> usize
    requires { 40 ≤ length text.old }
    ensures { Ended text.old 0 (refused (Err e)) text.new result 40 }
{
    put_refused(text, e.number(), e.place())
}

fn put_entry(text: &mut [u8], at: usize, kind: i32, number: i32) -> usize
    requires { at + 24 ≤ length text.old }
    ensures { Ended text.old at (line (kind_word kind) number) text.new result (at + 24) }
{
    match kind {
        0 => put_line(text, at, b"setup ", number),
        1 => put_line(text, at, b"hold ", number),
        2 => put_line(text, at, b"low ", number),
        _ => put_line(text, at, b"high ", number),
    }
}

// Kept: two functions, for the clauses of one over a closure, on the bytes that each call writes, are longer than its loop.
fn put_latencies(text: &mut [u8], at: usize, answer: &[u8], n: usize) -> usize
    requires { LatenciesRoom answer.now text.old at n }
    ensures { Ended text.old at (latency_lines answer.now n) text.new result (at + 24 * n) }
{
    let mut next = at;
    // `Lines`: the lines of the first i registers stand in the text, up to `next`.
    for i in 0..n {
        next = put_latency(text, next, i, whole::number(answer, 14 + 6 * i + 2));
    }
    next
}

fn put_entries(text: &mut [u8], at: usize, answer: &[u8], start: usize, k: usize) -> usize
    requires { EntriesRoom answer.now start text.old at k }
    ensures { Ended text.old at (entry_lines answer.now start k) text.new result (at + 24 * k) }
{
    let mut next = at;
    // `Lines`: the lines of the first j entries stand in the text, up to `next`.
    for j in 0..k {
        let place = start + 10 * j;
        let kind = whole::number(answer, place + 2);
        let number = whole::number(answer, place + 6);
        next = put_entry(text, next, kind, number);
    }
    next
}

fn put_loop(text: &mut [u8], at: usize, period: i32, answer: &[u8], start: usize, k: usize) -> usize
    requires { EntriesRoom answer.now start text.old (at + 24) k }
    ensures { Ended text.old at (loop_lines period answer.now start k) text.new result (at + 24 + 24 * k) }
{
    let next = put_line(text, at, b"loop ", period);
    put_entries(text, next, answer, start, k)
}

// A count in the answer's first record.
fn count(answer: &[u8], at: usize) -> usize
    requires { Countable answer.now at }
    ensures { pos result ≡ number_at answer.now at }
{
    whole::number(answer, at) as usize
}

fn answered(answer: &[u8], text: &mut [u8]) -> usize
    requires { InRoom (FullAnswer answer.now) text.old }
    ensures { Ended text.old 0 (answered_text answer.now) text.new result text_room }
{
    let period = whole::number(answer, 2);
    let n = count(answer, 6);
    let k = count(answer, 10);
    let next = put_line(text, 0, b"period ", period);
    let end = put_latencies(text, next, answer, n);
    if k == 0 {
        return end;
    }
    put_loop(text, end, period - 1, answer, 14 + 6 * n, k)
}

// A refusal that shows a loop which contradicts itself at the ceiling.
fn looped(ceiling: i32, answer: &[u8], e: Unanswered, text: &mut [u8]) -> usize
    requires { InRoom (LoopAnswer answer.now) text.old }
    ensures { Ended text.old 0 (looped_text ceiling (Err e) answer.now) text.new result text_room }
{
    let k = count(answer, 10);
    let next = put_refusal(text, e);
    put_loop(text, next, ceiling, answer, 14, k)
}

// The listing stands at the front of the text, and what stood behind it stands there still; the result is the listing's length. The ceiling
// is the network's: the text of 8 and 9 has it, and no other reads it.
pub fn list(ceiling: i32, answer: &[u8], o: Result<(), Unanswered>, text: &mut [u8]) -> usize
    requires { Listable o answer.now text.old }
    ensures { (Front (text_of ceiling o answer.now) text.old text.new)
        × (result ≡ length (text_of ceiling o answer.now)) }
{
    let Err(e) = o else {
        return answered(answer, text);
    };
    match e {
        Unanswered::Refused(_) | Unanswered::Room => put_refusal(text, e),
        Unanswered::NoPeriod | Unanswered::NoneToCeiling => looped(ceiling, answer, e, text),
    }
}
