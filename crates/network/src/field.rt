// One field of the header, or one number of a record: tested, or read as a count.
ghost use Rattle.std.specs.Prelude.{◌≡◌, ◌+◌, ◌≤◌, pos, ◌-ℤ◌, length};
ghost use Rattle.whole.specs.Four.{number_at};
ghost use Rattle.paper.specs.File.{natural, marked, within, windowed};
ghost use Rattle.paper.specs.Limits.{most_registers};

use paper::limits;
use whole::within;

// The letters a and b at a place.
#[tactic(auto, unfolding(paper::specs::File::marked))]
pub fn marked(file: &[u8], at: usize, a: u8, b: u8) -> bool
    requires { at + 2 ≤ length file.now }
    ensures { result ≡ marked file.now at a b }
{
    file[at] == a && file[at + 1] == b
}

// The number itself, from 0 up.
pub fn natural(z: i32) -> usize
    ensures { result ≡ natural z }
{
    // The greater of it and 0 is one comparison, where the test of `try_from` alone is five steps for each number that is read.
    usize::try_from(z.max(0)).unwrap_or(0)
}

// The number at a place, counted from 0 up.
pub fn count(file: &[u8], at: usize) -> usize
    requires { at + 4 ≤ length file.now }
    ensures { result ≡ natural (number_at file.now at) }
{
    natural(whole::number(file, at))
}

// The number at a place lies from low to high.
pub fn within_at(file: &[u8], at: usize, low: i32, high: i32) -> bool
    requires { at + 4 ≤ length file.now }
    ensures { result ≡ within low high (number_at file.now at) }
{
    within(low, high, whole::number(file, at))
}

// The number at a place lies from the number at another place to high.
pub fn rising(file: &[u8], from: usize, at: usize, high: i32) -> bool
    requires { (from + 4 ≤ length file.now) × (at + 4 ≤ length file.now) }
    ensures { result ≡ within (number_at file.now from) high (number_at file.now at) }
{
    within(whole::number(file, from), high, whole::number(file, at))
}

// The number names one of n registers.
pub fn named(z: i32, n: usize) -> bool
    requires { n ≤ most_registers }
    ensures { result ≡ within (pos 0) (pos n -ℤ pos 1) z }
{
    within(0, n as i32 - 1, z)
}

// A register's window: both ends 0 for register 0.
#[tactic(auto, unfolding(paper::specs::File::windowed))]
pub fn windowed(i: usize, low: i32, high: i32) -> bool
    ensures { result ≡ windowed i low high }
{
    if i == 0 {
        within(0, 0, low) && within(0, 0, high)
    } else {
        within(limits::LEAST_LATENCY, limits::MOST_LATENCY, low)
            && within(low, limits::MOST_LATENCY, high)
    }
}
