// The faults of a file, each as the test that the paper names, and the lowest faulty record.
ghost use Rattle.std.specs.Prelude.{◌≡◌, true, List, ℕ, ◌+◌, ◌*◌, ◌≤◌, length};
ghost use Rattle.paper.specs.File.{marked, headed, counted, sized, ranged, registers, register_place, path_place, register_ok, path_ok};
ghost use Rattle.records.specs.Records.{IsRecord};
ghost use Rattle.network.specs.Search.{Sought, PathsThere};
ghost use Rattle.paper.specs.Limits.{most_registers};

use crate::field;
use paper::limits;
use records::Record;
use whole::within;

// The header keeps them as numbers of four bytes.
const MOST_REGISTERS: i32 = limits::MOST_REGISTERS as i32;

const MOST_PATHS: i32 = limits::MOST_PATHS as i32;

// Number 1: a whole header, with its mark.
#[tactic(auto, unfolding(paper::specs::File::headed))]
pub fn headed(file: &[u8]) -> bool
    ensures { result ≡ headed file.now }
{
    22 <= file.len() && field::marked(file, 0, b'N', b'W')
}

// Number 2: n from 1 to 256, m from 0 to 2,048.
#[tactic(auto, unfolding(paper::specs::File::counted))]
pub fn counted(file: &[u8]) -> bool
    requires { 22 ≤ length file.now }
    ensures { result ≡ counted file.now }
{
    field::within_at(file, 2, 1, MOST_REGISTERS) && field::within_at(file, 6, 0, MOST_PATHS)
}

// Number 3: nothing is missing and nothing follows.
#[tactic(auto, using(paper::proofs::Legal::counts_to), unfolding(paper::specs::File::sized))]
pub fn sized(file: &[u8]) -> bool
    requires { (22 ≤ length file.now) × (counted file.now ≡ true) }
    ensures { result ≡ sized file.now }
{
    let n = field::count(file, 2);
    let m = field::count(file, 6);
    file.len() == 22 + 18 * (n + m)
}

// Number 4: the floor from 1, the ceiling from the floor, both to 10,000,000; u from 0 to 10,000.
#[tactic(auto, unfolding(paper::specs::File::ranged))]
pub fn ranged(file: &[u8]) -> bool
    requires { 22 ≤ length file.now }
    ensures { result ≡ ranged file.now }
{
    field::within_at(file, 10, 1, limits::MOST_PERIOD)
        && field::rising(file, 10, 14, limits::MOST_PERIOD)
        && field::within_at(file, 18, 0, limits::MOST_UNCERTAINTY)
}

// The letters a and b are the mark of a record.
#[tactic(auto, unfolding(paper::specs::File::marked))]
fn marked(r: Record, a: u8, b: u8) -> bool
    ensures { (f : List ℕ) (at : ℕ) → IsRecord f at r → result ≡ marked f at a b }
{
    r.initial == a && r.last == b
}

// Number 5, of one register, by its record: its mark, its setup and hold time, its window.
#[tactic(auto, unfolding(paper::specs::File::register_ok))]
pub fn register_ok(i: usize, r: Record) -> bool
    ensures { (f : List ℕ) → IsRecord f (register_place f i) r → result ≡ register_ok f i }
{
    marked(r, b'R', b'G')
        && within(limits::LEAST_SETUP, limits::MOST_SETUP, r.first)
        && within(limits::LEAST_SETUP, limits::MOST_SETUP, r.second)
        && field::windowed(i, r.third, r.fourth)
}

// Number 6, of one path, by its record: its mark, its ends among n registers, its delays.
pub fn path_ok(n: usize, r: Record) -> bool
    requires { n ≤ most_registers }
    ensures { (f : List ℕ) (p : ℕ) → n ≡ registers f → IsRecord f (path_place f p) r → result ≡ path_ok f p }
{
    marked(r, b'P', b'T')
        && field::named(r.first, n)
        && field::named(r.second, n)
        && 0 <= r.third
        && within(r.third, limits::MOST_DELAY, r.fourth)
}

// The lowest of n registers that is faulty. Each record up to it is read once.
pub fn lowest_register(file: &[u8], n: usize) -> Option<usize>
    requires { 22 + 18 * n ≤ length file.now }
    ensures { Sought (register_ok file.now) n result }
{
    (0..n).find(|&i| !register_ok(i, records::read(file, 22 + 18 * i)))
}

// The lowest of m paths that is faulty, among n registers. Each record up to it is read once.
pub fn lowest_path(file: &[u8], n: usize, m: usize) -> Option<usize>
    requires { PathsThere file.now n m }
    ensures { Sought (path_ok file.now) m result }
{
    (0..m).find(|&p| !path_ok(n, records::read(file, 22 + 18 * (n + p))))
}
