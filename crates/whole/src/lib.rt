// Whole numbers in a byte slice: four bytes each, two's complement, low byte first. Each contract cites one definition of specs/Four.antt.
// A quotient rounded up, by specs/Rounding.antt. And a test of a number, by specs/Within.antt.
#![tactic(auto)]

ghost use Rattle.std.specs.Prelude.{◌≡◌, ◌+◌, ◌≤◌, ◌<◌, length};
ghost use Rattle.std.proofs.lemmas.List.Edits.{sets};
ghost use Rattle.whole.specs.Four.{number_at, word_of, four};
ghost use Rattle.whole.specs.Rounding.{round_up};
ghost use Rattle.whole.specs.Within.{within};

// The number that stands at a place.
pub fn number(s: &[u8], at: usize) -> i32
    requires { at + 4 ≤ length s.now }
    ensures { result ≡ number_at s.now at }
{
    i32::from_le_bytes([s[at], s[at + 1], s[at + 2], s[at + 3]])
}

// The number without sign that stands for a number.
pub fn unsigned(z: i32) -> u32
    ensures { result ≡ word_of z }
{
    z.cast_unsigned()
}

// Writes a number at a place; every byte outside its four keeps its value.
pub fn put_number(out: &mut [u8], at: usize, z: i32)
    requires { at + 4 ≤ length out.old }
    ensures { out.new ≡ sets out.old at (four z) }
{
    out[at..at + 4].copy_from_slice(&z.to_le_bytes());
}

// The quotient of any whole number by a positive one, rounded up: below 0 the quotient of its size is rounded down. That may be 2 ^ 63,
// which no i64 is, so it is taken from 0 as a number without sign.
pub fn round_up(z: i64, k: usize) -> i64
    requires { 0 < k }
    ensures { result ≡ round_up z k }
{
    let size = z.unsigned_abs();
    if z < 0 {
        0i64.strict_sub_unsigned(size / k as u64)
    } else {
        size.div_ceil(k as u64) as i64
    }
}

// Whether a number lies from low to high.
pub fn within(low: i32, high: i32, z: i32) -> bool
    ensures { result ≡ within low high z }
{
    (low..=high).contains(&z)
}
