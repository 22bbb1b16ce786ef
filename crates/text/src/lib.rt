// Text into a lent buffer: bytes, and numbers in decimal. Each writer puts its bytes at a place and returns the place behind them; its contract
// is `Written`, or `Ended` where the place has a bound, of specs/Written.antt.
#![tactic(auto)]

ghost use Rattle.std.specs.Prelude.{◌≡◌, ◌+◌, ◌≤◌, length};
ghost use Rattle.text.specs.Decimal.{decimal, whole};
ghost use Rattle.text.specs.Written.{Ended, Written};

use itoa::Buffer;

// The bytes of `s`.
pub fn put_text(text: &mut [u8], at: usize, s: &[u8]) -> usize
    requires { at + length s.now ≤ length text.old }
    ensures { Written text.old at s.now text.new result }
{
    let end = at + s.len();
    text[at..end].copy_from_slice(s);
    end
}

// The digits of a number.
pub fn put_digits(text: &mut [u8], at: usize, n: u64) -> usize
    requires { at + length (decimal n) ≤ length text.old }
    ensures { Written text.old at (decimal n) text.new result }
{
    let mut buffer = Buffer::new();
    put_text(text, at, buffer.format(n).as_bytes())
}

// A number takes at most a minus and ten digits.
pub fn put_whole(text: &mut [u8], at: usize, z: i32) -> usize
    requires { at + 11 ≤ length text.old }
    ensures { Ended text.old at (whole z) text.new result (at + 11) }
{
    let mut buffer = Buffer::new();
    put_text(text, at, buffer.format(z).as_bytes())
}
