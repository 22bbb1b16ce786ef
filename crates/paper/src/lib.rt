// The public types that the paper's definitions speak of, and their numbers (codes). The definitions are in specs/.
#![tactic(auto)]

pub mod codes;
pub mod limits;

ghost use Rattle.std.specs.Prelude.{◌≡◌, ◌+ℤ◌, ◌-ℤ◌};
ghost use Rattle.std.specs.Int.{w32};
ghost use Rattle.std.proofs.Common.{SFits};
ghost use Rattle.paper.specs.Rules.{kind, number, is_setup};
ghost use Rattle.paper.specs.declared.Refusal.TheVariants as refusal;
ghost use Rattle.paper.specs.declared.Unanswered.TheVariants as unanswered;

use std::marker::Model;

// When a register's clock edge comes, counted from the host's edge, in picoseconds.
#[derive(Clone, Copy, PartialEq, Eq, PartialOrd, Ord, Debug)]
pub struct Latency(pub i32);

// A length of time, in picoseconds: a travel, a setup or hold time, a period, an amount, a slack.
#[derive(Clone, Copy, PartialEq, Eq, PartialOrd, Ord, Debug)]
pub struct Delay(pub i32);

impl Latency {
    // The instant a delay later.
    pub fn after(self, d: Delay) -> Latency
        requires { SFits w32 (self.0 +ℤ d.0) }
        ensures { result.0 ≡ self.0 +ℤ d.0 }
    {
        Latency(self.0 + d.0)
    }

    // The instant a delay earlier.
    pub fn before(self, d: Delay) -> Latency
        requires { SFits w32 (self.0 -ℤ d.0) }
        ensures { result.0 ≡ self.0 -ℤ d.0 }
    {
        Latency(self.0 - d.0)
    }

    // The length from an instant to this one.
    pub fn since(self, start: Latency) -> Delay
        requires { SFits w32 (self.0 -ℤ start.0) }
        ensures { result.0 ≡ self.0 -ℤ start.0 }
    {
        Delay(self.0 - start.0)
    }
}

impl Delay {
    // One length and then another.
    pub fn plus(self, d: Delay) -> Delay
        requires { SFits w32 (self.0 +ℤ d.0) }
        ensures { result.0 ≡ self.0 +ℤ d.0 }
    {
        Delay(self.0 + d.0)
    }

    // One length less another.
    pub fn less(self, d: Delay) -> Delay
        requires { SFits w32 (self.0 -ℤ d.0) }
        ensures { result.0 ≡ self.0 -ℤ d.0 }
    {
        Delay(self.0 - d.0)
    }
}

// The number of a path or of a register, in two bytes that may stand anywhere, so that a rule takes three.
#[derive(Clone, Copy, PartialEq, Eq, Debug)]
pub struct Number {
    low: u8,
    high: u8,
}

impl Model for Number {
    ghost use Rattle.std.specs.Prelude.{ℕ, ◌+◌, ◌*◌, ◌/◌, ◌%◌, ◌<◌};

    ghost Value = { ℕ };

    ghost view = { λ a. a.low + 256 * a.high };

    ghost invariant = { λ a. (a.low < 256) × (a.high < 256) };

    ghost inverse = { λ n. record { low = n % 256; high = n / 256 } };
}

impl From<u16> for Number {
    ghost from_gives = { λ n r. r ≡ n };

    fn from(n: u16) -> Number {
        let [low, high] = n.to_le_bytes();
        Number { low, high }
    }
}

impl Number {
    pub fn get(&self) -> u16
        ensures { result ≡ self.now }
    {
        u16::from_le_bytes([self.low, self.high])
    }
}

// A rule by its kind and the number of its path or of its register.
#[derive(Clone, Copy, PartialEq, Eq, Debug)]
pub enum Rule {
    Setup(Number),
    Hold(Number),
    Low(Number),
    High(Number),
}

impl Rule {
    // The number of its kind in a question and in an answer.
    pub fn kind(&self) -> u8
        ensures { result ≡ kind self.now }
    {
        match self {
            Rule::Setup(_) => 0,
            Rule::Hold(_) => 1,
            Rule::Low(_) => 2,
            Rule::High(_) => 3,
        }
    }

    // Whether it is a setup rule. The period is in the amounts of these alone.
    pub fn is_setup(&self) -> bool
        ensures { result ≡ is_setup self.now }
    {
        matches!(self, Rule::Setup(_))
    }

    // The number of its path or register.
    pub fn number(&self) -> u16
        ensures { result ≡ number self.now }
    {
        match self {
            Rule::Setup(p) | Rule::Hold(p) => p.get(),
            Rule::Low(i) | Rule::High(i) => i.get(),
        }
    }
}

// What is wrong with a file, and where: numbers 1 to 6.
#[derive(Clone, Copy, PartialEq, Eq, Debug)]
pub enum Fault {
    Header,
    Counts,
    Length,
    Ranges,
    Register(usize),
    Path(usize),
}

// What is wrong with what a call was given: a file's fault, or number 10. One list for the whole module, of which each function gives a part.
#[derive(Clone, Copy, PartialEq, Eq, Debug)]
pub enum Refusal {
    File(Fault),
    Question,
}

// Why the scheduler leaves a network without an answer: a refusal of what it was given, or numbers 7 to 9.
#[derive(Clone, Copy, PartialEq, Eq, Debug)]
pub enum Unanswered {
    Refused(Refusal),
    Room,
    NoPeriod,
    NoneToCeiling,
}

impl From<Fault> for Refusal {
    ghost from_gives = { λ x r. r ≡ refusal.File x };

    fn from(x: Fault) -> Refusal {
        Refusal::File(x)
    }
}

impl From<Fault> for Unanswered {
    ghost from_gives = { λ x r. r ≡ unanswered.Refused (refusal.File x) };

    fn from(x: Fault) -> Unanswered {
        Unanswered::Refused(Refusal::File(x))
    }
}
