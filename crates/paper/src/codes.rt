// The paper's number and place of each fault, refusal and result, for callers that pass numbers on. `specs/Numbers.antt` has them in the same order.
ghost use Rattle.std.specs.Prelude.{◌≡◌, ℕ};
ghost use Rattle.paper.specs.Numbers.{fault_number, fault_place, refusal_number, refusal_place, unanswered_number, unanswered_place, result_number};

use crate::{Fault, Refusal, Unanswered};

// What the paper gives a number and a place.
pub trait Numbered {
    ghost number_of: { Self → ℕ };

    ghost place_of: { Self → ℕ };

    fn number(&self) -> u32
        ensures { result ≡ number_of self.now };

    fn place(&self) -> usize
        ensures { result ≡ place_of self.now };
}

impl Numbered for Fault {
    ghost number_of = { fault_number };

    ghost place_of = { fault_place };

    fn number(&self) -> u32 {
        match self {
            Fault::Header => 1,
            Fault::Counts => 2,
            Fault::Length => 3,
            Fault::Ranges => 4,
            Fault::Register(_) => 5,
            Fault::Path(_) => 6,
        }
    }

    fn place(&self) -> usize {
        match self {
            Fault::Header | Fault::Counts | Fault::Length | Fault::Ranges => 0,
            Fault::Register(i) => *i,
            Fault::Path(p) => *p,
        }
    }
}

impl Numbered for Refusal {
    ghost number_of = { refusal_number };

    ghost place_of = { refusal_place };

    fn number(&self) -> u32 {
        match self {
            Refusal::File(x) => x.number(),
            Refusal::Question => 10,
        }
    }

    fn place(&self) -> usize {
        match self {
            Refusal::File(x) => x.place(),
            Refusal::Question => 0,
        }
    }
}

impl Numbered for Unanswered {
    ghost number_of = { unanswered_number };

    ghost place_of = { unanswered_place };

    fn number(&self) -> u32 {
        match self {
            Unanswered::Refused(x) => x.number(),
            Unanswered::Room => 7,
            Unanswered::NoPeriod => 8,
            Unanswered::NoneToCeiling => 9,
        }
    }

    fn place(&self) -> usize {
        match self {
            Unanswered::Refused(x) => x.place(),
            Unanswered::Room | Unanswered::NoPeriod | Unanswered::NoneToCeiling => 0,
        }
    }
}

// An answer, whatever it is, has number 0 and place 0.
impl<T, E: Numbered> Numbered for Result<T, E> {
    ghost number_of = { result_number E.number_of };

    ghost place_of = { result_number E.place_of };

    fn number(&self) -> u32 {
        match self {
            Ok(_) => 0,
            Err(x) => x.number(),
        }
    }

    fn place(&self) -> usize {
        match self {
            Ok(_) => 0,
            Err(x) => x.place(),
        }
    }
}
