// The limits of a network file and of a question, for the code; `specs/Limits.antt` has the same numbers for contracts.

pub const MOST_REGISTERS: usize = 256;

pub const MOST_PATHS: usize = 2_048;

// of a period, in picoseconds, as all that follows
pub const MOST_PERIOD: i32 = 10_000_000;

pub const MOST_UNCERTAINTY: i32 = 10_000;

pub const LEAST_SETUP: i32 = -100_000;

pub const MOST_SETUP: i32 = 100_000;

pub const LEAST_LATENCY: i32 = -1_000_000;

pub const MOST_LATENCY: i32 = 1_000_000;

pub const MOST_DELAY: i32 = 1_000_000;
