// The records of a file as they stand in it, whatever they announce: read through a reader, which holds the lent file and a place in it.
#![tactic(auto)]

ghost use Rattle.std.specs.Prelude.{◌+◌, ◌≤◌, length};
ghost use Rattle.records.specs.Records.{IsRecord};

pub mod reader;

use reader::Reader;

// A record of 18 bytes: the initial and the last letter of its mark, its four numbers, whatever they stand for, and the place of the next
// record.
// Kept: `IsRecord` says where the next record begins, so the record has that place, though each caller finds a place by its number.
#[derive(Clone, Copy, PartialEq, Eq, Debug)]
pub struct Record {
    pub initial: u8,
    pub last: u8,
    pub first: i32,
    pub second: i32,
    pub third: i32,
    pub fourth: i32,
    pub next: usize,
}

// The record at a place, through a reader. Every record is read by this function; its contract speaks of no reader.
pub fn read(file: &[u8], at: usize) -> Record
    requires { at + 18 ≤ length file.now }
    ensures { IsRecord file.now at result }
{
    Reader::open(file, at).record()
}
