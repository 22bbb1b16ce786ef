// A reader holds the lent file and the place of a record in it. It hands out the record there, with the next place. It is kept thin: the
// work is in `record_at`, on a slice and a number. All others call `read`, whose parameters are plain.
ghost use Rattle.std.specs.Prelude.{◌≡◌, ◌+◌, ◌≤◌, length};
ghost use Rattle.records.specs.Records.{IsRecord};

use crate::Record;

#[derive(Clone, Copy, Debug)]
pub struct Reader<'a> {
    pub file: &'a [u8],
    pub at: usize,
}

// Marks are handed out as they stand, whichever record they announce.
fn record_at(file: &[u8], at: usize) -> Record
    requires { at + 18 ≤ length file.now }
    ensures { IsRecord file.now at result }
{
    Record {
        initial: file[at],
        last: file[at + 1],
        first: whole::number(file, at + 2),
        second: whole::number(file, at + 6),
        third: whole::number(file, at + 10),
        fourth: whole::number(file, at + 14),
        next: at + 18,
    }
}

impl<'a> Reader<'a> {
    pub fn open(file: &'a [u8], at: usize) -> Reader<'a>
        ensures { (result.file ≡ file.entry) × (result.at ≡ at) }
    {
        Reader { file, at }
    }

    // The record at the reader's place, and the next place.
    pub fn record(self) -> Record
        requires { self.at + 18 ≤ length self.file.now }
        ensures { IsRecord self.entry.file.now self.entry.at result }
    {
        record_at(self.file, self.at)
    }
}
