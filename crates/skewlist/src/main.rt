// Lists the answer to a network file: the file comes on standard input, the text goes to standard output. Where the one cannot be read or
// the other not be written, it says so on standard error.
#![tactic(auto)]

ghost use Rattle.std.specs.Prelude.{◌+◌, ◌*◌, ◌≤◌, ◌<◌, length};
ghost use Rattle.io.specs.Counts.{IsPrefixLen};
ghost use Rattle.paper.specs.Limits.{most_registers, most_paths};
ghost use Rattle.skewlist.specs.Listing.{Listing, CeilingKnown, SameText};
ghost use Rattle.listing.specs.Listable.{text_room};

use listing::TEXT_ROOM;
use network::read;
use paper::Unanswered;
use paper::limits::{MOST_PATHS, MOST_REGISTERS};
use std::fmt;
use std::io::{Read, Stdin};

// The standard streams by their numbers.
const STDIN_FILENO: i32 = 0;

const STDOUT_FILENO: i32 = 1;

// One byte more than the longest legal file. A file that fills this room is too long for any network, whatever follows, and is refused by
// what its first bytes say, as the whole of it would be: `cut_refused` (paper/proofs/Cut.antt) and, of the listing, `cut_listed`
// (proofs/CutText.antt), for every room above the longest file, as `serve` asks for it.
const FILE_ROOM: usize = 22 + 18 * (MOST_REGISTERS + MOST_PATHS) + 1;

const ANSWER_ROOM: usize = 14 + 16 * MOST_REGISTERS;

// Why nothing is listed.
#[derive(Clone, Copy, PartialEq, Eq, Debug)]
enum Stop {
    Unreadable,
    Unwritable,
}

impl fmt::Display for Stop {
    fn fmt<W: fmt::Write>(&self, f: &mut fmt::Formatter<W>) -> fmt::Result {
        f.write_str(match self {
            Stop::Unreadable =>
                "standard input cannot be read; a non-blocking one cannot be waited for",
            Stop::Unwritable => "standard output cannot be written",
        })
    }
}

// The ceiling that the text of 8 and 9 has. No other text has one, and a refused file may have no header.
fn ceiling(file: &[u8], o: Result<(), Unanswered>) -> i32
    requires { CeilingKnown file.now o }
    ensures { SameText file.now o result }
{
    match o {
        Ok(()) | Err(Unanswered::Refused(_) | Unanswered::Room) => 0,
        Err(Unanswered::NoPeriod | Unanswered::NoneToCeiling) => read::header(file).ceiling,
    }
}

// The listing of a file, at the front of `text`; answers its length. `out` is room for the answer that is listed.
fn listed(file: &[u8], out: &mut [u8], text: &mut [u8]) -> usize
    requires { text_room ≤ length text.old }
    ensures listing { Listing file.now out.old out.new text.old text.new result }
    ensures prefix_len { IsPrefixLen result text.new }
{
    let o = skew::schedule::schedule(file, out);
    let at = ceiling(file, o);
    listing::list(at, out, o, text)
}

fn show(file: &[u8], out: &mut [u8], text: &mut [u8]) -> Result<(), Stop>
    requires { text_room ≤ length text.old }
{
    let size = listed(file, out, text);
    if io::write_all(STDOUT_FILENO, &text[..size]) {
        Ok(())
    } else {
        Err(Stop::Unwritable)
    }
}

// Whether standard input, which gave nothing more, is at its end. A read there gives no byte, and may fail elsewhere. One that gives a byte
// found the input late: it is non-blocking, and had nothing to give a moment before.
fn ended(input: &mut Stdin) -> bool {
    let mut more = [0u8; 1];
    match input.read(&mut more) {
        Ok(got) => got == 0,
        Err(_) => false,
    }
}

// Where the file's room is filled, what follows in the input is not read.
fn serve(input: &mut Stdin, file: &mut [u8], out: &mut [u8], text: &mut [u8]) -> Result<(), Stop>
    requires most_paths_in_bounds { 22 + 18 * (most_registers + most_paths) < length file.old }
    requires text_room_in_bounds { text_room ≤ length text.old }
{
    let got = io::read_full(STDIN_FILENO, file);
    if got < file.len() && !ended(input) {
        return Err(Stop::Unreadable);
    }
    show(&file[..got], out, text)
}

fn main(rt: HostRuntime) {
    let mut input = rt.stdin();
    let mut file = [0u8; FILE_ROOM];
    let mut out = [0u8; ANSWER_ROOM];
    let mut text = [0u8; TEXT_ROOM];
    if let Err(stop) = serve(&mut input, &mut file, &mut out, &mut text) {
        // Where standard error cannot be written either, nothing is left to say it on.
        let _ = eprintln!(rt; "skewlist: {stop}");
    }
}
