// Answers many files and questions in one run, so that another program can judge the answers. It reads requests from standard input and
// writes an answer to each, until the input ends. All numbers have four bytes, two's complement, low byte first.
//
//   S room length file                            -> number place, then the `room` bytes of the output
//   Q period kind number tail head length file    -> number place, then the slack where the number is 0
//
// It holds a file of FILE_ROOM bytes and an output of OUT_ROOM. Of a longer file only that much is read and answered, and what follows is
// taken for the next request; of a longer room only that much is written. Either way requests and answers are out of step from there on, so
// whoever asks keeps within both.
//
// Before a file is scheduled, byte i of the output is (7 i + 165) % 256, so that what is left untouched can be told.
//
// Where the input fails or ends within a request, where a request is of no known sort and where an answer cannot be written, it says so on
// standard error and stops.
#![tactic(auto)]

use paper::codes::Numbered;
use std::fmt;
use std::io::{Read, Stdin};

// The standard streams by their numbers.
const STDIN_FILENO: i32 = 0;

const STDOUT_FILENO: i32 = 1;

const FILE_ROOM: usize = 65536;

const OUT_ROOM: usize = 8192;

// Why no more is answered.
#[derive(Clone, Copy, PartialEq, Eq, Debug)]
enum Stop {
    CutShort,
    Unreadable,
    Unknown,
    Unwritable,
}

impl fmt::Display for Stop {
    fn fmt<W: fmt::Write>(&self, f: &mut fmt::Formatter<W>) -> fmt::Result {
        f.write_str(match self {
            Stop::CutShort => "standard input ends or fails within a request",
            Stop::Unreadable =>
                "standard input cannot be read; a non-blocking one cannot be waited for",
            Stop::Unknown => "a request begins with neither S nor Q",
            Stop::Unwritable => "standard output cannot be written",
        })
    }
}

// The pattern that what is left untouched can be told by.
fn fill(out: &mut [u8]) {
    for (i, byte) in out.iter_mut().enumerate() {
        *byte = ((i % 256 * 7 + 165) % 256) as u8;
    }
}

// Reads a part of a request.
fn take(bytes: &mut [u8]) -> Result<(), Stop> {
    if io::read_full(STDIN_FILENO, bytes) == bytes.len() {
        Ok(())
    } else {
        Err(Stop::CutShort)
    }
}

// Writes a part of an answer.
fn put(bytes: &[u8]) -> Result<(), Stop> {
    if io::write_all(STDOUT_FILENO, bytes) {
        Ok(())
    } else {
        Err(Stop::Unwritable)
    }
}

// No number and no place is too large for its four bytes. One that were would be written as -1.
fn report<R: Numbered>(r: &R) -> Result<(), Stop> {
    let mut head = [0u8; 8];
    whole::put_number(&mut head, 0, i32::try_from(r.number()).unwrap_or(-1));
    whole::put_number(&mut head, 4, i32::try_from(r.place()).unwrap_or(-1));
    put(&head)
}

// The file fills what it was given room for.
fn schedule(file: &mut [u8], out: &mut [u8]) -> Result<(), Stop> {
    take(file)?;
    fill(out);
    report(&skew::schedule::schedule(file, out))?;
    put(out)
}

fn ask(file: &mut [u8], head: &[u8; 24]) -> Result<(), Stop> {
    take(file)?;
    let r = skew::question::question(
        file,
        whole::number(head, 0),
        whole::number(head, 4),
        whole::number(head, 8),
        whole::number(head, 12),
        whole::number(head, 16),
    );
    report(&r)?;
    // RULES 15.5: "A refusal carries no slack."
    match r {
        Ok(slack) => put(&slack.0.to_le_bytes()),
        Err(_) => Ok(()),
    }
}

// Kept: a cast, for no `From` widens an i32 to an isize.
fn wide(z: i32) -> isize {
    z as isize
}

fn serve_schedule(file: &mut [u8], out: &mut [u8]) -> Result<(), Stop> {
    let mut head = [0u8; 8];
    take(&mut head)?;
    let room = io::count(wide(whole::number(&head, 0)), out);
    let length = io::count(wide(whole::number(&head, 4)), file);
    schedule(&mut file[..length], &mut out[..room])
}

fn serve_question(file: &mut [u8]) -> Result<(), Stop> {
    let mut head = [0u8; 24];
    take(&mut head)?;
    let length = io::count(wide(whole::number(&head, 20)), file);
    ask(&mut file[..length], &head)
}

// The letter that a request begins with; none at the end of the input, where a read gives no byte.
fn letter(input: &mut Stdin) -> Result<Option<u8>, Stop> {
    let mut first = [0u8; 1];
    match input.read(&mut first) {
        Ok(0) => Ok(None),
        Ok(_) => Ok(Some(first[0])),
        Err(_) => Err(Stop::Unreadable),
    }
}

// Requests until the input ends, and never more than a 64-bit count of them.
fn serve_all(input: &mut Stdin, file: &mut [u8], out: &mut [u8]) -> Result<(), Stop> {
    for _ in 0..u64::MAX {
        match letter(input)? {
            None => break,
            Some(b'S') => serve_schedule(file, out)?,
            Some(b'Q') => serve_question(file)?,
            Some(_) => return Err(Stop::Unknown),
        }
    }
    Ok(())
}

fn main(rt: HostRuntime) {
    let mut input = rt.stdin();
    let mut file = [0u8; FILE_ROOM];
    let mut out = [0u8; OUT_ROOM];
    if let Err(stop) = serve_all(&mut input, &mut file, &mut out) {
        // Where standard error cannot be written either, nothing is left to say it on.
        let _ = eprintln!(rt; "exam: {stop}");
    }
}
