// One record at a place. A record is its two marks and its numbers, one after the other; every byte outside it keeps its value.
ghost use Rattle.std.specs.Prelude.{◌≡◌, ◌+◌, ◌≤◌, length};
ghost use Rattle.std.proofs.lemmas.List.Edits.{sets};
ghost use Rattle.paper.specs.Output.{latency_record};
ghost use Rattle.answer.specs.Records.{skew_bytes, entry_bytes};

// The answer's first record: `SK`.
pub fn put_skew(out: &mut [u8], period: i32, latencies: i32, entries: i32)
    requires { 14 ≤ length out.old }
    ensures { out.new ≡ sets out.old 0 (skew_bytes period latencies entries) }
{
    out[0] = b'S';
    out[1] = b'K';
    whole::put_number(out, 2, period);
    whole::put_number(out, 6, latencies);
    whole::put_number(out, 10, entries);
}

// A register's record: `LT`.
pub fn put_latency(out: &mut [u8], at: usize, x: i32)
    requires { at + 6 ≤ length out.old }
    ensures { out.new ≡ sets out.old at (latency_record x) }
{
    out[at] = b'L';
    out[at + 1] = b'T';
    whole::put_number(out, at + 2, x);
}

// A loop entry's record: `ED`.
pub fn put_entry(out: &mut [u8], at: usize, kind: i32, number: i32)
    requires { at + 10 ≤ length out.old }
    ensures { out.new ≡ sets out.old at (entry_bytes kind number) }
{
    out[at] = b'E';
    out[at + 1] = b'D';
    whole::put_number(out, at + 2, kind);
    whole::put_number(out, at + 6, number);
}
