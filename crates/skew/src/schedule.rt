// The smallest period of a network, the least latency of every register, and the loop that proves that no smaller period exists; or one
// number and one place.
ghost use Rattle.paper.specs.Outcome.{FileResult};

use paper::Unanswered;

// Reads the network in `file` and leaves the answer in `out`. It returns for every file and every size of `out`.
pub fn schedule(file: &[u8], out: &mut [u8]) -> Result<(), Unanswered>
    ensures { FileResult file.now out.old result out.new }
{
    network::judge(file)?;
    let h = network::read::header(file);
    if out.len() < 14 + 16 * h.registers {
        return Err(Unanswered::Room);
    }
    period::solve(file, out)
}
