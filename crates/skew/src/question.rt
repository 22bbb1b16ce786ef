// The rule question: by how much a rule of a file's network is met by the latencies at its arrow's two ends. It is told as a length of time,
// below 0 where the rule is broken.
ghost use Rattle.std.specs.Prelude.{◌≡◌, ◌≤◌, true, IfSome};
ghost use Rattle.paper.specs.File.{natural, network_of};
ghost use Rattle.paper.specs.Limits.{most_registers, most_paths};
ghost use Rattle.paper.specs.Refusals.{Accepted};
ghost use Rattle.paper.specs.Question.{asked, FileAnswers};
ghost use Rattle.loops.specs.Names.{rule_of};
ghost use Rattle.skew.specs.Slack.{numbers_within, TellsRule, Askable, IsSlack};

use network::{Header, read};
use paper::{Delay, Latency, Number, Refusal, Rule, limits};
use whole::within;

// The file's own fault comes first, then number 10, then the slack.
pub fn question(
    file: &[u8],
    period: i32,
    kind: i32,
    number: i32,
    tail: i32,
    head: i32,
) -> Result<Delay, Refusal>
    ensures { FileAnswers file.now (asked period kind number tail head) result }
{
    network::judge(file)?;
    reply(file, period, kind, number, tail, head)
}

// The reply where the file is accepted: number 10, or the slack.
fn reply(
    file: &[u8],
    period: i32,
    kind: i32,
    number: i32,
    tail: i32,
    head: i32,
) -> Result<Delay, Refusal>
    requires { Accepted file.now }
    ensures { FileAnswers file.now (asked period kind number tail head) result }
{
    let h = read::header(file);
    if !in_range(period, tail, head) {
        return Err(Refusal::Question);
    }
    let rule = rule(h, kind, number).ok_or(Refusal::Question)?;
    Ok(slack(
        file,
        h.registers,
        Delay(period),
        rule,
        Latency(tail),
        Latency(head),
    ))
}

// The period from 1 to 10,000,000, both latencies from -1,000,000 to 1,000,000.
#[tactic(auto, unfolding(crate::specs::Slack::numbers_within))]
fn in_range(period: i32, tail: i32, head: i32) -> bool
    ensures { result ≡ numbers_within period tail head }
{
    within(1, limits::MOST_PERIOD, period)
        && within(limits::LEAST_LATENCY, limits::MOST_LATENCY, tail)
        && within(limits::LEAST_LATENCY, limits::MOST_LATENCY, head)
}

// The rule of this kind and number, where the network has one. RULES 2.5: "The host has no low rule and no high rule."
#[tactic(auto, unfolding(loops::specs::Names::rule_of))]
fn rule(h: Header, kind: i32, number: i32) -> Option<Rule>
    requires { (h.registers ≤ most_registers) × (h.paths ≤ most_paths) }
    ensures tells { TellsRule h.registers h.paths kind number result }
    ensures named { IfSome result (λ r. r ≡ rule_of (natural kind) (natural number)) }
{
    let number = u16::try_from(number).ok()?;
    let i = usize::from(number);
    let k = Number::from(number);
    match kind {
        0 if i < h.paths => Some(Rule::Setup(k)),
        1 if i < h.paths => Some(Rule::Hold(k)),
        2 if 0 < i && i < h.registers => Some(Rule::Low(k)),
        3 if 0 < i && i < h.registers => Some(Rule::High(k)),
        _ => None,
    }
}

// By how much a rule is met, with these latencies at its arrow's tail and head. The host's, at the tail of low and the head of high, is not
// read: it is 0.
fn slack(file: &[u8], n: usize, period: Delay, rule: Rule, tail: Latency, head: Latency) -> Delay
    requires there { Askable file.now n rule }
    requires in_range { numbers_within period.0 tail.0 head.0 ≡ true }
    ensures { IsSlack (network_of file.now) period.0 rule tail.0 head.0 result.0 }
{
    match rule {
        Rule::Setup(p) => {
            let road = read::path(file, n, usize::from(p.get()));
            let receiver = read::register(file, road.to);
            let amount = rules::setup_at(rules::setup(road, receiver), period);
            rules::slack(amount, tail, head)
        }
        Rule::Hold(p) => {
            let road = read::path(file, n, usize::from(p.get()));
            let receiver = read::register(file, road.to);
            rules::slack(rules::hold(road, receiver), tail, head)
        }
        Rule::Low(i) => {
            let record = read::register(file, usize::from(i.get()));
            rules::slack(rules::low(record), Latency(0), head)
        }
        Rule::High(i) => {
            let record = read::register(file, usize::from(i.get()));
            rules::slack(rules::high(record), tail, Latency(0))
        }
    }
}
