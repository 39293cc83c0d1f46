// Replays cases: lines of calls with their expected answers. Says how many agree, and lists those that do not.

#![tactic(auto)]

use lines::cases::{case_parts, text_lines};
use lines::job::Job;
use lines::render::Line;
use lines::reply::Reply;
use std::{env, fs};

// How the cases of a file came out.
#[derive(Clone, Copy)]
struct Tally {
    cases: usize,
    wrong: usize,
}

// One case more; shows the answer where it is not the expected one.
fn count(
    rt: &HostRuntime,
    name: &str,
    number: usize,
    line: &[u8],
    tally: &mut Tally,
) -> anyhow::Result<()> {
    let heap = rt.alloc();
    let (call, expected) = case_parts(line);
    let reply = Job::new(heap).answer(call);
    if matches!(reply, Reply::Quiet) {
        return Ok(());
    }
    tally.cases = tally.cases.saturating_add(1);
    let said = format!(in heap; "{}", Line(&reply))?;
    if said.as_bytes() != expected.unwrap_or(&[]) {
        tally.wrong = tally.wrong.saturating_add(1);
        println!(rt; "{name}, line {number}: {said}")?;
    }
    Ok(())
}

fn replay(rt: &HostRuntime, name: &str) -> anyhow::Result<Tally> {
    let text = fs::read(rt, name)?;
    let mut tally = Tally { cases: 0, wrong: 0 };
    for (i, line) in text_lines(rt.alloc(), text.as_slice())?.iter().enumerate() {
        count(rt, name, i + 1, line, &mut tally)?;
    }
    Ok(tally)
}

fn main(rt: HostRuntime) -> anyhow::Result<()> {
    for name in env::args(&rt)?.skip(1) {
        let name = name.as_str();
        let Tally { cases, wrong } = replay(&rt, name)?;
        println!(rt; "{name}: {cases} cases, {wrong} wrong")?;
    }
    Ok(())
}
