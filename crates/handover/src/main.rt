// Carries out a job, a text of calls, and writes a record of it: `handover [--lines] [JOB]`.

#![tactic(auto)]

use filters::series::{Series1, Series2};
use lines::cases::text_lines;
use lines::job::Job;
use lines::render::{Entry, Line};
use lines::reply::Reply;
use lines::series::Shipped;
use promises::promises;
use std::io::Read;
use std::{env, fs};
use tagged::tag::DecryptorTag;

// How answers are written: one line for each and nothing else, or in words.
#[derive(Clone, Copy)]
enum Style {
    Lines,
    Words,
}

// What the words behind the program's name ask for.
#[derive(Drop)]
struct Options {
    style: Style,
    // the job; none: standard input
    job: Option<String>,
}

fn read_options(rt: &HostRuntime) -> anyhow::Result<Options> {
    let mut found = Options {
        style: Style::Words,
        job: None,
    };
    for word in env::args(rt)?.skip(1) {
        if word.as_str() == "--lines" {
            found.style = Style::Lines;
        } else {
            found.job = Some(word);
        }
    }
    Ok(found)
}

fn read_job(rt: &HostRuntime, job: Option<String>) -> anyhow::Result<Vec<u8>> {
    match job {
        Some(path) => Ok(fs::read(rt, path.as_str())?),
        None => {
            let mut text = Vec::new(rt.alloc());
            rt.stdin().read_to_end(&mut text)?;
            Ok(text)
        }
    }
}

// One answer. A comment has none, and a paper's fields have none as a line.
fn show<'a>(
    rt: &HostRuntime,
    style: Style,
    number: usize,
    line: &'a [u8],
    reply: &'a Reply,
) -> anyhow::Result<()> {
    match (style, reply) {
        (_, Reply::Quiet) | (Style::Lines, Reply::Noted) => {}
        (Style::Lines, _) => println!(rt; "{}", Line(reply))?,
        (Style::Words, _) => println!(rt; "{}", Entry(number, line, reply))?,
    }
    Ok(())
}

fn carry_out(rt: &HostRuntime, style: Style, text: &[u8]) -> anyhow::Result<()> {
    let heap = rt.alloc();
    let mut job = Job::new(heap);
    for (i, line) in text_lines(heap, text)?.iter().enumerate() {
        let reply = job.answer(line);
        show(rt, style, i + 1, line, &reply)?;
    }
    Ok(())
}

fn main(rt: HostRuntime) -> anyhow::Result<()> {
    // what the calls below promise together, for the shipped series, the one that a line asks for, and the shipped methods
    promises::<Series1, Series2, DecryptorTag>();
    promises::<Shipped, Shipped, DecryptorTag>();
    let options = read_options(&rt)?;
    let text = read_job(&rt, options.job)?;
    carry_out(&rt, options.style, text.as_slice())
}
