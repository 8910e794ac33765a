// creditlog: a log in words, or the totals of its ports.
#![tactic(auto)]

use anyhow::bail;
use listing::part::write_listing;
use std::io::{Read, Write};
use std::process::ExitCode;
use std::{env, fs};
use summary::text::write_summary;
use summary::totals::Totals;

const USAGE: &str = "usage: creditlog [--summary] [FILE]";

// What is asked for: without a file the log is read from standard input.
#[derive(Drop)]
struct Request {
    summary: bool,
    file: Option<String>,
}

fn parse_args(rt: &HostRuntime) -> anyhow::Result<Request> {
    let mut request = Request {
        summary: false,
        file: None,
    };
    for arg in env::args(rt)?.skip(1) {
        if arg.as_str() == "--summary" {
            request.summary = true;
        } else if arg.as_str().starts_with('-') || request.file.is_some() {
            bail!("{USAGE}");
        } else {
            request.file = Some(arg);
        }
    }
    Ok(request)
}

fn read_bytes(rt: &HostRuntime, file: Option<&str>) -> anyhow::Result<Vec<u8>> {
    match file {
        Some(path) => Ok(fs::read(rt, path)?),
        None => {
            let mut log = Vec::new(rt.alloc());
            rt.stdin().read_to_end(&mut log)?;
            Ok(log)
        }
    }
}

fn print_summary(rt: &HostRuntime, log: &[u8]) -> anyhow::Result<()> {
    let mut text = String::new(rt.alloc());
    write_summary(&Totals::of(log), &mut text)?;
    rt.stdout().write_all(text.as_bytes())?;
    Ok(())
}

fn run(rt: &HostRuntime) -> anyhow::Result<()> {
    let request = parse_args(rt)?;
    let log = read_bytes(rt, request.file.as_deref())?;
    if request.summary {
        print_summary(rt, log.as_slice())
    } else {
        write_listing(rt.alloc(), log.as_slice(), &mut rt.stdout())
    }
}

// A failure is one line on standard error, and status 1.
fn main(rt: HostRuntime) -> ExitCode {
    match run(&rt) {
        Ok(()) => ExitCode::SUCCESS,
        Err(error) => {
            let _ = eprintln!(rt; "creditlog: {error}");
            ExitCode::FAILURE
        }
    }
}
