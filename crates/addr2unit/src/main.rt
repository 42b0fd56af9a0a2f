// addr2unit: tells which compilation unit holds each address of a firmware file.
#![tactic(auto)]

use std::process::ExitCode;
use std::rt::Files;
use std::{env, fs, io};
use unit_report::{Command, HELP, Request, Status, VERSION, parse_line, write_report};

fn main(rt: HostRuntime) -> io::Result<ExitCode> {
    let words: Vec<String> = env::args(&rt)?.skip(1).collect(rt.alloc())?;
    let status = match Command::parse(rt.alloc(), &words) {
        Ok(Command::Help) => say(&rt, HELP)?,
        Ok(Command::Version) => say(&rt, VERSION)?,
        Ok(Command::Report(request)) => answer(&rt, request)?,
        Err(error) => {
            eprintln!(rt; "addr2unit: {error}")?;
            Status::Misused
        }
    };
    Ok(ExitCode::from(status.code()))
}

fn say(rt: &impl Print, text: &str) -> io::Result<Status> {
    rt.print(text)?;
    Ok(Status::Complete)
}

// the addresses of standard input stand for those of a command line without any
fn answer<R: Files + Input + Print + Eprint + AllocGlobal>(
    rt: &R,
    mut request: Request,
) -> io::Result<Status> {
    if request.addresses.is_empty() {
        for line in rt.lines(rt.alloc()) {
            let line = line?;
            match parse_line(line.as_str()) {
                Ok(Some(address)) => request.addresses.push(address)?,
                Ok(None) => {}
                Err(error) => {
                    eprintln!(rt; "addr2unit: {error}")?;
                    return Ok(Status::Misused);
                }
            }
        }
    }
    print_report(rt, &request)
}

fn print_report<R: Files + Print + Eprint + AllocGlobal>(
    rt: &R,
    request: &Request,
) -> io::Result<Status> {
    let file = request.file;
    let bytes = match fs::read(rt, file) {
        Ok(bytes) => bytes,
        Err(error) => {
            eprintln!(rt; "addr2unit: {file} can't be read: {error}")?;
            return Ok(Status::Failed);
        }
    };
    let mut out = String::new(rt.alloc());
    match write_report(
        rt.alloc(),
        &bytes,
        &request.addresses,
        request.strict,
        &mut out,
    ) {
        Ok(status) => {
            rt.print(out)?;
            Ok(status)
        }
        Err(refusal) => {
            eprintln!(rt; "addr2unit: {file}: {refusal}")?;
            Ok(Status::Failed)
        }
    }
}
