// The command that a reviewer runs on a real trace: pages of frames with their mark, the seam check, what a trace holds, seeks, the
// sequential reader's records; and the chart of speeds. `zlf help` says how it is called. It ends with its status, 0 to 2, or, where nobody
// reads what it writes any more, with that of a program that was ended for it.
#![tactic(auto)]

mod answer;
mod args;
mod asked;
mod facts;
mod files;
mod help;
mod info;
mod kinds;
mod list;
mod marks;
mod out;
mod records;
mod refuse;
mod speeds;

use args::{Call, Command, Question};
use refuse::Refused;
use std::process::ExitCode;

// What a call without its own words comes to: the trace that it names is read and asked.
fn traced(rt: &HostRuntime, call: Call, question: Question) -> Result<u8, Refused> {
    let mut room = io::buffer();
    let path = args::argument(rt, call.file, &mut room);
    let ask = asked::asked(rt, call, question)?;
    files::opened(rt, path, call.kinds, ask)
}

fn status(rt: &HostRuntime) -> Result<u8, Refused> {
    let call = args::given(rt)?;
    match call.command {
        Command::Help => help::help(rt, call.file),
        Command::Ask(question) => traced(rt, call, question),
        Command::Speeds => Ok(speeds::speeds(rt, call.plain)),
    }
}

fn main(rt: HostRuntime) -> ExitCode {
    ExitCode::from(status(&rt).unwrap_or(2))
}
