//! telexplan, the program: an auditor of telex route plans, and a simulator of calls over them. It
//! hands the words, the files and the ends of the machine to tx_program.
#![tactic(auto)]

use std::process::ExitCode;
use std::{env, io};
use tx_program::{Ends, refuse_arguments, run_words};

fn run(rt: &HostRuntime) -> io::Result<u8> {
    let all: Vec<String> = env::args(rt)?.collect(rt.alloc())?;
    let mut words = Vec::new(rt.alloc());
    for word in all.iter().skip(1) {
        words.push(word.as_str())?;
    }
    let ends = Ends {
        folder: rt,
        input: rt.stdin(),
        output: rt.stdout(),
        errors: rt.stderr(),
    };
    Ok(run_words(rt.alloc(), rt.alloc(), words.as_slice(), ends))
}

fn main(rt: HostRuntime) -> ExitCode {
    match run(&rt) {
        Ok(status) => ExitCode::from(status),
        Err(e) => ExitCode::from(refuse_arguments(&e, &mut rt.stderr())),
    }
}
