//! The player of the gate. It plays the cases of each file of the folder `cases`, compares what
//! each prints with what it has to print, and prints one line a file with the counts, and for each
//! case that differs its name and the first lines that do. The exit status is then 1. One program
//! plays them all, since the gate proves, builds and links each program anew.
//!
//! A file has the cases of its topic, after a comment or none. A case begins with a line `=== NAME
//! KIND` and has its texts after it, with a line `---` between two, then a line `--- prints`, and
//! after it what has to be printed. All of these may have the marks of `spell`. Where a law is
//! broken, a line with `BROKEN` is printed, so the case differs.
//!
//! - `pipe` has a plan and a script in one text, and `run` in two. So has `telling`, which tells
//!   each event before its reply, and has the status 1 where one was refused; `telling summary`
//!   tells a summary instead, and `telling both` both. `both` has them in one, which is played in
//!   both ways. `codes`, `grade` and `audit L K` have a plan, `check L K` a plan and a certificate,
//!   `checked L K` (a run after a Yes) and `checked-telling L K` (which tells both) these and a
//!   script. An audit writes after its report the
//!   certificate that it found, or the script of the first finding that has one. `change L K` has
//!   an old plan and a new one, and writes after its report the certificate, or the mixture of the
//!   first finding that has a walk, and its script. `order L K` has an old plan and a new one, and
//!   `stage L K N` writes after its report the plan after stage N and its certificate. `mend L K`
//!   has a plan, and writes after its report the mended plan and its certificate. `trace EXCHANGE
//!   CODE` has a plan, and `lint FILE` one that is named so. `survive` has a plan and a text of
//!   risks, and `survive alone` a plan. `page FILE L K` has a plan that is named so, and shows the
//!   lists of all codes, `page-risks` a text of risks too, `page-change` an old plan after that, and
//!   asks for no code, and `page-code FILE L CODES` a plan of which the
//!   lists of these codes are shown, with the spare number 1. Each is played by sources of 1, 2, 7
//!   and 4,096 bytes a call, which has to make no difference.
//! - `each-end` before such a kind also refuses each request for memory, gives each smaller room,
//!   and makes each call of each source fail. The lines with `--` tell the exit status, the calls
//!   of the sources at one byte a call, the bytes written, and what a run counted or the event
//!   where it stopped.
//! - `once` before such a kind plays it by sources of 4,096 bytes a call, and tries nothing else:
//!   for what is large.
//! - `prefixes` before such a kind plays each front of the last text, and tells the stretches of
//!   lengths at which the same happens.
//! - `rooms` and `calls PIECE` have a plan and a script, and tell at which event the run stops in
//!   each room, and where each call of the source fails. `stopped-writer ROOM` counts the calls
//!   that are made before the writer fails. `starting NUMBERS EVENTS` runs from another opening
//!   state.
//! - `certified L K` has a plan, a certificate and a script, whose events are driven after a Yes of
//!   the checker, and again with memory refused in between.
//! - The kinds of these two points, and the laws of a run of `both`, are played over the plain
//!   network and over the engine, which has to tell the same.
//! - `cert` has a plan and a certificate, and `plan` a plan, which are written and read back. A new
//!   certificate of the plan is written before. `joined` has an old plan and a new one, which are
//!   written over their joined network.
//! - `program` plays the program at its ends, over the files beside the folder `cases`:
//!   `cases/end_case.rt` has what is in its head. `arguments` tells how it refuses its arguments.
//! - `twins` plays the engine beside the plain network. The calls of the crates below have the kinds
//!   of `tests`.
#![tactic(auto)]

mod cases;
mod checked;
mod driven;
mod ends;
mod jobs;
mod joined;
mod play;
mod player;
mod run_laws;
mod runs;
mod tests;
mod twins;
mod written;

use crate::player::Player;
use std::process::ExitCode;
use std::{fs, io};

/// The names of the files of cases, in order.
fn files(rt: &HostRuntime) -> io::Result<Vec<String>> {
    let mut names = Vec::new(rt.alloc());
    for entry in fs::read_dir(rt, "cases")? {
        names.push(format!(in rt.alloc(); "cases/{}", entry?.file_name())?)?;
    }
    names.sort()?;
    Ok(names)
}

/// Plays all cases. Returns whether each prints what it has to print.
fn play_all(rt: &HostRuntime) -> io::Result<bool> {
    let mut player = Player::new(rt);
    for name in &files(rt)? {
        player.play_file(name.as_str())?;
    }
    player.end()?;
    Ok(player.agrees())
}

fn main(rt: HostRuntime) -> io::Result<ExitCode> {
    if play_all(&rt)? {
        Ok(ExitCode::SUCCESS)
    } else {
        Ok(ExitCode::FAILURE)
    }
}
