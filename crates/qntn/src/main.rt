//! The program `qntn`: its words, standard input, output and error, and a counter that costs
//! nothing.
#![tactic(auto)]

ghost use Rattle.std.specs.Prelude.{◌≡◌, ◌<◌, ℕ, drop, map, string_bytes};
ghost use Rattle.qn_cli.specs.Answers.{Ends};
ghost use Rattle.qn_cli.specs.Lines.{line_of, TellsLine};
ghost use Rattle.qn_cli.specs.Statuses.{exit_number};
ghost use Rattle.qn_cli.specs.declared.status.Status.{Status};

use qn_cli::{OpenGate, run};
use qn_gauss::Steps;
use qn_outside::{Sink, Source, StdSink, StdSource};
use std::alloc::{AllocError, Global};
use std::env;
use std::env::Args;
use std::marker::Brand;
use std::process::ExitCode;
use std::sync::ledger::{Blank, Ledger};
use std::thread::Threads;

/// The exit number where the words can't be had; no status has it.
const NO_WORDS: u8 = 9;

/// Runs the command with a counter of its own, and gives the exit number of the status with which it ends.
fn counted<L: Ledger, R: Threads + Sync, S: Source, O: Sink, E: Sink>(
    blank: Blank,
    rt: &R,
    alloc: Global,
    words: &[String],
    source: &mut S,
    out: &mut O,
    err: &mut E,
) -> u8
    requires name { blank.name ≡ L.name }
    requires parts { blank.parts ≡ L.parts }
    requires some { 0 < L.parts }
    ensures { (status : Status) × (before now : ℕ) × (result ≡ exit_number status)
        × Ends (map string_bytes words.now) (S.left source.old) (S.left source.new) (O.held out.old) (O.held out.new) before now status
        × TellsLine (E.held err.old) (E.held err.new) (E.faults err.old) (E.faults err.new) (line_of status) }
{
    let mut steps = Steps::<L>::new(blank);
    let status = run(rt, alloc, words, source, out, err, &OpenGate, &mut steps);
    status.exit_number()
}

/// The words of the command line behind the program's name.
fn behind_name(all: &[String]) -> &[String]
    ensures { result.now ≡ drop 1 all.now }
{
    match all.split_first() {
        Some((_, words)) => words,
        None => all,
    }
}

/// The words of the command line, with the program's name.
fn all_words(alloc: Global, args: Args) -> Result<Vec<String>, AllocError> {
    let mut all = Vec::new(alloc);
    for word in args {
        all.push(word)?;
    }
    Ok(all)
}

fn main(rt: HostRuntime) -> ExitCode {
    let Ok(args) = env::args(&rt) else {
        return ExitCode::from(NO_WORDS);
    };
    let Ok(all) = all_words(rt.alloc(), args) else {
        return ExitCode::from(NO_WORDS);
    };
    let mut source = StdSource::new(rt.stdin());
    let mut out = StdSink::new(rt.stdout());
    let mut err = StdSink::new(rt.stderr());
    let number = counted::<Brand, _, _, _, _>(
        Blank::new(1),
        &rt,
        rt.alloc(),
        behind_name(all.as_slice()),
        &mut source,
        &mut out,
        &mut err,
    );
    ExitCode::from(number)
}
