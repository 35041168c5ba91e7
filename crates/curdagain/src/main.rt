// Reads requests or records from standard input, and prints what is new of each request, or who offers a name.
#![tactic(auto)]

mod failures;
mod offers;
mod reports;

use failures::Failure;
use offers::explain;
use reports::report;
use std::alloc::Global;
use std::process::ExitCode;
use std::{env, io};

const HELP: &str = "\
Which declarations of a module are asked for, what of each request is new, and who offers a name.

usage: curdagain < REQUESTS
       curdagain offers MODULE NAME... < RECORDS
       curdagain --help

Without a task, each line of standard input is one request:
  MODULE star           everything of the module but its default export
  MODULE full           everything of the module
  MODULE name.name...   one path of 1 to 8 names: a declaration, and what is below it
A name that is itself star or full is written with a dot in front: MODULE .star
For each request one line says what of it is new, or that nothing is. Then each module's record
follows: star, full, or the paths that were asked for.

offers reads the records of an analysed program, as docs/RECORDS.md has them, and says for each name
which export-all of the module offers it, and through which modules it comes:
  curdagain offers formulas/index.ts Header < examples/offers/stdin

# starts a comment. Blank lines are skipped. A line that cannot be read is reported with its number;
then nothing is printed and the status is 1.
";

// What the words after the program's name ask for.
enum Task {
    Join,
    Offers(String, Vec<String>),
    Help,
}

fn chosen_task(rt: &HostRuntime, heap: Global) -> Result<Task, Failure> {
    let mut args = env::args(rt)?;
    let _program = args.next();
    let Some(word) = args.next() else {
        return Ok(Task::Join);
    };
    match word.as_str() {
        "--help" | "-h" => Ok(Task::Help),
        "offers" => {
            let module = args.next().ok_or(Failure::NoModule)?;
            Ok(Task::Offers(module, args.collect(heap)?))
        }
        _ => Err(Failure::NoSuchTask(word)),
    }
}

fn join(rt: &HostRuntime, heap: Global) -> Result<(), Failure> {
    let text = io::read_to_string(heap, rt.stdin())?;
    let requests = script::read(heap, text.as_str())?;
    let printed = report(heap, &requests)?;
    print!(rt; "{printed}")?;
    Ok(())
}

fn offers_of(
    rt: &HostRuntime,
    heap: Global,
    module: &str,
    names: &[String],
) -> Result<(), Failure> {
    let text = io::read_to_string(heap, rt.stdin())?;
    let listing = record_text::read(heap, text.as_str())?;
    let printed = explain(heap, listing, module, names)?;
    print!(rt; "{printed}")?;
    Ok(())
}

fn run(rt: &HostRuntime) -> Result<(), Failure> {
    match chosen_task(rt, rt.alloc())? {
        Task::Join => join(rt, rt.alloc()),
        Task::Offers(module, names) => {
            offers_of(rt, rt.alloc(), module.as_str(), names.as_slice())
        }
        Task::Help => {
            print!(rt; "{HELP}")?;
            Ok(())
        }
    }
}

fn main(rt: HostRuntime) -> ExitCode {
    match run(&rt) {
        Ok(()) => ExitCode::SUCCESS,
        Err(failure) => {
            let _ = eprintln!(rt; "curdagain: {failure}");
            ExitCode::FAILURE
        }
    }
}
