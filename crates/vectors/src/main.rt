// Runs cases of all operations and programs, and prints what each answers, which is compared with the expected answers in `stdout`.
// `tests/make_cases.py` writes both files from the vectors in `tests/vectors`.
//
// Standard input is a list of cases, and nothing else. Numbers are words, four bytes each, high byte first. A case is its length in bytes,
// one word, and then
//     the operation's number
//     the places, counted from there in bytes, where the note ends and where the bytes end
//     the note, which begins what is printed for the case
//     the bytes that the operation reads, if it reads any
//     words up to the end: the places, counted in words, where the lists of words start, and where the last one ends; then the lists
// The lists are the operation's arguments in the specification's order; a number is a list of one word, a record one of its figures, and a
// buffer one of the words that it has before the call.
//
// The line of a case is the operation's answer, or `refused` and the number, and then the buffer that was lent or the record, as the
// operation left it. What a program prints stands on the note's line, a transcript on lines of its own.
#![tactic(auto)]

mod circuits;
mod counts;
mod provers;
mod verdicts;

use programs::Program;
use refusal::Cause;
use std::io::{Result, Write};

// An operation whose answer is a line.
#[derive(Clone, Copy)]
enum Operation {
    Load,
    Evaluate,
    Read,
    Prove,
    ProveOne,
    Check,
    Open,
    Step,
    CountWhole,
    CountSingle,
    CountRule,
}

// What a case calls for: the line of an operation, or what a program prints.
#[derive(Clone, Copy)]
enum Task {
    Answer(Operation),
    Print(Program),
}

// A number that calls for nothing.
#[derive(Clone, Copy)]
struct UnknownTask;

impl TryFrom<u32> for Task {
    type Error = UnknownTask;

    fn try_from(number: u32) -> std::result::Result<Task, UnknownTask> {
        match number {
            1 => Ok(Task::Answer(Operation::Load)),
            2 => Ok(Task::Answer(Operation::Evaluate)),
            3 => Ok(Task::Answer(Operation::Read)),
            4 => Ok(Task::Answer(Operation::Prove)),
            5 => Ok(Task::Answer(Operation::ProveOne)),
            6 => Ok(Task::Answer(Operation::Check)),
            7 => Ok(Task::Answer(Operation::Open)),
            8 => Ok(Task::Answer(Operation::Step)),
            9 => Ok(Task::Print(Program::Transcript)),
            10 => Ok(Task::Print(Program::Verdict)),
            11 => Ok(Task::Print(Program::Evaluate)),
            12 => Ok(Task::Answer(Operation::CountWhole)),
            13 => Ok(Task::Answer(Operation::CountSingle)),
            14 => Ok(Task::Answer(Operation::CountRule)),
            _ => Err(UnknownTask),
        }
    }
}

// Cases enough for all, bytes enough for the longest, and words enough for its lists and for a buffer that is lent.
const MAX_CASES: usize = 65536;

const MAX_BYTES: usize = 262144;

const MAX_WORDS: usize = MAX_BYTES / 4;

// Where the note of a case starts.
const NOTE: usize = 12;

// Prints an answer, or the refusal in its place.
fn print<W: Write, T, F: FnOnce(&mut W, T) -> Result<()>>(
    output: &mut W,
    answer: std::result::Result<T, Cause>,
    show: F,
) -> Result<()>
    requires { F.IsAlwaysCallable show }
{
    match answer {
        Ok(value) => show(output, value),
        Err(cause) => {
            cases::print_refused(output, cause)?;
            Ok(())
        }
    }
}

// Runs an operation on a buffer that holds these words, and prints the buffer behind its answer.
fn lend<W: Write, F: FnOnce(&mut W, &mut [u32]) -> Result<()>>(
    output: &mut W,
    words: &[u32],
    run: F,
) -> Result<()>
    requires { F.IsAlwaysCallable run }
{
    let mut buffer = [0u32; MAX_WORDS];
    let count = lists::put(&mut buffer, words);
    run(output, &mut buffer[..count])?;
    cases::print_buffer(output, &buffer[..count])?;
    Ok(())
}

fn read<W: Write>(output: &mut W, bytes: &[u8], lists: &[u32]) -> Result<()> {
    lend(output, cases::list(lists, 1), |output, lent| {
        let counts = xdr::read(bytes, lists::word(cases::list(lists, 0), 0), lent);
        print(output, counts, |output, counts| {
            output.write_all(b"counts")?;
            cases::print_numbers(output, &counts)?;
            Ok(())
        })
    })
}

// Prints what an operation answers; what its function gives back was printed. By a match: a function cannot be handed out, and closures would
// hide the list of operations.
fn answer<W: Write>(
    output: &mut W,
    operation: Operation,
    bytes: &[u8],
    lists: &[u32],
) -> Result<()> {
    match operation {
        Operation::Load => {
            let _ = circuits::load(output, lists)?;
        }
        Operation::Evaluate => {
            lend(output, cases::list(lists, 2), |output, lent| {
                let _ = circuits::evaluate(output, lists, lent)?;
                Ok(())
            })?;
        }
        Operation::Read => {
            read(output, bytes, lists)?;
        }
        Operation::Prove => {
            lend(output, cases::list(lists, 3), |output, lent| {
                let _ = provers::prove(output, lists, lent)?;
                Ok(())
            })?;
        }
        Operation::ProveOne => {
            lend(output, cases::list(lists, 3), |output, lent| {
                let _ = provers::prove_one(output, lists, lent)?;
                Ok(())
            })?;
        }
        Operation::Check => {
            let _ = verdicts::check(output, lists)?;
        }
        Operation::Open => {
            let _ = verdicts::open(output, lists)?;
        }
        Operation::Step => {
            verdicts::step(output, lists)?;
        }
        Operation::CountWhole => {
            counts::count_whole(output, lists)?;
        }
        Operation::CountSingle => {
            counts::count_single(output, lists)?;
        }
        Operation::CountRule => {
            counts::count_rule(output, lists)?;
        }
    }
    Ok(())
}

// What stands between a note and what a program prints, which ends its lines itself.
fn heading(program: Program) -> &'static [u8] {
    match program {
        Program::Transcript => b":\n",
        Program::Verdict | Program::Evaluate => b": ",
    }
}

// What is printed behind a note.
fn perform<W: Write>(output: &mut W, number: u32, bytes: &[u8], lists: &[u32]) -> Result<()> {
    match Task::try_from(number) {
        Ok(Task::Print(program)) => {
            output.write_all(heading(program))?;
            programs::print_text(program, bytes, output)?;
            Ok(())
        }
        Ok(Task::Answer(operation)) => {
            output.write_all(b": ")?;
            answer(output, operation, bytes, lists)?;
            output.write_all(b"\n")
        }
        Err(UnknownTask) => output.write_all(b": \n"),
    }
}

fn run<W: Write>(output: &mut W, case: &[u8]) -> Result<()> {
    let bytes = xdr::word_at(case, 4) as usize;
    let lists = xdr::word_at(case, 8) as usize;
    output.write_all(cases::part(case, NOTE, bytes))?;
    let mut words = [0u32; MAX_WORDS];
    let count = xdr::put_words(cases::part(case, lists, case.len()), &mut words);
    perform(
        output,
        xdr::word_at(case, 0),
        cases::part(case, bytes, lists),
        &words[..count],
    )
}

fn main(rt: HostRuntime) -> Result<()> {
    let mut input = rt.stdin();
    let mut output = rt.stdout();
    let mut bytes = [0u8; MAX_BYTES];
    // A bound, so that it ends whatever the input is.
    for _ in 0..MAX_CASES {
        let count = cases::next(&mut input, &mut bytes)?;
        if count == 0 {
            break;
        }
        run(&mut output, &bytes[..count])?;
    }
    Ok(())
}
