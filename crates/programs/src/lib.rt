// The programs, from the bytes of an input to what is printed. The text is written to a buffer first, and then handed to the output at once.
// The input and the output are the caller's: where their bytes are known, the promises say what was printed for what was read, and no promise
// can speak of those of standard input and standard output.
#![tactic(auto)]

ghost use Rattle.std.specs.Prelude.{◌≡◌, [], ◌∷◌, ◌+◌, ◌≤◌, length, get_or, take, drop, IfOk, OnOk, IfSome};
ghost use Rattle.std.specs.Io.KnownBytes.{Appends};
ghost use Rattle.text.specs.Wrote.{Wrote};
ghost use Rattle.programs.specs.Programs.{arrays_of, text_of, program_text, longest};

use std::io::{Read, Result, Write};

// The specification's program, and one for each of the operations Check and Evaluate.
#[derive(Clone, Copy)]
pub enum Program {
    // Prints the honest transcript of a circuit, its input and coins.
    Transcript,
    // Prints whether the transcript that follows them is accepted.
    Verdict,
    // Prints the outputs of a circuit for an input.
    Evaluate,
}

// How many arrays a program reads.
fn arrays_of(program: Program) -> u32
    ensures { result ≡ arrays_of program }
{
    match program {
        Program::Transcript => 3,
        Program::Verdict => 4,
        Program::Evaluate => 2,
    }
}

// Writes what a program prints for these lists. Those that it does not call for are not read. By cases, as the definitions go; a `main` for each
// program names its case.
fn write_lists(
    program: Program,
    circuit: &[u32],
    input: &[u32],
    coins: &[u32],
    transcript: &[u32],
    text: &mut [u8],
) -> usize
    ensures { Wrote
        (text_of program (circuit.now ∷ input.now ∷ coins.now ∷ transcript.now ∷ []))
        text.old text.new result }
{
    match program {
        Program::Transcript => transcript_text::write_lists(circuit, input, coins, text),
        Program::Verdict => verdict_text::write_lists(circuit, input, coins, transcript, text),
        Program::Evaluate => evaluate_text::write_lists(circuit, input, text),
    }
}

// Writes what it prints for the lists that begin these words, so many words each.
fn write_parts(program: Program, words: &[u32], counts: [u32; 4], text: &mut [u8]) -> usize
    requires { get_or counts 0 0 + get_or counts 1 0 + get_or counts 2 0 + get_or counts 3 0 ≤ length words.now }
    ensures { let a = get_or counts 0 0 in let b = get_or counts 1 0 in let c = get_or counts 2 0 in let d = get_or counts 3 0 in
        Wrote (text_of program (take a words.now ∷ take b (drop a words.now)
        ∷ take c (drop (a + b) words.now)
        ∷ take d (drop (a + b + c) words.now) ∷ []))
        text.old text.new result }
{
    let [first, second, third, fourth] = counts.map(|count| count as usize);
    let (circuit, rest) = words.split_at(first);
    let (input, rest) = rest.split_at(second);
    let (coins, rest) = rest.split_at(third);
    write_lists(program, circuit, input, coins, &rest[..fourth], text)
}

// Writes what it prints for these bytes, as much as the buffer holds, and answers how much that is.
fn write_text(program: Program, bytes: &[u8], text: &mut [u8]) -> usize
    ensures { Wrote (program_text program bytes.now) text.old text.new result }
{
    let mut words = [0u32; printing::MAX_WORDS];
    match printing::read_lists(bytes, arrays_of(program), &mut words) {
        Ok(counts) => write_parts(program, &words, counts, text),
        Err(cause) => printing::write_refused(cause, text),
    }
}

// Prints it, and answers how many bytes that took.
pub fn print_text<W: Write>(program: Program, bytes: &[u8], output: &mut W) -> Result<usize>
    ensures count { IfOk result (λ n. n ≡ length (program_text program bytes.now)) }
    ensures short { IfOk result (λ n. n ≤ longest program) }
    ensures printed { OnOk result (Appends (W.contents output.old) (W.contents output.new)
        (program_text program bytes.now)) }
{
    let mut text = [0u8; transcript_text::MAX_TEXT];
    let count = write_text(program, bytes, &mut text);
    output.write_all(&text[..count])?;
    Ok(count)
}

// Prints it for the bytes of an input.
pub fn run<R: Read, W: Write>(program: Program, input: &mut R, output: &mut W) -> Result<usize>
    ensures short { IfOk result (λ n. n ≤ longest program) }
    ensures printed { OnOk result (IfSome (R.remaining input.old) (λ xs.
        Appends (W.contents output.old) (W.contents output.new) (program_text program xs))) }
{
    let mut bytes = [0u8; printing::MAX_BYTES + 1];
    let count = printing::read_input(input, &mut bytes)?;
    print_text(program, &bytes[..count], output)
}
