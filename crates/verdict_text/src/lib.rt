// What the program `verdict` prints for lists: whether a transcript is accepted for a circuit, input and coins.
#![tactic(auto)]

ghost use Rattle.text.specs.Wrote.{Wrote};
ghost use Rattle.refusal.specs.Number.{cause_of};
ghost use Rattle.printing.specs.Printed.{answer_text};
ghost use Rattle.verdict_text.specs.Verdict.{accepted_text, lists_text};

use refusal::Cause;

// Writes the line of a check's answer.
fn write_outcome(outcome: Result<(), Cause>, text: &mut [u8]) -> usize
    ensures { Wrote (answer_text (cause_of outcome) accepted_text) text.old text.new result }
{
    match outcome {
        Ok(()) => text::put_line(text, b"accepted", &[]),
        Err(cause) => printing::write_refused(cause, text),
    }
}

// Writes what is printed for these lists.
pub fn write_lists(
    circuit: &[u32],
    input: &[u32],
    coins: &[u32],
    transcript: &[u32],
    text: &mut [u8],
) -> usize
    ensures { Wrote (lists_text circuit.now input.now coins.now transcript.now)
        text.old text.new result }
{
    if transcript.is_empty() {
        return printing::write_refused(Cause::BytesUnfit, text);
    }
    let count = transcript.len().min(layout::layer_width(circuit, 0));
    let (outputs, messages) = transcript.split_at(count);
    let outcome = verifier::check(circuit, input, outputs, coins, messages);
    write_outcome(outcome, text)
}
