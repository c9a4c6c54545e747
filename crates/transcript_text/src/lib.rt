// What the program `transcript` prints for lists: the honest transcript of a circuit, input and coins, or why there is none.
#![tactic(auto)]

ghost use Rattle.std.specs.Prelude.{◌≡◌, length};
ghost use Rattle.circuit.specs.Circuit.{message_words};
ghost use Rattle.circuit.specs.Sized.{LegalCircuit};
ghost use Rattle.protocol.specs.Rounds.{rounds};
ghost use Rattle.standing.specs.Standing.{as_place};
ghost use Rattle.text.specs.Lines.{line_text};
ghost use Rattle.text.specs.Wrote.{Wrote};
ghost use Rattle.transcript_text.specs.Transcript.{word_of, messages_text, proof_text, lists_text};

use layout::{MAX_DEPTH, MAX_EXPONENT, MAX_OUTPUT_EXPONENT, MAX_OUTPUTS};
use standing::Place;

// The coins and message words of the largest circuit.
const MAX_COINS: usize = MAX_OUTPUT_EXPONENT as usize + MAX_DEPTH * (2 * MAX_EXPONENT as usize + 1);

const MAX_MESSAGE_WORDS: usize = MAX_DEPTH * (7 * MAX_EXPONENT as usize + 1);

// The bytes of its printed transcript: a word and an end for the outputs' line and each round's, no more rounds than coins, and eleven for each
// output and message word.
pub const MAX_TEXT: usize = 6 + 11 * MAX_OUTPUTS + 5 * MAX_COINS + 11 * MAX_MESSAGE_WORDS;

// Writes the line of a round. In two calls, since the words are byte strings of two lengths.
fn write_message(circuit: &[u32], place: Place, message: &[u32], text: &mut [u8]) -> usize
    ensures { Wrote (line_text (word_of circuit.now (as_place place)) message.now)
        text.old text.new result }
{
    if place.is_line(circuit) {
        text::put_line(text, b"line", message)
    } else {
        text::put_line(text, b"sum", message)
    }
}

// Writes the lines of all rounds.
fn write_messages(circuit: &[u32], messages: &[u32], text: &mut [u8]) -> usize
    requires { LegalCircuit circuit.now × (length messages.now ≡ message_words circuit.now) }
    ensures { Wrote (messages_text circuit.now (rounds circuit.now) messages.now)
        text.old text.new result }
{
    let mut at = 0;
    let mut to = 0;
    // Not with `..=`: such a loop ends on two paths, and each asks for a turn's proof.
    for layer in 1..layout::depth(circuit) + 1 {
        for round in 0..standing::line_round(circuit, layer) + 1 {
            let place = Place { layer, round };
            let end = at + place.message_length(circuit);
            to += write_message(circuit, place, &messages[at..end], &mut text[to..]);
            at = end;
        }
    }
    to
}

// Writes the lines of a proof: the outputs and all rounds.
fn write_proof(circuit: &[u32], outputs: &[u32], messages: &[u32], text: &mut [u8]) -> usize
    requires { LegalCircuit circuit.now × (length messages.now ≡ message_words circuit.now) }
    ensures { Wrote (proof_text circuit.now outputs.now messages.now) text.old text.new result }
{
    let at = text::put_line(text, b"claim", outputs);
    at + write_messages(circuit, messages, &mut text[at..])
}

// Writes what is printed for these lists. That a refusal is written so in three programs' texts is one arm of a match: to share it would take a
// closure for the other arm.
pub fn write_lists(circuit: &[u32], input: &[u32], coins: &[u32], text: &mut [u8]) -> usize
    ensures { Wrote (lists_text circuit.now input.now coins.now)
        text.old text.new result }
{
    let mut messages = [0u32; MAX_MESSAGE_WORDS];
    let proof = prover::prove(circuit, input, coins, &mut messages);
    match proof.words {
        Err(cause) => printing::write_refused(cause, text),
        Ok(count) => write_proof(circuit, proof.outputs.list(), &messages[..count], text),
    }
}
