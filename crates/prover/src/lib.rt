// The prover: the honest messages, all of them or the one that follows a coin prefix.
#![tactic(auto)]

ghost use Rattle.std.specs.Prelude.{◌≡◌, ◌≤◌, true, length};
ghost use Rattle.circuit.specs.Circuit.{message_words};
ghost use Rattle.circuit.specs.Limits.{max_values};
ghost use Rattle.circuit.specs.Legal.{lists_cause};
ghost use Rattle.circuit.specs.Sized.{LegalCircuit};
ghost use Rattle.circuit.specs.Values.{outputs};
ghost use Rattle.protocol.specs.Rounds.{AtRound};
ghost use Rattle.protocol.specs.Prove.{followed};
ghost use Rattle.standing.specs.Standing.{as_place};
ghost use Rattle.short_list.specs.Short.{short};
ghost use Rattle.evaluation.specs.Layer.{AllValues};
ghost use Rattle.prover.specs.Writing.{Writes};
ghost use Rattle.prover.specs.Answers.{refused_proof, Proves, ProvesOne};

use evaluation::MAX_VALUES;
use refusal::Cause;
use short_list::ShortList;
use standing::{Job, Place, Round};

// What Prove answers: the number of message words that were written, or a refusal, and the outputs, none where it refuses.
#[derive(Clone, Copy, PartialEq, Eq, Debug)]
pub struct Proof {
    pub words: Result<usize, Cause>,
    pub outputs: ShortList,
}

// Writes the values of all layers, the outputs first, to the front of an array for the largest circuit's, and answers the outputs.
fn fill_values(circuit: &[u32], input: &[u32], values: &mut [u32]) -> ShortList
    requires { (lists_cause circuit.now input.now ≡ 0) × (length values.old ≡ max_values) }
    ensures answer { result ≡ short (outputs circuit.now input.now) }
    ensures written { AllValues circuit.now input.now values.new }
{
    // Nothing is refused: the lists are legal, and the array holds the values of the largest circuit.
    evaluation::evaluate(circuit, input, values).outputs
}

// A refusal.
fn refusal(cause: Cause) -> Proof
    ensures { result ≡ refused_proof cause }
{
    Proof {
        words: Err(cause),
        outputs: ShortList::new(&[]),
    }
}

// Writes all messages, each directly after the one before it.
fn write_all(job: Job, messages: &mut [u32]) -> Proof
    requires { message_words job.circuit.now ≤ length messages.old }
    ensures { Writes job.entry.circuit.now job.entry.input.now job.entry.coins.now messages.old result messages.new }
{
    let mut values = [0u32; MAX_VALUES];
    let outputs = fill_values(job.circuit, job.input, &mut values);
    let mut n = standing::coins_before(job.circuit, 1);
    let mut at = 0;
    // Not with `..=`: such a loop ends on two paths, and each asks for a turn's proof.
    for layer in 1..layout::depth(job.circuit) + 1 {
        for round in 0..standing::line_round(job.circuit, layer) + 1 {
            let place = Place { layer, round };
            let here = Round {
                circuit: job.circuit,
                place,
                past: &job.coins[..n],
            };
            messages::write_message(here, &values, &mut messages[at..]);
            at += place.message_length(job.circuit);
            n += 1;
        }
    }
    Proof {
        words: Ok(at),
        outputs,
    }
}

// Prove, whole: 1 to 9, 11, 12, 10; then the outputs and the words written.
pub fn prove(circuit: &[u32], input: &[u32], coins: &[u32], messages: &mut [u32]) -> Proof
    ensures { Proves circuit.now input.now coins.now messages.old result messages.new }
{
    let room = messages.len();
    match Job::check(circuit, input, coins) {
        Err(cause) => refusal(cause),
        Ok(job) if standing::message_words(circuit) <= room => write_all(job, messages),
        Ok(_) => refusal(Cause::BufferShort),
    }
}

// Whether a message follows so many coins.
fn followed(circuit: &[u32], coins: usize) -> bool
    ensures { LegalCircuit circuit.now → result ≡ followed circuit.now coins }
{
    standing::coins_before(circuit, 1) <= coins && coins < standing::coin_count(circuit)
}

// The round whose message follows these many coins. The rounds left fall by a layer's until they are fewer: a `for` over the layers would count
// them down too, and have to answer where none is found.
fn place_after(circuit: &[u32], coins: usize) -> Place
    requires { LegalCircuit circuit.now × (followed circuit.now coins ≡ true) }
    ensures { AtRound circuit.now (as_place result) coins }
{
    let mut layer = 1;
    let mut round = coins - standing::coins_before(circuit, 1);
    loop {
        let line = standing::line_round(circuit, layer);
        if round <= line {
            break Place { layer, round };
        }
        round -= line + 1;
        layer += 1;
    }
}

// Prove, one message: the same refusals with a coin prefix; then the words of the message that follows it. Not one function with `prove`: the
// coins that are asked for are others, and so is the buffer's length.
pub fn prove_one(
    circuit: &[u32],
    input: &[u32],
    prefix: &[u32],
    buffer: &mut [u32],
) -> Result<usize, Cause>
    ensures { ProvesOne circuit.now input.now prefix.now buffer.old result buffer.new }
{
    legality::check_lists(circuit, input)?;
    if !followed(circuit, prefix.len()) {
        return Err(Cause::CoinCount);
    }
    if !legality::all_below(prefix, layout::prime(circuit)) {
        return Err(Cause::CoinWord);
    }
    let place = place_after(circuit, prefix.len());
    let words = place.message_length(circuit);
    if buffer.len() < words {
        return Err(Cause::BufferShort);
    }
    let mut values = [0u32; MAX_VALUES];
    let _ = fill_values(circuit, input, &mut values);
    let here = Round {
        circuit,
        place,
        past: prefix,
    };
    messages::write_message(here, &values, buffer);
    Ok(words)
}
