// The exports for programs in C and in Rust: each is the library's function of its name, and promises what that promises.
#![tactic(auto)]

ghost use Rattle.std.specs.Prelude.{◌≡◌};
ghost use Rattle.circuit.specs.Legal.{load_answer};
ghost use Rattle.protocol.specs.Check.{check_answer};
ghost use Rattle.kidlothe.specs.Answers.{ExportsEvaluate, ExportsRead, ExportsProve, ExportsProveOne, ExportsOpen, ExportsStep};

use kidlothe::{Counts, Evaluation, Opening, Proof, SESSION_WORDS, Step, Written};

// Load.
#[unsafe(no_mangle)]
pub extern "C" fn kidlothe_load(circuit: &[u32]) -> u32
    ensures { result ≡ load_answer circuit.now }
{
    kidlothe::kidlothe_load(circuit)
}

// Evaluate.
#[unsafe(no_mangle)]
pub extern "C" fn kidlothe_evaluate(
    circuit: &[u32],
    input: &[u32],
    buffer: &mut [u32],
) -> Evaluation
    ensures { ExportsEvaluate circuit.now input.now buffer.old result buffer.new }
{
    kidlothe::kidlothe_evaluate(circuit, input, buffer)
}

// Read.
#[unsafe(no_mangle)]
pub extern "C" fn kidlothe_read(bytes: &[u8], number: u32, buffer: &mut [u32]) -> Counts
    ensures { ExportsRead number bytes.now buffer.old result buffer.new }
{
    kidlothe::kidlothe_read(bytes, number, buffer)
}

// Prove, whole.
#[unsafe(no_mangle)]
pub extern "C" fn kidlothe_prove(
    circuit: &[u32],
    input: &[u32],
    coins: &[u32],
    messages: &mut [u32],
) -> Proof
    ensures { ExportsProve circuit.now input.now coins.now messages.old result messages.new }
{
    kidlothe::kidlothe_prove(circuit, input, coins, messages)
}

// Prove, one message.
#[unsafe(no_mangle)]
pub extern "C" fn kidlothe_prove_one(
    circuit: &[u32],
    input: &[u32],
    prefix: &[u32],
    buffer: &mut [u32],
) -> Written
    ensures { ExportsProveOne circuit.now input.now prefix.now buffer.old result buffer.new }
{
    kidlothe::kidlothe_prove_one(circuit, input, prefix, buffer)
}

// Check, whole: 0 is accepted.
#[unsafe(no_mangle)]
pub extern "C" fn kidlothe_check(
    circuit: &[u32],
    input: &[u32],
    outputs: &[u32],
    coins: &[u32],
    messages: &[u32],
) -> u32
    ensures { result ≡ check_answer circuit.now input.now outputs.now coins.now messages.now }
{
    kidlothe::kidlothe_check(circuit, input, outputs, coins, messages)
}

// Open session.
#[unsafe(no_mangle)]
pub extern "C" fn kidlothe_open(
    circuit: &[u32],
    input: &[u32],
    outputs: &[u32],
    coins: &[u32],
    session: &mut [u32; SESSION_WORDS],
) -> Opening
    ensures { ExportsOpen circuit.now input.now outputs.now coins.now session.old result session.new }
{
    kidlothe::kidlothe_open(circuit, input, outputs, coins, session)
}

// Step.
#[unsafe(no_mangle)]
pub extern "C" fn kidlothe_step(
    circuit: &[u32],
    input: &[u32],
    coins: &[u32],
    session: &mut [u32; SESSION_WORDS],
    message: &[u32],
) -> Step
    ensures { ExportsStep circuit.now input.now coins.now session.old message.now result session.new }
{
    kidlothe::kidlothe_step(circuit, input, coins, session, message)
}
