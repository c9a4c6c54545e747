// The library's functions, which `kidlothe_c` exports to programs in C and in Rust: numbers by value, a list as a pointer and a length, a
// session's record as four words. An answer is plain numbers: a refusal's number, 0 where nothing is refused, and beside it what the operation
// answers, 0 where it is refused. A list in an answer is a count and a row of words.
#![tactic(auto)]

ghost use Rattle.std.specs.Prelude.{◌≡◌};
ghost use Rattle.refusal.specs.Number.{cause_of};
ghost use Rattle.circuit.specs.Legal.{load_answer};
ghost use Rattle.protocol.specs.Check.{check_answer};
ghost use Rattle.xdr.specs.Read.{answer_of};
ghost use Rattle.session.specs.Answers.{record_of, verdict_of};
ghost use Rattle.prover.specs.Answers.{message_of};
ghost use Rattle.kidlothe.specs.Record.{session_of, session_words, words_of_step};
ghost use Rattle.kidlothe.specs.Answers.{plain_evaluated, plain_counts, plain_proved, plain_written, plain_step, ExportsEvaluate, ExportsRead, ExportsProve, ExportsProveOne, ExportsOpen, ExportsStep};

use evaluation::Evaluated;
use refusal::Cause;
use session::{Session, Verdict};
use short_list::ShortList;

// The words of a session's record, and the word of an open one.
pub const SESSION_WORDS: usize = 4;

const OPEN: u32 = 1;

// Six structs, one for what each operation answers: no two have the same fields.

// What Evaluate answers.
#[repr(C)]
#[derive(Clone, Copy)]
pub struct Evaluation {
    pub refusal: u32,
    pub outputs: ShortList,
}

impl From<Evaluated> for Evaluation {
    ghost from_gives = { λ evaluated plain. plain ≡ plain_evaluated evaluated };

    fn from(evaluated: Evaluated) -> Evaluation {
        Evaluation {
            refusal: number(evaluated.outcome),
            outputs: evaluated.outputs,
        }
    }
}

// What Read answers: a count for each of four arrays.
#[repr(C)]
#[derive(Clone, Copy, Default)]
pub struct Counts {
    pub refusal: u32,
    pub first: u32,
    pub second: u32,
    pub third: u32,
    pub fourth: u32,
}

impl From<Result<[u32; 4], Cause>> for Counts {
    ghost from_gives = { λ answer plain. plain ≡ plain_counts (answer_of answer) };

    fn from(answer: Result<[u32; 4], Cause>) -> Counts {
        match answer {
            Ok(counts) => {
                // Taken apart on a line of its own: from a pattern inside Ok a proof does not learn the words.
                let [first, second, third, fourth] = counts;
                Counts {
                    refusal: 0,
                    first,
                    second,
                    third,
                    fourth,
                }
            }
            Err(cause) => Counts {
                refusal: cause.into(),
                ..Counts::default()
            },
        }
    }
}

// What Prove answers for a whole proof.
#[repr(C)]
#[derive(Clone, Copy)]
pub struct Proof {
    pub refusal: u32,
    pub outputs: ShortList,
    pub words: usize,
}

impl From<prover::Proof> for Proof {
    ghost from_gives = { λ proof plain. plain ≡ plain_proved proof };

    fn from(proof: prover::Proof) -> Proof {
        let written = Written::from(proof.words);
        Proof {
            refusal: written.refusal,
            outputs: proof.outputs,
            words: written.words,
        }
    }
}

// What Prove answers for one message.
#[repr(C)]
#[derive(Clone, Copy, Default)]
pub struct Written {
    pub refusal: u32,
    pub words: usize,
}

impl From<Result<usize, Cause>> for Written {
    ghost from_gives = { λ answer plain. plain ≡ plain_written (message_of answer) };

    fn from(answer: Result<usize, Cause>) -> Written {
        match answer {
            Ok(words) => Written { refusal: 0, words },
            Err(cause) => Written {
                refusal: cause.into(),
                ..Written::default()
            },
        }
    }
}

// What Open answers: a refusal, or the coins before any message.
#[repr(C)]
#[derive(Clone, Copy)]
pub struct Opening {
    pub refusal: u32,
    pub coins: ShortList,
}

// What Step answers: a refusal, an acceptance, or the coin with which the session goes on.
#[repr(C)]
#[derive(Clone, Copy, Default)]
pub struct Step {
    pub refusal: u32,
    pub accepted: u32,
    pub coin: u32,
}

impl From<Verdict> for Step {
    ghost from_gives = { λ verdict step. step ≡ plain_step (verdict_of verdict) };

    fn from(verdict: Verdict) -> Step {
        match verdict {
            Verdict::Accepted => Step {
                accepted: 1,
                ..Step::default()
            },
            Verdict::GoOn(coin) => Step {
                coin,
                ..Step::default()
            },
            Verdict::Refused(cause) => Step {
                refusal: cause.into(),
                ..Step::default()
            },
        }
    }
}

// The number of a refusal, 0 for none. A function, since neither a result nor a number is a type of this crate.
fn number(checked: Result<(), Cause>) -> u32
    ensures { result ≡ cause_of checked }
{
    match checked {
        Ok(()) => 0,
        Err(cause) => cause.into(),
    }
}

// Load.
pub fn kidlothe_load(circuit: &[u32]) -> u32
    ensures { result ≡ load_answer circuit.now }
{
    number(legality::load(circuit))
}

// Evaluate.
pub fn kidlothe_evaluate(circuit: &[u32], input: &[u32], buffer: &mut [u32]) -> Evaluation
    ensures { ExportsEvaluate circuit.now input.now buffer.old result buffer.new }
{
    evaluation::evaluate(circuit, input, buffer).into()
}

// Read.
pub fn kidlothe_read(bytes: &[u8], number: u32, buffer: &mut [u32]) -> Counts
    ensures { ExportsRead number bytes.now buffer.old result buffer.new }
{
    xdr::read(bytes, number, buffer).into()
}

// Prove, whole.
pub fn kidlothe_prove(circuit: &[u32], input: &[u32], coins: &[u32], messages: &mut [u32]) -> Proof
    ensures { ExportsProve circuit.now input.now coins.now messages.old result messages.new }
{
    prover::prove(circuit, input, coins, messages).into()
}

// Prove, one message.
pub fn kidlothe_prove_one(
    circuit: &[u32],
    input: &[u32],
    prefix: &[u32],
    buffer: &mut [u32],
) -> Written
    ensures { ExportsProveOne circuit.now input.now prefix.now buffer.old result buffer.new }
{
    prover::prove_one(circuit, input, prefix, buffer).into()
}

// Check, whole: 0 is accepted.
pub fn kidlothe_check(
    circuit: &[u32],
    input: &[u32],
    outputs: &[u32],
    coins: &[u32],
    messages: &[u32],
) -> u32
    ensures { result ≡ check_answer circuit.now input.now outputs.now coins.now messages.now }
{
    number(verifier::check(circuit, input, outputs, coins, messages))
}

// The record that four words stand for. A function, since neither the record nor an array is a type of this crate, so that no From can be
// written for them here.
fn session_of(words: &[u32; SESSION_WORDS]) -> Session
    ensures { record_of result ≡ session_of words.now }
{
    let [layer, round, claim, open] = *words;
    Session {
        layer,
        round,
        claim,
        open: open == OPEN,
    }
}

// A record as four words.
fn session_words(session: Session) -> [u32; SESSION_WORDS]
    ensures { result ≡ session_words (record_of session) }
{
    [
        session.layer,
        session.round,
        session.claim,
        u32::from(session.open),
    ]
}

// The words after a step, from the record after it. Those of a record that was not open stay, whatever they are.
fn step_words(before: &[u32; SESSION_WORDS], after: Session) -> [u32; SESSION_WORDS]
    ensures { result ≡ words_of_step before.now (record_of after) }
{
    if before[3] == OPEN {
        session_words(after)
    } else {
        *before
    }
}

// Open session. By a match, which shows that the words are written where nothing is refused, and only there.
pub fn kidlothe_open(
    circuit: &[u32],
    input: &[u32],
    outputs: &[u32],
    coins: &[u32],
    session: &mut [u32; SESSION_WORDS],
) -> Opening
    ensures { ExportsOpen circuit.now input.now outputs.now coins.now session.old result session.new }
{
    let opening = session::open(circuit, input, outputs, coins);
    match opening.session {
        Ok(opened) => {
            *session = session_words(opened);
            Opening {
                refusal: 0,
                coins: opening.coins,
            }
        }
        Err(cause) => Opening {
            refusal: cause.into(),
            coins: opening.coins,
        },
    }
}

// Step.
pub fn kidlothe_step(
    circuit: &[u32],
    input: &[u32],
    coins: &[u32],
    session: &mut [u32; SESSION_WORDS],
    message: &[u32],
) -> Step
    ensures { ExportsStep circuit.now input.now coins.now session.old message.now result session.new }
{
    let before = session_of(session);
    let stepped = session::step(circuit, input, coins, before, message);
    *session = step_words(session, stepped.session);
    stepped.verdict.into()
}
