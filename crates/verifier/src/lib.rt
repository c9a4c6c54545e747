// The whole check of argued outputs.
#![tactic(auto)]

ghost use Rattle.std.specs.Prelude.{◌≡◌, length};
ghost use Rattle.refusal.specs.Number.{cause_of};
ghost use Rattle.circuit.specs.Circuit.{message_words};
ghost use Rattle.walk.specs.Game.{final_cause};
ghost use Rattle.protocol.specs.Judge.{input_agrees};
ghost use Rattle.protocol.specs.Check.{walk_from, check_answer};

use refusal::Cause;
use standing::{Job, Place, Round};

// The answer after the last message.
fn finish(job: Job, claim: u32) -> Result<(), Cause>
    ensures { cause_of result ≡ final_cause (input_agrees job.entry.circuit.now job.entry.input.now job.entry.coins.now claim) }
{
    if judgement::input_agrees(job.circuit, job.input, job.coins, claim) {
        Ok(())
    } else {
        Err(Cause::InputDiffers)
    }
}

// The walk down the layers from a first claim on, round by round. The first message that earns a refusal stops it.
fn walk(job: Job, first: u32, messages: &[u32]) -> Result<(), Cause>
    requires { length messages.now ≡ message_words job.circuit.now }
    ensures { cause_of result ≡ walk_from job.entry.circuit.now job.entry.input.now first job.entry.coins.now messages.now }
{
    let f = layout::field(job.circuit);
    let depth = layout::depth(job.circuit);
    let mut claim = first;
    let mut layer = 1;
    let mut n = standing::coins_before(job.circuit, 1);
    // The message words so far: a number, as in the prover, which writes them over one buffer.
    let mut at = 0;
    // A loop that the label leaves: the first message that earns a refusal ends both loops.
    'walk: loop {
        if depth < layer {
            break 'walk finish(job, claim);
        }
        // Not up to the line's number with `..=`: such a loop ends on two paths, and each asks for a turn's proof.
        for round in 0..standing::line_round(job.circuit, layer) + 1 {
            let place = Place { layer, round };
            let end = at + place.message_length(job.circuit);
            let message = &messages[at..end];
            let here = Round {
                circuit: job.circuit,
                place,
                past: &job.coins[..n],
            };
            let judged = judgement::judge(here, claim, message);
            if let Err(cause) = judged {
                break 'walk Err(cause);
            }
            claim = polynomial::value_at(f, message, job.coins[n]);
            at = end;
            n += 1;
        }
        layer += 1;
    }
}

// Check, whole: 1 to 9, 21, 13, 11, 12, 14, then the walk.
pub fn check(
    circuit: &[u32],
    input: &[u32],
    outputs: &[u32],
    coins: &[u32],
    messages: &[u32],
) -> Result<(), Cause>
    ensures { cause_of result ≡ check_answer circuit.now input.now outputs.now coins.now messages.now }
{
    let claim = session::start(circuit, input, outputs, coins)?;
    if messages.len() != standing::message_words(circuit) {
        return Err(Cause::MessageLength);
    }
    let job = Job {
        circuit,
        input,
        coins,
    };
    walk(job, claim, messages)
}
