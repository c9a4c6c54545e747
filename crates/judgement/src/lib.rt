// The one judgement of a message, and the last comparison. The whole check and a session's step both judge by it. The public functions are
// total; they promise nothing where the list is no legal circuit or the coins are not those before the place.
#![tactic(auto)]

ghost use Rattle.standing.specs.Standing.{as_place};
ghost use Rattle.judgement.specs.Judged.{ClaimsLine, Compares, Judges, ComparesLast};

use refusal::Cause;
use standing::Round;

// The summand at the two points of a layer's line, with x and y for what the line gives at its ends.
fn line_claim(round: Round, x: u32, y: u32) -> u32
    ensures { ClaimsLine round.entry.circuit.now (as_place round.entry.place) round.entry.past.now x y result }
{
    let stand = round.stand();
    let f = layout::field(round.circuit);
    let gates = layout::gates_above(round.circuit, round.place.layer);
    let point = stand.point.coordinates();
    summand::combined(f, gates, point, stand.points, stand.own, x, y)
}

// What a message gives that must equal the standing claim.
#[tactic(auto, unfolding(protocol::specs::Judge::compared), using(circuit::proofs::Layers::prime_modulus))]
fn compared(round: Round, message: &[u32]) -> u32
    ensures { Compares round.entry.circuit.now (as_place round.entry.place) round.entry.past.now message.now result }
{
    let f = layout::field(round.circuit);
    let x = polynomial::value_at(f, message, 0);
    let y = polynomial::value_at(f, message, 1);
    if round.place.is_line(round.circuit) {
        line_claim(round, x, y)
    } else {
        f.add(x, y)
    }
}

// The one judgement of a message at its round: 14, 15, then 16 or 17.
#[tactic(auto, unfolding(protocol::specs::Judge::judge))]
pub fn judge(round: Round, claim: u32, message: &[u32]) -> Result<(), Cause>
    ensures { Judges round.entry.circuit.now (as_place round.entry.place) round.entry.past.now claim message.now result }
{
    if message.len() != round.place.message_length(round.circuit) {
        return Err(Cause::MessageLength);
    }
    if !legality::all_below(message, layout::prime(round.circuit)) {
        return Err(Cause::MessageWord);
    }
    if compared(round, message) == claim {
        return Ok(());
    }
    if round.place.is_line(round.circuit) {
        return Err(Cause::LineDiffers);
    }
    Err(Cause::RoundDiffers)
}

// The last comparison: the input's extension at the point that the coins give.
#[tactic(auto, using(crate::proofs::Last::agrees))]
pub fn input_agrees(circuit: &[u32], input: &[u32], coins: &[u32], claim: u32) -> bool
    ensures { ComparesLast circuit.now input.now coins.now claim result }
{
    let point = standing::standing_point(circuit, layout::depth(circuit) + 1, coins);
    let f = layout::field(circuit);
    extension::extend(f, input, point.coordinates()) == claim
}
