// The one writer of an honest message into a lent buffer. Every function is total; it promises nothing where the list is no legal circuit, the
// coins are not those before the place, the values are not the layers', or the buffer has no room.
#![tactic(auto)]

ghost use Rattle.std.specs.Prelude.{true, false};
ghost use Rattle.standing.specs.Standing.{as_place};
ghost use Rattle.messages.specs.Writing.{WritesMessage, WritesIf};

use standing::Round;

// Writes the message of a sum round to the buffer's front, from the values of its layer.
fn write_sum(round: Round, values: &[u32], buffer: &mut [u32])
    ensures { WritesIf false round.entry.circuit.now (as_place round.entry.place) round.entry.past.now values.now buffer.old buffer.new }
{
    let stand = round.stand();
    let words = sums::sum_message(
        layout::field(round.circuit),
        layout::gates_above(round.circuit, round.place.layer),
        stand.point.coordinates(),
        values,
        stand.points,
        stand.own,
        round.place.round,
    );
    lists::put(buffer, &words);
}

// Writes a layer's line message to the buffer's front. Not one function with `write_sum`: the words come from another crate and are as many as
// the layer's exponent says.
fn write_line(round: Round, values: &[u32], buffer: &mut [u32])
    ensures { WritesIf true round.entry.circuit.now (as_place round.entry.place) round.entry.past.now values.now buffer.old buffer.new }
{
    let stand = round.stand();
    let f = layout::field(round.circuit);
    let words = line::line_message(f, values, stand.points, stand.own);
    lists::put(buffer, &words[..stand.own + 1]);
}

// Writes the message of a round to the buffer's front, from the values of all layers and the coins before it. Both forms of the proof write by it.
pub fn write_message(round: Round, values: &[u32], buffer: &mut [u32])
    ensures { WritesMessage round.entry.circuit.now (as_place round.entry.place) round.entry.past.now values.now buffer.old buffer.new }
{
    let Round { circuit, place, .. } = round;
    let from = layout::gates_before(circuit, place.layer);
    let to = from + layout::layer_width(circuit, place.layer);
    let Some(own) = values.get(from..to) else {
        return;
    };
    if place.is_line(circuit) {
        write_line(round, own, buffer);
    } else {
        write_sum(round, own, buffer);
    }
}
