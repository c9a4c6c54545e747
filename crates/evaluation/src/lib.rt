// Evaluation: the values of a circuit's gates.
#![tactic(auto)]

ghost use Rattle.std.specs.Prelude.{◌≡◌, ◌+◌, ◌≤◌, length, map};
ghost use Rattle.lists.specs.Buffer.{over};
ghost use Rattle.field.specs.Modulus.{numbers};
ghost use Rattle.circuit.specs.Limits.{max_values};
ghost use Rattle.circuit.specs.Gate.{operate};
ghost use Rattle.circuit.specs.Circuit.{depth, gates_before};
ghost use Rattle.circuit.specs.Legal.{lists_cause};
ghost use Rattle.layout.specs.Gate.{kind_number, gate_in};
ghost use Rattle.evaluation.specs.Layer.{layer_values, AllValues, Fillable, Placed};
ghost use Rattle.evaluation.specs.Evaluate.{WritesValues, Evaluates};

use field::Field;
use layout::{GATE_WORDS, Gate, Kind};
use refusal::Cause;
use short_list::ShortList;

// The gate and input words of the largest circuit.
pub const MAX_VALUES: usize = layout::MAX_GATES + (1 << layout::MAX_EXPONENT);

// What a kind does with the values of a gate's wires.
pub fn kind_value(f: Field, kind: Kind, x: u32, y: u32) -> u32
    ensures { result ≡ operate (numbers f) (kind_number kind) x y }
{
    match kind {
        Kind::Empty => Field::ZERO,
        Kind::Add => f.add(x, y),
        Kind::Multiply => f.mul(x, y),
        Kind::Subtract => f.sub(x, y),
    }
}

// A gate's value from those of its wires. Its word is taken as it stands, which may be no kind.
pub fn gate_value(f: Field, kind: u32, x: u32, y: u32) -> u32
    ensures { result ≡ operate (numbers f) kind x y }
{
    // A gate that does nothing is told apart first, though its kind would give 0 too: of four kinds the compiler makes a table of jumps, and
    // evaluation takes up to twice the time.
    match Kind::try_from(kind) {
        Ok(Kind::Empty) | Err(_) => Field::ZERO,
        Ok(kind) => kind_value(f, kind, x, y),
    }
}

// Writes the values of a layer's gates over the front of `values`, behind which stand the next layer's.
fn fill_layer(f: Field, gates: &[[u32; GATE_WORDS]], values: &mut [u32])
    requires { Fillable (map gate_in gates.now) values.old }
    ensures { values.new ≡ over (layer_values (numbers f) (map gate_in gates.now) values.old) values.old }
{
    // Written by place, since the loop reads other words of the same list.
    for (i, &words) in gates.iter().enumerate() {
        let gate = Gate::from(words);
        let x = values[gates.len() + gate.left as usize];
        let y = values[gates.len() + gate.right as usize];
        values[i] = gate_value(f, gate.kind, x, y);
    }
}

// A working array with the input in its place.
fn place_input(input: &[u32], at: usize) -> [u32; MAX_VALUES]
    requires { at + length input.now ≤ max_values }
    ensures { Placed input.now at result }
{
    let mut values = [0u32; MAX_VALUES];
    lists::put(&mut values[at..], input);
    values
}

// The values of all layers, the outputs first, in a working array that is filled from the input's place up.
fn all_values(circuit: &[u32], input: &[u32], place: usize) -> [u32; MAX_VALUES]
    requires { (lists_cause circuit.now input.now ≡ 0) × (place ≡ gates_before circuit.now (depth circuit.now)) }
    ensures { AllValues circuit.now input.now result }
{
    let f = layout::field(circuit);
    let gates = layout::gates(layout::all_gates(circuit));
    let mut at = place;
    let mut values = place_input(input, at);
    for layer in (0..layout::depth(circuit)).rev() {
        let end = at;
        at -= layout::layer_width(circuit, layer);
        fill_layer(f, &gates[at..end], &mut values[at..]);
    }
    values
}

// Writes the values of layers 0 to D to the front of the buffer and answers how many of them are outputs, or the first refusal of 1 to 10.
fn write_values(circuit: &[u32], input: &[u32], buffer: &mut [u32]) -> Result<usize, Cause>
    ensures { WritesValues circuit.now input.now buffer.old result buffer.new }
{
    legality::check_lists(circuit, input)?;
    let place = layout::gates_before(circuit, layout::depth(circuit));
    let total = place + input.len();
    if buffer.len() < total {
        return Err(Cause::BufferShort);
    }
    let values = all_values(circuit, input, place);
    lists::put(buffer, &values[..total]);
    Ok(layout::layer_width(circuit, 0))
}

// What Evaluate answers: whether it refuses, and the outputs, none where it does.
#[derive(Clone, Copy, PartialEq, Eq, Debug)]
pub struct Evaluated {
    pub outcome: Result<(), Cause>,
    pub outputs: ShortList,
}

// Evaluate: the outputs, with the values of layers 0 to D at the front of the buffer, or the first refusal of 1 to 10.
pub fn evaluate(circuit: &[u32], input: &[u32], buffer: &mut [u32]) -> Evaluated
    ensures { Evaluates circuit.now input.now buffer.old result buffer.new }
{
    match write_values(circuit, input, buffer) {
        Ok(count) => Evaluated {
            outcome: Ok(()),
            outputs: ShortList::new(&buffer[..count]),
        },
        Err(cause) => Evaluated {
            outcome: Err(cause),
            outputs: ShortList::new(&[]),
        },
    }
}
