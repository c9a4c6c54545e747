// Legality: which lists are a circuit and its input, and why others are refused.
#![tactic(auto)]

ghost use Rattle.std.specs.Prelude.{◌≡◌, map};
ghost use Rattle.refusal.specs.Number.{cause_of};
ghost use Rattle.circuit.specs.Circuit.{exponents, gate_layers, input_count};
ghost use Rattle.circuit.specs.Legal.{all_below, exponents_good, wires_good, gate_cause, gates_cause, layers_cause, load_answer, lists_cause};
ghost use Rattle.circuit.specs.Sized.{LegalCircuit, Sized};
ghost use Rattle.layout.specs.Gate.{gate_of, gate_in};

use layout::{GATE_WORDS, Gate, Kind, MAX_DEPTH, MAX_EXPONENT, MAX_OUTPUT_EXPONENT};
use refusal::Cause;

// Whether each word is below p.
pub fn all_below(words: &[u32], p: u32) -> bool
    ensures { result ≡ all_below p words.now }
{
    words.iter().all(|&word| word < p)
}

// Whether a gate's wires are good above a layer of `next` gates: each stays before an end, which the kind chooses. A left wire that is not above
// the right one is inside that layer too, and 0 where the right one is. An end is chosen and not jumped to, since no processor can guess a kind.
#[tactic(auto, unfolding(circuit::specs::Legal::wires_good))]
fn wires_good(gate: Gate, next: usize) -> bool
    ensures { result ≡ wires_good next (gate_of gate) }
{
    let left_end = if gate.kind == Kind::Subtract as u32 {
        next
    } else {
        gate.right as usize + 1
    };
    let right_end = if gate.kind == Kind::Empty as u32 {
        next.min(1)
    } else {
        next
    };
    (gate.left as usize) < left_end && (gate.right as usize) < right_end
}

// One gate above a layer of `next` gates.
fn check_gate(gate: Gate, next: usize) -> Result<(), Cause>
    ensures { cause_of result ≡ gate_cause next (gate_of gate) }
{
    Kind::try_from(gate.kind)?;
    if !wires_good(gate, next) {
        return Err(Cause::GateWires);
    }
    Ok(())
}

// The gates of a layer above one of `next` gates: the first that is bad.
fn check_gates(gates: &[[u32; GATE_WORDS]], next: usize) -> Result<(), Cause>
    ensures { cause_of result ≡ gates_cause next (map gate_in gates.now) }
{
    for &words in gates {
        check_gate(Gate::from(words), next)?;
    }
    Ok(())
}

// All gates, layer by layer, where the list has as many words as its exponents call for.
fn check_layers(circuit: &[u32]) -> Result<(), Cause>
    requires { Sized circuit.now }
    ensures { cause_of result ≡ layers_cause (exponents circuit.now) (gate_layers circuit.now) }
{
    let mut gates = layout::gates(layout::all_gates(circuit));
    let mut count = layout::layer_width(circuit, 0);
    for &k in layout::exponents(circuit) {
        let next = layout::width(k);
        let (layer, rest) = gates.split_at(count);
        check_gates(layer, next)?;
        gates = rest;
        count = next;
    }
    Ok(())
}

// Whether the exponents are all there, and small enough.
fn exponents_good(circuit: &[u32]) -> bool
    ensures { result ≡ exponents_good circuit.now }
{
    let exponents = layout::exponents(circuit);
    layout::exponent(circuit, 0) <= MAX_OUTPUT_EXPONENT
        && exponents.len() == layout::depth(circuit)
        && all_below(exponents, MAX_EXPONENT + 1)
}

// Load: whether the list is a legal circuit, else the first refusal of 1 to 7.
pub fn load(circuit: &[u32]) -> Result<(), Cause>
    ensures { cause_of result ≡ load_answer circuit.now }
{
    if !layout::has_header(circuit) {
        return Err(Cause::HeaderShort);
    }
    if !field::is_listed(layout::prime(circuit)) {
        return Err(Cause::PrimeUnlisted);
    }
    let depth = layout::depth(circuit);
    if depth < 1 || MAX_DEPTH < depth {
        return Err(Cause::DepthRange);
    }
    if !exponents_good(circuit) {
        return Err(Cause::ExponentRange);
    }
    if circuit.len() != layout::word_count(circuit) {
        return Err(Cause::WordCount);
    }
    check_layers(circuit)
}

// The number of input words of a legal circuit.
fn input_count(circuit: &[u32]) -> usize
    requires { LegalCircuit circuit.now }
    ensures { result ≡ input_count circuit.now }
{
    layout::layer_width(circuit, layout::depth(circuit))
}

// The refusals 1 to 9, with which every operation on a circuit and its input begins. A length and words below p are asked of coins and messages
// too, with other causes each.
pub fn check_lists(circuit: &[u32], input: &[u32]) -> Result<(), Cause>
    ensures { cause_of result ≡ lists_cause circuit.now input.now }
{
    load(circuit)?;
    if input.len() != input_count(circuit) {
        return Err(Cause::InputCount);
    }
    if !all_below(input, layout::prime(circuit)) {
        return Err(Cause::InputWord);
    }
    Ok(())
}
