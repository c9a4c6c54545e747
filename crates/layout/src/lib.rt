// The circuit list's layout: p, D, k_0, k_1 to k_D, then the gates of layers 0 to D-1 in order. Where each part stands is said here alone, but
// that `sums` reads a gate's three words. Every function is total: of what the list has not it gives 0 or nothing.
#![tactic(auto)]

ghost use Rattle.std.specs.Prelude.{◌≡◌, ◌-◌, ◌/◌, ◌^◌, ◌<◌, leb, length, drop, map};
ghost use Rattle.circuit.specs.Limits.{header_words};
ghost use Rattle.circuit.specs.Circuit.{prime_of, depth, exponents, exponent_at, width_of, gates_of, gates_start, word_count};
ghost use Rattle.circuit.specs.Sized.{Exponents};
ghost use Rattle.layout.specs.Gates.{GatesBefore, GatesAbove};
ghost use Rattle.layout.specs.Gate.{KindOf, gate_of, gate_in};

use field::Field;
use refusal::Cause;

pub const MAX_DEPTH: usize = 12;

pub const MAX_EXPONENT: u32 = 8;

pub const MAX_OUTPUT_EXPONENT: u32 = 4;

// The words before k_1: p, D and k_0.
const HEADER: usize = 3;

// The words of a gate.
pub const GATE_WORDS: usize = 3;

// The outputs of the largest circuit.
pub const MAX_OUTPUTS: usize = 1 << MAX_OUTPUT_EXPONENT;

// Its gates: those of layer 0 are its outputs, and each layer after it has as many as there can be.
pub const MAX_GATES: usize = MAX_OUTPUTS + (MAX_DEPTH - 1) * (1 << MAX_EXPONENT);

// The words of its list.
pub const MAX_WORDS: usize = HEADER + MAX_DEPTH + GATE_WORDS * MAX_GATES;

// What a gate does with the values of its wires. Its first word is the kind's number.
#[derive(Clone, Copy, PartialEq, Eq, Debug)]
pub enum Kind {
    Empty = 0,
    Add = 1,
    Multiply = 2,
    Subtract = 3,
}

impl TryFrom<u32> for Kind {
    type Error = Cause;

    ghost try_from_gives = { KindOf };

    fn try_from(number: u32) -> Result<Kind, Cause> {
        match number {
            0 => Ok(Kind::Empty),
            1 => Ok(Kind::Add),
            2 => Ok(Kind::Multiply),
            3 => Ok(Kind::Subtract),
            _ => Err(Cause::GateKind),
        }
    }
}

// A gate as its three words. The first may be no kind's number.
#[derive(Clone, Copy, PartialEq, Eq, Debug)]
pub struct Gate {
    pub kind: u32,
    pub left: u32,
    pub right: u32,
}

impl From<[u32; GATE_WORDS]> for Gate {
    ghost from_gives = { λ words gate. gate_of gate ≡ gate_in words };

    fn from(words: [u32; GATE_WORDS]) -> Gate {
        let [kind, left, right] = words;
        Gate { kind, left, right }
    }
}

// Whether p, D and k_0 are there.
pub fn has_header(circuit: &[u32]) -> bool
    ensures { result ≡ leb header_words (length circuit.now) }
{
    HEADER <= circuit.len()
}

// p.
pub fn prime(circuit: &[u32]) -> u32
    ensures { result ≡ prime_of circuit.now }
{
    lists::word(circuit, 0)
}

// The residues modulo p.
pub fn field(circuit: &[u32]) -> Field
    ensures { result.largest ≡ prime_of circuit.now - 1 }
{
    Field::of(prime(circuit))
}

// D.
pub fn depth(circuit: &[u32]) -> usize
    ensures { (result ≡ depth circuit.now) × (result < 2 ^ 32) }
{
    lists::word(circuit, 1) as usize
}

// k_1 to k_D, as many of them as the list has.
pub fn exponents(circuit: &[u32]) -> &[u32]
    ensures { result.now ≡ exponents circuit.now }
{
    let start = HEADER.min(circuit.len());
    let end = gates_start(circuit).min(circuit.len());
    &circuit[start..end]
}

// The width exponent of a layer, 0 for one that the list has not: k_0 is the header's last word, the others follow it.
#[tactic(auto, using(crate::proofs::Readers::exponent_there, crate::proofs::Readers::exponent_past))]
pub fn exponent(circuit: &[u32], layer: usize) -> u32
    ensures { result ≡ exponent_at circuit.now layer }
{
    if depth(circuit) < layer {
        return 0;
    }
    lists::word(circuit, HEADER - 1 + layer)
}

// The number of gates of a layer of width exponent k.
pub fn width(k: u32) -> usize
    ensures { result ≡ width_of k }
{
    if MAX_EXPONENT < k {
        return 0;
    }
    1 << k
}

// The number of gates of a layer.
pub fn layer_width(circuit: &[u32], layer: usize) -> usize
    ensures { result ≡ width_of (exponent_at circuit.now layer) }
{
    width(exponent(circuit, layer))
}

// The gates of the layers before one.
pub fn gates_before(circuit: &[u32], layer: usize) -> usize
    ensures { GatesBefore circuit.now layer result }
{
    if MAX_DEPTH < layer {
        return 0;
    }
    let written = exponents(circuit);
    let mut count = 0;
    let mut own = layer_width(circuit, 0);
    for &k in &written[..layer.min(written.len())] {
        count += own;
        own = width(k);
    }
    count
}

// Where the gates start.
fn gates_start(circuit: &[u32]) -> usize
    ensures { (result ≡ gates_start circuit.now) × (result < 2 ^ 33) }
{
    HEADER + depth(circuit)
}

// The words that the exponents call for.
pub fn word_count(circuit: &[u32]) -> usize
    ensures { Exponents circuit.now → result ≡ word_count circuit.now }
{
    gates_start(circuit) + GATE_WORDS * gates_before(circuit, depth(circuit))
}

// The words of all gates.
pub fn all_gates(circuit: &[u32]) -> &[u32]
    ensures { result.now ≡ drop (gates_start circuit.now) circuit.now }
{
    circuit.get(gates_start(circuit)..).unwrap_or(&[])
}

// The words of the gates of the layer above one.
pub fn gates_above(circuit: &[u32], layer: usize) -> &[u32]
    ensures { GatesAbove circuit.now layer result.now }
{
    if layer < 1 {
        return &[];
    }
    let above = layer - 1;
    let gates = all_gates(circuit);
    let start = (GATE_WORDS * gates_before(circuit, above)).min(gates.len());
    let end = (start + GATE_WORDS * layer_width(circuit, above)).min(gates.len());
    &gates[start..end]
}

// The gates of a list of words: what is left over at its end is none.
pub fn gates(words: &[u32]) -> &[[u32; GATE_WORDS]]
    ensures { map gate_in result.now ≡ gates_of (length words.now / 3) words.now }
{
    words.as_chunks().0
}
