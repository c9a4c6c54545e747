// The honest message of a sum round, modulo a field's modulus, in one pass over the gates. All of it is right for any words.
#![tactic(auto)]

ghost use Rattle.std.specs.Prelude.{◌≡◌, ◌%◌, ◌≤◌, min, ltb, leb, take, length};
ghost use Rattle.field.specs.Modulus.{modulus, numbers};
ghost use Rattle.extension.specs.Limits.{row_length};
ghost use Rattle.circuit.specs.Limits.{max_exponent};
ghost use Rattle.sumcheck.specs.Gatewise.{sums_of};
ghost use Rattle.summand.specs.Gates.{gates_in};
ghost use Rattle.sums.specs.Wire.{CutAt, side, Counted};
ghost use Rattle.sums.specs.Round.{side_at, round_message};

use extension::MAX_COORDINATES;
use field::Field;
use layout::GATE_WORDS;
use tables::MAX_WIDTH;
use tally::Tally;
use wires::{Cut, Side, Wire};

mod wires;

// The gates of a layer, their weights, and the field of the weights.
#[derive(Clone, Copy)]
struct Layer<'a> {
    f: Field,
    gates: &'a [u32],
    weights: &'a [u32],
}

// A gate's share, and what it is multiplied by in the sum over the gates whose bit is 0, in that over those whose bit is 1, and in that of
// the squares.
#[derive(Clone, Copy)]
struct Counts {
    share: u32,
    zeros: u32,
    ones: u32,
    squares: u32,
}

impl Cut {
    // The cut of a point with `fixed` of k coordinates fixed; `next` says whether the next coordinate is this point's.
    fn at(k: usize, fixed: usize, next: bool) -> Cut
        requires { (fixed ≤ k) × (k ≤ max_exponent) }
        ensures { CutAt k fixed next result }
    {
        let free = k - fixed;
        let size = layout::width(free as u32);
        let half = if next { size / 2 } else { 0 };
        Cut { free, size, half }
    }
}

// The product of the shares of a gate's wires, or a word with its residue: while no coordinate of v is fixed the right share is 1, and the
// left one is the answer as it stands.
fn both_shares(f: Field, left: u32, right: u32) -> u32
    ensures { result % modulus f ≡ (numbers f).mul left right }
{
    if right == Field::ONE {
        return left;
    }
    f.mul(left, right)
}

// A gate, by its weight and its wires. Its kind is the word that stands in the list, which may be none.
#[tactic(auto, using(crate::proofs::Counting::by_share))]
fn count_gate(f: Field, kind: u32, weight: u32, l: Wire, r: Wire) -> Counts
    ensures { Counted (numbers f) kind weight l r result }
{
    let share = f.mul(weight, both_shares(f, l.share, r.share));
    let own = evaluation::gate_value(f, kind, l.own, r.own);
    let other = evaluation::gate_value(f, kind, l.other, r.other);
    let squares = f.sub(own, other);
    let one = l.one || r.one;
    let zeros = if one { Field::ZERO } else { own };
    let ones = if one { own } else { Field::ZERO };
    Counts {
        share,
        zeros,
        ones,
        squares,
    }
}

// The message from the gates' weights and the two sides, from the last gate to the first. By place: a pass over the gates as triples takes a
// twentieth more instructions.
fn by_gates(layer: Layer, left: Side, right: Side) -> [u32; 3]
    ensures { result ≡ sums_of (numbers layer.entry.f) layer.entry.weights.now (side left.entry) (side right.entry)
        (gates_in layer.entry.gates.now) }
{
    let Layer { f, gates, weights } = layer;
    let mut zeros = Tally::empty();
    let mut ones = Tally::empty();
    let mut squares = Tally::empty();
    let mut a = gates.len() / GATE_WORDS;
    while 0 < a {
        a -= 1;
        let g = GATE_WORDS * a;
        let l = left.wire(gates[g + 1]);
        let r = right.wire(gates[g + 2]);
        let counts = count_gate(f, gates[g], lists::word(weights, a), l, r);
        zeros = zeros.plus(f, counts.share, counts.zeros);
        ones = ones.plus(f, counts.share, counts.ones);
        squares = squares.plus(f, counts.share, counts.squares);
    }
    let constant = zeros.residue(f);
    let square = squares.residue(f);
    [
        constant,
        f.sub(f.sub(ones.residue(f), constant), square),
        square,
    ]
}

// The message from the left side and the coordinates that are fixed of the right point; `next` says whether the next one is its own. With
// none fixed the one share is 1 and the table is the values, and no array is made for them. A side borrows arrays of
// the function that makes it, so this one and `by_points` each make theirs.
fn by_side(layer: Layer, left: Side, values: &[u32], v: &[u32], k: usize, next: bool) -> [u32; 3]
    requires { (length v.now ≤ k) × (k ≤ max_exponent) }
    ensures { result ≡ sums_of (numbers layer.entry.f) layer.entry.weights.now (side left.entry)
        (side_at (numbers layer.entry.f) k values.now v.now next) (gates_in layer.entry.gates.now) }
{
    let n = MAX_WIDTH.min(values.len());
    let cut = Cut::at(k, v.len(), next);
    if v.is_empty() {
        let right = Side {
            shares: &[Field::ONE],
            table: &values[..n],
            cut,
        };
        return by_gates(layer, left, right);
    }
    let mut shares = [0u32; MAX_WIDTH];
    tables::weights(layer.f, v, &mut shares);
    let mut table = [0u32; MAX_WIDTH];
    tables::folded(layer.f, values, v, &mut table);
    let right = Side {
        shares: &shares[..layout::width(v.len() as u32)],
        table: &table[..n >> v.len()],
        cut,
    };
    by_gates(layer, left, right)
}

// The message from the coordinates that are fixed of the two points, where there are 2^k values.
fn by_points(layer: Layer, values: &[u32], u: &[u32], v: &[u32], k: usize) -> [u32; 3]
    requires { (length u.now ≤ k) × (length v.now ≤ k) × (k ≤ max_exponent) }
    ensures { result ≡ sums_of (numbers layer.entry.f) layer.entry.weights.now
        (side_at (numbers layer.entry.f) k values.now u.now (ltb (length u.now) k))
        (side_at (numbers layer.entry.f) k values.now v.now (leb k (length u.now))) (gates_in layer.entry.gates.now) }
{
    let n = MAX_WIDTH.min(values.len());
    let mut shares = [0u32; MAX_WIDTH];
    tables::weights(layer.f, u, &mut shares);
    let mut table = [0u32; MAX_WIDTH];
    tables::folded(layer.f, values, u, &mut table);
    let left = Side {
        shares: &shares[..layout::width(u.len() as u32)],
        table: &table[..n >> u.len()],
        cut: Cut::at(k, u.len(), u.len() < k),
    };
    by_side(layer, left, values, v, k, k <= u.len())
}

// The three coefficients, constant first, of the sum round with `fixed` coordinates fixed, of a layer of 2^k values under the gates. The rows
// of `points` hold u and v. A k above the length of a row stands for all of it, a longer point counts by as many of its first words, and of
// more than MAX_WIDTH values the first MAX_WIDTH count.
pub fn sum_message(
    f: Field,
    gates: &[u32],
    point: &[u32],
    values: &[u32],
    points: [[u32; MAX_COORDINATES]; 2],
    k: usize,
    fixed: usize,
) -> [u32; 3]
    ensures { result ≡ round_message (numbers f) (min k row_length) (gates_in gates.now) (take row_length point.now) values.now points fixed }
{
    let exponent = k.min(MAX_COORDINATES);
    let first = fixed.min(exponent);
    let second = (fixed - first).min(exponent);
    let width = layout::width(MAX_COORDINATES.min(point.len()) as u32);
    let mut weights = [0u32; MAX_WIDTH];
    tables::weights(f, point, &mut weights);
    let layer = Layer {
        f,
        gates,
        weights: &weights[..width],
    };
    let [u, v] = points;
    by_points(layer, values, &u[..first], &v[..second], exponent)
}
