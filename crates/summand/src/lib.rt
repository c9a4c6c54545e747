// The summand of a layer and the line between the two points of a claim, modulo a field's modulus. All of it is right for any words.
#![tactic(auto)]

ghost use Rattle.std.specs.Prelude.{◌≡◌, [], take, get_or};
ghost use Rattle.field.specs.Modulus.{numbers};
ghost use Rattle.circuit.specs.Gate.{operate};
ghost use Rattle.layout.specs.Gate.{kind_number};
ghost use Rattle.sumcheck.specs.Summand.{gate_weight, combined, line_point};
ghost use Rattle.summand.specs.Gates.{gates_in, PlaceOf, wirings, by_kinds};

use extension::MAX_COORDINATES;
use field::Field;
use layout::{Gate, Kind};

// How many kinds of gates do something with two values: Add, Multiply, then Subtract.
const KINDS: usize = 3;

// t times a difference, without a product where there is none: rows end in words that stand for no coordinate, and those are alike.
fn scaled(f: Field, t: u32, difference: u32) -> u32
    ensures { result ≡ (numbers f).mul t difference }
{
    if difference == 0 {
        return Field::ZERO;
    }
    f.mul(t, difference)
}

// The point of the line from the first row to the second, at t: u + t × (v - u), coordinate by coordinate.
pub fn line_point(f: Field, points: [[u32; MAX_COORDINATES]; 2], t: u32) -> [u32; MAX_COORDINATES]
    ensures { result ≡ line_point (numbers f) (get_or points 0 []) (get_or points 1 []) t }
{
    let [u, v] = points;
    let mut line = [0u32; MAX_COORDINATES];
    // By place: the word that is written and both rows' words have the same.
    for (i, &x) in u.iter().enumerate() {
        line[i] = f.add(x, scaled(f, t, f.sub(v[i], x)));
    }
    line
}

// The weight of gate a, with its two wires.
fn gate_weight(f: Field, a: usize, gate: Gate, point: &[u32], u: &[u32], v: &[u32]) -> u32
    ensures { result ≡ gate_weight (numbers f) point.now u.now v.now a gate.left gate.right }
{
    let output = extension::weight_of(f, a, point);
    let first = extension::weight_of(f, gate.left as usize, u);
    let second = extension::weight_of(f, gate.right as usize, v);
    f.mul(f.mul(output, first), second)
}

// Where the sum over the gates of a kind stands, where the kind has one.
fn place(kind: u32) -> Option<usize>
    ensures { PlaceOf kind result }
{
    match Kind::try_from(kind) {
        Ok(Kind::Add) => Some(0),
        Ok(Kind::Multiply) => Some(1),
        Ok(Kind::Subtract) => Some(2),
        _ => None,
    }
}

// The sums over the gates of each kind, in one pass. The weight of a gate that counts in none
// is not computed.
fn wirings(f: Field, gates: &[u32], point: &[u32], u: &[u32], v: &[u32]) -> [u32; KINDS]
    ensures { result ≡ wirings (numbers f) (gates_in gates.now) point.now u.now v.now }
{
    let mut sums = [Field::ZERO; KINDS];
    for (a, &words) in layout::gates(gates).iter().enumerate() {
        let gate = Gate::from(words);
        if let Some(i) = place(gate.kind) {
            let weight = gate_weight(f, a, gate, point, u, v);
            sums[i] = f.add(weight, sums[i]);
        }
    }
    sums
}

// The sum over the gates of a kind times what it does with x and y. A kind whose sum is 0 costs no product.
fn by_kind(f: Field, sum: u32, kind: Kind, x: u32, y: u32) -> u32
    ensures { result ≡ (numbers f).mul sum (operate (numbers f) (kind_number kind) x y) }
{
    if sum == 0 {
        return Field::ZERO;
    }
    f.mul(sum, evaluation::kind_value(f, kind, x, y))
}

// The sums, each times what its kind does with x and y.
fn by_kinds(f: Field, sums: [u32; KINDS], x: u32, y: u32) -> u32
    ensures { result ≡ by_kinds (numbers f) sums x y }
{
    let [added, multiplied, subtracted] = sums;
    let others = f.add(
        by_kind(f, multiplied, Kind::Multiply, x, y),
        by_kind(f, subtracted, Kind::Subtract, x, y),
    );
    f.add(by_kind(f, added, Kind::Add, x, y), others)
}

// The summand at the two points, the first k coordinates of each row, where the next layer's extension is x at the first and y at the second.
// A k above the length of a row stands for all of it.
pub fn combined(
    f: Field,
    gates: &[u32],
    point: &[u32],
    points: [[u32; MAX_COORDINATES]; 2],
    k: usize,
    x: u32,
    y: u32,
) -> u32
    ensures { result ≡ combined (numbers f) (gates_in gates.now) point.now (take k (get_or points 0 [])) (take k (get_or points 1 [])) x y }
{
    let n = k.min(MAX_COORDINATES);
    let [u, v] = points;
    by_kinds(f, wirings(f, gates, point, &u[..n], &v[..n]), x, y)
}
