// The line message of a layer: the coefficients of the extension of its values along the line between two points, modulo a field's modulus.
// It is right for values and points of any words.
#![tactic(auto)]

ghost use Rattle.std.specs.Prelude.{◌≤◌, ◌<◌, ◌≡◌, [], length, take, get_or};
ghost use Rattle.lists.specs.Buffer.{over};
ghost use Rattle.field.specs.Modulus.{numbers};
ghost use Rattle.extension.specs.Limits.{row_length};
ghost use Rattle.sumcheck.specs.Line.{along, line_halving};
ghost use Rattle.line.specs.Row.{padded};

use extension::MAX_COORDINATES;
use field::Field;

// The coefficients of a line between points that fill their rows.
pub const MAX_COEFFICIENTS: usize = MAX_COORDINATES + 1;

// The coefficients of low + (x + d X) × (high - low), one more than high has, over those of low at the front of the row.
fn along(f: Field, x: u32, d: u32, row: &mut [u32], high: &[u32])
    requires { length high.now < length row.old }
    ensures { row.new ≡ over (along (numbers f) x d 0 (take (length high.now) row.old) high.now) row.old }
{
    let mut carry = Field::ZERO;
    // By index, since a proof knows no value of a word that `iter_mut().zip(..)` has lent.
    for (i, &h) in high.iter().enumerate() {
        let a = row[i];
        let difference = f.sub(h, a);
        row[i] = f.add(f.add(a, f.mul(x, difference)), f.mul(d, carry));
        carry = difference;
    }
    row[high.len()] = f.mul(d, carry);
}

// The coefficients along the line from u to v, at the front of the row, from those of the values' halves; the number of coordinates that
// remain falls. A single coordinate needs no further call.
fn halves(f: Field, values: &[u32], u: &[u32], v: &[u32], row: &mut [u32])
    requires { (length u.now ≡ length v.now) × (length u.now ≤ row_length) × (length u.now < length row.old) }
    ensures { row.new ≡ over (line_halving (numbers f) values.now u.now v.now) row.old }
{
    let [x, us @ ..] = u else {
        // The one coefficient of a line with no coordinate.
        row[0] = lists::word(values, 0);
        return;
    };
    let d = f.sub(v[0], *x);
    let vs = &v[1..];
    let (lower, upper) = values.split_at(values.len() / 2);
    if us.is_empty() {
        row[0] = lists::word(lower, 0);
        along(f, *x, d, row, &[lists::word(upper, 0)]);
        return;
    }
    halves(f, lower, us, vs, row);
    let mut high = [0u32; MAX_COEFFICIENTS];
    halves(f, upper, us, vs, &mut high);
    along(f, *x, d, row, &high[..u.len()]);
}

// The coefficients, constant first, of the extension of the values along the line from the first row to the second, and 0 in the words
// behind them. The points are the first k words of each row; a k above the length of a row stands for all of it.
pub fn line_message(
    f: Field,
    values: &[u32],
    points: [[u32; MAX_COORDINATES]; 2],
    k: usize,
) -> [u32; MAX_COEFFICIENTS]
    ensures { result ≡ padded (line_halving (numbers f) values.now (take k (get_or points 0 [])) (take k (get_or points 1 []))) }
{
    let n = k.min(MAX_COORDINATES);
    let [u, v] = points;
    let mut row = [0u32; MAX_COEFFICIENTS];
    halves(f, values, &u[..n], &v[..n], &mut row);
    row
}
