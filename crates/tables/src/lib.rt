// Tables over the gates of a layer, modulo a field's modulus: the weights of all indices at a point, and values with their first variables
// fixed. A point longer than MAX_COORDINATES counts by as many of its first words. All of it is right for any words. The caller lends the
// table, so that none is copied on the way back; one of another length than MAX_WIDTH is left as it was.
#![tactic(auto)]

ghost use Rattle.std.specs.Prelude.{ℕ, ◌≡◌, ◌/◌, length, take};
ghost use Rattle.lists.specs.Buffer.{over};
ghost use Rattle.field.specs.Modulus.{numbers};
ghost use Rattle.extension.specs.Limits.{row_length};
ghost use Rattle.multilinear.specs.Extension.{fold};
ghost use Rattle.multilinear.specs.Tables.{weights, folded};
ghost use Rattle.tables.specs.Limits.{table_width};
ghost use Rattle.tables.specs.Table.{Written, spread, paired};

use extension::MAX_COORDINATES;
use field::Field;

// The words of a table: one for each index at a point that fills its row.
pub const MAX_WIDTH: usize = 1 << MAX_COORDINATES;

// Replaces each pair of words, one from either half of a table, by the two that the step makes of them.
fn each_pair<F: Fn(u32, u32) -> (u32, u32)>(table: &mut [u32], step: F)
    requires { F.IsAlwaysCallable step }
    ensures { (a b : ℕ → ℕ → ℕ) → ((x y : ℕ) (r : ℕ × ℕ) → F.post step x y r → r ≡ (a x y, b x y)) → table.new ≡ paired a b table.old }
{
    let half = table.len() / 2;
    let (lower, upper) = table.split_at_mut(half);
    // The upper half by place: behind a zip with `iter_mut` a proof knows no value of a word.
    for (i, low) in lower.iter_mut().enumerate() {
        (*low, upper[i]) = step(*low, upper[i]);
    }
}

// Puts z before the point whose weights are the first half of a table: its two factors make two halves. What z takes of a weight is a product,
// what 1 - z takes of it is the rest.
fn spread(f: Field, table: &mut [u32], z: u32)
    ensures { table.new ≡ over (spread (numbers f) z (take (length table.old / 2) table.old)) table.old }
{
    let by = f.multiplier(z);
    each_pair(table, |weight, _| {
        let taken = f.times(by, weight);
        (f.sub(weight, taken), taken)
    });
}

// Writes the weights of all indices at the point to a table's front. The first variable has the highest bit, so the last coordinate comes
// first.
pub fn weights(f: Field, point: &[u32], table: &mut [u32])
    ensures { Written (weights (numbers f) (take row_length point.now)) table.old table.new }
{
    if table.len() != MAX_WIDTH {
        return;
    }
    table[0] = Field::ONE;
    let mut n = 1;
    let count = MAX_COORDINATES.min(point.len());
    for &z in point[..count].iter().rev() {
        n *= 2;
        spread(f, &mut table[..n], z);
    }
}

// Fixes the first variable of a table at r: its fold is written over the front.
fn fold(f: Field, table: &mut [u32], r: u32)
    ensures { table.new ≡ over (fold (numbers f) r table.old) table.old }
{
    let by = f.multiplier(r);
    each_pair(
        table,
        |low, high| (f.add(low, f.times(by, f.sub(high, low))), high),
    );
}

// Not one function with `weights`: the table grows there and shrinks here, from the other end of the point.
// Writes the values with their first variables fixed at the point to a table's front. Of more than MAX_WIDTH values the first MAX_WIDTH count.
pub fn folded(f: Field, values: &[u32], point: &[u32], table: &mut [u32])
    ensures { Written (folded (numbers f) (take row_length point.now) (take table_width values.now)) table.old table.new }
{
    if table.len() != MAX_WIDTH {
        return;
    }
    let mut n = lists::put(table, values);
    let coordinates = &point[..MAX_COORDINATES.min(point.len())];
    for &r in coordinates {
        fold(f, &mut table[..n], r);
        n /= 2;
    }
}
