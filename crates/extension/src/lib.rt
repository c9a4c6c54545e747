// The multilinear extension of a list of words, and the weight of an index, modulo a field's modulus. Both are right for lists and points of
// any length.
#![tactic(auto)]

ghost use Rattle.std.specs.Prelude.{◌≡◌};
ghost use Rattle.field.specs.Modulus.{modulus, numbers};
ghost use Rattle.multilinear.specs.Extension.{weight, between};
ghost use Rattle.extension.specs.Extended.{Extends};

use field::Field;

// The words of a row, which holds a point's coordinates at its front.
pub const MAX_COORDINATES: usize = 8;

// (1 - z) × low + z × high, by one product: low + z × (high - low)
#[tactic(auto, using(multilinear::proofs::Slope::by_slope))]
fn between(f: Field, z: u32, low: u32, high: u32) -> u32
    ensures { result ≡ between (numbers f) z low high }
{
    f.add(low, f.mul(z, f.sub(high, low)))
}

// The extension of the values at the point, from those of their halves; the number of coordinates that remain falls. With no coordinate
// it is the first value.
pub fn extend(f: Field, values: &[u32], point: &[u32]) -> u32
    ensures { Extends (modulus f) values.now point.now result }
{
    let [z, rest @ ..] = point else {
        return lists::word(values, 0);
    };
    let (lower, upper) = values.split_at(values.len() / 2);
    let low = extend(f, lower, rest);
    let high = extend(f, upper, rest);
    between(f, *z, low, high)
}

// The weight of an index at the point. The lowest bit belongs to the last coordinate, so the product is built from there. Both factors are
// computed before one is taken: no processor can guess the bits of an index.
pub fn weight_of(f: Field, index: usize, point: &[u32]) -> u32
    ensures { result ≡ weight (numbers f) index point.now }
{
    let mut product = Field::ONE;
    let mut rest = index;
    for &z in point.iter().rev() {
        let complement = f.sub(Field::ONE, z);
        let factor = if rest % 2 == 1 { z } else { complement };
        product = f.mul(factor, product);
        rest /= 2;
    }
    product
}
