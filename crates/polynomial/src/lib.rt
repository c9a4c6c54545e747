// The value of a polynomial at a word, modulo a field's modulus. It is right for coefficient lists of any length and any words.
#![tactic(auto)]

ghost use Rattle.std.specs.Prelude.{◌≡◌};
ghost use Rattle.field.specs.Modulus.{numbers};
ghost use Rattle.algebra.specs.Polynomial.{value_at};

use field::Field;

// The coefficients stand with the constant first. Horner's rule starts from the last.
pub fn value_at(f: Field, coefficients: &[u32], x: u32) -> u32
    ensures { result ≡ value_at (numbers f) coefficients.now x }
{
    coefficients
        .iter()
        .rev()
        .fold(Field::ZERO, |value, &c| f.add(c, f.mul(x, value)))
}
