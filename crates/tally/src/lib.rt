// Sums of products that are reduced once, at their end, and not for each product. All of it is right for any words and any halves.
#![tactic(auto)]

ghost use Rattle.std.specs.Prelude.{◌≡◌, ℕ, ◌%◌, ◌^◌, ◌<◌};
ghost use Rattle.field.specs.Modulus.{modulus, numbers};
ghost use Rattle.tally.specs.Tally.{tallied};

use field::{Field, WORD};

// What a half stays below: no sum of 2^30 products needs a reduction on the way.
const ROOM: u64 = 1 << 62;

// A sum of products: their high words are summed in one half and their low words in the other.
#[derive(Clone, Copy, PartialEq, Eq, Debug)]
pub struct Tally {
    pub high: u64,
    pub low: u64,
}

// A half with room for a word: the half itself, or its residue.
fn with_room(f: Field, half: u64) -> u64
    ensures { (result < 2 ^ 62) × (result % modulus f ≡ half % modulus f) }
{
    if half < ROOM {
        half
    } else {
        u64::from(f.remainder(half))
    }
}

impl Tally {
    #[tactic(auto, unfolding(crate::specs::Tally::tallied))]
    pub fn empty() -> Tally
        ensures { (p : ℕ) → tallied p result ≡ 0 }
    {
        Tally { high: 0, low: 0 }
    }

    // One product more.
    #[tactic(auto, using(crate::proofs::Halves::one_more), unfolding(crate::specs::Tally::tallied))]
    pub fn plus(self, f: Field, a: u32, b: u32) -> Tally
        ensures { tallied (modulus f) result ≡ (numbers f).add ((numbers f).mul a b) (tallied (modulus f) self) }
    {
        let product = u64::from(a) * u64::from(b);
        Tally {
            high: with_room(f, self.high) + product / WORD,
            low: with_room(f, self.low) + product % WORD,
        }
    }

    // The residue of the sum: what the low words come to above a word is carried, so two divisions are enough.
    #[tactic(auto, using(crate::proofs::Halves::all_of), unfolding(crate::specs::Tally::tallied))]
    pub fn residue(self, f: Field) -> u32
        ensures { result ≡ tallied (modulus f) self }
    {
        let high = with_room(f, self.high) + self.low / WORD;
        f.remainder(u64::from(f.remainder(high)) * WORD + self.low % WORD)
    }
}
