// Arithmetic modulo a number of at most 32 bits. Every function is right for all words, residues or not, and asks nothing of its caller;
// on residues the short branches are the ones taken.
#![tactic(auto)]

ghost use Rattle.std.specs.Prelude.{◌≡◌, ◌-◌, ◌%◌};
ghost use Rattle.primes.specs.Prime.{is_listed};
ghost use Rattle.field.specs.Modulus.{modulus, numbers};

// 2^32: a number of up to 64 bits is parted into two words by it.
pub const WORD: u64 = 1 << 32;

// The modulus, by its largest residue: no value of this type has a zero modulus, and 2^32 fits.
#[derive(Clone, Copy, PartialEq, Eq, Debug)]
pub struct Field {
    pub largest: u32,
}

// A number to multiply by often: the multiplier, and its share of 2^32 that stands in for a division.
#[derive(Clone, Copy, PartialEq, Eq, Debug)]
pub struct Multiplier {
    pub by: u32,
    pub share: u32,
}

impl Field {
    pub const ZERO: u32 = 0;

    pub const ONE: u32 = 1;

    // The field of the residues modulo p.
    pub fn of(p: u32) -> Field
        ensures { result.largest ≡ p - 1 }
    {
        Field {
            largest: p.saturating_sub(1),
        }
    }

    // The residue of a word.
    pub fn reduce(word: u32, p: u32) -> u32
        ensures { result ≡ word % p }
    {
        if p == 0 { word } else { word % p }
    }

    fn modulus(self) -> u64
        ensures { result ≡ modulus self }
    {
        u64::from(self.largest) + 1
    }

    // The remainder of a number of up to 64 bits. It fits in a word by proof, so by `as`, and not by `try_from` with an error that never comes.
    pub fn remainder(self, n: u64) -> u32
        ensures { result ≡ n % modulus self }
    {
        (n % self.modulus()) as u32
    }

    // The same, with no division for a number below twice the modulus.
    #[tactic(auto, using(crate::proofs::Word::below, crate::proofs::Word::once))]
    fn reduce_once(self, n: u64) -> u32
        ensures { result ≡ n % modulus self }
    {
        // Not by `modulus`: the prover is up to 3 percent faster so.
        let p = u64::from(self.largest) + 1;
        let r = if n < p { n } else { n - p };
        if r < p {
            return r as u32;
        }
        self.remainder(n)
    }

    pub fn add(self, a: u32, b: u32) -> u32
        ensures { result ≡ (numbers self).add a b }
    {
        self.reduce_once(u64::from(a) + u64::from(b))
    }

    #[tactic(auto, using(crate::proofs::Word::difference))]
    pub fn sub(self, a: u32, b: u32) -> u32
        ensures { result ≡ (numbers self).sub a b }
    {
        let p = self.modulus();
        let s = u64::from(a) + p;
        let y = u64::from(b);
        if y <= s {
            return self.reduce_once(s - y);
        }
        let r = u64::from(self.remainder(y));
        self.remainder(u64::from(a) + (p - r))
    }

    pub fn mul(self, a: u32, b: u32) -> u32
        ensures { result ≡ (numbers self).mul a b }
    {
        self.remainder(u64::from(a) * u64::from(b))
    }

    // The residue of a word, made ready to multiply by.
    pub fn multiplier(self, word: u32) -> Multiplier
        ensures { result.by ≡ word % modulus self }
    {
        let by = self.reduce_once(u64::from(word));
        let share = u64::from(by) * WORD / self.modulus();
        Multiplier {
            by,
            share: share as u32,
        }
    }

    // The product, with no division where the share is the multiplier's own; any other share gives the same answer.
    #[tactic(auto, using(crate::proofs::Word::less_multiple))]
    pub fn times(self, m: Multiplier, a: u32) -> u32
        ensures { result ≡ (numbers self).mul m.by a }
    {
        let n = u64::from(m.by) * u64::from(a);
        let q = u64::from(m.share) * u64::from(a) / WORD;
        let t = q * self.modulus();
        if t <= n {
            return self.reduce_once(n - t);
        }
        self.remainder(n)
    }
}

// Whether a word is one of the four moduli.
#[tactic(auto, unfolding(primes::specs::Prime::is_one_of))]
pub fn is_listed(p: u32) -> bool
    ensures { result ≡ is_listed p }
{
    matches!(p, 13 | 65537 | 2147483647 | 4294967291)
}
