// Why an operation refuses: a case for each number of the specification.
#![tactic(auto)]

ghost use Rattle.std.specs.Prelude.{◌≡◌};
ghost use Rattle.refusal.specs.Number.{number_of};

#[derive(Clone, Copy, PartialEq, Eq, Debug)]
pub enum Cause {
    // Fewer than three words.
    HeaderShort = 1,
    // The modulus is not one of the listed primes.
    PrimeUnlisted = 2,
    // The depth is out of range.
    DepthRange = 3,
    // The list ends before its exponents, or one is too large.
    ExponentRange = 4,
    // The word count is not what the exponents call for.
    WordCount = 5,
    // A gate's kind is unknown.
    GateKind = 6,
    // A gate's wires are outside the next layer, out of order where it does not subtract, or an empty gate has one.
    GateWires = 7,
    // The input count is not the input layer's.
    InputCount = 8,
    // An input word is not below p.
    InputWord = 9,
    // A lent buffer is too short.
    BufferShort = 10,
    // The coin count is wrong.
    CoinCount = 11,
    // A coin is not below p.
    CoinWord = 12,
    // An output is not below p.
    OutputWord = 13,
    // A message, or all of them, has the wrong length.
    MessageLength = 14,
    // A message word is not below p.
    MessageWord = 15,
    // A sum round differs from the standing claim.
    RoundDiffers = 16,
    // The line message does not give the standing claim.
    LineDiffers = 17,
    // The input's extension differs from the last claim.
    InputDiffers = 18,
    // The session's record has ended or does not fit the circuit.
    RecordUnfit = 19,
    // The bytes are not the arrays that were called for.
    BytesUnfit = 20,
    // The outputs are not as many as the circuit has.
    OutputCount = 21,
}

impl From<Cause> for u32 {
    ghost from_gives = { λ cause number. number ≡ number_of cause };

    fn from(cause: Cause) -> u32 {
        cause as u32
    }
}
