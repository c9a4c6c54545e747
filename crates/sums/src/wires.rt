// A wire, by the tables of one of the two points.
ghost use Rattle.std.specs.Prelude.{◌≡◌, ◌≤◌, ◌^◌};
ghost use Rattle.circuit.specs.Limits.{max_exponent};

// How a wire's number is cut: its `free` last bits are for the coordinates not fixed, `size` is 2^free, and `half` half of it, or 0 where
// the next coordinate is the other point's. No flag: half is what a number's bit is turned by, and to turn by 0 costs no branch.
#[derive(Clone, Copy)]
pub struct Cut {
    pub free: usize,
    pub size: usize,
    pub half: usize,
    ghost within: { free ≤ max_exponent },
    ghost power: { size ≡ 2 ^ free },
    ghost part: { half ≤ size },
}

// What is known of one of the two points, its first coordinates being fixed: the weights of a wire's first bits at these, the values with
// these fixed, and how a wire's number is cut.
#[derive(Clone, Copy)]
pub struct Side<'a> {
    pub shares: &'a [u32],
    pub table: &'a [u32],
    pub cut: Cut,
}

// What a side says of a wire: the weight of its first bits, the value at the others, the value with the first of these turned, and whether
// that bit is 1. The bit is no flag: nothing beside it holds only where it is set.
#[derive(Clone, Copy)]
pub struct Wire {
    pub share: u32,
    pub own: u32,
    pub other: u32,
    pub one: bool,
}

impl Side<'_> {
    ghost use Rattle.sums.specs.Wire.{side, Reads};

    pub fn wire(self, number: u32) -> Wire
        ensures { Reads (side self.entry) number result }
    {
        let number = number as usize;
        let cut = self.cut;
        let high = number >> cut.free;
        let low = number - high * cut.size;
        let up = low + cut.half;
        let turned = if up < cut.size { up } else { up - cut.size };
        Wire {
            share: lists::word(self.shares, high),
            own: lists::word(self.table, low),
            other: lists::word(self.table, turned),
            one: turned < low,
        }
    }
}
