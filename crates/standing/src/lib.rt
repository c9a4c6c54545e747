// Where a walk stands: what a round's place and the coins before it say of a circuit. The check and the prover both read it here. Every public
// function is total; some promise nothing where the list is no legal circuit or the coins are not those before the place.
#![tactic(auto)]

ghost use Rattle.std.specs.Prelude.{◌≡◌, ◌*◌, ◌^◌, ◌≤◌, ◌-◌, length, take};
ghost use Rattle.extension.specs.Limits.{row_length};
ghost use Rattle.circuit.specs.Limits.{max_depth};
ghost use Rattle.circuit.specs.Circuit.{exponents, exponent_at};
ghost use Rattle.protocol.specs.Start.{first_point};
ghost use Rattle.protocol.specs.Rounds.{is_line};
ghost use Rattle.protocol.specs.Judge.{message_length};
ghost use Rattle.standing.specs.Row.{padded};
ghost use Rattle.standing.specs.Standing.{as_place, Row, PointStands, LayerSoFar, layer_sum, CoinsBefore, CoinsOf, WordsOf, ChecksOutputs, ChecksCoins, StandsAt};

use extension::MAX_COORDINATES;
use layout::MAX_DEPTH;
use refusal::Cause;
use std::marker::Model;

mod job;

pub use job::Job;

// A place of a walk: the layer from 1 on, the round from 0 on. Whether a circuit has such a round is for each function to say.
#[derive(Clone, Copy, PartialEq, Eq, Debug)]
pub struct Place {
    pub layer: usize,
    pub round: usize,
}

// The number of the round that is a layer's line.
pub fn line_round(circuit: &[u32], layer: usize) -> usize
    ensures { result ≡ 2 * exponent_at circuit.now layer }
{
    2 * layout::exponent(circuit, layer) as usize
}

impl Place {
    // Whether its round is its layer's line.
    pub fn is_line(self, circuit: &[u32]) -> bool
        ensures { result ≡ is_line circuit.now (as_place self) }
    {
        self.round == line_round(circuit, self.layer)
    }

    // The words of its round's message.
    #[tactic(auto, using(crate::proofs::Lengths::length_of_line, crate::proofs::Lengths::length_of_sum))]
    pub fn message_length(self, circuit: &[u32]) -> usize
        ensures { result ≡ message_length circuit.now (as_place self) }
    {
        if self.is_line(circuit) {
            layout::exponent(circuit, self.layer) as usize + 1
        } else {
            3
        }
    }
}

// The exponents of the layers before one, no more than a circuit can have.
fn exponents_before(circuit: &[u32], layer: usize) -> &[u32]
    ensures few { length result.now ≤ max_depth }
    ensures before { LayerSoFar circuit.now layer → result.now ≡ take (layer - 1) (exponents circuit.now) }
{
    let exponents = layout::exponents(circuit);
    let count = layer.saturating_sub(1).min(exponents.len()).min(MAX_DEPTH);
    &exponents[..count]
}

// The sum of a × k + 1 over exponents k.
fn layer_sum(exponents: &[u32], a: usize) -> usize
    requires { (a ≤ 7) × (length exponents.now ≤ max_depth) }
    ensures sum { result ≡ layer_sum a exponents.now }
    ensures small { result ≤ max_depth * (7 * 2 ^ 32) }
{
    exponents.iter().map(|&k| a * k as usize + 1).sum()
}

// The coins before a layer.
#[tactic(auto, using(crate::proofs::Coins::sum_start))]
pub fn coins_before(circuit: &[u32], layer: usize) -> usize
    ensures { CoinsBefore circuit.now layer result }
{
    layout::exponent(circuit, 0) as usize + layer_sum(exponents_before(circuit, layer), 2)
}

// The coins of a circuit.
#[tactic(auto, using(crate::proofs::Coins::so_far, crate::proofs::Coins::all_coins))]
pub fn coin_count(circuit: &[u32]) -> usize
    ensures { CoinsOf circuit.now result }
{
    coins_before(circuit, layout::depth(circuit) + 1)
}

// The words of all its messages.
#[tactic(auto, using(crate::proofs::Coins::so_far, crate::proofs::Coins::all_words))]
pub fn message_words(circuit: &[u32]) -> usize
    ensures { WordsOf circuit.now result }
{
    layer_sum(exponents_before(circuit, layout::depth(circuit) + 1), 7)
}

// The coins before any message, which form the first point; of fewer coins all.
#[tactic(auto, using(lists::proofs::Parts::least_front))]
pub fn first_point<'a>(circuit: &[u32], coins: &'a [u32]) -> &'a [u32]
    ensures { result.now ≡ first_point circuit.now coins.now }
{
    let count = coins.len().min(layout::exponent(circuit, 0) as usize);
    &coins[..count]
}

// The refusals 21 and 13.
#[tactic(auto, using(crate::proofs::Outputs::as_wide))]
pub fn check_outputs(circuit: &[u32], outputs: &[u32]) -> Result<(), Cause>
    ensures { ChecksOutputs circuit.now outputs.now result }
{
    if outputs.len() != layout::layer_width(circuit, 0) {
        return Err(Cause::OutputCount);
    }
    if !legality::all_below(outputs, layout::prime(circuit)) {
        return Err(Cause::OutputWord);
    }
    Ok(())
}

// The refusals 11 and 12.
pub fn check_coins(circuit: &[u32], coins: &[u32]) -> Result<(), Cause>
    ensures { ChecksCoins circuit.now coins.now result }
{
    if coins.len() != coin_count(circuit) {
        return Err(Cause::CoinCount);
    }
    if !legality::all_below(coins, layout::prime(circuit)) {
        return Err(Cause::CoinWord);
    }
    Ok(())
}

// A point of no more coordinates than a row holds. The rest of its row is 0, so that its coordinates say all of it, and it may be copied.
#[derive(Clone, Copy, Default)]
pub struct Point {
    row: [u32; MAX_COORDINATES],
    count: usize,
}

impl Model for Point {
    ghost use Rattle.std.specs.Prelude.{ℕ, ◌≡◌, ◌≤◌, List, length, take, replicate};
    ghost use Rattle.lists.proofs.Front.{front_again};
    ghost use Rattle.extension.specs.Limits.{row_length};
    ghost use Rattle.standing.specs.Row.{padded};

    ghost Value = { List ℕ };

    ghost view = { λ p. take p.count p.row };

    ghost inverse = { λ l. record { row = padded l; count = length l } };

    ghost invariant = { λ p. (p.count ≤ row_length) × (p.row ≡ padded (take p.count p.row)) };

    ghost inverse_ok = { λ p h. front_again (λ (row : List ℕ) (count : ℕ). record { row = row; count = count }) (replicate row_length 0) p.row p.count h.0 h.1 };
}

impl Point {
    // The point of these coordinates; of more than a row holds, the first.
    fn new(coordinates: &[u32]) -> Self
        ensures { result ≡ take row_length coordinates.now }
    {
        Point {
            row: row(coordinates),
            count: coordinates.len().min(MAX_COORDINATES),
        }
    }

    pub fn coordinates(&self) -> &[u32]
        ensures all { result.now ≡ self.now }
        ensures few { length result.now ≤ row_length }
    {
        &self.row[..self.count]
    }
}

// A point's coordinates in a row; of more than its length, the first.
#[tactic(auto, using(crate::proofs::Padded::padded_row))]
fn row(coordinates: &[u32]) -> [u32; MAX_COORDINATES]
    ensures front { Row (take row_length coordinates.now) result }
    ensures rest { result ≡ padded (take row_length coordinates.now) }
{
    let mut row = [0u32; MAX_COORDINATES];
    lists::put(&mut row, coordinates);
    row
}

// The standing point at a layer, from the coins before it: the end of the line of the layer above.
pub fn standing_point(circuit: &[u32], layer: usize, past: &[u32]) -> Point
    ensures { PointStands circuit.now layer past.now result }
{
    if layer < 2 {
        return Point::new(past);
    }
    let k = layout::exponent(circuit, layer - 1) as usize;
    let Some(start) = past.len().checked_sub(2 * k + 1) else {
        return Point::default();
    };
    let (u, rest) = past[start..].split_at(k);
    let (v, end) = rest.split_at(k);
    let f = layout::field(circuit);
    let line = summand::line_point(f, [row(u), row(v)], end[0]);
    Point::new(&line[..k.min(MAX_COORDINATES)])
}

// What stands at a round: the standing point, and the layer's coins so far as coordinates of its two points, of which it has as many as the
// layer's exponent says.
#[derive(Clone, Copy, Default)]
pub struct Stand {
    pub point: Point,
    pub own: usize,
    // Both rows in one array, as `combined`, `sum_message` and `line_message` take them.
    pub points: [[u32; MAX_COORDINATES]; 2],
}

// A place of a circuit's walk, with the coins before it.
#[derive(Clone, Copy)]
pub struct Round<'a> {
    pub circuit: &'a [u32],
    pub place: Place,
    pub past: &'a [u32],
}

impl Round<'_> {
    // What stands at it; nothing at layer 0, or where there are fewer coins than rounds before it. Whatever the list, `own` is no more than a row's
    // length.
    pub fn stand(self) -> Stand
        ensures { StandsAt self.entry.circuit.now (as_place self.entry.place) self.entry.past.now result }
    {
        let Round {
            circuit,
            place: Place { layer, round },
            past,
        } = self;
        if layer < 1 {
            return Stand::default();
        }
        let Some(start) = past.len().checked_sub(round) else {
            return Stand::default();
        };
        let own = (layout::exponent(circuit, layer) as usize).min(MAX_COORDINATES);
        let (before, coins) = past.split_at(start);
        let (u, v) = coins.split_at(round.min(own));
        Stand {
            point: standing_point(circuit, layer, before),
            own,
            points: [row(u), row(v)],
        }
    }
}
