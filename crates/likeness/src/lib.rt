// Likeness: the four measures over a threshold p / q, exact and in whole numbers. When two names are similar, which sizes are searched, the
// least count of shared features, and a threshold in lowest terms. What is right stands in specs/. Nothing here knows a name or a feature.
#![tactic(auto)]

ghost use Rattle.std.specs.Prelude.{◌≡◌, ◌<◌, ◌^◌};
ghost use Rattle.likeness.specs.Measures.{good_measure, good_threshold, reaches, is_similar};
ghost use Rattle.likeness.specs.Named.{meant, NameOf};
ghost use Rattle.likeness.specs.Sizes.{beside, is_searched};
ghost use Rattle.likeness.specs.Least.{least_count};
ghost use Rattle.likeness.specs.Terms.{divisor_of, lowest_terms};

// A threshold p / q.
#[derive(Clone, Copy)]
pub struct Threshold {
    pub p: u16,
    pub q: u16,
}

// The four measures.
#[derive(Clone, Copy)]
enum Measure {
    Dice,
    Jaccard,
    Cosine,
    Overlap,
}

// A measure's number is from 1 to 4; the error is a number that names none.
impl TryFrom<u8> for Measure {
    type Error = u8;

    ghost try_from_gives = { NameOf };

    fn try_from(number: u8) -> Result<Measure, u8> {
        match number {
            1 => Ok(Measure::Dice),
            2 => Ok(Measure::Jaccard),
            3 => Ok(Measure::Cosine),
            4 => Ok(Measure::Overlap),
            _ => Err(number),
        }
    }
}

// A measure is a number from 1 to 4.
pub fn good_measure(measure: u8) -> bool
    ensures { result ≡ good_measure measure }
{
    (1..=4).contains(&measure)
}

// A threshold has 1 ≤ p ≤ q ≤ 1000.
pub fn good_threshold(p: u16, q: u16) -> bool
    ensures { result ≡ good_threshold p q }
{
    1 <= p && p <= q && q <= 1000
}

// The rule's inequality for each measure, at any p and q.
fn reaches_threshold(measure: Measure, p: u16, q: u16, x: u8, y: u8, c: u8) -> bool
    ensures { result ≡ reaches (meant measure) p q x y c }
{
    let p = u64::from(p);
    let q = u64::from(q);
    let x = u64::from(x);
    let y = u64::from(y);
    let c = u64::from(c);
    match measure {
        Measure::Dice => 2 * c * q >= p * (x + y),
        Measure::Jaccard => c * q >= p * (x + y).saturating_sub(c),
        // c²q² ≥ p²xy, as the leaflet has it
        Measure::Cosine => c * c * q * q >= p * p * x * y,
        Measure::Overlap => c * q >= p * x.min(y),
    }
}

// The least count of shared features: the first c from 1 upward that passes that line. One does by the larger size, or 1 does. 0 where the measure or the
// threshold is bad.
pub fn least_count(measure: u8, p: u16, q: u16, x: u8, y: u8) -> u8
    ensures { result ≡ least_count measure p q x y }
{
    let Ok(measure) = Measure::try_from(measure) else {
        return 0;
    };
    if !good_threshold(p, q) {
        return 0;
    }
    (1..=u8::MAX)
        .find(|c| reaches_threshold(measure, p, q, x, y, *c))
        .unwrap()
}

// Whether two names of x and y features, with so many shared, are similar; never where the measure or the threshold is bad.
pub fn similar(measure: u8, p: u16, q: u16, x: u8, y: u8, shared: u8) -> bool
    ensures { result ≡ is_similar measure p q x y shared }
{
    let Ok(measure) = Measure::try_from(measure) else {
        return false;
    };
    good_threshold(p, q) && reaches_threshold(measure, p, q, x, y, shared)
}

// low·x ≤ high·y and low·y ≤ high·x.
fn sizes_beside(low: u64, high: u64, x: u8, y: u8) -> bool
    requires { (low < 2 ^ 32) × (high < 2 ^ 32) }
    ensures { result ≡ beside low high x y }
{
    let x = u64::from(x);
    let y = u64::from(y);
    low * x <= high * y && low * y <= high * x
}

// Whether size y is searched for a query of size x; none is where the measure or the threshold is bad.
pub fn searched(measure: u8, p: u16, q: u16, x: u8, y: u8) -> bool
    ensures { result ≡ is_searched measure p q x y }
{
    let Ok(measure) = Measure::try_from(measure) else {
        return false;
    };
    if !good_threshold(p, q) {
        return false;
    }
    let p = u64::from(p);
    let q = u64::from(q);
    match measure {
        Measure::Dice => sizes_beside(p, (2 * q).saturating_sub(p), x, y),
        Measure::Jaccard => sizes_beside(p, q, x, y),
        Measure::Cosine => sizes_beside(p * p, q * q, x, y),
        Measure::Overlap => true,
    }
}

// The greatest common divisor, by Euclid's falling remainders; that of 0 and 0 is 0.
pub fn divisor(p: u16, q: u16) -> u16
    ensures { result ≡ divisor_of p q }
{
    if q == 0 { p } else { divisor(q, p % q) }
}

// p / q in lowest terms; 0 / 0 stays 0 / 0.
pub fn lowest(p: u16, q: u16) -> Threshold
    ensures { result ≡ lowest_terms p q }
{
    let g = divisor(p, q);
    if g == 0 {
        Threshold { p: 0, q: 0 }
    } else {
        Threshold { p: p / g, q: q / g }
    }
}
