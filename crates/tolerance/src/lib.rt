// Tolerances in four forms, and the parts in lowest terms that each means: one for samples above the line, one for those below.
#![tactic(auto)]

ghost use Rattle.std.specs.Prelude.{◌≡◌, ℕ, ◌^◌, ◌≤◌, cond};
ghost use Rattle.ratio.specs.Gcd.{lowest};
ghost use Rattle.tolerance.specs.Meaning.{meaning, steps_of, allowed_ratio, alike as alike_of, agree as agree_of};

use ratio::Ratio;

// A channel's noise, in ADC counts, and the multiple of it that is wanted.
#[derive(Clone, Copy)]
pub struct Noise {
    pub noise: f64,
    pub multiple: f64,
}

// The part for samples above the line, and the part for those below (document 02, "Above and below": U and D).
#[derive(Clone, Copy, PartialEq, Eq)]
pub struct Parts {
    pub up: Ratio,
    pub down: Ratio,
}

// The first three forms mean the same above and below.
#[derive(Clone, Copy)]
pub enum Tolerance {
    Ratio(u64, u64),
    Counts(f64),
    Noise(Noise),
    Parts(Parts),
}

// One ratio for both parts.
pub fn alike(r: Ratio) -> Parts
    ensures { result ≡ alike_of r }
{
    Parts { up: r, down: r }
}

// Whether the parts are equal, as those in lowest terms are exactly if their numbers are.
#[tactic(auto, unfolding(crate::specs::Meaning::agree))]
pub fn agree(x: Parts) -> bool
    ensures { result ≡ agree_of x }
{
    x.up == x.down
}

// The whole number k x, where x is from 0 to most and k x is whole, for a k that is a power of two.
fn take_steps(x: f64, k: u64, most: u64) -> Option<u64>
    requires by_index { (j : ℕ) × (k ≡ 2 ^ j) × (j ≤ 9) }
    requires most_bound { most ≤ 65535 }
    ensures { result ≡ steps_of x k most }
{
    let scale = k as f64;
    let y = x * scale;
    if y > -1.0 && y < 18446744073709551616.0 {
        let n = std::num::truncating_f64_to_u64(y);
        if n <= most * k && n as f64 / scale == x {
            return Some(n);
        }
    }
    None
}

fn of_counts(x: f64) -> Option<Parts>
    ensures { result ≡ meaning (Tolerance.Counts x) }
{
    let n = take_steps(x, 64, 65535)?;
    Some(alike(ratio::reduce(n, 64)))
}

// The product of two f64 in whole steps is exact, and so is the number of 512ths in it.
fn of_noise(r: Noise) -> Option<Parts>
    ensures { result ≡ meaning (Tolerance.Noise r) }
{
    take_steps(r.noise, 64, 1023)?;
    take_steps(r.multiple, 8, 63)?;
    let product = r.noise * r.multiple;
    let n = std::num::truncating_f64_to_u64(product * 512.0);
    Some(alike(ratio::reduce(n, 512)))
}

// Whether a fraction is allowed as a ratio.
pub fn is_allowed(r: Ratio) -> bool
    ensures { result ≡ allowed_ratio r.p r.q }
{
    1 <= r.q && r.q <= 1_048_575 && r.p <= 65_535 * r.q
}

// A fraction in lowest terms, where it is allowed as a ratio.
#[tactic(auto, using(crate::proofs::Meanings::allowed_pos))]
fn reduced(r: Ratio) -> Option<Ratio>
    ensures { result ≡ cond (allowed_ratio r.p r.q) (Some (lowest r.p r.q)) None }
{
    if is_allowed(r) {
        Some(ratio::reduce(r.p, r.q))
    } else {
        None
    }
}

fn of_ratio(p: u64, q: u64) -> Option<Parts>
    ensures { result ≡ meaning (Tolerance.Ratio p q) }
{
    let r = reduced(Ratio { p, q })?;
    Some(alike(r))
}

// Both parts are tested before one is reduced, so that a part that is not allowed is refused without a division.
#[tactic(auto, using(crate::proofs::Meanings::allowed_pos))]
fn of_parts(x: Parts) -> Option<Parts>
    ensures { result ≡ meaning (Tolerance.Parts x) }
{
    if is_allowed(x.up) && is_allowed(x.down) {
        let up = ratio::reduce(x.up.p, x.up.q);
        let down = ratio::reduce(x.down.p, x.down.q);
        Some(Parts { up, down })
    } else {
        None
    }
}

// The tolerance as parts in lowest terms.
pub fn meaning_of(t: Tolerance) -> Option<Parts>
    ensures { result ≡ meaning t }
{
    match t {
        Tolerance::Ratio(p, q) => of_ratio(p, q),
        Tolerance::Counts(x) => of_counts(x),
        Tolerance::Noise(r) => of_noise(r),
        Tolerance::Parts(x) => of_parts(x),
    }
}
