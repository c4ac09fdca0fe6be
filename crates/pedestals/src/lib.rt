// The comparison of two pedestal runs of a crate: a product above the engine, from its public calls alone.
#![tactic(auto)]

ghost use Rattle.std.specs.Prelude.{◌≡◌};
ghost use Rattle.pedestals.specs.Compare.{cause_number, cause_value, lent, CompareOutcome};
ghost use Rattle.pedestals.specs.declared.Cause.TheVariants.{Call};

mod checks;

use listing::Counts;
use refusal::Refusal;
use tolerance::Tolerance;

// A pedestal run: the ticks and values of its channels, end to end, and each channel's length.
#[derive(Clone, Copy)]
pub struct Run<'a> {
    pub ticks: &'a [u32],
    pub values: &'a [i16],
    pub lengths: &'a [usize],
}

// Why a comparison is refused: a cause of the call; or a channel's trace is refused, with a cause of its own.
#[derive(Clone, Copy, Debug, PartialEq, Eq)]
pub enum Cause {
    Call(Refusal),
    Trace(usize, Refusal),
}

impl From<Refusal> for Cause {
    ghost from_gives = { λ x c. c ≡ Call x };

    fn from(x: Refusal) -> Cause {
        Cause::Call(x)
    }
}

// A cause's number: of a channel's trace its own.
pub fn number(x: Cause) -> u32
    ensures { result ≡ cause_number x }
{
    match x {
        Cause::Call(r) | Cause::Trace(_, r) => r.number(),
    }
}

// What is returned with it: of a channel's trace the channel.
pub fn returned(x: Cause) -> usize
    ensures { result ≡ cause_value x }
{
    match x {
        Cause::Call(r) => r.returned(),
        Cause::Trace(c, _) => c,
    }
}

// Compares two pedestal runs of a crate, run 1 today's: lists the channels that have moved by more than the tolerance, and those whose width
// is more than k times that of run 2. Each list has an entry a channel or more; its first entries are the channels, in rising order.
pub fn compare(
    today: Run,
    earlier: Run,
    t: Tolerance,
    k: u64,
    moved: &mut [u16],
    noisy: &mut [u16],
) -> Result<Counts, Cause>
    ensures { CompareOutcome (lent today.entry) (lent earlier.entry) t k moved.old noisy.old result moved.new noisy.new }
{
    let r = checks::check(today, earlier, t, k, moved.len(), noisy.len())?;
    Ok(listing::list_channels(
        today.values,
        earlier.values,
        today.lengths,
        r,
        k,
        moved,
        noisy,
    ))
}
