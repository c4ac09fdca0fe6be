// The calls `check_trace` and `check_crate`: what the engine checks of lent lists before it works on them, for products above it.
ghost use Rattle.checking.specs.Checks.{TraceOutcome, CrateOutcome};

use refusal::Refusal;

// Checks 1, 2 and 3: whether the ticks and values are a trace.
pub fn check_trace(ticks: &[u32], values: &[i16]) -> Result<(), Refusal>
    ensures { TraceOutcome ticks.now values.now result }
{
    trace::limits::check(ticks, values, 4096)
}

// Check 11: whether the lengths divide the ticks and values into channels.
pub fn check_crate(ticks: &[u32], values: &[i16], lengths: &[usize]) -> Result<(), Refusal>
    ensures { CrateOutcome ticks.now values.now lengths.now result }
{
    channels::check(ticks, values, lengths)
}
