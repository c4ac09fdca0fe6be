// The public call `hold`: the parts that a tolerance means.
ghost use Rattle.checking.specs.Hold.{HoldOutcome};

use refusal::Refusal;
use tolerance::{Parts, Tolerance};

// The tolerance as two parts in lowest terms, or refusal 4.
pub fn hold(t: Tolerance) -> Result<Parts, Refusal>
    ensures { HoldOutcome t result }
{
    checking::hold::hold(t)
}
