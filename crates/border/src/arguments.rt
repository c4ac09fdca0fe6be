// What the structs that C gives stand for.
ghost use Rattle.std.specs.Prelude.{◌≡◌};
ghost use Rattle.border.specs.Border.{tolerance_of, limits_of, entry_of, tolerances_of};

use crate::{Limits, Tolerance, Tolerances};
use ratio::Ratio;
use tolerance::{Noise, Parts};

// The forms are numbers in the C interface. The ratio 0/0, which is not allowed, stands for an unknown form.
impl From<Tolerance> for tolerance::Tolerance {
    ghost from_gives = { λ t r. r ≡ tolerance_of t };

    #[tactic(auto, unfolding(crate::specs::Border::tolerance_of))]
    fn from(t: Tolerance) -> Self {
        match t.form {
            0 => Self::Ratio(t.p, t.q),
            1 => Self::Counts(t.x),
            2 => Self::Noise(Noise {
                noise: t.x,
                multiple: t.y,
            }),
            3 => Self::Parts(Parts {
                up: Ratio { p: t.p, q: t.q },
                down: Ratio { p: t.dp, q: t.dq },
            }),
            _ => Self::Ratio(0, 0),
        }
    }
}

impl From<Limits> for limits::Limits {
    ghost from_gives = { λ t r. r ≡ limits_of t };

    fn from(t: Limits) -> Self {
        limits::Limits {
            tolerance: tolerance::Tolerance::from(t.tolerance),
            gap: t.gap,
        }
    }
}

impl From<Tolerance> for tolerances::Entry {
    ghost from_gives = { λ t r. r ≡ entry_of t };

    fn from(t: Tolerance) -> Self {
        tolerances::Entry {
            tolerance: tolerance::Tolerance::from(t),
        }
    }
}

const NONE: tolerances::Entry = tolerances::Entry {
    tolerance: tolerance::Tolerance::Ratio(0, 0),
};

impl From<Tolerances> for tolerances::Tolerances {
    ghost from_gives = { λ t r. r ≡ tolerances_of t };

    fn from(t: Tolerances) -> Self {
        let mut list = [NONE; 16];
        for (k, &form) in t.list.iter().enumerate() {
            list[k] = tolerances::Entry::from(form);
        }
        tolerances::Tolerances {
            count: t.count as usize,
            list,
        }
    }
}
