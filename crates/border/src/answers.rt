// The answers of the calls as the structs that C gets.
ghost use Rattle.std.specs.Prelude.{◌≡◌};
ghost use Rattle.border.specs.Border.{held_of, side_number, measured_of, judged_of, judged_greedy_of, kept_of, checked_of, begun_of, scanned_of, galloped_of, closest_of, read_of, compared_of, report_of, listed_of};

use crate::{
    Answer, Begun, Closest, Compared, Content, Galloped, Held, Judged, JudgedGreedy, Measured,
    Report, Scanned, Verdict,
};
use closest::Found;
use greedy::GreedyVerdict;
use listing::Counts;
use live::View;
use measures::Measure;
use pedestals::Cause;
use reader::Comparison;
use refusal::Refusal;
use scans::Kept;
use sheet::Totals;
use tolerance::Parts;
use trace::Side;

impl From<Result<Parts, Refusal>> for Held {
    ghost from_gives = { λ a r. r ≡ held_of a };

    fn from(a: Result<Parts, Refusal>) -> Self {
        match a {
            Ok(x) => Held {
                number: 0,
                value: 0,
                p: x.up.p,
                q: x.up.q,
                dp: x.down.p,
                dq: x.down.q,
            },
            Err(x) => Held {
                number: x.number(),
                value: x.returned() as u64,
                p: 0,
                q: 0,
                dp: 0,
                dq: 0,
            },
        }
    }
}

// The number of a side.
fn side_number(s: Side) -> u32
    ensures { result ≡ side_number s }
{
    match s {
        Side::On => 0,
        Side::Above => 1,
        Side::Below => 2,
        Side::Gap => 3,
    }
}

impl From<Result<Measure, Refusal>> for Measured {
    ghost from_gives = { λ a r. r ≡ measured_of a };

    fn from(a: Result<Measure, Refusal>) -> Self {
        match a {
            Ok(m) => Measured {
                number: 0,
                side: side_number(m.side),
                value: 0,
                p: m.error.p,
                q: m.error.q,
                sample: m.sample as u64,
            },
            Err(x) => Measured {
                number: x.number(),
                side: 0,
                value: x.returned() as u64,
                p: 0,
                q: 0,
                sample: 0,
            },
        }
    }
}

impl From<Result<judging::Verdict, Refusal>> for Judged {
    ghost from_gives = { λ a r. r ≡ judged_of a };

    fn from(a: Result<judging::Verdict, Refusal>) -> Self {
        match a {
            Ok(judging::Verdict::Yes) => Judged {
                number: 0,
                passed: 1,
                value: 0,
                p: 0,
                q: 0,
                sample: 0,
                side: 0,
            },
            Ok(judging::Verdict::No(position, m)) => Judged {
                number: 0,
                passed: 0,
                value: position as u64,
                p: m.error.p,
                q: m.error.q,
                sample: m.sample as u64,
                side: side_number(m.side),
            },
            Err(x) => Judged {
                number: x.number(),
                passed: 0,
                value: x.returned() as u64,
                p: 0,
                q: 0,
                sample: 0,
                side: 0,
            },
        }
    }
}

impl From<Result<GreedyVerdict, Refusal>> for JudgedGreedy {
    ghost from_gives = { λ a r. r ≡ judged_greedy_of a };

    fn from(a: Result<GreedyVerdict, Refusal>) -> Self {
        match a {
            Ok(GreedyVerdict::Yes) => JudgedGreedy {
                number: 0,
                passed: 1,
                value: 0,
                fault: 0,
            },
            Ok(GreedyVerdict::Link(k)) => JudgedGreedy {
                number: 0,
                passed: 0,
                value: k as u64,
                fault: 1,
            },
            Ok(GreedyVerdict::Stop(k)) => JudgedGreedy {
                number: 0,
                passed: 0,
                value: k as u64,
                fault: 2,
            },
            Err(x) => JudgedGreedy {
                number: x.number(),
                passed: 0,
                value: x.returned() as u64,
                fault: 0,
            },
        }
    }
}

impl From<Result<usize, Refusal>> for Answer {
    ghost from_gives = { λ a r. r ≡ kept_of a };

    fn from(a: Result<usize, Refusal>) -> Self {
        match a {
            Ok(n) => Answer {
                number: 0,
                value: n as u64,
            },
            Err(x) => Answer {
                number: x.number(),
                value: x.returned() as u64,
            },
        }
    }
}

impl From<Result<(), Refusal>> for Answer {
    ghost from_gives = { λ a r. r ≡ checked_of a };

    fn from(a: Result<(), Refusal>) -> Self {
        match a {
            Ok(()) => Answer {
                number: 0,
                value: 0,
            },
            Err(x) => Answer {
                number: x.number(),
                value: x.returned() as u64,
            },
        }
    }
}

impl From<Result<View, Refusal>> for Begun {
    ghost from_gives = { λ a r. r ≡ begun_of a };

    fn from(a: Result<View, Refusal>) -> Self {
        match a {
            Ok(view) => Begun {
                number: 0,
                value: 0,
                view,
            },
            Err(cause) => Begun {
                number: cause.number(),
                value: cause.returned() as u64,
                view: View {
                    k: 0,
                    count: 0,
                    samples: [0; 66],
                },
            },
        }
    }
}

impl From<Result<Kept, Refusal>> for Scanned {
    ghost from_gives = { λ a r. r ≡ scanned_of a };

    fn from(a: Result<Kept, Refusal>) -> Self {
        match a {
            Ok(k) => {
                let kept = k.counts;
                Scanned {
                    number: 0,
                    value: 0,
                    kept,
                }
            }
            Err(x) => Scanned {
                number: x.number(),
                value: x.returned() as u64,
                kept: [0; 16],
            },
        }
    }
}

impl From<Result<reduction::Galloped, Refusal>> for Galloped {
    ghost from_gives = { λ a r. r ≡ galloped_of a };

    fn from(a: Result<reduction::Galloped, Refusal>) -> Self {
        match a {
            Ok(g) => Galloped {
                number: 0,
                value: g.kept as u64,
                probes: g.probes as u64,
            },
            Err(x) => Galloped {
                number: x.number(),
                value: x.returned() as u64,
                probes: 0,
            },
        }
    }
}

impl From<Result<Found, Refusal>> for Closest {
    ghost from_gives = { λ a r. r ≡ closest_of a };

    fn from(a: Result<Found, Refusal>) -> Self {
        match a {
            Ok(f) => Closest {
                number: 0,
                value: f.kept as u64,
                p: f.error.p,
                q: f.error.q,
            },
            Err(x) => Closest {
                number: x.number(),
                value: x.returned() as u64,
                p: 0,
                q: 0,
            },
        }
    }
}

impl From<Result<commands::Content, Refusal>> for Content {
    ghost from_gives = { λ a r. r ≡ read_of a };

    fn from(a: Result<commands::Content, Refusal>) -> Self {
        match a {
            Ok(x) => Content {
                number: 0,
                value: x.samples as u64,
                p: x.tolerance.up.p,
                q: x.tolerance.up.q,
                dp: x.tolerance.down.p,
                dq: x.tolerance.down.q,
            },
            Err(x) => Content {
                number: x.number(),
                value: x.returned() as u64,
                p: 0,
                q: 0,
                dp: 0,
                dq: 0,
            },
        }
    }
}

impl From<Result<Comparison, Refusal>> for Verdict {
    ghost from_gives = { λ a r. r ≡ compared_of a };

    fn from(a: Result<Comparison, Refusal>) -> Self {
        match a {
            Ok(Comparison::Same) => Verdict {
                number: 0,
                passed: 1,
                value: 0,
            },
            Ok(Comparison::Different) => Verdict {
                number: 0,
                passed: 0,
                value: 0,
            },
            Err(x) => Verdict {
                number: x.number(),
                passed: 0,
                value: x.returned() as u64,
            },
        }
    }
}

impl From<Result<Counts, Cause>> for Compared {
    ghost from_gives = { λ a r. r ≡ listed_of a };

    fn from(a: Result<Counts, Cause>) -> Self {
        match a {
            Ok(n) => Compared {
                number: 0,
                value: 0,
                moved: n.moved as u64,
                noisy: n.noisy as u64,
            },
            Err(x) => Compared {
                number: pedestals::number(x),
                value: pedestals::returned(x) as u64,
                moved: 0,
                noisy: 0,
            },
        }
    }
}

impl From<Result<Totals, Refusal>> for Report {
    ghost from_gives = { λ a r. r ≡ report_of a };

    fn from(a: Result<Totals, Refusal>) -> Self {
        match a {
            Ok(k) => Report {
                number: 0,
                value: 0,
                samples: k.samples as u64,
                kept: k.kept as u64,
                p: k.p,
                q: k.q,
            },
            Err(x) => Report {
                number: x.number(),
                value: x.returned() as u64,
                samples: 0,
                kept: 0,
                p: 0,
                q: 0,
            },
        }
    }
}
