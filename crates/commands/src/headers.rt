// Headers: the tolerance and the first sample.
ghost use Rattle.std.specs.Prelude.{◌≡◌, ◌≤◌, length, drop};
ghost use Rattle.format.specs.Command.{command_of};
ghost use Rattle.format.specs.Format.{is_held, are_sides, sample_header, header_of};

use crate::command::command_at;
use format::{Command, Cursor, Fault, Header};
use ratio::Ratio;
use tolerance::Parts;

// Whether a ratio is one that is held as a tolerance: allowed, and in lowest terms.
#[tactic(auto, unfolding(format::specs::Format::is_held))]
fn is_held(r: Ratio) -> bool
    ensures { result ≡ is_held r }
{
    tolerance::is_allowed(r) && ratio::gcd(r.p, r.q) == 1
}

// Whether both parts are held, and differ.
#[tactic(auto, unfolding(format::specs::Format::are_sides))]
fn are_sides(x: Parts) -> bool
    ensures { result ≡ are_sides x }
{
    is_held(x.up) && is_held(x.down) && !tolerance::agree(x)
}

// The first sample's command, after a tolerance x of k bytes.
fn read_first(bytes: &[u8], k: usize, x: Parts) -> Result<Header, Fault>
    requires { (k ≤ length bytes.now) × (k ≤ 17) }
    ensures { result ≡ sample_header k x (command_of (drop k bytes.now)) }
{
    match command_at(bytes, k) {
        Command::First(tick, level) => Ok(Header {
            tolerance: x,
            first: Cursor {
                at: k + 7,
                first: tick,
                tick,
                level,
                count: 1,
            },
        }),
        _ => Err(Fault { at: k }),
    }
}

// The tolerance and the first sample.
pub fn read_header(bytes: &[u8]) -> Result<Header, Fault>
    ensures { result ≡ header_of bytes.now }
{
    match command_at(bytes, 0) {
        Command::Tolerance(r) if is_held(r) => read_first(bytes, 9, tolerance::alike(r)),
        Command::Sides(x) if are_sides(x) => read_first(bytes, 17, x),
        _ => Err(Fault { at: 0 }),
    }
}
