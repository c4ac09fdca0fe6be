// One command as it is read.
ghost use Rattle.std.specs.Prelude.{◌≡◌, ◌+◌, ◌≤◌, length, drop};
ghost use Rattle.format.specs.Command.{ratio_at, command_of};

use crate::numbers::field;
use format::{Command, Kind, flip8, flip16};
use ratio::Ratio;
use tolerance::Parts;

// The ratio in the 8 bytes from i on.
fn ratio_at(bytes: &[u8], i: usize) -> Ratio
    requires { i + 8 ≤ length bytes.now }
    ensures { result ≡ ratio_at bytes.now i }
{
    Ratio {
        p: field(bytes, i, 5),
        q: field(bytes, i + 5, 3),
    }
}

// The command at a place: Invalid if it is cut off or of no kind. Always inlined, so that no command is built in memory.
#[inline(always)]
pub fn command_at(bytes: &[u8], at: usize) -> Command
    requires { at ≤ length bytes.now }
    ensures { result ≡ command_of (drop at bytes.now) }
{
    let left = bytes.len() - at;
    if left == 0 {
        return Command::Invalid;
    }
    match Kind::try_from(bytes[at]) {
        Ok(Kind::Tolerance) if 9 <= left => Command::Tolerance(ratio_at(bytes, at + 1)),
        Ok(Kind::Sides) if 17 <= left => Command::Sides(Parts {
            up: ratio_at(bytes, at + 1),
            down: ratio_at(bytes, at + 9),
        }),
        Ok(Kind::First) if 7 <= left => {
            Command::First(field(bytes, at + 1, 4), flip16(field(bytes, at + 5, 2)))
        }
        Ok(Kind::Short) if 3 <= left => {
            Command::Short(field(bytes, at + 1, 1), flip8(field(bytes, at + 2, 1)))
        }
        Ok(Kind::Long) if 6 <= left => {
            Command::Long(field(bytes, at + 1, 3), flip16(field(bytes, at + 4, 2)))
        }
        Ok(Kind::End) if 3 <= left => Command::End(field(bytes, at + 1, 2)),
        _ => Command::Invalid,
    }
}
