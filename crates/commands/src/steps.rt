// Steps: whether a sample follows at a cursor, and which.
ghost use Rattle.std.specs.Prelude.{◌≡◌, true, ◌≤◌, ◌^◌, length};
ghost use Rattle.format.specs.declared.Step.TheVariants.{Sample};
ghost use Rattle.format.specs.Format.{follows as follows_of, short_obeys, long_obeys, step_of};
ghost use Rattle.commands.specs.Passing.{CursorOk, is_sample, sample_of};

use crate::command::command_at;
use format::{Command, Cursor};

// Whether a sample may follow.
fn follows(c: Cursor, tick: u64, level: u64) -> bool
    requires { CursorOk (2 ^ 63) c }
    ensures { result ≡ follows_of c tick level }
{
    tick <= 4_294_967_295 && tick <= c.first + 1_048_575 && level <= 65_535 && c.count < 4096
}

// Whether a short step obeys the rules. The value changes by change - 128.
fn short_obeys(c: Cursor, advance: u64, change: u64) -> bool
    requires { CursorOk (2 ^ 63) c × (advance ≤ 255) × (change ≤ 255) }
    ensures { result ≡ short_obeys c advance change }
{
    1 <= advance && 128 <= c.level + change && follows(c, c.tick + advance, c.level + change - 128)
}

// Whether a long step obeys the rules.
fn long_obeys(c: Cursor, advance: u64, level: u64) -> bool
    requires { CursorOk (2 ^ 63) c × (advance ≤ 16777215) × (level ≤ 65535) }
    ensures { result ≡ long_obeys c advance level }
{
    1 <= advance
        && !format::is_short(c.level, advance, level)
        && follows(c, c.tick + advance, level)
}

// The sample to which the command at the cursor leads, if it leads to one.
pub fn step(bytes: &[u8], c: Cursor) -> Option<Cursor>
    requires { CursorOk (length bytes.now) c }
    ensures { result ≡ sample_of (step_of bytes.now c) }
{
    match command_at(bytes, c.at) {
        Command::Short(advance, change) => {
            if !short_obeys(c, advance, change) {
                return None;
            }
            Some(Cursor {
                at: c.at + 3,
                first: c.first,
                tick: c.tick + advance,
                level: c.level + change - 128,
                count: c.count + 1,
            })
        }
        Command::Long(advance, level) => {
            if !long_obeys(c, advance, level) {
                return None;
            }
            Some(Cursor {
                at: c.at + 6,
                first: c.first,
                tick: c.tick + advance,
                level,
                count: c.count + 1,
            })
        }
        _ => None,
    }
}

// The sample to which the command at the cursor leads, where it is known to lead to one.
pub fn next_sample(bytes: &[u8], c: Cursor) -> Cursor
    requires { CursorOk (length bytes.now) c × (is_sample (step_of bytes.now c) ≡ true) }
    ensures { step_of bytes.now c ≡ Sample result }
{
    match command_at(bytes, c.at) {
        Command::Short(advance, change) => Cursor {
            at: c.at + 3,
            first: c.first,
            tick: c.tick + advance,
            level: c.level + change - 128,
            count: c.count + 1,
        },
        Command::Long(advance, level) => Cursor {
            at: c.at + 6,
            first: c.first,
            tick: c.tick + advance,
            level,
            count: c.count + 1,
        },
        _ => unreachable!(),
    }
}
