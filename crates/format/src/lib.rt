// The record of a reduced trace (document 01, "The record"; document 02, "Above and below"): the types of its format, and what reader and
// writer share. specs/ holds the format itself, and proofs/ its laws.
#![tactic(auto)]

ghost use Rattle.std.specs.Prelude.{◌≡◌, ◌≤◌, ◌<◌};
ghost use Rattle.refusal.specs.declared.Refusal.TheVariants.{Record};
ghost use Rattle.format.specs.Kind.{first_byte, KindOf};
ghost use Rattle.format.specs.Number.{flip16 as flip16_of, flip8 as flip8_of};
ghost use Rattle.format.specs.Format.{short};

use ratio::Ratio;
use refusal::Refusal;
use tolerance::Parts;

// The kind of a command, which its first byte says.
#[derive(Clone, Copy)]
pub enum Kind {
    Tolerance,
    Sides,
    First,
    Short,
    Long,
    End,
}

impl From<Kind> for u8 {
    ghost from_gives = { λ kind byte. byte ≡ first_byte kind };

    #[inline]
    fn from(kind: Kind) -> u8 {
        match kind {
            Kind::Tolerance => b'T',
            Kind::Sides => b'B',
            Kind::First => b'A',
            Kind::Short => b'S',
            Kind::Long => b'L',
            Kind::End => b'E',
        }
    }
}

// A byte that begins no command.
#[derive(Clone, Copy)]
pub struct UnknownKind(pub u8);

impl TryFrom<u8> for Kind {
    type Error = UnknownKind;

    ghost try_from_gives = { KindOf };

    #[inline]
    fn try_from(byte: u8) -> Result<Self, UnknownKind> {
        match byte {
            b'T' => Ok(Kind::Tolerance),
            b'B' => Ok(Kind::Sides),
            b'A' => Ok(Kind::First),
            b'S' => Ok(Kind::Short),
            b'L' => Ok(Kind::Long),
            b'E' => Ok(Kind::End),
            _ => Err(UnknownKind(byte)),
        }
    }
}

// One command. A value is held as its level, the value + 32,768, and a change of value as the change + 128 (offset binary).
#[derive(Clone, Copy)]
pub enum Command {
    // The ratio of both parts.
    Tolerance(Ratio),
    // Parts that differ.
    Sides(Parts),
    // Tick and level.
    First(u64, u64),
    // Advance and change.
    Short(u64, u64),
    // Advance and level.
    Long(u64, u64),
    // The number of samples.
    End(u64),
    // Cut off, or none of these.
    Invalid,
}

// Where the next command starts; the first tick; the tick and the level of the last sample; the number of samples so far.
#[derive(Clone, Copy)]
pub struct Cursor {
    pub at: usize,
    pub first: u64,
    pub tick: u64,
    pub level: u64,
    pub count: usize,
}

// What the command at a cursor does: it leads to a sample, ends the record, or is at fault. It has three cases, which a Result of an Option
// would say no plainer.
#[derive(Clone, Copy)]
pub enum Step {
    Sample(Cursor),
    End,
    Fault(usize),
}

// What a record begins with: its tolerance, and a cursor after its first sample.
#[derive(Clone, Copy)]
pub struct Header {
    pub tolerance: Parts,
    pub first: Cursor,
}

// What bytes that are no record answer: the byte at which the fault lies.
#[derive(Clone, Copy)]
pub struct Fault {
    pub at: usize,
}

impl From<Fault> for Refusal {
    ghost from_gives = { λ fault refusal. refusal ≡ Record fault.at };

    #[inline]
    fn from(fault: Fault) -> Refusal {
        Refusal::Record(fault.at)
    }
}

// Offset binary to two's complement, of 16 bits; and back.
pub fn flip16(x: u64) -> u64
    requires { x < 65536 }
    ensures { result ≡ flip16_of x }
{
    (x + 32768) % 65536
}

// The same of 8 bits.
pub fn flip8(x: u64) -> u64
    requires { x < 256 }
    ensures { result ≡ flip8_of x }
{
    (x + 128) % 256
}

// Whether a step from one level to the next is a short one. The advance is tested by itself: in one expression the compiler tests the
// change first, which is hard to predict, and a record of long steps takes more than twice as long to read.
pub fn is_short(level: u64, advance: u64, next: u64) -> bool
    requires { (level ≤ 65535) × (next ≤ 65535) }
    ensures { result ≡ short level advance next }
{
    if 255 < advance {
        return false;
    }
    level <= next + 128 && next <= level + 127
}
