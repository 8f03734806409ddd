//! A question: its fields, cut at every space and counted from 0, and the numbers and bytes in them. Any bytes are taken: a byte that is no digit
//! counts as 0, and a field that is not there is empty.
ghost use Rattle.std.specs.Prelude.{◌≤◌, ◌<◌};

use arrayvec::ArrayVec;
use directed::{Interval, Kind, Rounding};

/// How many bytes a question can give; those behind them are dropped.
const ROOM: usize = 1024;

pub type Bytes = ArrayVec<u8, ROOM>;

/// A line that asks something.
#[derive(Clone, Copy)]
pub struct Question<'a> {
    pub line: &'a [u8],
}

/// What a byte counts as a digit, to 15. Any byte counts, so no `parse` of std does it, which refuses; here and in `next_number`.
fn digit(b: u8) -> u8
    ensures { result ≤ 15 }
{
    match b {
        b'0'..=b'9' => b - b'0',
        b'a'..=b'f' => b - b'a' + 10,
        _ => 0,
    }
}

fn byte_of(high: u8, low: u8) -> u8 {
    digit(high) * 16 + digit(low)
}

/// A digit more, as long as the number has fewer than ten.
fn next_number(number: u64, b: u8) -> u64 {
    if number < 1_000_000_000 {
        number * 10 + digit(b) as u64
    } else {
        number
    }
}

fn number(field: &[u8]) -> u64 {
    field.iter().fold(0, |number, b| next_number(number, *b))
}

/// A number with its sign, held to 32 bits.
fn signed(field: &[u8]) -> i32 {
    let has_minus = field.contains(&b'-');
    match i32::try_from(number(field)) {
        Ok(size) if has_minus => -size,
        Ok(size) => size,
        Err(_) if has_minus => i32::MIN,
        Err(_) => i32::MAX,
    }
}

impl<'a> Question<'a> {
    /// The way that stands in front: inward with an `I`, else outward.
    pub fn rounding(self) -> Rounding {
        if self.line.starts_with(b"I") {
            Rounding::Inward
        } else {
            Rounding::Outward
        }
    }

    /// The letter at a place of the line, if it is as long.
    pub fn letter(self, at: usize) -> Option<u8> {
        self.line.get(at).copied()
    }

    /// What stands in a field.
    fn field(self, k: usize) -> &'a [u8] {
        self.line.split(|b| *b == b' ').nth(k).unwrap_or(&[])
    }

    /// What stands from a field on.
    fn from_field(self, k: usize) -> &'a [u8]
        requires { k < 10 }
    {
        self.line
            .splitn(k + 1, |b| *b == b' ')
            .nth(k)
            .unwrap_or(&[])
    }

    /// The number in a field.
    pub fn size(self, k: usize) -> usize {
        number(self.field(k)) as usize
    }

    /// The number in a field, held to 32 bits.
    pub fn unsigned(self, k: usize) -> u32 {
        u32::try_from(number(self.field(k))).unwrap_or(u32::MAX)
    }

    /// The interval whose ends are in these two fields, with the kind of its ends or, where a third field has a letter at its place, with that kind.
    pub fn interval(self, lower: usize, upper: usize, letters: usize, place: usize) -> Interval {
        let a = self.ends(lower, upper);
        let kind = match self.field(letters).get(place) {
            Some(b'p') => Kind::Positive,
            Some(b'n') => Kind::Negative,
            Some(b'z') => Kind::ProperZero,
            Some(b'i') => Kind::ImproperZero,
            _ => a.kind,
        };
        Interval { kind, ..a }
    }

    /// The interval whose ends are in these two fields, with their kind.
    pub fn ends(self, lower: usize, upper: usize) -> Interval {
        Interval::new(signed(self.field(lower)), signed(self.field(upper)))
    }

    /// The bytes from a place of the line on, two hexadecimal digits and a space each; what is behind the last that find room is not gone through.
    pub fn bytes(self, from: usize) -> Bytes {
        let mut bytes = ArrayVec::new();
        for part in self.line.get(from..).unwrap_or(&[]).chunks(3).take(ROOM) {
            if let [high, low, ..] = part {
                let _ = bytes.try_push(byte_of(*high, *low));
            }
        }
        bytes
    }

    /// The bytes from a field on, in runs: `00*1fb` and a space is the byte 00, 1fb (507) times.
    pub fn runs(self, k: usize) -> Bytes
        requires { k < 10 }
    {
        let mut bytes = ArrayVec::new();
        for run in self.from_field(k).chunks(7) {
            if let [high, low, _, a, b, c, ..] = run {
                let n = digit(*a) as usize * 256 + byte_of(*b, *c) as usize;
                for _ in 0..n.min(bytes.remaining_capacity()) {
                    let _ = bytes.try_push(byte_of(*high, *low));
                }
            }
        }
        bytes
    }
}
