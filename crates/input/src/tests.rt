//! A source whose reads never fail: over it `fill` can't fail, which is proved. And readers: what the functions promise of a source they promise of these.
ghost use Rattle.std.specs.Prelude.{◌≡◌, ◌-◌, ◌<◌, ◌≤◌, length, take, drop, IsErr, IfOk, OnErr, Some};
ghost use Rattle.std.specs.Io.KnownBytes.{Consumes, Keeps, IsAtEnd};

use crate::{Source, fill, read_behind};
use std::io;
use std::io::Read;
use std::test::Fail;

/// Three bytes at a time.
#[derive(Drop)]
struct Bytes<'a> {
    rest: &'a [u8],
}

impl Source for Bytes<'_> {
    ghost remaining = { λ s. Some s.rest.now };

    ghost has_failed = { λ _. ⊥ };

    fn read(&mut self, buffer: &mut [u8]) -> io::Result<usize> {
        let n = self.rest.len().min(buffer.len()).min(3);
        let (front, rest) = self.rest.split_at(n);
        buffer[..n].copy_from_slice(front);
        self.rest = rest;
        Ok(n)
    }
}

fn filled(from: &mut Bytes<'_>, buffer: &mut [u8]) -> usize
    ensures { result ≤ length buffer.new }
{
    match fill(from, buffer) {
        Ok(n) => n,
        Err(_) => unreachable!(),
    }
}

fn reader_behind<R: Read>(from: &mut R, held: usize, buffer: &mut [u8]) -> io::Result<usize>
    ensures kept { take held buffer.new ≡ take held buffer.old }
    ensures within { IfOk result (λ n. n ≤ length buffer.new - held) }
    ensures ended { IfOk result (λ n. n ≡ 0 → held < length buffer.new → IsAtEnd (R.remaining from.new)) }
    ensures consumed { IfOk result (λ n. Consumes (R.remaining from.old) (R.remaining from.new) (take n (drop held buffer.new))) }
    ensures failed { OnErr result (Keeps (R.remaining from.old) (R.remaining from.new)) }
    ensures short { length buffer.new < held → IsErr result }
{
    read_behind(from, held, buffer)
}

fn reader_filled<R: Read>(from: &mut R, buffer: &mut [u8]) -> io::Result<usize>
    ensures within { IfOk result (λ n. n ≤ length buffer.new) }
    ensures consumed { IfOk result (λ n. Consumes (R.remaining from.old) (R.remaining from.new) (take n buffer.new)) }
    ensures ended { IfOk result (λ n. n < length buffer.new → IsAtEnd (R.remaining from.new)) }
{
    fill(from, buffer)
}

#[test]
fn readers_too(rt: HostRuntime) -> Result<(), Fail> {
    let mut from: &[u8] = b"01234";
    let mut buffer = [0; 4];
    assert_eq!(rt; reader_behind(&mut from, 1, &mut buffer)?, 3);
    assert_eq!(rt; buffer.as_slice(), b"\0012".as_slice());
    assert_eq!(rt; reader_filled(&mut from, &mut buffer)?, 2);
    assert_eq!(rt; buffer.as_slice(), b"3412".as_slice());
    Ok(())
}

#[test]
fn fills_and_ends(rt: HostRuntime) -> Result<(), Fail> {
    let mut from = Bytes {
        rest: b"0123456789",
    };
    let mut buffer = [0; 8];
    assert_eq!(rt; filled(&mut from, &mut buffer), 8);
    assert_eq!(rt; buffer.as_slice(), b"01234567".as_slice());
    assert_eq!(rt; filled(&mut from, &mut buffer), 2);
    assert_eq!(rt; buffer.as_slice(), b"89234567".as_slice());
    Ok(())
}
