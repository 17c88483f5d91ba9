// One line's frame: uppercase hexadecimal, read.
#![tactic(auto)]

ghost use Rattle.std.specs.Prelude.{◌≡◌, ◌≤◌, ◌<◌, length, IfSome};
ghost use Rattle.statement.specs.Job.{hex_value, value_from, frame_of};
ghost use Rattle.frame.specs.Line.{said, meant};

use statement::Original;

// A line's frame: `01` to `04`.
#[derive(Clone, Copy)]
pub enum Frame {
    Begin {
        n: usize,
        cap: usize,
    },
    Stored {
        column: Original,
        row: Original,
        bits: u64,
    },
    Side {
        position: Original,
        bits: u64,
    },
    End,
}

// The number of a digit.
#[tactic(auto, unfolding(statement::specs::Job::hex_value))]
fn hex_value(b: u8) -> Option<u64>
    ensures value { said result ≡ hex_value b }
    ensures small { IfSome result (λ d. d < 16) }
{
    match b {
        b'0'..=b'9' => Some((b - b'0') as u64),
        b'A'..=b'F' => Some((b - b'A' + 10) as u64),
        _ => None,
    }
}

// The number that at most 16 digits stand for.
pub fn value(s: &[u8]) -> Option<u64>
    requires { length s.now ≤ 16 }
    ensures { said result ≡ value_from 0 s.now }
{
    let mut v = 0;
    for b in s {
        v = v * 16 + hex_value(*b)?;
    }
    Some(v)
}

fn begin(line: &[u8]) -> Option<Frame>
    requires { length line.now ≡ 14 }
    ensures { meant result ≡ frame_of line.now }
{
    let kind = value(&line[0..2])?;
    if kind != 1 {
        return None;
    }
    let n = value(&line[2..6])? as usize;
    let cap = value(&line[6..14])? as usize;
    Some(Frame::Begin { n, cap })
}

fn stored(line: &[u8]) -> Option<Frame>
    requires { length line.now ≡ 26 }
    ensures { meant result ≡ frame_of line.now }
{
    let kind = value(&line[0..2])?;
    if kind != 2 {
        return None;
    }
    let column = value(&line[2..6])? as usize;
    let row = value(&line[6..10])? as usize;
    let bits = value(&line[10..26])?;
    Some(Frame::Stored {
        column: Original(column),
        row: Original(row),
        bits,
    })
}

fn side(line: &[u8]) -> Option<Frame>
    requires { length line.now ≡ 22 }
    ensures { meant result ≡ frame_of line.now }
{
    let kind = value(&line[0..2])?;
    if kind != 3 {
        return None;
    }
    let position = value(&line[2..6])? as usize;
    let bits = value(&line[6..22])?;
    Some(Frame::Side {
        position: Original(position),
        bits,
    })
}

fn end(line: &[u8]) -> Option<Frame>
    requires { length line.now ≡ 2 }
    ensures { meant result ≡ frame_of line.now }
{
    (value(line)? == 4).then_some(Frame::End)
}

// The frame of a line, which is given without its LF.
pub fn frame_of(line: &[u8]) -> Option<Frame>
    ensures { meant result ≡ frame_of line.now }
{
    match line.len() {
        14 => begin(line),
        26 => stored(line),
        22 => side(line),
        2 => end(line),
        _ => None,
    }
}
