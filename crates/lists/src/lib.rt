// What the programs share that run lists: reading the input, the numbers of a line, a sum by which two lists are compared,
// and what is written.
#![tactic(auto)]

ghost use Rattle.std.specs.Prelude.{◌≤◌, ◌<◌, length, take, IfOk, IfSome};
ghost use Rattle.std.specs.Io.KnownBytes.{Consumes, IsAtEnd};

use std::io;
use std::io::Read;

// A number, and where its digits end.
#[derive(Clone, Copy)]
struct Word {
    value: usize,
    end: usize,
}

// How many numbers a line has, and where the next line begins.
#[derive(Clone, Copy)]
pub struct Line {
    pub count: usize,
    pub end: usize,
}

// Reads until the buffer is full or the input ends, and answers how many bytes that put at its start.
pub fn read_full<R: Read>(input: &mut R, buffer: &mut [u8]) -> io::Result<usize>
    ensures bound { IfOk result (λ n. n ≤ length buffer.new) }
    ensures bytes { IfOk result (λ n. Consumes (R.remaining input.old) (R.remaining input.new) (take n buffer.new)) }
    ensures end { IfOk result (λ n. n < length buffer.new → IsAtEnd (R.remaining input.new)) }
{
    let mut done = 0;
    // no `for`: a read says itself how far it gets
    while done < buffer.len() {
        let n = input.read(&mut buffer[done..])?;
        if n == 0 {
            break;
        }
        done += n;
    }
    Ok(done)
}

// The number whose digits begin at a place, where a byte stands after them; one that may not fit is none.
fn word_at(text: &[u8], at: usize) -> Option<Word>
    ensures { IfSome result (λ w. (at < w.end) × (w.end < length text.now)) }
{
    let mut value = 0;
    for end in at..text.len() {
        let Some(d) = (text[end] as char).to_digit(10) else {
            return (at < end).then_some(Word { value, end });
        };
        if value >= usize::MAX / 10 {
            return None;
        }
        value = value * 10 + d as usize;
    }
    None
}

// The line that begins at a place, where one stands there: numbers one space apart, and LF.
pub fn line_at(text: &[u8], at: usize, to: &mut [usize]) -> Option<Line>
    ensures { IfSome result (λ line. (at < line.end) × (line.end ≤ length text.now) × (line.count ≤ length to.new)) }
{
    let mut i = at;
    for k in 0..to.len() {
        let w = word_at(text, i)?;
        to[k] = w.value;
        i = w.end + 1;
        match text[w.end] {
            b' ' => {}
            b'\n' => return Some(Line {
                count: k + 1,
                end: i,
            }),
            _ => return None,
        }
    }
    None
}

// The same with no Option, for who reads on to the end: a line that cannot stand has no numbers, and is the last.
pub fn numbers(text: &[u8], at: usize, to: &mut [usize]) -> Line
    ensures further { at < length text.now → at < result.end }
    ensures inside { (result.end ≤ length text.now) × (result.count ≤ length to.new) }
{
    line_at(text, at, to).unwrap_or(Line {
        count: 0,
        end: text.len(),
    })
}

// The sum with one word more.
pub fn added(h: u64, x: u64) -> u64 {
    h.rotate_left(1) ^ x
}

pub fn say(rt: &impl Print, text: &[u8]) -> io::Result<()> {
    rt.write_all(text)
}

// A number with a space before it.
pub fn say_number(rt: &impl Print, x: usize) -> io::Result<()> {
    print!(rt; " {x}")
}

// Sixteen digits with a space before them.
pub fn say_bits(rt: &impl Print, x: u64) -> io::Result<()> {
    print!(rt; " {x:016x}")
}
