// The lines of a job's answer, written.
#![tactic(auto)]

ghost use Rattle.std.specs.Prelude.{◌≡◌, ℕ, ◌+◌, ◌*◌, ◌≤◌, ◌<◌, length};
ghost use Rattle.std.specs.Float.{binary64};
ghost use Rattle.std.specs.Float.Ieee.{to_bits};
ghost use Rattle.statement.specs.Job.{hex_digit, hex, refusal, success};
ghost use Rattle.lines.specs.Placed.{placed, sizes_line, unknown_line, refusal_line};

use answers::{first_detail, number, second_detail};
use statement::{Answer, Original};

// The byte of a digit.
#[tactic(auto, unfolding(statement::specs::Job::hex_digit))]
fn hex_digit(d: u64) -> u8
    requires { d < 16 }
    ensures { result ≡ hex_digit d }
{
    if d < 10 {
        b'0' + d as u8
    } else {
        b'A' + (d - 10) as u8
    }
}

// Puts k digits of x at the places from `at`, highest first.
pub fn put_hex(out: &mut [u8], at: usize, k: usize, x: u64)
    requires { (at + k ≤ length out.old) × (k ≤ 16) }
    ensures { out.new ≡ placed out.old at (hex k x) }
{
    for i in 0..k {
        let s = 4 * (k - 1 - i);
        out[at + i] = hex_digit((x >> s) % 16);
    }
}

// The bit pattern of x, and 7FF8000000000000 for every NaN.
pub fn bits_of(x: f64) -> u64
    ensures { result ≡ to_bits binary64 x }
{
    if x.is_nan() {
        return 0x7ff8_0000_0000_0000;
    }
    x.to_bits()
}

// Puts the line `81` at the start: 15 bytes.
pub fn put_sizes(out: &mut [u8], entries: u64, supernodes: u64)
    requires { 15 ≤ length out.old }
    ensures { out.new ≡ placed out.old 0 (sizes_line entries supernodes) }
{
    put_hex(out, 0, 2, 0x81);
    put_hex(out, 2, 8, entries);
    put_hex(out, 10, 4, supernodes);
    out[14] = 10;
}

// Puts the line `82` at the places from `at`: 23 bytes.
pub fn put_unknown(out: &mut [u8], at: usize, position: Original, x: f64)
    requires { at + 23 ≤ length out.old }
    ensures { out.new ≡ placed out.old at (unknown_line position x) }
{
    put_hex(out, at, 2, 0x82);
    put_hex(out, at + 2, 4, position.0 as u64);
    put_hex(out, at + 6, 16, bits_of(x));
    out[at + 22] = 10;
}

// Puts the line `8F` at the start: 21 bytes.
fn put_fields(out: &mut [u8], number: u64, first: u64, second: u64)
    requires { 21 ≤ length out.old }
    ensures { out.new ≡ placed out.old 0 (refusal_line number first second) }
{
    put_hex(out, 0, 2, 0x8f);
    put_hex(out, 2, 2, number);
    put_hex(out, 4, 8, first);
    put_hex(out, 12, 8, second);
    out[20] = 10;
}

// Writes a refusal at the start, and says how many bytes it has: 21.
pub fn put_refusal(out: &mut [u8], a: Answer) -> usize
    requires { 21 ≤ length out.old }
    ensures { (out.new ≡ placed out.old 0 (refusal a)) × (result ≡ length (refusal a)) }
{
    let k = number(a);
    let first = first_detail(a);
    let second = second_detail(a);
    put_fields(out, k as u64, first as u64, second as u64);
    21
}

// Writes the answer of an accepted job at the start, and says how many bytes it has: 15, and 23 for each unknown.
pub fn put_success(out: &mut [u8], entries: usize, supernodes: usize, x: &[f64]) -> usize
    requires { 15 + 23 * length x.now ≤ length out.old }
    ensures { (out.new ≡ placed out.old 0 (success entries supernodes x.now)) × (result ≡ length (success entries supernodes x.now)) }
{
    put_sizes(out, entries as u64, supernodes as u64);
    for k in 0..x.len() {
        put_unknown(out, 15 + 23 * k, Original(k), x[k]);
    }
    15 + 23 * x.len()
}
