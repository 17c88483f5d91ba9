// A job's text, read frame by frame.
#![tactic(auto)]

ghost use Rattle.std.specs.Prelude.{◌≡◌, List, ℕ, ◌+◌, ◌<◌, ◌≤◌, length, drop, Float, IfSome, IfNone, IfOk};
ghost use Rattle.std.specs.Float.Ieee.{of_bits};
ghost use Rattle.std.specs.Float.{binary64};
ghost use Rattle.statement.specs.Job.{Frames, begin, stored, side, end, takes, next};
ghost use Rattle.frames.specs.Held.{rank, begin_ok, stored_ok, is_open, side_ok, end_ok, Small, Holds, After, Enough, Cleared, reading_of, Scanned, Done, line_len};

use frame::{Frame, frame_of};
use statement::Original;

// Where a job stands: before `01`, among `02`, among `03`, after `04`.
#[derive(Clone, Copy, PartialEq, Eq)]
pub enum Phase {
    Unbegun,
    Storing,
    Siding,
    Ended,
}

// How far a job was read. The starts of the columns up to `known` are known, and there are `count` entries and `given` right
// sides.
#[derive(Clone, Copy)]
pub struct Progress {
    pub phase: Phase,
    pub n: usize,
    pub cap: usize,
    pub known: Original,
    pub count: usize,
    pub given: usize,
}

// A job that was read.
#[derive(Clone, Copy)]
pub struct Whole {
    pub n: usize,
    pub cap: usize,
    pub entries: usize,
}

// The first line that cannot stand.
#[derive(Clone, Copy)]
pub struct Fault {
    pub line: usize,
}

// The float of a bit pattern, a NaN's too.
pub fn to_float(bits: u64) -> f64
    ensures { result ≡ of_bits binary64 bits }
{
    if bits % 0x8000_0000_0000_0000 > 0x7ff0_0000_0000_0000 {
        return f64::NAN;
    }
    f64::from_bits(bits)
}

fn begin_ok(p: Progress, n: usize) -> bool
    ensures { result ≡ begin_ok (rank p.phase) n }
{
    p.phase == Phase::Unbegun && n <= 128
}

fn stored_ok(p: Progress, column: Original) -> bool
    ensures { result ≡ stored_ok (rank p.phase) p.n p.known p.count column }
{
    p.phase == Phase::Storing && column.0 < p.n && p.known.0 <= column.0 && p.count < 4096
}

fn is_open(phase: Phase) -> bool
    ensures { result ≡ is_open (rank phase) }
{
    matches!(phase, Phase::Storing | Phase::Siding)
}

fn side_ok(p: Progress, position: Original) -> bool
    ensures { result ≡ side_ok (rank p.phase) p.n p.given position }
{
    is_open(p.phase) && position.0 < p.n && position.0 == p.given
}

fn end_ok(p: Progress) -> bool
    ensures { result ≡ end_ok (rank p.phase) p.n p.given }
{
    is_open(p.phase) && p.given == p.n
}

// Nothing read yet.
pub fn unbegun() -> Progress
    ensures { result ≡ record { phase = Phase.Unbegun; n = 0; cap = 0; known = record { 0 = 0 }; count = 0; given = 0 } }
{
    Progress {
        phase: Phase::Unbegun,
        n: 0,
        cap: 0,
        known: Original(0),
        count: 0,
        given: 0,
    }
}

fn take_begin(p: Progress, n: usize, cap: usize) -> Option<Progress>
    ensures { IfSome result Small × ((st ro : List ℕ) (va ri : List Float) (j : Frames) → Holds p st ro va ri j → After result st ro va ri (takes j.phase j (begin n cap))) }
{
    if !begin_ok(p, n) {
        return None;
    }
    Some(Progress {
        phase: Phase::Storing,
        n,
        cap,
        ..unbegun()
    })
}

fn take_stored(
    p: Progress,
    column: Original,
    row: Original,
    bits: u64,
    starts: &mut [usize],
    rows: &mut [usize],
    values: &mut [f64],
) -> Option<Progress>
    requires { Small p × (129 ≤ length starts.old) × (4096 ≤ length rows.old) × (4096 ≤ length values.old) }
    ensures { IfSome result Small × ((ri : List Float) (j : Frames) → Holds p starts.old rows.old values.old ri j → After result starts.new rows.new values.new ri (takes j.phase j (stored column row bits))) }
{
    if !stored_ok(p, column) {
        return None;
    }
    let count = p.count;
    starts[p.known.0 + 1..column.0 + 1].fill(count);
    rows[count] = row.0;
    values[count] = to_float(bits);
    Some(Progress {
        phase: Phase::Storing,
        known: column,
        count: count + 1,
        given: 0,
        ..p
    })
}

fn take_side(p: Progress, position: Original, bits: u64, right: &mut [f64]) -> Option<Progress>
    requires { Small p × (128 ≤ length right.old) }
    ensures { IfSome result Small × ((st ro : List ℕ) (va : List Float) (j : Frames) → Holds p st ro va right.old j → After result st ro va right.new (takes j.phase j (side position bits))) }
{
    if !side_ok(p, position) {
        return None;
    }
    right[position.0] = to_float(bits);
    Some(Progress {
        phase: Phase::Siding,
        given: position.0 + 1,
        ..p
    })
}

fn take_end(p: Progress, starts: &mut [usize]) -> Option<Progress>
    requires { Small p × (129 ≤ length starts.old) }
    ensures { IfSome result Small × ((ro : List ℕ) (va ri : List Float) (j : Frames) → Holds p starts.old ro va ri j → After result starts.new ro va ri (takes j.phase j end)) }
{
    if !end_ok(p) {
        return None;
    }
    starts[p.known.0 + 1..p.n + 1].fill(p.count);
    Some(Progress {
        phase: Phase::Ended,
        known: Original(p.n),
        ..p
    })
}

// The four areas stay single slices, here and in what calls: a struct of lent `&mut` slices needs, in each contract, a clause for each field that it is
// still the caller's.
// One line more, which is given without its LF.
fn take_line(
    p: Progress,
    line: &[u8],
    starts: &mut [usize],
    rows: &mut [usize],
    values: &mut [f64],
    right: &mut [f64],
) -> Option<Progress>
    requires { Small p × Enough starts.old rows.old values.old right.old }
    ensures { IfSome result Small × ((j : Frames) → Holds p starts.old rows.old values.old right.old j → After result starts.new rows.new values.new right.new (next j line.now)) }
{
    let frame = frame_of(line)?;
    match frame {
        Frame::Begin { n, cap } => take_begin(p, n, cap),
        Frame::Stored { column, row, bits } => take_stored(
            p, column, row, bits, starts, rows, values,
        ),
        Frame::Side { position, bits } => take_side(p, position, bits, right),
        Frame::End => take_end(p, starts),
    }
}

// The same after what the lines before it came to: where one of them could not stand, this one cannot.
pub fn step(
    p: Option<Progress>,
    line: &[u8],
    starts: &mut [usize],
    rows: &mut [usize],
    values: &mut [f64],
    right: &mut [f64],
) -> Option<Progress>
    requires { IfSome p Small × Enough starts.old rows.old values.old right.old }
    ensures { IfSome result Small × IfSome p (λ q. (j : Frames) → Holds q starts.old rows.old values.old right.old j → After result starts.new rows.new values.new right.new (next j line.now)) }
{
    take_line(p?, line, starts, rows, values, right)
}

// Where the LF stands that ends the line from `at` on.
fn line_end(text: &[u8], at: usize) -> Option<usize>
    requires { at ≤ length text.now }
    ensures some { IfSome result (λ e. (e ≡ at + line_len (drop at text.now)) × (e < length text.now)) }
    ensures none { IfNone result (line_len (drop at text.now) ≡ length (drop at text.now)) }
{
    for i in at..text.len() {
        if text[i] == b'\n' {
            return Some(i);
        }
    }
    None
}

// Reads a text into areas that are zero.
fn scan(
    text: &[u8],
    starts: &mut [usize],
    rows: &mut [usize],
    values: &mut [f64],
    right: &mut [f64],
) -> Result<Whole, Fault>
    requires { Enough starts.old rows.old values.old right.old × Cleared starts.old rows.old values.old right.old starts.old rows.old values.old right.old }
    ensures { Scanned (reading_of text.now) result starts.new rows.new values.new right.new }
{
    let mut p = unbegun();
    let mut at = 0;
    let mut line = 1;
    // no `for`: where a line ends is found on the way
    while at < text.len() {
        let end = line_end(text, at).ok_or(Fault { line })?;
        p = step(Some(p), &text[at..end], starts, rows, values, right).ok_or(Fault { line })?;
        at = end + 1;
        line += 1;
    }
    match p.phase {
        Phase::Ended => Ok(Whole {
            n: p.n,
            cap: p.cap,
            entries: p.count,
        }),
        _ => Err(Fault { line }),
    }
}

// All four areas become zero.
fn clear_all(starts: &mut [usize], rows: &mut [usize], values: &mut [f64], right: &mut [f64])
    ensures { Cleared starts.old rows.old values.old right.old starts.new rows.new values.new right.new }
{
    starts.fill(0);
    rows.fill(0);
    values.fill(0.0);
    right.fill(0.0);
}

// Reads a job's text into the areas: each holds its part from the start and zeros after it, and is all zero on a fault.
pub fn read_job(
    text: &[u8],
    starts: &mut [usize],
    rows: &mut [usize],
    values: &mut [f64],
    right: &mut [f64],
) -> Result<Whole, Fault>
    requires { Enough starts.old rows.old values.old right.old }
    ensures fits { IfOk result (λ job. (job.n ≤ 128) × (job.entries ≤ 4096)) }
    ensures done { Done (reading_of text.now) result starts.old rows.old values.old right.old starts.new rows.new values.new right.new }
{
    clear_all(starts, rows, values, right);
    let r = scan(text, starts, rows, values, right);
    if r.is_err() {
        clear_all(starts, rows, values, right);
    }
    r
}
