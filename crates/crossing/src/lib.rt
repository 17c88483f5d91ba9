// What crosses to programs in C and Rust: only numbers and slices do, so that enums and records are words; what each word means is
// in specs/Words.
#![tactic(auto)]

ghost use Rattle.std.specs.Prelude.{◌≡◌, ◌++◌, ◌≤◌, length, drop};
ghost use Rattle.statement.specs.Answers.{number};
ghost use Rattle.crossing.specs.Words.{stage_word, answer_words, outcome_words, handed, order_said, stop_said, stage_said, record_said};

use answers::{first_detail, number, second_detail};
use parts::copy;
use statement::{Answer, Order, Outcome, Record, Stage, Stop};

fn stage_word(s: Stage) -> usize
    ensures { result ≡ stage_word s }
{
    s as usize
}

pub fn answer_words(a: Answer) -> [usize; 3]
    ensures { result ≡ answer_words a }
{
    [number(a), first_detail(a), second_detail(a)]
}

// The answer's words, then the record's.
pub fn outcome_words(x: Outcome) -> [usize; 12]
    ensures { result ≡ outcome_words x }
{
    let a = x.answer;
    let r = x.record;
    [
        number(a),
        first_detail(a),
        second_detail(a),
        stage_word(r.state),
        r.n,
        r.supernodes,
        r.rows,
        r.updates,
        r.tasks,
        r.top,
        r.entries,
        r.work,
    ]
}

// The outcome's words to the lent ones; its number is returned.
pub fn cross(x: Outcome, results: &mut [usize; 12]) -> usize
    ensures { (results.new ≡ outcome_words x) × (result ≡ number x.answer) }
{
    *results = outcome_words(x);
    number(x.answer)
}

pub fn order_of(word: usize) -> Order
    ensures { result ≡ order_said word }
{
    match word {
        0 => Order::Plain,
        _ => Order::Listed,
    }
}

pub fn stop_of(word: usize) -> Stop
    ensures { result ≡ stop_said word }
{
    match word {
        usize::MAX => Stop::End,
        count => Stop::After(count),
    }
}

fn stage_of(word: usize) -> Stage
    ensures { result ≡ stage_said word }
{
    match word {
        1 => Stage::Analysed,
        2 => Stage::Partial,
        3 => Stage::Full,
        _ => Stage::Empty,
    }
}

pub fn record_of(words: &[usize; 9]) -> Record
    ensures { result ≡ record_said words.now }
{
    Record {
        state: stage_of(words[0]),
        n: words[1],
        supernodes: words[2],
        rows: words[3],
        updates: words[4],
        tasks: words[5],
        top: words[6],
        entries: words[7],
        work: words[8],
    }
}

// The part and zeros after it; zeros alone where it does not fit.
#[tactic(auto, unfolding(crate::specs::Words::handed, statement::specs::Areas::held))]
pub fn hand(part: &[f64], to: &mut [f64])
    ensures { to.new ≡ handed (length to.old) part.now }
{
    to.fill(0.0);
    if part.len() <= to.len() {
        copy(&mut to[..part.len()], part);
    }
}
