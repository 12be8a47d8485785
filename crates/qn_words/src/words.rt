//! The command that a line of words names, or the place of the first word that is at fault.

ghost use Rattle.std.specs.Prelude.{◌≡◌, ◌≤◌, ◌<◌, ◌^◌, ◌&&◌, ℕ, Some, IfOk, IfSome, map, nat_le, string_bytes};
ghost use Rattle.std.specs.Fmt.{decimal};
ghost use Rattle.qn_words.specs.Words.{HasWorkers, command_of, count_at, end_at, gen_of, job_by, job_of, number_in, workers_at};

use qn_gauss::parse_decimal;

/// What the words of the command line ask for.
#[derive(Clone, Copy, Debug, PartialEq, Eq)]
pub enum Job {
    /// The value of a network, by this many workers.
    Contract { workers: u32 },
    /// The steps of a network and their costs.
    Plan,
    /// The automaton of an operator sum.
    Mpo,
    /// The overlap of two states, by this many workers.
    Overlap { workers: u32 },
    /// The expectation of an operator sum between two states, by this many workers.
    Expect { workers: u32 },
    /// The expectation of the workload with this number, by this many workers.
    Gen { seed: u32, workers: u32 },
}

/// The number below 2^64 whose decimal the word is.
fn natural(word: &str) -> Option<u64>
    ensures small { IfSome result (λ n. n < 2 ^ 64) }
    ensures value { IfSome result (λ n. word.now ≡ decimal n) }
    ensures complete { (n : ℕ) → n < 2 ^ 64 → word.now ≡ decimal n → result ≡ Some n }
{
    match parse_decimal(word.as_bytes()) {
        Some(n) if n >= 0 && n <= u64::MAX as i128 => Some(n as u64),
        _ => None,
    }
}

fn is_between(n: u64, low: u32, high: u32) -> bool
    ensures { result ≡ (nat_le low n && nat_le n high) }
{
    u64::from(low) <= n && n <= u64::from(high)
}

/// The number from `low` to `high` whose decimal the word is.
#[tactic(auto, using(crate::proofs::Numbers::number_of_decimal, crate::proofs::Numbers::no_number))]
fn number(word: &str, low: u32, high: u32) -> Option<u32>
    ensures number { result ≡ number_in low high word.now }
    ensures range { IfSome result (λ n. (low ≤ n) × (n ≤ high)) }
{
    match natural(word) {
        Some(n) if is_between(n, low, high) => Some(n as u32),
        _ => None,
    }
}

/// Nothing follows from this place on.
fn end<T: Drop>(place: u32, value: T, words: &[String]) -> Result<T, u32>
    ensures end { result ≡ end_at place value (map string_bytes words.now) }
    ensures same { IfOk result (λ kept. kept ≡ value) }
{
    match words {
        [] => Ok(value),
        _ => Err(place),
    }
}

/// The number of workers at this place, behind which nothing follows.
fn count(place: u32, words: &[String]) -> Result<u32, u32>
    requires { place ≤ 4 }
    ensures count { result ≡ count_at place (map string_bytes words.now) }
    ensures range { IfOk result (λ n. (1 ≤ n) × (n ≤ 64)) }
{
    match words {
        [] => Err(place),
        [word, rest @ ..] => match number(word.as_str(), 1, 64) {
            Some(n) => end(place + 1, n, rest),
            None => Err(place),
        },
    }
}

/// The number of workers that the words from this place on ask for: one where there are none.
fn workers(place: u32, words: &[String]) -> Result<u32, u32>
    requires { place ≤ 3 }
    ensures workers { result ≡ workers_at place (map string_bytes words.now) }
    ensures range { IfOk result (λ n. (1 ≤ n) × (n ≤ 64)) }
{
    match words {
        [] => Ok(1),
        [word, rest @ ..] if word.as_str() == "--workers" => count(place + 1, rest),
        _ => Err(place),
    }
}

/// The seed, and the number of workers behind it.
fn generated(words: &[String]) -> Result<Job, u32>
    ensures job { result ≡ gen_of (map string_bytes words.now) }
    ensures workers { IfOk result HasWorkers }
{
    match words {
        [] => Err(2),
        [word, rest @ ..] => match number(word.as_str(), 0, u32::MAX) {
            Some(seed) => Ok(Job::Gen {
                seed,
                workers: workers(3, rest)?,
            }),
            None => Err(2),
        },
    }
}

/// The command of this name with the words behind it.
fn command(name: &str, words: &[String]) -> Result<Job, u32>
    ensures job { result ≡ command_of name.now (map string_bytes words.now) }
    ensures workers { IfOk result HasWorkers }
{
    match name {
        "contract" => Ok(Job::Contract {
            workers: workers(2, words)?,
        }),
        "plan" => end(2, Job::Plan, words),
        "mpo" => end(2, Job::Mpo, words),
        "overlap" => Ok(Job::Overlap {
            workers: workers(2, words)?,
        }),
        "expect" => Ok(Job::Expect {
            workers: workers(2, words)?,
        }),
        "gen" => generated(words),
        _ => Err(1),
    }
}

/// The job of the words: the command, the seed of `gen`, and where it takes workers `--workers` with
/// a number from 1 to 64. Err has the place, from 1, of the first word that does not fit, or one past
/// the end where a word is missing.
pub fn read_words(words: &[String]) -> Result<Job, u32>
    ensures job { result ≡ job_of (map string_bytes words.now) }
    ensures workers { IfOk result HasWorkers }
{
    match words {
        [] => Err(1),
        [name, rest @ ..] => command(name.as_str(), rest),
    }
}
