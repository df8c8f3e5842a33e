// The words after the program's name.

ghost use Rattle.std.specs.Prelude.{◌≡◌, ◌≤◌, ◌+◌, ℕ, [], length, drop, map, string_bytes, fold, Some, Err, option_to_list, MatchResult};
ghost use Rattle.std.specs.List.{list_all};
ghost use Rattle.std.specs.Str.{bytes_eq};
ghost use Rattle.sy_top.specs.Words as spec;

use crate::jobs::{Job, Settings};
use thiserror::Error;

/// The words are none that the program takes.
#[derive(Clone, Copy, PartialEq, Eq, Debug, Error)]
#[error("no words that the program takes")]
pub struct BadWords;

/// An option that a number goes with.
#[derive(Clone, Copy)]
enum Numbered {
    Workers,
    Turns,
    Seed,
    Groups,
}

/// A mode, or an option with its number.
#[derive(Clone, Copy)]
enum Item {
    Mode(Job),
    Workers(u32),
    Turns(u32),
    Seed(u32),
    Groups(u32),
    Stats,
    Trace,
}

/// What the items so far gave.
#[derive(Clone, Copy)]
struct Given {
    mode: Option<Job>,
    workers: Option<u32>,
    turns: Option<u32>,
    seed: Option<u32>,
    groups: Option<u32>,
    stats: bool,
    trace: bool,
}

const NOTHING: Given = Given {
    mode: None,
    workers: None,
    turns: None,
    seed: None,
    groups: None,
    stats: false,
    trace: false,
};

fn is_text(a: &[u8], b: &[u8]) -> bool
    ensures { result ≡ bytes_eq a.now b.now }
{
    a == b
}

fn is_digit(b: u8) -> bool
    ensures { result ≡ spec.is_digit b }
{
    b'0' <= b && b <= b'9'
}

fn are_digits(text: &[u8]) -> bool
    ensures { result ≡ list_all spec.is_digit text.now }
{
    text.iter().all(|b| is_digit(*b))
}

fn is_numeral(text: &[u8]) -> bool
    ensures { result ≡ spec.is_numeral text.now }
{
    match text {
        [] => false,
        [first, rest @ ..] => are_digits(text) && (*first != b'0' || rest.is_empty()),
    }
}

/// The number so far with one more digit, up to the greatest.
fn push_digit(greatest: u32, number: Option<u32>, digit: u8) -> Option<u32>
    ensures { result ≡ spec.push_digit greatest number digit }
{
    let n = number?;
    if !is_digit(digit) {
        return None;
    }
    let next = 10 * n as u64 + (digit - b'0') as u64;
    if next <= greatest as u64 {
        Some(next as u32)
    } else {
        None
    }
}

/// The number that these digits write, up to the greatest.
fn number_up_to(greatest: u32, text: &[u8]) -> Option<u32>
    ensures { result ≡ fold (spec.push_digit greatest) (Some 0) text.now }
{
    let mut number = Some(0);
    for digit in text {
        number = push_digit(greatest, number, *digit);
    }
    number
}

fn number_within(least: u32, greatest: u32, text: &[u8]) -> Option<u32>
    ensures { result ≡ spec.number_within least greatest text.now }
{
    if !is_numeral(text) {
        return None;
    }
    let number = number_up_to(greatest, text)?;
    if least <= number { Some(number) } else { None }
}

#[tactic(auto, unfolding(crate::specs::Words::numbered_option))]
fn numbered_option(text: &[u8]) -> Option<Numbered>
    ensures { result ≡ spec.numbered_option text.now }
{
    if is_text(text, b"--workers") {
        Some(Numbered::Workers)
    } else if is_text(text, b"--turns") {
        Some(Numbered::Turns)
    } else if is_text(text, b"--seed") {
        Some(Numbered::Seed)
    } else if is_text(text, b"--groups") {
        Some(Numbered::Groups)
    } else {
        None
    }
}

#[tactic(auto, unfolding(crate::specs::Words::with_number))]
fn with_number(option: Numbered, text: &[u8]) -> Option<Item>
    ensures { result ≡ spec.with_number option text.now }
{
    match option {
        Numbered::Workers => Some(Item::Workers(number_within(1, 64, text)?)),
        Numbered::Turns => Some(Item::Turns(number_within(1, 1_000_000_000, text)?)),
        Numbered::Seed => Some(Item::Seed(number_within(0, 65_535, text)?)),
        Numbered::Groups => Some(Item::Groups(number_within(1, 20_000, text)?)),
    }
}

fn name_len(word: &[u8]) -> usize
    ensures value { result ≡ spec.name_len word.now }
    ensures within { result ≤ length word.now }
{
    word.iter().take_while(|b| **b != b'=').count()
}

/// The bytes behind the one at an index, none where it is the length.
fn behind(word: &[u8], at: usize) -> &[u8]
    requires { at ≤ length word.now }
    ensures { result.now ≡ drop (at + 1) word.now }
{
    if at < word.len() {
        &word[at + 1..]
    } else {
        &[]
    }
}

/// An option with its number behind `=`.
#[tactic(auto, unfolding(crate::specs::Words::assigned))]
fn assigned(word: &[u8]) -> Option<Item>
    ensures { result ≡ spec.assigned word.now }
{
    let len = name_len(word);
    match numbered_option(&word[..len]) {
        Some(option) => with_number(option, behind(word, len)),
        None => None,
    }
}

/// The item that is one word.
#[tactic(auto, unfolding(crate::specs::Words::one_word))]
fn one_word(word: &[u8]) -> Option<Item>
    ensures { result ≡ spec.one_word word.now }
{
    if is_text(word, b"check") {
        Some(Item::Mode(Job::Check))
    } else if is_text(word, b"serial") {
        Some(Item::Mode(Job::Serial))
    } else if is_text(word, b"run") {
        Some(Item::Mode(Job::Run))
    } else if is_text(word, b"selftest") {
        Some(Item::Mode(Job::SelfTest))
    } else if is_text(word, b"replay") {
        Some(Item::Mode(Job::Replay))
    } else if is_text(word, b"--stats") {
        Some(Item::Stats)
    } else if is_text(word, b"--trace") {
        Some(Item::Trace)
    } else {
        assigned(word)
    }
}

fn has_workers(job: Job) -> bool
    ensures { result ≡ spec.has_workers job }
{
    match job {
        Job::Run | Job::SelfTest => true,
        Job::Check | Job::Serial | Job::Replay => false,
    }
}

fn runs_source(job: Job) -> bool
    ensures { result ≡ spec.runs_source job }
{
    match job {
        Job::Check => false,
        Job::Serial | Job::Run | Job::SelfTest | Job::Replay => true,
    }
}

fn is_selftest(job: Job) -> bool
    ensures { result ≡ spec.is_selftest job }
{
    match job {
        Job::SelfTest => true,
        Job::Check | Job::Serial | Job::Run | Job::Replay => false,
    }
}

fn may_stand(has: bool, number: Option<u32>) -> bool
    ensures { result ≡ spec.may_stand has (option_to_list number) }
{
    match number {
        Some(_) => has,
        None => true,
    }
}

fn must_stand(has: bool, number: Option<u32>) -> bool
    ensures { result ≡ spec.must_stand has (option_to_list number) }
{
    match number {
        Some(_) => has,
        None => !has,
    }
}

impl Given {
    /// Whether an item of this kind was given before.
    fn has(&self, item: Item) -> bool
        ensures { result ≡ spec.has self.now item }
    {
        match item {
            Item::Mode(_) => self.mode.is_some(),
            Item::Workers(_) => self.workers.is_some(),
            Item::Turns(_) => self.turns.is_some(),
            Item::Seed(_) => self.seed.is_some(),
            Item::Groups(_) => self.groups.is_some(),
            Item::Stats => self.stats,
            Item::Trace => self.trace,
        }
    }

    fn with_item(self, item: Item) -> Given
        ensures { result ≡ spec.with_item self item }
    {
        match item {
            Item::Mode(job) => Given {
                mode: Some(job),
                ..self
            },
            Item::Workers(n) => Given {
                workers: Some(n),
                ..self
            },
            Item::Turns(n) => Given {
                turns: Some(n),
                ..self
            },
            Item::Seed(n) => Given {
                seed: Some(n),
                ..self
            },
            Item::Groups(n) => Given {
                groups: Some(n),
                ..self
            },
            Item::Stats => Given {
                stats: true,
                ..self
            },
            Item::Trace => Given {
                trace: true,
                ..self
            },
        }
    }

    /// With one more item, where there is one and no other of its kind was given.
    fn taken(self, item: Option<Item>) -> Result<Given, BadWords>
        ensures { result ≡ spec.taken self item }
    {
        match item {
            Some(item) => {
                if self.has(item) {
                    Err(BadWords)
                } else {
                    Ok(self.with_item(item))
                }
            }
            None => Err(BadWords),
        }
    }

    /// Whether these are the options that go with the mode.
    fn fits(&self, job: Job) -> bool
        ensures { result ≡ spec.fits job (spec.said_with self.now (spec.said_by [])) }
    {
        may_stand(has_workers(job), self.workers)
            && must_stand(is_selftest(job), self.seed)
            && must_stand(is_selftest(job), self.groups)
            && (runs_source(job) || !self.stats)
            && (runs_source(job) || !self.trace)
    }

    /// The settings, where there are no more items.
    fn settled(&self) -> Result<Settings, BadWords>
        ensures { result ≡ spec.settings_after self.now (Some []) }
    {
        match self.mode {
            Some(job) => {
                if self.fits(job) {
                    Ok(Settings {
                        job,
                        workers: self.workers.unwrap_or(4),
                        turns: self.turns.unwrap_or(10_000_000) as u64,
                        seed: self.seed.unwrap_or(0),
                        groups: self.groups.unwrap_or(0),
                        stats: self.stats,
                        trace: self.trace,
                    })
                } else {
                    Err(BadWords)
                }
            }
            None => Err(BadWords),
        }
    }
}

/// What the words give.
fn read_words(words: &[String]) -> Result<Given, BadWords>
    ensures { MatchResult result
        (λ all. spec.words_of (map string_bytes words.now) ≡ spec.settings_after all (Some []))
        (λ e. spec.words_of (map string_bytes words.now) ≡ Err (record {})) }
{
    let mut given = NOTHING;
    let mut rest = words;
    while let Some((first, after)) = rest.split_first() {
        let word = first.as_bytes();
        match numbered_option(word) {
            Some(option) => {
                let Some((second, behind)) = after.split_first() else {
                    return Err(BadWords);
                };
                given = given.taken(with_number(option, second.as_bytes()))?;
                rest = behind;
            }
            None => {
                given = given.taken(one_word(word))?;
                rest = after;
            }
        }
    }
    Ok(given)
}

/// What the words say: one mode and its options, each at most once, in any order.
///
/// The modes are `check`, `serial`, `run`, `selftest` and `replay`. The options are `--workers N`
/// (1 to 64), `--turns N` (1 to 1000000000), `--seed N` (0 to 65535), `--groups N` (1 to 20000),
/// `--stats` and `--trace`; a number may also stand behind `=` in the same word.
pub fn settings(words: &[String]) -> Result<Settings, BadWords>
    ensures { result ≡ spec.words_of (map string_bytes words.now) }
{
    read_words(words)?.settled()
}
