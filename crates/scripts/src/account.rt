// The account of a script that was run.
ghost use Rattle.std.specs.Prelude.{◌≡◌, IfOk, Some, drop, string_bytes};
ghost use Rattle.scripts.specs.Accounts.{count, is_begun, is_ended, is_lost, counts_words, line_words, lines_words, stop_words, account_words};

use replaying::answer::{Accepted, Answer};
use replaying::call::Call;
use std::alloc::{AllocError, Global};
use std::fmt;
use values::words::Written;

// How many begins, ends and losses were accepted.
#[derive(Drop)]
struct Counts {
    begins: usize,
    ends: usize,
    losses: usize,
}

impl Counts {
    fn of(answers: &[Answer]) -> Counts
        ensures begins { result.begins ≡ count is_begun answers.now }
        ensures ends { result.ends ≡ count is_ended answers.now }
        ensures losses { result.losses ≡ count is_lost answers.now }
    {
        Counts {
            begins: begins_in(answers),
            ends: ends_in(answers),
            losses: losses_in(answers),
        }
    }
}

fn begins_in(answers: &[Answer]) -> usize
    ensures { result ≡ count is_begun answers.now }
{
    answers
        .iter()
        .filter(|answer| matches!(answer, Ok(Accepted::Begun { tick: _ })))
        .count()
}

fn ends_in(answers: &[Answer]) -> usize
    ensures { result ≡ count is_ended answers.now }
{
    answers
        .iter()
        .filter(|answer| matches!(answer, Ok(Accepted::Ended)))
        .count()
}

fn losses_in(answers: &[Answer]) -> usize
    ensures { result ≡ count is_lost answers.now }
{
    answers
        .iter()
        .filter(|answer| matches!(answer, Ok(Accepted::Lost)))
        .count()
}

// The counts, and how many operations wait.
impl fmt::Display for Counts {
    ghost output = { λ counts. Some (counts_words counts.begins counts.ends counts.losses) };

    fn fmt<W: fmt::Write>(&self, f: &mut fmt::Formatter<W>) -> fmt::Result {
        let begins = self.begins;
        let ends = self.ends;
        let losses = self.losses;
        let waiting = begins.saturating_sub(ends).saturating_sub(losses);
        write!(
            f,
            "begins {begins} ends {ends} losses {losses} waiting {waiting}"
        )
    }
}

// A call with its answer.
#[derive(Drop)]
struct Made<'a, V> {
    call: &'a Call<V>,
    answer: &'a Answer,
}

impl<'a, V: Written> fmt::Display for Made<'a, V> {
    ghost output = { λ made. Some (line_words V.Written.words made.call.now made.answer.now) };

    fn fmt<W: fmt::Write>(&self, f: &mut fmt::Formatter<W>) -> fmt::Result {
        let call = self.call;
        match self.answer {
            Ok(accepted) => writeln!(f, "{call}: {accepted}"),
            Err(refusal) => writeln!(f, "{call}: {refusal}"),
        }
    }
}

// Every call that was made, with its answer.
#[derive(Drop)]
struct Lines<'a, V> {
    calls: &'a [Call<V>],
    answers: &'a [Answer],
}

impl<'a, V: Written> fmt::Display for Lines<'a, V> {
    ghost output = { λ lines. Some (lines_words V.Written.words lines.calls.now lines.answers.now) };

    fn fmt<W: fmt::Write>(&self, f: &mut fmt::Formatter<W>) -> fmt::Result {
        for (call, answer) in self.calls.iter().zip(self.answers) {
            let made = Made { call, answer };
            write!(f, "{made}")?;
        }
        Ok(())
    }
}

// The calls that were not made: the script stopped at the first, if there is one.
#[derive(Drop)]
struct Unmade<'a, V> {
    calls: &'a [Call<V>],
}

impl<'a, V: Written> fmt::Display for Unmade<'a, V> {
    ghost output = { λ unmade. Some (stop_words V.Written.words unmade.calls.now) };

    fn fmt<W: fmt::Write>(&self, f: &mut fmt::Formatter<W>) -> fmt::Result {
        match self.calls.first() {
            Some(call) => writeln!(f, "stopped at {call}"),
            None => Ok(()),
        }
    }
}

// The calls of a script with the answers to those that were made, where it stopped, and the counts.
pub fn account<V: Written>(
    heap: Global,
    calls: &[Call<V>],
    answers: &[Answer],
) -> Result<String, AllocError>
    ensures { IfOk result (λ text. string_bytes text ≡ account_words V.Written.words calls.now answers.now) }
{
    let lines = Lines { calls, answers };
    let unmade = Unmade {
        calls: calls.get(answers.len()..).unwrap_or_default(),
    };
    let counts = Counts::of(answers);
    format!(in heap; "{lines}{unmade}{counts}")
}
