// Guesses at what a line says. A guess is held against the line afterwards, so it may be wrong.
use crate::line::Line;
use crate::unread::Unread;
use logs::ticket_name::TicketName;
use operations::row::Sort;
use replaying::call::Call;
use std::alloc::Global;
use values::kind::Kind;
use values::serial::Serial;

fn number(word: &str) -> Result<u32, Unread> {
    word.parse().map_err(|_| Unread::NotUnderstood)
}

fn numbers(heap: Global, words: &[&str]) -> Result<Vec<u32>, Unread> {
    let mut numbers = Vec::new(heap);
    for word in words {
        numbers.push(number(word)?)?;
    }
    Ok(numbers)
}

fn sort(word: &str) -> Result<Sort, Unread> {
    match word {
        "read" => Ok(Sort::Read),
        "write" => Ok(Sort::Write),
        _ => Err(Unread::NotUnderstood),
    }
}

fn serial(word: &str) -> Result<Serial, Unread> {
    Serial::from_pattern(number(word)?).ok_or(Unread::NotUnderstood)
}

fn ticket(words: &[&str]) -> Result<TicketName, Unread> {
    match words {
        [word, "cabinet", cabinet, "tick", tick] => Ok(TicketName {
            sort: sort(word)?,
            cabinet: number(cabinet)?,
            begun: number(tick)?,
        }),
        _ => Err(Unread::NotUnderstood),
    }
}

fn begin(words: &[&str]) -> Result<Call<Serial>, Unread> {
    match words {
        [word, "cabinet", cabinet, "bay", bay] => Ok(Call::Begin {
            sort: sort(word)?,
            cabinet: number(cabinet)?,
            bay: number(bay)?,
        }),
        _ => Err(Unread::NotUnderstood),
    }
}

fn end(words: &[&str]) -> Result<Call<Serial>, Unread> {
    match words {
        [name @ .., "serial", value] => Ok(Call::End {
            ticket: ticket(name)?,
            value: serial(value)?,
        }),
        _ => Err(Unread::NotUnderstood),
    }
}

fn survey(heap: Global, words: &[&str]) -> Result<Call<Serial>, Unread> {
    match words {
        ["limit", limit] => Ok(Call::Survey {
            bays: None,
            limit: number(limit)?,
        }),
        ["limit", limit, "without", bays @ ..] => Ok(Call::Survey {
            bays: Some(numbers(heap, bays)?),
            limit: number(limit)?,
        }),
        _ => Err(Unread::NotUnderstood),
    }
}

fn call(heap: Global, words: &[&str]) -> Result<Call<Serial>, Unread> {
    match words {
        ["begin", rest @ ..] => begin(rest),
        ["end", rest @ ..] => end(rest),
        ["lose", rest @ ..] => Ok(Call::Lose {
            ticket: ticket(rest)?,
        }),
        ["close"] => Ok(Call::Close),
        ["reopen"] => Ok(Call::Reopen),
        ["survey", rest @ ..] => survey(heap, rest),
        _ => Err(Unread::NotUnderstood),
    }
}

// The line that these words may be.
pub(crate) fn guess(heap: Global, words: &[&str]) -> Result<Line, Unread> {
    match words {
        ["open", first] => Ok(Line::Open {
            first: number(first)?,
        }),
        ["storage", entries] => Ok(Line::Storage {
            entries: number(entries)?,
        }),
        _ => Ok(Line::Call(call(heap, words)?)),
    }
}
