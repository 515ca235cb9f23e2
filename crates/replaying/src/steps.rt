// The calls of a script, made on a log.
ghost use Rattle.std.specs.Prelude.{◌≡◌, true, false};
ghost use Rattle.lives.specs.Calls.{Begin as LifeBegin, Survey as LifeSurvey};
ghost use Rattle.logs.specs.States.{state_of};
ghost use Rattle.replaying.specs.Runs.{Goes, Steps, records};
ghost use Rattle.replaying.specs.Scripts.{bays_of};
ghost use Rattle.replaying.specs.Surveys.{survey_rule};
ghost use Rattle.replaying.specs.declared.call.Call.TheVariants.{End, Lose, Close};

use crate::answer::{Accepted, Answer};
use crate::call::Call;
use crate::hand::Hand;
use crate::log::Log;
use crate::surveys::survey;
use crate::ticket::Ticket;
use logs::handed_back::HandedBack;
use logs::log::{Closed, Recording};
use logs::storage::Storage;
use logs::ticket_name::TicketName;
use operations::row::Sort;
use surveying::desk::SurveyDesk;
use values::kind::Kind;

// What a call came to: the log after it, and the answer, or none where the call is not possible.
pub(crate) struct Stepped {
    pub(crate) log: Log,
    pub(crate) answer: Option<Answer>,
}

fn begin<V: Kind>(
    log: &Recording,
    storage: &mut Storage<'_, V>,
    hand: &mut Hand,
    sort: Sort,
    cabinet: u32,
    bay: u32,
) -> Answer
    ensures { Goes (survey_rule V.Kind.meaning) true true (state_of storage.old) (state_of storage.new) (LifeBegin sort cabinet bay) result }
{
    let ticket = Ticket::begin(log, storage, sort, cabinet, bay)?;
    let tick = ticket.name().begun;
    hand.keep(ticket);
    Ok(Accepted::Begun { tick })
}

fn end<V: Kind>(
    log: &Recording,
    storage: &mut Storage<'_, V>,
    hand: &mut Hand,
    name: TicketName,
    value: V,
) -> Option<Answer>
    ensures { Steps (survey_rule V.Kind.meaning) true true (state_of storage.old) (state_of storage.new) (End name value) result }
{
    let ticket = hand.take(name)?;
    match ticket.end(log, storage, value) {
        Ok(()) => Some(Ok(Accepted::Ended)),
        Err(
            HandedBack {
                refusal,
                value: ticket,
            },
        ) => {
            hand.keep(ticket);
            Some(Err(refusal.into()))
        }
    }
}

fn lose<V: Kind>(
    log: &Recording,
    storage: &mut Storage<'_, V>,
    hand: &mut Hand,
    name: TicketName,
) -> Option<Answer>
    ensures { Steps (survey_rule V.Kind.meaning) true true (state_of storage.old) (state_of storage.new) (Lose name) result }
{
    let ticket = hand.take(name)?;
    match ticket.lose(log, storage) {
        Ok(()) => Some(Ok(Accepted::Lost)),
        Err(refusal) => Some(Err(refusal.into())),
    }
}

fn close<V: Kind>(log: Recording, storage: &Storage<'_, V>) -> Stepped
    ensures { Steps (survey_rule V.Kind.meaning) true (records result.log) (state_of storage.now) (state_of storage.now) Close result.answer }
{
    match log.close(storage) {
        Ok(closed) => Stepped {
            log: Log::Closed(closed),
            answer: Some(Ok(Accepted::Closed)),
        },
        Err(HandedBack { refusal, value }) => Stepped {
            log: Log::Recording(value),
            answer: Some(Err(refusal.into())),
        },
    }
}

fn surveyed<V: Kind>(
    log: &Closed,
    storage: &Storage<'_, V>,
    bays: &Option<Vec<u32>>,
    limit: u32,
    desk: &mut SurveyDesk<V>,
) -> Answer
    ensures { Goes (survey_rule V.Kind.meaning) false false (state_of storage.now) (state_of storage.now) (LifeSurvey (bays_of bays.now) limit) result }
{
    let report = survey(log, storage, bays.as_deref(), limit, desk)?;
    Ok(Accepted::Surveyed(report))
}

// A recording log is neither reopened nor surveyed.
fn step_recording<V: Kind>(
    log: Recording,
    storage: &mut Storage<'_, V>,
    hand: &mut Hand,
    call: &Call<V>,
) -> Stepped
    ensures { Steps (survey_rule V.Kind.meaning) true (records result.log) (state_of storage.old) (state_of storage.new) call.now result.answer }
{
    let answer = match call {
        Call::Begin { sort, cabinet, bay } => {
            Some(begin(&log, storage, hand, *sort, *cabinet, *bay))
        }
        Call::End { ticket, value } => end(&log, storage, hand, *ticket, *value),
        Call::Lose { ticket } => lose(&log, storage, hand, *ticket),
        Call::Close => return close(log, storage),
        Call::Reopen | Call::Survey { bays: _, limit: _ } => None,
    };
    Stepped {
        log: Log::Recording(log),
        answer,
    }
}

// A closed log is reopened or surveyed.
fn step_closed<V: Kind>(
    log: Closed,
    storage: &mut Storage<'_, V>,
    call: &Call<V>,
    surveys: &mut SurveyDesk<V>,
) -> Stepped
    ensures { Steps (survey_rule V.Kind.meaning) false (records result.log) (state_of storage.old) (state_of storage.new) call.now result.answer }
{
    match call {
        Call::Reopen => Stepped {
            log: Log::Recording(log.reopen(storage)),
            answer: Some(Ok(Accepted::Reopened)),
        },
        Call::Survey { bays, limit } => {
            let answer = surveyed(&log, storage, bays, *limit, surveys);
            Stepped {
                log: Log::Closed(log),
                answer: Some(answer),
            }
        }
        _ => Stepped {
            log: Log::Closed(log),
            answer: None,
        },
    }
}

// Makes the call on the log.
pub(crate) fn step<V: Kind>(
    log: Log,
    storage: &mut Storage<'_, V>,
    hand: &mut Hand,
    call: &Call<V>,
    surveys: &mut SurveyDesk<V>,
) -> Stepped
    ensures { Steps (survey_rule V.Kind.meaning) (records log) (records result.log) (state_of storage.old) (state_of storage.new) call.now result.answer }
{
    match log {
        Log::Recording(log) => step_recording(log, storage, hand, call),
        Log::Closed(log) => step_closed(log, storage, call, surveys),
    }
}
