// Scripts run as lives.
ghost use Rattle.std.specs.Prelude.{◌≡◌, ℕ, ◌≤◌, true, false, [], length, is_ok, vec_capacity};
ghost use Rattle.logs.specs.Stands.{Leads};
ghost use Rattle.logs.specs.States.{state_of};
ghost use Rattle.replaying.specs.Runs.{Ran, Replays, records};
ghost use Rattle.replaying.specs.Surveys.{survey_rule};

use crate::answer::Answer;
use crate::call::Call;
use crate::desk::Desk;
use crate::hand::Hand;
use crate::log::Log;
use crate::steps::{Stepped, step};
use crate::stop::Stop;
use logs::log::Recording;
use logs::storage::Storage;
use surveying::desk::SurveyDesk;
use values::kind::Kind;

// Makes the script's calls up to its end, or to the first that is not possible.
fn run<V: Kind>(
    mut log: Log,
    storage: &mut Storage<'_, V>,
    hand: &mut Hand,
    script: &[Call<V>],
    surveys: &mut SurveyDesk<V>,
    answers: &mut Vec<Answer>,
) -> Log
    requires empty { answers.old.items ≡ [] }
    requires room { length script.now ≤ vec_capacity answers.old }
    ensures ran { (first entries : ℕ) → Leads (survey_rule V.Kind.meaning) first entries [] (state_of storage.old) → records log ≡ true → Ran (survey_rule V.Kind.meaning) first entries script.now answers.new.items (state_of storage.new) (records result) }
    ensures room { vec_capacity answers.new ≡ vec_capacity answers.old }
{
    for call in script {
        let Stepped { log: next, answer } = step(log, storage, hand, call, surveys);
        log = next;
        let Some(answer) = answer else {
            return log;
        };
        answers.push_reserved(answer);
    }
    log
}

// Opens a log at a tick and makes the script's calls on it, one after another, as one life. The desk then has the answers.
pub fn replay<V: Kind>(
    storage: &mut Storage<'_, V>,
    first: u32,
    script: &[Call<V>],
    desk: &mut Desk<V>,
) -> Result<(), Stop>
    ensures life { Replays (survey_rule V.Kind.meaning) first script.now desk.old.places (state_of storage.old) (state_of storage.new) desk.new.answers.items result }
    ensures places { desk.new.places ≡ desk.old.places }
    ensures untouched { is_ok result ≡ false → (storage.new ≡ storage.old) × (desk.new ≡ desk.old) }
{
    if script.len() > desk.places {
        return Err(Stop::TooLong {
            places: desk.places,
        });
    }
    let log = Recording::open(storage, first)?;
    desk.answers.clear();
    let mut hand = Hand::new(desk.heap);
    let _ = run(
        Log::Recording(log),
        storage,
        &mut hand,
        script,
        &mut desk.surveys,
        &mut desk.answers,
    );
    hand.use_up();
    Ok(())
}
