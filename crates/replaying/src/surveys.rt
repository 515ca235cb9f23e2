// Surveys of a closed log.
ghost use Rattle.leaving.specs.Leaving.{entries, unlisted};
ghost use Rattle.relations.specs.Meanings.{told};
ghost use Rattle.surveying.specs.Desks.{desk_findings, desk_orders};
ghost use Rattle.logs.specs.States.{state_of};
ghost use Rattle.replaying.specs.Surveys.{survey_rule, Surveys, Finds};

use leaving::without::leave_out;
use logs::log::Closed;
use logs::storage::Storage;
use operations::refusal::Refusal;
use surveying::desk::SurveyDesk;
use surveying::report::Report;
use surveying::survey::survey as survey_source;
use values::kind::Kind;

// Surveys a closed log without the listed bays. Where there is no list, filtering is off.
pub fn survey<V: Kind>(
    log: &Closed,
    storage: &Storage<'_, V>,
    bays: Option<&[u32]>,
    limit: u32,
    desk: &mut SurveyDesk<V>,
) -> Result<Report, Refusal>
    ensures answer { Surveys (survey_rule V.Kind.meaning) (state_of storage.now).ended (entries bays.entry) limit result }
    ensures found { Finds (told V.Kind.meaning (unlisted (entries bays.entry) (state_of storage.now).ended)) (desk_findings desk.new) (desk_orders desk.new) result }
{
    let view = log.view(storage);
    let kept = leave_out(&view, bays)?;
    let report = survey_source(&kept, limit, desk)?;
    Ok(report)
}
