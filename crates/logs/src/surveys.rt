// Surveys in the lives of a log.
ghost use Rattle.logs.specs.Surveys.{Carried};

use lives::laws::SurveyRule;

// The calls of a log, and surveys of it by whichever rule, carry on the lives whose surveys answer by that rule.
pub fn lives_carried<S: SurveyRule>()
    ensures { Carried S.SurveyRule.answers }
{}
