// The law over all lives.
ghost use Rattle.std.specs.Prelude.{ℕ, List, Result};
ghost use Rattle.operations.specs.declared.refusal.Refusal.{Refusal};
ghost use Rattle.operations.specs.declared.row.Row.{Row};
ghost use Rattle.lives.specs.Calls.{Report};
ghost use Rattle.lives.specs.Life.{LivesLawful};

// What a survey may answer: a report or a refusal, for a list of operations and a limit. The law is the same for every such rule.
pub trait SurveyRule {
    type Value;

    ghost answers: { List (Row Self.Value) → ℕ → Result Report Refusal → Type 0 };
}

// At every point of every life of a log nothing is dropped, doubled, moved or made up.
pub fn lives_stand<S: SurveyRule>()
    ensures { LivesLawful S.SurveyRule.answers }
{}
