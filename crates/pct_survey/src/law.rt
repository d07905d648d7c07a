//! The theorem on surveys.

ghost use Rattle.pct_survey.specs.OneSurvey.{SurveysAreOne};

/// An empty function whose contract states a theorem: a script, a configuration, rules and a number of seeds have one survey. It does not depend
/// on how the runs are spread.
pub fn surveys_are_one()
    ensures { SurveysAreOne }
{}
