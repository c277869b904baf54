//! Laws of judging. Each is a function that does nothing, whose contract is the law.

ghost use Rattle.policy_rules.specs.Laws.{OneResult, AnswerIsJudged};

/// Of what [`crate::judge`] may answer, by its contract, there is one alone.
pub fn there_is_one_result()
    ensures { OneResult }
{}

/// The first rule that decides gives what the function `judged_by` computes.
pub fn the_answer_is_judged()
    ensures { AnswerIsJudged }
{}
