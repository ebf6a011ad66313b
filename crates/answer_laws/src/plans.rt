//! Laws of winning trees. The functions do nothing: their contracts are the laws.
ghost use Rattle.answer_laws.specs.Plans.{WinsForce, WinsNoSooner, WinsHaveText, TwiceAsHigh, OneBestPlan, BestWins, BestBegins, BestIsRead};

/// What a plan wins is forced, within as many plies as the plan is high, and no plan wins within fewer than the fewest. It has a
/// text, and its height is twice its depth less one.
pub fn winning_plan_laws()
    ensures forced { WinsForce }
    ensures no_sooner { WinsNoSooner }
    ensures text { WinsHaveText }
    ensures height { TwiceAsHigh }
{}

/// A position has one best plan. It wins in as many plies as the answer names, begins with the answer's move, and its text is
/// one that is read back.
pub fn best_plan_laws()
    ensures one { OneBestPlan }
    ensures wins { BestWins }
    ensures begins { BestBegins }
    ensures read { BestIsRead }
{}
