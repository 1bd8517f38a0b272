//! What holds of all questions, markings and lists of calls, by proof alone: these functions do nothing.
ghost use Rattle.sets.specs.declared.Set.{Set};
ghost use Rattle.scheme.specs.Task.{Task};
ghost use Rattle.rules.specs.Theorems.{ReachTells, QuestionsSettled, QuestionsAgree, MarkingsSettled, LandmarksKept, CallsDetermined};

use tariff::Tariff;

/// A question is out of reach exactly when no order does what it asks.
pub fn reach_tells()
    ensures { (k : Task) (bars : Set) → ReachTells k bars }
{}

/// A question over landmarks comes to one outcome, which is right.
pub fn questions_are_settled<T: Tariff>()
    ensures { QuestionsSettled T.Tariff.scale }
{}

/// Two questions over landmarks agree, whatever their choosers keep and can keep.
pub fn questions_agree<T: Tariff>()
    ensures { QuestionsAgree T.Tariff.scale }
{}

/// A paper marked over landmarks gets one verdict.
pub fn markings_are_settled<T: Tariff>()
    ensures { MarkingsSettled T.Tariff.scale }
{}

/// After every list of calls the kept sets are landmarks of the scheme.
pub fn landmarks_are_kept<T: Tariff>()
    ensures { LandmarksKept T.Tariff.scale }
{}

/// Every list of calls leads to one scheme and one list of kept sets.
pub fn calls_are_determined<T: Tariff>()
    ensures { CallsDetermined T.Tariff.scale }
{}
