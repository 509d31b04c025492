//! What follows from the definitions alone. Each function does nothing when it runs: its contract is the law.

ghost use Rattle.std.specs.Prelude.{◌≡◌, ◌++◌, List, length, map, take, drop};
ghost use Rattle.relay_questions.specs.Steps.{IsOtherwise, right_answer, steps_left, verdict};
ghost use Rattle.relay_questions.specs.declared.asking.Answer.{Answer};
ghost use Rattle.relay_questions.specs.declared.asking.Found.TheVariants.{More, Otherwise, Tells};
ghost use Rattle.relay_questions.specs.declared.step.Question.{Question};
ghost use Rattle.relay_questions.specs.declared.step.Step.{Step};

/// A server is found to tell all exactly where its answer to each step was as it must be.
pub fn tells_exactly()
    ensures only { (steps : List Step) (answers : List Answer) → verdict steps answers ≡ Tells
        → take (length steps) answers ≡ map right_answer steps }
    ensures all { (steps : List Step) (answers : List Answer)
        → take (length steps) answers ≡ map right_answer steps → verdict steps answers ≡ Tells }
{}

/// It is found otherwise by a question exactly where the first answer that isn't as it must be was to a step of it.
pub fn otherwise_exactly()
    ensures only { (steps : List Step) (answers : List Answer) (question : Question)
        → verdict steps answers ≡ Otherwise question → IsOtherwise question steps answers }
    ensures all { (steps : List Step) (answers : List Answer) (question : Question)
        → IsOtherwise question steps answers → verdict steps answers ≡ Otherwise question }
{}

/// Answers are found by one by one, or all at once.
pub fn one_by_one()
    ensures found { (steps : List Step) (before behind : List Answer)
        → verdict steps before ≡ More
        → verdict steps (before ++ behind) ≡ verdict (steps_left steps before) behind }
    ensures left { (steps : List Step) (before behind : List Answer)
        → verdict steps before ≡ More
        → steps_left steps (before ++ behind) ≡ steps_left (steps_left steps before) behind }
{}
