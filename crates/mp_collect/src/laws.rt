//! What a checkpoint is good for, as the contract of a function that does nothing.
ghost use Rattle.mp_collect.specs.Laws.{SavesGiveTheAnswer, SavesOfPlainEventsGiveTheAnswer};

use mp_saved::Saved;

/// A job that stops at a time and one that goes on from a checkpoint of what the first leaves there have together the
/// answer: its lines are those of the first job, and then those of the second. That its cells may be saved is asked, as each
/// checkpoint that a file says has it; or else that it stands in order and that names in the events hold no bar and no line
/// feed, as those of a file.
pub fn saves_give_the_answer<Q: Saved>()
    ensures allowed { SavesGiveTheAnswer Q.text_of Q.facts }
    ensures plain { SavesOfPlainEventsGiveTheAnswer Q.text_of Q.facts }
{}
