// Questions of a unit's turns, and acts that were computed apart.
ghost use Rattle.std.specs.Prelude.{◌≡◌, ◌↔◌, ◌⊎◌, ℕ, List, Some, None, Err, OnOk, OnErr, IfOk};
ghost use Rattle.samza_model.specs.declared.acts.Answer.{Answer as AnswerValue};
ghost use Rattle.samza_model.specs.declared.flights.Flight.{Flight};
ghost use Rattle.samza_model.specs.declared.turns.Turn.TheVariants.{Call, Window};
ghost use Rattle.samza_model.specs.Events.{flight_of};
ghost use Rattle.task_core.specs.Acting.{applied_now, applied_in_window};
ghost use Rattle.task_core.specs.Applying.{IsAnswered, IsStale, IsUnknown};
ghost use Rattle.task_core.specs.Questions.{question_of};
ghost use Rattle.event_unit.specs.Acts.{act_event, window_act_event};
ghost use Rattle.unit_steps.specs.Units.{Adds};

use crate::units::TaskUnit;
use disk_model::{Disk, Shelf};
use samza_model::{Job, Turn};
use task_core::{Applied, ApplyFault, Question, QuestionFault, Stepped};

impl<'j, J: Job, D: Disk, S: Shelf> TaskUnit<'j, J, D, S> {
    /// The question of a callback in flight, or of the window that is open: what the job's next act is a function of.
    ///
    /// `Unknown` comes where the callback isn't in flight, or no window is open.
    pub fn question(&self, turn: Turn) -> Result<Question, QuestionFault>
        ensures asked { IfOk result (λ q. question_of self.now.core turn ≡ Some q) }
        ensures unknown { (result ≡ Err QuestionFault.Unknown)
            ↔ (question_of self.now.core turn ≡ None) }
    {
        self.core.question(turn)
    }

    /// Makes the act that the job computed on a question, if the question is still what its turn asks.
    ///
    /// It makes no call on the disk. Refusals, each of which leaves all as it was: `Unknown` where no callback with the
    /// question's number and envelope is in flight, or, for a window's question, no window is open; `Stale` where the turn was
    /// answered otherwise than the question says, with a copy of the true answers; `NoMemory` where memory is wanting.
    pub fn apply(&mut self, stepped: Stepped<'j, J>) -> Result<Applied, ApplyFault>
        requires job { stepped.job ≡ self.old.job }
        ensures current { OnOk result (IsAnswered self.old.core stepped.entry.question
            stepped.entry.question.answers) }
        ensures added { (n : ℕ) (f : Flight) → stepped.entry.question.turn ≡ Call n
            → flight_of n self.old.core.callbacks.flights ≡ Some f
            → OnOk result (Adds J.meaning D.tells D.reads D.call_number D.images D.images_since
            self.old self.new (act_event (J.meaning self.old.job) self.old.core f)) }
        ensures applied { (n : ℕ) (f : Flight) → stepped.entry.question.turn ≡ Call n
            → flight_of n self.old.core.callbacks.flights ≡ Some f
            → IfOk result (λ a. a ≡ applied_now (J.meaning self.old.job) self.old.core f) }
        ensures window_added { (answers : List AnswerValue) → stepped.entry.question.turn ≡ Window
            → self.old.core.window ≡ Some answers
            → OnOk result (Adds J.meaning D.tells D.reads D.call_number D.images D.images_since
            self.old self.new (window_act_event (J.meaning self.old.job) self.old.core answers)) }
        ensures window_applied { (answers : List AnswerValue) → stepped.entry.question.turn ≡ Window
            → self.old.core.window ≡ Some answers → IfOk result (λ a. a ≡ applied_in_window
            (J.meaning self.old.job) self.old.core answers) }
        ensures unknown { (result ≡ Err ApplyFault.Unknown)
            ↔ IsUnknown self.old.core stepped.entry.question }
        ensures stale { (answers : List AnswerValue) → result ≡ Err (ApplyFault.Stale answers)
            → IsStale self.old.core stepped.entry.question answers }
        ensures differ { (answers : List AnswerValue)
            → IsStale self.old.core stepped.entry.question answers
            → (result ≡ Err (ApplyFault.Stale answers)) ⊎ (result ≡ Err ApplyFault.NoMemory) }
        ensures kept { OnErr result (self.new ≡ self.old) }
    {
        let applied = self.core.apply(stepped)?;
        Ok(applied)
    }
}
