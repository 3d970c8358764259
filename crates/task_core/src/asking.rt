// The questions of a core's turns.
ghost use Rattle.std.specs.Prelude.{◌≡◌, ◌↔◌, Some, None, Err, IfOk};
ghost use Rattle.samza_model.specs.declared.turns.Turn.TheVariants.{Call, Window};
ghost use Rattle.task_core.specs.Questions.{question_of};

use crate::cores::Core;
use crate::faults::QuestionFault;
use crate::questions::{Question, call_question, window_question};
use samza_model::Turn;

impl Core {
    fn call_question(&self, number: u64) -> Result<Question, QuestionFault>
        ensures asked { IfOk result (λ q. question_of self.now (Call number) ≡ Some q) }
        ensures unknown { (result ≡ Err QuestionFault.Unknown)
            ↔ (question_of self.now (Call number) ≡ None) }
    {
        match self.entry(number) {
            Some(entry) => {
                let question = call_question(
                    self.alloc(),
                    number,
                    &entry.envelope,
                    &entry.answers,
                )?;
                Ok(question)
            }
            None => Err(QuestionFault::Unknown),
        }
    }

    fn window_question(&self) -> Result<Question, QuestionFault>
        ensures asked { IfOk result (λ q. question_of self.now Window ≡ Some q) }
        ensures unknown { (result ≡ Err QuestionFault.Unknown)
            ↔ (question_of self.now Window ≡ None) }
    {
        match self.window() {
            Some(answers) => {
                let question = window_question(self.alloc(), answers)?;
                Ok(question)
            }
            None => Err(QuestionFault::Unknown),
        }
    }

    /// The question of a callback in flight, or of the window that is open.
    pub fn question(&self, turn: Turn) -> Result<Question, QuestionFault>
        ensures asked { IfOk result (λ q. question_of self.now turn ≡ Some q) }
        ensures unknown { (result ≡ Err QuestionFault.Unknown)
            ↔ (question_of self.now turn ≡ None) }
    {
        match turn {
            Turn::Call(number) => self.call_question(number),
            Turn::Window => self.window_question(),
        }
    }
}
