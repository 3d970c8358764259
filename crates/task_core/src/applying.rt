// An act that was computed apart is applied, if its question is still what its turn asks.
ghost use Rattle.std.specs.Prelude.{◌≡◌, ◌≢◌, ◌↔◌, ◌⊎◌, ℕ, List, Some, None, Err, OnOk, OnErr, IfOk};
ghost use Rattle.std.specs.Option.{option_copied};
ghost use Rattle.samza_model.specs.declared.acts.Answer.{Answer as AnswerValue};
ghost use Rattle.samza_model.specs.declared.flights.Flight.{Flight};
ghost use Rattle.samza_model.specs.declared.turns.Turn.TheVariants.{Call, Window};
ghost use Rattle.samza_model.specs.Events.{flight_of};
ghost use Rattle.task_core.specs.Acting.{applied, applied_now, applied_in_window, course_of, window_course, next_act, next_in_window, ActsOn, ActsInWindow};
ghost use Rattle.task_core.specs.Applying.{IsAnswered, IsStale, IsUnknown};
ghost use Rattle.task_core.specs.Questions.{question_of};

use crate::applied::Applied;
use crate::cores::Core;
use crate::faults::ApplyFault;
use crate::questions::Question;
use crate::stepping::Stepped;
use samza_model::{Act, Answer, Envelope, Items, Job, NoMemory, Plain, Turn};
use std::alloc::Global;

/// That the answers asked with are the true ones; if they aren't, a copy of those.
fn compare(alloc: Global, answers: &Items<Answer>, asked: &Items<Answer>) -> Result<(), ApplyFault>
    ensures same { OnOk result (asked.now ≡ answers.now) }
    ensures known { result ≢ Err ApplyFault.Unknown }
    ensures stale { (told : List AnswerValue) → result ≡ Err (ApplyFault.Stale told)
        → (told ≡ answers.now) × (answers.now ≢ asked.now) }
    ensures differ { answers.now ≢ asked.now → (result ≡ Err (ApplyFault.Stale answers.now))
        ⊎ (result ≡ Err ApplyFault.NoMemory) }
{
    if answers.same(asked) {
        return Ok(());
    }
    let answers = answers.copy(alloc)?;
    Err(ApplyFault::Stale { answers })
}

impl Core {
    /// The answers of a callback in flight with this envelope.
    fn call_answers(&self, number: u64, envelope: &Option<Envelope>) -> Option<&Items<Answer>>
        ensures { (answers : List AnswerValue) → (option_copied result ≡ Some answers)
            ↔ (question_of self.now (Call number) ≡ Some (record {
              turn = Call number;
              envelope = envelope.now;
              answers = answers;
            })) }
    {
        match (self.entry(number), envelope) {
            (Some(entry), Some(envelope)) if entry.envelope.same(envelope) => Some(&entry.answers),
            _ => None,
        }
    }

    /// The true answers of a question's turn.
    fn true_answers(&self, question: &Question) -> Option<&Items<Answer>>
        ensures { (answers : List AnswerValue) → (option_copied result ≡ Some answers)
            ↔ IsAnswered self.now question.now answers }
    {
        match question.turn {
            Turn::Call(number) => self.call_answers(number, &question.envelope),
            Turn::Window => self.window(),
        }
    }

    /// That a question is still what its turn asks.
    fn check(&self, question: &Question) -> Result<(), ApplyFault>
        ensures current { OnOk result (IsAnswered self.now question.now question.now.answers) }
        ensures unknown { (result ≡ Err ApplyFault.Unknown) ↔ IsUnknown self.now question.now }
        ensures stale { (answers : List AnswerValue) → result ≡ Err (ApplyFault.Stale answers)
            → IsStale self.now question.now answers }
        ensures differ { (answers : List AnswerValue) → IsStale self.now question.now answers
            → (result ≡ Err (ApplyFault.Stale answers)) ⊎ (result ≡ Err ApplyFault.NoMemory) }
    {
        match self.true_answers(question) {
            Some(answers) => compare(self.alloc(), answers, &question.answers),
            None => Err(ApplyFault::Unknown),
        }
    }

    /// Makes an act on a question that is what its turn asks.
    fn make(&mut self, question: &Question, act: Act) -> Result<Applied, NoMemory>
        requires current { IsAnswered self.old question.now question.now.answers }
        ensures added { (n : ℕ) (f : Flight) → question.now.turn ≡ Call n
            → flight_of n self.old.callbacks.flights ≡ Some f
            → OnOk result (ActsOn self.old self.new f act) }
        ensures applied { (n : ℕ) (f : Flight) → question.now.turn ≡ Call n
            → flight_of n self.old.callbacks.flights ≡ Some f
            → IfOk result (λ a. a ≡ applied act (course_of self.old f act)) }
        ensures window_added { (answers : List AnswerValue) → question.now.turn ≡ Window
            → self.old.window ≡ Some answers
            → OnOk result (ActsInWindow self.old self.new answers act) }
        ensures window_applied { (answers : List AnswerValue) → question.now.turn ≡ Window
            → self.old.window ≡ Some answers
            → IfOk result (λ a. a ≡ applied act (window_course self.old answers act)) }
        ensures kept { OnErr result (self.new ≡ self.old) }
    {
        let made = question.answers.as_slice().len();
        match question.turn {
            Turn::Call(number) => self.act_on(number, made, act),
            Turn::Window => self.window_act_on(made, act),
        }
    }

    /// Makes an act on a question, if the question is what its turn asks.
    fn apply_act(&mut self, question: &Question, act: Act) -> Result<Applied, ApplyFault>
        ensures current { OnOk result (IsAnswered self.old question.now question.now.answers) }
        ensures added { (n : ℕ) (f : Flight) → question.now.turn ≡ Call n
            → flight_of n self.old.callbacks.flights ≡ Some f
            → OnOk result (ActsOn self.old self.new f act) }
        ensures applied { (n : ℕ) (f : Flight) → question.now.turn ≡ Call n
            → flight_of n self.old.callbacks.flights ≡ Some f
            → IfOk result (λ a. a ≡ applied act (course_of self.old f act)) }
        ensures window_added { (answers : List AnswerValue) → question.now.turn ≡ Window
            → self.old.window ≡ Some answers
            → OnOk result (ActsInWindow self.old self.new answers act) }
        ensures window_applied { (answers : List AnswerValue) → question.now.turn ≡ Window
            → self.old.window ≡ Some answers
            → IfOk result (λ a. a ≡ applied act (window_course self.old answers act)) }
        ensures unknown { (result ≡ Err ApplyFault.Unknown) ↔ IsUnknown self.old question.now }
        ensures stale { (answers : List AnswerValue) → result ≡ Err (ApplyFault.Stale answers)
            → IsStale self.old question.now answers }
        ensures differ { (answers : List AnswerValue) → IsStale self.old question.now answers
            → (result ≡ Err (ApplyFault.Stale answers)) ⊎ (result ≡ Err ApplyFault.NoMemory) }
        ensures kept { OnErr result (self.new ≡ self.old) }
    {
        self.check(question)?;
        Ok(self.make(question, act)?)
    }

    /// Makes the job's next act on a question, if the question is still what its turn asks.
    ///
    /// Refusals, each of which leaves all as it was: `Unknown` where no callback with the question's number and envelope is in
    /// flight, or, for a window's question, no window is open; `Stale` where the turn was answered otherwise than the question says,
    /// with a copy of the true answers; `NoMemory` where memory is wanting.
    pub fn apply<'j, J: Job>(&mut self, stepped: Stepped<'j, J>) -> Result<Applied, ApplyFault>
        ensures current { OnOk result (IsAnswered self.old stepped.entry.question
            stepped.entry.question.answers) }
        ensures added { (n : ℕ) (f : Flight) → stepped.entry.question.turn ≡ Call n
            → flight_of n self.old.callbacks.flights ≡ Some f
            → OnOk result (ActsOn self.old self.new f (next_act (J.meaning stepped.entry.job) f)) }
        ensures applied { (n : ℕ) (f : Flight) → stepped.entry.question.turn ≡ Call n
            → flight_of n self.old.callbacks.flights ≡ Some f
            → IfOk result (λ a. a ≡ applied_now (J.meaning stepped.entry.job) self.old f) }
        ensures window_added { (answers : List AnswerValue) → stepped.entry.question.turn ≡ Window
            → self.old.window ≡ Some answers
            → OnOk result (ActsInWindow self.old self.new answers
            (next_in_window (J.meaning stepped.entry.job) answers)) }
        ensures window_applied { (answers : List AnswerValue) → stepped.entry.question.turn ≡ Window
            → self.old.window ≡ Some answers → IfOk result (λ a. a ≡ applied_in_window
            (J.meaning stepped.entry.job) self.old answers) }
        ensures unknown { (result ≡ Err ApplyFault.Unknown)
            ↔ IsUnknown self.old stepped.entry.question }
        ensures stale { (answers : List AnswerValue) → result ≡ Err (ApplyFault.Stale answers)
            → IsStale self.old stepped.entry.question answers }
        // A stale question is told so, unless memory for the true answers is wanting.
        ensures differ { (answers : List AnswerValue)
            → IsStale self.old stepped.entry.question answers
            → (result ≡ Err (ApplyFault.Stale answers)) ⊎ (result ≡ Err ApplyFault.NoMemory) }
        ensures kept { OnErr result (self.new ≡ self.old) }
    {
        let Stepped { question, act, .. } = stepped;
        self.apply_act(&question, act)
    }
}
