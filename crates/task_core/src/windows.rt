// The window that a core opens, and its acts.
ghost use Rattle.std.specs.Prelude.{◌≡◌, ◌↔◌, ◌<◌, ℕ, List, length, true, is_some, Some, None, Err, OnOk, OnErr, IfOk};
ghost use Rattle.samza_model.specs.declared.acts.Act.{Act as ActValue};
ghost use Rattle.samza_model.specs.declared.acts.Answer.{Answer as AnswerValue};
ghost use Rattle.samza_model.specs.declared.events.Event.{Event as EventValue};
ghost use Rattle.samza_model.specs.Lawful.{course, window_failure};
ghost use Rattle.samza_model.specs.Limits.{act_fits};
ghost use Rattle.core_steps.specs.Cores.{Adds, IsWinAct, Keeps, after_open_window, window_act_event};
ghost use Rattle.task_core.specs.Acting.{applied, window_course, ActsInWindow};
ghost use Rattle.task_core.specs.Opening.{MayOpen, IsBusy};

use crate::applied::{Applied, ask_of};
use crate::cores::Core;
use crate::faults::OpenWindowFault;
use core_parts::{Course, greater_scope, open_act_noted, shutdown_of};
use samza_model::{Act, Event, Failure, Items, NoMemory, Turn, Why};

impl Core {
    /// Whether a window may be opened.
    #[tactic(auto, using(crate::proofs::Idle::closed_of, crate::proofs::Idle::none_in_flight))]
    fn may_open(&self) -> Result<(), OpenWindowFault>
        ensures ok { OnOk result (MayOpen self.now) }
        ensures failed { (result ≡ Err OpenWindowFault.Failed) ↔ (is_some self.now.failed ≡ true) }
        ensures windowing { (result ≡ Err OpenWindowFault.Windowing)
            ↔ (is_some self.now.window ≡ true) }
        ensures busy { (n : ℕ) → (result ≡ Err (OpenWindowFault.Busy n)) ↔ IsBusy self.now n }
    {
        if self.failed.is_some() {
            return Err(OpenWindowFault::Failed);
        }
        if self.window.is_some() {
            return Err(OpenWindowFault::Windowing);
        }
        let in_flight = self.callbacks.count();
        if 0 < in_flight {
            return Err(OpenWindowFault::Busy { in_flight });
        }
        Ok(())
    }

    /// Opens a window, which has no answers yet. Every other turn waits until it ends. The interval of windows begins anew.
    ///
    /// Refusals, in this order: `Failed` where a turn failed, `Windowing` where a window is open, and `Busy` where callbacks are in
    /// flight.
    pub fn open_window(&mut self) -> Result<(), OpenWindowFault>
        ensures opened { OnOk result (self.new ≡ after_open_window self.old) }
        ensures stands { OnOk result (Keeps self.old self.new) }
        ensures failed { (result ≡ Err OpenWindowFault.Failed) ↔ (is_some self.old.failed ≡ true) }
        ensures windowing { (result ≡ Err OpenWindowFault.Windowing)
            ↔ (is_some self.old.window ≡ true) }
        ensures busy { (n : ℕ) → (result ≡ Err (OpenWindowFault.Busy n)) ↔ IsBusy self.old n }
        ensures kept { OnErr result (self.new ≡ self.old) }
    {
        self.may_open()?;
        self.window = Some(Items::from_vec(Vec::new(self.alloc)));
        self.times.begin_window();
        Ok(())
    }

    /// Makes an act of the window that is open and answers it.
    fn make_window_act(&mut self, act: Act) -> Result<(), NoMemory>
        requires window { is_some self.old.window ≡ true }
        requires few { (answers : List AnswerValue) → self.old.window ≡ Some answers
            → length answers < 1023 }
        requires fits { act_fits self.old.setup act ≡ true }
        ensures added { (answers : List AnswerValue) → self.old.window ≡ Some answers
            → course self.old.setup (length answers) act ≡ None
            → OnOk result (Adds (IsWinAct answers act) self.old self.new
            (window_act_event self.old answers act)) }
        ensures err { OnErr result (self.new ≡ self.old) }
    {
        let answer = self.holdings.answer(&self.setup, &act)?;
        let asked = greater_scope(self.asked, shutdown_of(&act));
        open_act_noted(
            &self.setup,
            &mut self.window,
            &mut self.journal,
            &mut self.holdings,
            answer,
            act,
        )?;
        self.asked = asked;
        Ok(())
    }

    /// Ends the window that is open.
    fn end_window(&mut self) -> Result<(), NoMemory>
        requires window { is_some self.old.window ≡ true }
        ensures added { (answers : List AnswerValue) → self.old.window ≡ Some answers
            → OnOk result (Adds (IsWinAct answers ActValue.Done) self.old self.new
            EventValue.WindowEnded) }
        ensures err { OnErr result (self.new ≡ self.old) }
    {
        self.journal.push(Event::WindowEnded)?;
        self.window = None;
        Ok(())
    }

    /// The window that is open fails.
    fn fail_window(&mut self, why: Why) -> Result<(), NoMemory>
        requires window { is_some self.old.window ≡ true }
        ensures added { (answers : List AnswerValue) (act : ActValue)
            → self.old.window ≡ Some answers
            → course self.old.setup (length answers) act ≡ Some (Some why)
            → OnOk result (Adds (IsWinAct answers act) self.old self.new (EventValue.Failed
            (window_failure why))) }
        ensures err { OnErr result (self.new ≡ self.old) }
    {
        let failure = Failure {
            turn: Turn::Window,
            place: None,
            why,
        };
        self.journal.push(Event::Failed(failure))?;
        self.failed = Some(failure);
        self.window = None;
        Ok(())
    }

    /// Makes this act of the window that is open and has so many answers: it is answered, or it ends the window.
    pub(crate) fn window_act_on(&mut self, made: usize, act: Act) -> Result<Applied, NoMemory>
        requires window { is_some self.old.window ≡ true }
        requires made { (answers : List AnswerValue) → self.old.window ≡ Some answers
            → made ≡ length answers }
        ensures added { (answers : List AnswerValue) → self.old.window ≡ Some answers
            → OnOk result (ActsInWindow self.old self.new answers act) }
        ensures applied { (answers : List AnswerValue) → self.old.window ≡ Some answers
            → IfOk result (λ a. a ≡ applied act (window_course self.old answers act)) }
        ensures kept { OnErr result (self.new ≡ self.old) }
    {
        match self.course(made, &act) {
            Course::GoesOn => {
                let ask = ask_of(&act);
                self.make_window_act(act)?;
                Ok(Applied {
                    ended: false,
                    failed: false,
                    ask,
                })
            }
            Course::Done => {
                self.end_window()?;
                Ok(Applied {
                    ended: true,
                    failed: false,
                    ask: None,
                })
            }
            Course::Failed(why) => {
                self.fail_window(why)?;
                Ok(Applied {
                    ended: true,
                    failed: true,
                    ask: None,
                })
            }
        }
    }
}
