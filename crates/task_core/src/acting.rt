// The job's next act on a callback in flight, made on the entry as it stands.
ghost use Rattle.std.specs.Prelude.{◌≡◌, ◌↔◌, length, true, is_some, Some, None, Err, OnOk, OnErr, IfOk, IfErr};
ghost use Rattle.samza_model.specs.declared.flights.Flight.{Flight};
ghost use Rattle.samza_model.specs.Events.{flight_of};
ghost use Rattle.task_core.specs.Acting.{applied, applied_now, course_of, next_act, ActsOn, IsAsked};

use crate::applied::{Applied, ask_of};
use crate::cores::Core;
use crate::faults::ActFault;
use core_parts::Course;
use samza_model::{Act, Job, NoMemory};

impl Core {
    /// The job's next act on a callback in flight, and how many answers it has.
    fn next_act<J: Job>(&self, job: &J, number: u64) -> Result<(Act, usize), ActFault>
        ensures asked { IfOk result (λ a. IsAsked (J.meaning (J.plain job.now)) self.now
            number a.0 a.1) }
        ensures unknown { IfErr result (λ e. (e ≡ ActFault.Unknown)
            ↔ (flight_of number self.now.callbacks.flights ≡ None)) }
    {
        match self.entry(number) {
            Some(entry) => {
                let answers = entry.answers.as_slice();
                let act = job.act(self.alloc(), &entry.envelope, answers)?;
                Ok((act, answers.len()))
            }
            None => Err(ActFault::Unknown),
        }
    }

    /// Makes this act of a callback in flight that has so many answers: it is answered, or it ends the turn.
    pub(crate) fn act_on(&mut self, number: u64, made: usize, act: Act) -> Result<Applied, NoMemory>
        requires flies { is_some (flight_of number self.old.callbacks.flights) ≡ true }
        requires made { (f : Flight) → flight_of number self.old.callbacks.flights ≡ Some f
            → made ≡ length f.answers }
        ensures added { (f : Flight) → flight_of number self.old.callbacks.flights ≡ Some f
            → OnOk result (ActsOn self.old self.new f act) }
        ensures applied { (f : Flight) → flight_of number self.old.callbacks.flights ≡ Some f
            → IfOk result (λ a. a ≡ applied act (course_of self.old f act)) }
        ensures kept { OnErr result (self.new ≡ self.old) }
    {
        match self.course(made, &act) {
            Course::GoesOn => {
                let ask = ask_of(&act);
                self.make_act(number, act)?;
                Ok(Applied {
                    ended: false,
                    failed: false,
                    ask,
                })
            }
            Course::Done => {
                self.complete(number)?;
                Ok(Applied {
                    ended: true,
                    failed: false,
                    ask: None,
                })
            }
            Course::Failed(why) => {
                self.fail(number, why)?;
                Ok(Applied {
                    ended: true,
                    failed: true,
                    ask: None,
                })
            }
        }
    }

    /// Makes the job's next act on a callback in flight.
    pub fn act_now<J: Job>(&mut self, job: &J, number: u64) -> Result<Applied, ActFault>
        ensures added { (f : Flight) → flight_of number self.old.callbacks.flights ≡ Some f
            → OnOk result (ActsOn self.old self.new f (next_act (J.meaning (J.plain job.now)) f)) }
        ensures applied { (f : Flight) → flight_of number self.old.callbacks.flights ≡ Some f
            → IfOk result (λ a. a ≡ applied_now (J.meaning (J.plain job.now)) self.old f) }
        ensures unknown { (result ≡ Err ActFault.Unknown)
            ↔ (flight_of number self.old.callbacks.flights ≡ None) }
        ensures kept { OnErr result (self.new ≡ self.old) }
    {
        let (act, made) = self.next_act(job, number)?;
        Ok(self.act_on(number, made, act)?)
    }
}
