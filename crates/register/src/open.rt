// A list register for one job: the way to have one without asking anything of the caller.
ghost use Rattle.std.specs.Prelude.{◌≡◌, ◌<◌, ◌≤◌, [], length, IfErr, MatchResult};
ghost use Rattle.register.specs.Meaning.{Register};
ghost use Rattle.register.specs.Answers.{fault_number};
ghost use Rattle.register.specs.ListMeaning.{list_meaning};

use crate::fault::RegisterFault;
use crate::list_register::ListRegister;
use crate::register::ConsentRegister;
use records::kinds::Consent;

// What is done with a register, whatever its make. A trait and no closure: a job is proved over any make by its meaning, and a
// closure would have `open_list` ask of its caller that it may be called.
pub trait Job {
    // what the job makes of itself over a register of this meaning
    ghost done: { Self → Register → Self → Type 0 };

    fn run<R: ConsentRegister + Drop>(&mut self, register: R)
        ensures { done self.old (R.ConsentRegister.meaning register) self.new };
}

// Makes an empty list register over the places and does the job with it. Fewer than 128 places are turned down: every
// owner needs one at least.
pub fn open_list<J: Job>(places: &mut [Consent], job: &mut J) -> Result<(), RegisterFault>
    ensures opened { MatchResult result (λ _. (128 ≤ length places.old) × J.Job.done job.old (list_meaning (length places.old) []) job.new) (λ f. (length places.old < 128) × (fault_number f ≡ 13) × (job.new ≡ job.old)) }
    ensures refused { IfErr result (λ f. places.new ≡ places.old) }
{
    // Asked here and not left to `ListRegister::new`, whose contract cannot say that refused places are as they were.
    if places.len() < 128 {
        return Err(RegisterFault::Full);
    }
    job.run(ListRegister::over(places));
    Ok(())
}
