// Running an account.
ghost use Rattle.std.specs.Prelude.{◌≡◌, map};
ghost use Rattle.account.specs.Answers.{number_of, answer_of, entry_number};
ghost use Rattle.account.specs.Steps.{step_answer, after_step, answered, after_all, numbers};

use crate::entry::{Answer, Entry, Step};
use register::register::ConsentRegister;

// Makes one call and gives its answer.
pub fn apply<R: ConsentRegister>(register: &mut R, step: Step) -> Answer
    ensures answer { result ≡ answer_of (R.ConsentRegister.meaning register.old) step }
    ensures number { number_of result ≡ step_answer (R.ConsentRegister.meaning register.old) step }
    ensures left { R.ConsentRegister.meaning register.new ≡ after_step (R.ConsentRegister.meaning register.old) step }
{
    match step {
        Step::Give(consent) => Answer::Change(register.give(consent)),
        Step::Withdraw(consent) => Answer::Change(register.withdraw(consent)),
        Step::Erase(owner) => {
            register.erase(owner);
            Answer::Change(Ok(()))
        }
        Step::Strike(pair) => {
            register.strike(pair);
            Answer::Change(Ok(()))
        }
        Step::Ask(consent) => Answer::Held(register.holds(consent)),
    }
}

// Makes the calls of the entries in their order and puts each answer into its entry. The runs of other crates go over calls
// of other kinds and promise other things: what they share is in `vocabulary`, the words and the lemmas of runs.
pub fn run<R: ConsentRegister>(register: &mut R, entries: &mut [Entry])
    ensures answers { entries.new ≡ answered (R.ConsentRegister.meaning register.old) entries.old }
    ensures numbers { map entry_number entries.new ≡ numbers (R.ConsentRegister.meaning register.old) entries.old }
    ensures left { R.ConsentRegister.meaning register.new ≡ after_all (R.ConsentRegister.meaning register.old) entries.old }
{
    for entry in entries {
        entry.answer = Some(apply(register, entry.step));
    }
}
