// What is true of every history, as contracts of functions that do nothing.
ghost use Rattle.std.specs.Prelude.{List};
ghost use Rattle.rules.specs.State.{Bounds};
ghost use Rattle.rules.specs.declared.call.Call.{Call};
ghost use Rattle.law.specs.Beside.{Beside};
ghost use Rattle.law.specs.Law.{Law};

// Tables, triples, counts and answers are the account's, and what one owner gives and withdraws nobody else can tell.
pub fn histories_are_lawful()
    ensures { Law }
{}

// Active roles are authorised, owners of objects exist, and a permit just drawn can be entered and handed back.
pub fn histories_are_sound()
    ensures { (k : Bounds) (calls : List Call) → Beside k calls }
{}
