// Making calls on a directory.
ghost use Rattle.std.specs.Prelude.{◌≡◌, ℕ, true, map};
ghost use Rattle.vocabulary.specs.Runs.{answered, after_all};
ghost use Rattle.bits.specs.Sets.{none};
ghost use Rattle.directory.specs.Answers.{answer_number, answer_ends};
ghost use Rattle.directory.specs.State.{bare};
ghost use Rattle.directory.specs.View.{state_of};
ghost use Rattle.directory_laws.specs.Steps.{step_answer, step_ends, after_step};
ghost use Rattle.directory_laws.specs.Soundness.{Sound, Continues, takes_away, EndsByLoss};
ghost use Rattle.directory_laws.specs.Turns.{told, with_answer, after_turn};

use crate::call::DirectoryCall;
use crate::turn::Turn;
use bits::set::SessionSet;
use directory::directory::Directory;
use directory::fault::DirectoryFault;

// The answer of a call that ends no session.
fn none_ended(answer: Result<(), DirectoryFault>) -> Result<SessionSet, DirectoryFault>
    ensures answer { answer_number result ≡ answer_number answer }
    ensures ended { answer_ends result ≡ none }
{
    answer.map(|()| SessionSet::empty())
}

// Makes one call. It gives back the sessions that ended by it.
pub fn apply(directory: &mut Directory, call: DirectoryCall) -> Result<SessionSet, DirectoryFault>
    ensures answer { answer_number result ≡ step_answer (state_of directory.old) call }
    ensures ended { answer_ends result ≡ step_ends (state_of directory.old) call }
    ensures left { state_of directory.new ≡ after_step (state_of directory.old) call }
{
    match call {
        DirectoryCall::AddUser { user } => none_ended(directory.add_user(user)),
        DirectoryCall::DeleteUser { user } => directory.delete_user(user),
        DirectoryCall::AddRole { role } => none_ended(directory.add_role(role)),
        DirectoryCall::DeleteRole { role } => directory.delete_role(role),
        DirectoryCall::Assign { user, role } => none_ended(directory.assign(user, role)),
        DirectoryCall::Deassign { user, role } => directory.deassign(user, role),
        DirectoryCall::AddInheritance {
            ascendant,
            descendant,
        } => none_ended(directory.add_inheritance(ascendant, descendant)),
        DirectoryCall::DeleteInheritance {
            ascendant,
            descendant,
        } => directory.delete_inheritance(ascendant, descendant),
        DirectoryCall::OpenSession { session, user } => {
            none_ended(directory.open_session(session, user))
        }
        DirectoryCall::EndSession { session } => directory.end_session(session),
        DirectoryCall::ActivateRole { session, role } => {
            none_ended(directory.activate_role(session, role))
        }
        DirectoryCall::DropRole { session, role } => {
            none_ended(directory.drop_role(session, role))
        }
        DirectoryCall::Authorised { user, role } => none_ended(directory.authorised(user, role)),
    }
}

// Makes the calls of the turns in their order on an empty directory, and puts each answer into its turn. Whatever the
// calls are, the directory is then sound, and whatever call comes next: an open session that it does not end keeps its
// user, and its roles but for the one that the call names; and where it takes a right away, a session ends exactly if
// one of its active roles is one that its user is no longer authorised for.
pub fn run(turns: &mut [Turn]) -> Directory
    ensures answers { map told turns.new ≡ answered with_answer after_turn bare (map told turns.old) }
    ensures left { state_of result ≡ after_all after_turn bare (map told turns.old) }
    ensures sound { Sound (state_of result) }
    ensures continues { (call : DirectoryCall) → Continues (state_of result) call }
    ensures ends { (call : DirectoryCall) (s : ℕ) → takes_away call ≡ true → EndsByLoss (state_of result) call s }
{
    let mut directory = Directory::new();
    for turn in turns.iter_mut() {
        turn.answer = apply(&mut directory, turn.call);
    }
    directory
}
