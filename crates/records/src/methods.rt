// The calls that change a set. Each says the list of records that it leaves, exactly; the number of places never changes,
// which is a clause of each: a relation of two states, and no fact of one value that the type could keep.
ghost use Rattle.std.specs.Prelude.{◌≡◌, ◌+◌, true, false, not, [], length, is_ok, filter};
ghost use Rattle.records.specs.Lists.{some, without};
ghost use Rattle.records.specs.Sets.{records, room, answer_number, add_answer, after_add, remove_answer, Gains, Loses};

use crate::record::{Record, Thing};
use crate::rows::sweep;
use crate::set::{RecordSet, SetFault};

impl<'a, T: Record + Copy> RecordSet<'a, T> {
    // Adds a record behind the others.
    pub fn add(&mut self, item: T) -> Result<(), SetFault>
        ensures answer { answer_number result ≡ add_answer T.equal (room self.old) (records self.old) item }
        ensures left { records self.new ≡ after_add T.equal (room self.old) (records self.old) item }
        ensures room { room self.new ≡ room self.old }
        ensures gains { is_ok result ≡ true → Gains T.equal (records self.old) (records self.new) item }
    {
        if self.contains(&item) {
            return Err(SetFault::AlreadyThere);
        }
        if self.count >= self.places() {
            return Err(SetFault::NoPlace);
        }
        self.places[self.count] = item;
        self.count += 1;
        Ok(())
    }

    // Takes out the record that is the same as this one; the others keep their order, without a gap.
    pub fn remove(&mut self, item: &T) -> Result<(), SetFault>
        ensures answer { answer_number result ≡ remove_answer T.equal (records self.old) item.now }
        ensures left { records self.new ≡ without T.equal (records self.old) item.now }
        ensures room { room self.new ≡ room self.old }
        ensures refused { is_ok result ≡ false → records self.new ≡ records self.old }
        ensures loses { is_ok result ≡ true → Loses T.equal (records self.old) (records self.new) item.now }
    {
        let left = sweep(self.places, self.count, |record| !record.same(item));
        if left == self.count {
            return Err(SetFault::NotThere);
        }
        self.count = left;
        Ok(())
    }

    // Takes out every record that names the thing; the others keep their order, without a gap.
    pub fn strike(&mut self, thing: Thing)
        ensures left { records self.new ≡ filter (λ y. not (T.naming y thing)) (records self.old) }
        ensures room { room self.new ≡ room self.old }
        ensures many { length (records self.new) + length (filter (λ y. T.naming y thing) (records self.old)) ≡ length (records self.old) }
        ensures struck { some (λ y. T.naming y thing) (records self.new) ≡ false }
    {
        self.count = sweep(self.places, self.count, |record| !record.names(thing));
    }

    pub fn clear(&mut self)
        ensures left { records self.new ≡ [] }
        ensures room { room self.new ≡ room self.old }
    {
        self.count = 0;
    }
}
