// A pass over a slice of records.
ghost use Rattle.std.specs.Prelude.{◌≡◌, ◌≤◌, Bool, length, take, filter};
ghost use Rattle.records.specs.Lists.{Tests};

// Moves those of the first `count` records that pass the test to the front, in their order, and says how many they are.
// A slice has no `retain`; this reads at one place and writes at another, and so goes by index.
pub(crate) fn sweep<T: Copy, F: Fn(&T) -> bool>(places: &mut [T], count: usize, keep: F) -> usize
    requires callable { F.IsAlwaysCallable keep }
    requires within { count ≤ length places.old }
    ensures within { result ≤ count }
    ensures kept { (keeps : T → Bool) → Tests F.Fn keep keeps → take result places.new ≡ filter keeps (take count places.old) }
{
    let mut n = 0;
    for i in 0..count {
        let record = places[i];
        if keep(&record) {
            places[n] = record;
            n += 1;
        }
    }
    n
}
