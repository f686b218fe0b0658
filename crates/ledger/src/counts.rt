// How many permits an owner's ledger has issued, and what became of them. A ledger keeps its four counts in fields of its
// own and not in one of these, since how many are open is computed from them and not counted. That the counts add up is a
// clause of the calls that give them and no fact of the type: whoever puts one together would then owe it.
#[derive(Clone, Copy, PartialEq, Eq, Debug, Default)]
pub struct Counts {
    pub issued: u16,
    pub entered: u16,
    pub handed_back: u16,
    pub lapsed: u16,
    pub open: u16,
}
