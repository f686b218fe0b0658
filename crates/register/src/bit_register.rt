ghost use Rattle.register.specs.BitRows.{Wide};

use bits::set::TypeSet;

// One bit for each consent: for each owner and each purpose a set of data types. It is never full.
#[derive(Drop)]
pub struct BitRegister {
    pub(crate) types: [[TypeSet; 16]; 128],
    ghost wide: { Wide types },
}
