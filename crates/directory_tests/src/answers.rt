// The number of an answer: 0 where it was accepted.
use directory::fault::DirectoryFault;

pub(crate) fn number<T: Drop, F: Into<DirectoryFault>>(answer: Result<T, F>) -> u8 {
    match answer {
        Ok(_) => 0,
        Err(fault) => fault.into().number(),
    }
}
