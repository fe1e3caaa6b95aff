// Reading all of some bytes.
ghost use Rattle.log_values.specs.Reading.{Ended};

use crate::Misread;
use aeg_base::Memory;

/// What was read, where no byte is left after it.
pub fn ended<T: Drop>(read: Result<T, Misread>, left: &[u8]) -> Result<Option<T>, Memory>
    ensures { Ended read left.now result }
{
    match read {
        Ok(value) => {
            if left.is_empty() {
                return Ok(Some(value));
            }
            Ok(None)
        }
        Err(Misread::Memory) => Err(Memory),
        Err(Misread::Outside) => Ok(None),
    }
}
