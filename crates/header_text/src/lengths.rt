//! How long a header may be.

ghost use Rattle.std.specs.Prelude.{◌<◌, ◌≤◌, IsErrOf, OnOk, length};

use crate::errors::HeaderWriteError;
use header_model::MAX_HEADER;
use xp_base::Bytes;

/// `TooLong` for a text of more than `MAX_HEADER` bytes.
pub(crate) fn within(text: &Bytes) -> Result<(), HeaderWriteError>
    ensures fits { OnOk result (length text.now ≤ MAX_HEADER) }
    ensures too_long { IsErrOf result HeaderWriteError.TooLong → MAX_HEADER < length text.now }
{
    if text.as_slice().len() > MAX_HEADER {
        return Err(HeaderWriteError::TooLong);
    }
    Ok(())
}
