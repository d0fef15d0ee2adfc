// Reading all of a source, up to a limit.
ghost use Rattle.std.specs.Prelude.{◌≡◌, IfOk, IfErr, IsErrOf};
ghost use Rattle.ap_run.specs.Inputs.{Whole, Over, Broken};
ghost use Rattle.ap_run.specs.Writing.{IsRead};
ghost use Rattle.ap_run.specs.declared.reading.ReadError.TheVariants as errors;

use ap_defs::limits::SIZE_LIMIT;
use ap_io::{Failed, Source};
use std::alloc::{AllocError, Global};

/// Why the bytes of a source weren't read whole.
#[derive(Clone, Copy)]
pub enum ReadError {
    /// a read failed
    Failed,
    /// there are more bytes than the limit, 16,777,216
    TooLarge,
    /// memory was wanting
    Memory,
}

impl From<Failed> for ReadError {
    ghost from_gives = { λ _ e. e ≡ errors.Failed };

    fn from(_failure: Failed) -> Self {
        ReadError::Failed
    }
}

impl From<AllocError> for ReadError {
    ghost from_gives = { λ _ e. e ≡ errors.Memory };

    fn from(_refusal: AllocError) -> Self {
        ReadError::Memory
    }
}

/// All bytes that the source has left, if they are no more than the limit.
pub fn read_whole<S: Source>(alloc: Global, source: &mut S) -> Result<Vec<u8>, ReadError>
    ensures whole { IfOk result (λ v.
        IsRead (S.left source.old) (S.faults source.old) (S.faults source.new) (Whole v.items)) }
    ensures over { IsErrOf result ReadError.TooLarge →
        IsRead (S.left source.old) (S.faults source.old) (S.faults source.new) Over }
    ensures broken { IsErrOf result ReadError.Failed →
        IsRead (S.left source.old) (S.faults source.old) (S.faults source.new) Broken }
{
    let mut bytes = Vec::new(alloc);
    let mut buf = [0u8; 4096];
    loop {
        let count = source.read(&mut buf)?;
        if count == 0 {
            return Ok(bytes);
        }
        if count > SIZE_LIMIT - bytes.len() {
            return Err(ReadError::TooLarge);
        }
        bytes.extend_from_slice(&buf[..count])?;
    }
}
