// Answers that may be want of memory.
ghost use Rattle.std.specs.Prelude.{◌≡◌, Ok, Err, IfOk, IfErr};

use std::alloc::AllocError;

/// What a call gives that may want memory. Its error is want of memory, and leaves every argument as before.
pub type Mem<T> = Result<T, AllocError>;

/// A value beside what was made while it was held.
///
/// A `?` behind a value that is held lets go of each of its parts, and that is proved at every such `?`. Here it is
/// proved once, for all types.
///
/// # Errors
///
/// The error of what was made. Then the value is let go.
pub fn beside<T: Drop, U, E>(held: T, made: Result<U, E>) -> Result<(T, U), E>
    ensures ok { IfOk result (λ both. (both.0 ≡ held) × (made ≡ Ok both.1)) }
    ensures err { IfErr result (λ fault. made ≡ Err fault) }
{
    match made {
        Ok(made) => Ok((held, made)),
        Err(fault) => Err(fault),
    }
}
