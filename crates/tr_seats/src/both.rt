//! A value that is held while another is made.

ghost use Rattle.std.specs.Prelude.{◌≡◌, Ok, IfOk};

use std::alloc::AllocError;

/// What is held, and what was made. Where nothing was made, what is held is let go.
pub(crate) fn both<H: Drop, M: Drop>(
    held: H,
    made: Result<M, AllocError>,
) -> Result<(H, M), AllocError>
    ensures { IfOk result (λ b. (b.0 ≡ held) × (made ≡ Ok b.1)) }
{
    match made {
        Ok(made) => Ok((held, made)),
        Err(fault) => Err(fault),
    }
}
