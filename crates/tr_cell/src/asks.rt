//! What a line of a shell asks for.

ghost use Rattle.std.specs.Prelude.{◌≡◌, ◌≢◌};
ghost use Rattle.tr_border.specs.Asks.{line_asked};
ghost use Rattle.tr_border.specs.declared.codes.TheConstants.{DONE, NO_MEMORY};

use std::alloc::Global;
use tr_border::asks::{AskedOut, line_asked};
use tr_border::codes::{DONE, NO_MEMORY};

/// Reads a line, without its newline, as a script's. `name` is the session's that is meant.
#[unsafe(no_mangle)]
pub extern "C" fn trc_line_parse(alloc: Global, line: &[u8], name: &[u8], out: &mut AskedOut) -> u32
    ensures done { result ≢ NO_MEMORY → (result ≡ DONE) × (out.new ≡ line_asked name.now line.now) }
    ensures no_memory { result ≡ NO_MEMORY → out.new ≡ out.old }
{
    match line_asked(alloc, name, line) {
        Ok(asked) => {
            *out = asked;
            DONE
        }
        Err(_) => NO_MEMORY,
    }
}
