//! The first bytes of a stream, which tell it from a text in JSON.

ghost use Rattle.std.specs.Prelude.{◌≡◌, IfOk, IsTrue, List};
ghost use Rattle.escpos_command.specs.declared.command.Command.{Command};
ghost use Rattle.escpos_stream.specs.Streams.{StreamGives, begins_with_init, with_init};

use escpos_command::ESC;
use std::alloc::{AllocError, Global};

/// Whether the bytes begin with ESC @, as no text in JSON does. Allocates nothing.
pub fn begins_with_init(bytes: &[u8]) -> bool
    ensures { result ≡ begins_with_init bytes.now }
{
    matches!(bytes, [ESC, b'@', ..])
}

/// A stream that gives the same commands and begins with ESC @: these bytes, with ESC @ before them if they don't begin with it already.
/// The error is out of memory.
pub fn with_init(alloc: Global, bytes: Vec<u8>) -> Result<Vec<u8>, AllocError>
    ensures bytes { IfOk result (λ stream. stream.items ≡ with_init (begins_with_init bytes.items) bytes.items) }
    ensures begins { IfOk result (λ stream. IsTrue (begins_with_init stream.items)) }
    ensures same { IfOk result (λ stream. (commands : List Command) → StreamGives bytes.items commands → StreamGives stream.items commands) }
{
    if begins_with_init(&bytes) {
        return Ok(bytes);
    }
    let mut stream = Vec::with_capacity(alloc, bytes.len() + 2)?;
    stream.extend_from_slice(&[ESC, b'@'])?;
    stream.extend_from_slice(&bytes)?;
    Ok(stream)
}
