//! Reading an input whole.

ghost use Rattle.std.specs.Prelude.{◌≡◌, ◌≢◌, ◌+◌, ◌<◌, IfOk};
ghost use Rattle.gptp_commands.specs.Source.{ReadsWhole, TakesAtMost};

use crate::failure::SimError;
use crate::source::Source;
use std::alloc::Global;

/// How many octets are asked for at once.
const CHUNK: usize = 8192;

/// All that a source has left, or its first `limit + 1` octets where it has more than `limit`. No
/// further octet is read.
///
/// [`SimError::Read`] is answered exactly where a read failed, [`SimError::Memory`] where memory ran
/// out; the octets read so far are lost then.
pub fn read_whole<S: Source>(
    alloc: Global,
    source: &mut S,
    limit: usize,
) -> Result<Vec<u8>, SimError>
    requires { limit < usize.MAX }
    ensures whole { IfOk result (λ octets. ReadsWhole limit (S.left source.old) (S.left source.new) octets.items) }
    ensures no_further { TakesAtMost (limit + 1) (S.left source.old) (S.left source.new) }
    ensures works { result ≢ Err SimError.Read → S.failures source.new ≡ S.failures source.old }
    ensures read { result ≡ Err SimError.Read → S.failures source.new ≢ S.failures source.old }
    ensures no_write { result ≢ Err SimError.Write }
{
    let mut octets = Vec::new(alloc);
    let mut chunk = [0; CHUNK];
    while octets.len() <= limit {
        let room = CHUNK.min(limit + 1 - octets.len());
        let buffer = &mut chunk[..room];
        let count = source.read(buffer)?;
        if count == 0 {
            return Ok(octets);
        }
        octets.extend_from_slice(&buffer[..count])?;
    }
    Ok(octets)
}
