// A capture from the logic pod, imported.
ghost use Rattle.interface.specs.Promises.{YaropeskImportPromise};

use crate::told::counted_far;
use captures::import;

// The session's text of a capture, into a buffer that is at least as long as it.
pub fn yaropesk_import(capture: &[u8], out: &mut [u8]) -> u64
    ensures { YaropeskImportPromise capture.now out.old result out.new }
{
    counted_far(import(capture, out))
}
