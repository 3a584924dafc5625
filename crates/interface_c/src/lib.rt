// The calls of `interface` for programs in C: each export calls the function of its name there and promises the same.
// include/yaropesk.h declares them.
#![tactic(auto)]

ghost use Rattle.interface.specs.Promises.{YaropeskImportPromise, YaropeskPicturePromise, YaropeskPlanPromise};
ghost use Rattle.interface.specs.Promises.{YaropeskReadLinePromise, YaropeskResetPromise, YaropeskTransferPromise};
ghost use Rattle.interface.specs.Promises.{YaropeskWriteLinePromise};

// Power on. Any 24 bytes will do for the record.
#[unsafe(no_mangle)]
pub extern "C" fn yaropesk_reset(bytes: &mut [u8], memory: &mut [u8]) -> u32
    ensures { YaropeskResetPromise bytes.old memory.old result bytes.new memory.new }
{
    interface::yaropesk_reset(bytes, memory)
}

// One bus transfer.
#[unsafe(no_mangle)]
pub extern "C" fn yaropesk_transfer(
    bytes: &mut [u8],
    memory: &mut [u8],
    kind: u8,
    byte: u8,
    wait: u32,
) -> u32
    ensures { YaropeskTransferPromise bytes.old memory.old kind byte wait result bytes.new
        memory.new }
{
    interface::yaropesk_transfer(bytes, memory, kind, byte, wait)
}

// What the panel shows, five dots a byte. Any `lit` but 0 is the lit phase.
#[unsafe(no_mangle)]
pub extern "C" fn yaropesk_picture(
    bytes: &[u8],
    memory: &[u8],
    profile: u8,
    columns: u8,
    lines: u8,
    lit: u8,
    out: &mut [u8],
) -> u32
    ensures { YaropeskPicturePromise bytes.now memory.now profile columns lines lit
        out.old result out.new }
{
    interface::yaropesk_picture(bytes, memory, profile, columns, lines, lit, out)
}

// The plan for a wish, six bytes a record, into a buffer of at least 2,808 bytes.
#[unsafe(no_mangle)]
pub extern "C" fn yaropesk_plan(wish: &[u8], marks: &[u8], values: &[u8], out: &mut [u8]) -> u32
    ensures { YaropeskPlanPromise wish.now marks.now values.now out.old result
        out.new }
{
    interface::yaropesk_plan(wish, marks, values, out)
}

// The line of a transfer, into a buffer of at least 16 bytes.
#[unsafe(no_mangle)]
pub extern "C" fn yaropesk_write_line(kind: u8, byte: u8, wait: u32, out: &mut [u8]) -> u32
    ensures { YaropeskWriteLinePromise kind byte wait out.old result out.new }
{
    interface::yaropesk_write_line(kind, byte, wait, out)
}

// The line at the start of a text, as six bytes, or the offset of its fault.
#[unsafe(no_mangle)]
pub extern "C" fn yaropesk_read_line(text: &[u8], out: &mut [u8]) -> u32
    ensures { YaropeskReadLinePromise text.now out.old result out.new }
{
    interface::yaropesk_read_line(text, out)
}

// The session's text of a capture, into a buffer that is at least as long as it.
#[unsafe(no_mangle)]
pub extern "C" fn yaropesk_import(capture: &[u8], out: &mut [u8]) -> u64
    ensures { YaropeskImportPromise capture.now out.old result out.new }
{
    interface::yaropesk_import(capture, out)
}
