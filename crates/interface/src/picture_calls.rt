// The picture of a record of 24 bytes and a memory of 144, on the panel that a number names.
ghost use Rattle.std.specs.Prelude.{◌≡◌};
ghost use Rattle.interface.specs.Filling.{Fills};
ghost use Rattle.interface.specs.PictureCalls.{drawing_of, profile_of};
ghost use Rattle.interface.specs.Promises.{YaropeskPicturePromise};

use crate::record_bytes::read_record;
use crate::told::refused;
use controller::{Answer, Record};
use dots::{Profile, Size, picture};

// The panel that a number names: 0 the plain geometry of these columns and lines, 1 the 20 x 4 panel, 2 the divided row.
#[tactic(auto, unfolding(crate::specs::PictureCalls::profile_of))]
fn profile_of(profile: u8, columns: u8, lines: u8) -> Profile
    ensures { result ≡ profile_of profile columns lines }
{
    match profile {
        0 => Profile::Plain(Size { columns, lines }),
        1 => Profile::FourRows,
        2 => Profile::Divided,
        _ => Profile::Unknown,
    }
}

// The picture of the record that was read.
fn picture_of(rec: Record, memory: &[u8], profile: Profile, lit: bool, out: &mut [u8]) -> u32
    ensures { Fills (drawing_of rec memory.now profile lit out.old) result out.new }
{
    match picture(rec, memory, profile, lit, out) {
        Ok(()) => 0,
        Err(answer) => refused(answer),
    }
}

// What the panel shows, five dots a byte. Any `lit` but 0 is the lit phase.
pub fn yaropesk_picture(
    bytes: &[u8],
    memory: &[u8],
    profile: u8,
    columns: u8,
    lines: u8,
    lit: u8,
    out: &mut [u8],
) -> u32
    ensures { YaropeskPicturePromise bytes.now memory.now profile columns lines lit
        out.old result out.new }
{
    match read_record(bytes) {
        None => refused(Answer::Unsound),
        Some(rec) => picture_of(
            rec,
            memory,
            profile_of(profile, columns, lines),
            lit != 0,
            out,
        ),
    }
}
