// The public call that draws a picture, with its refusals.
ghost use Rattle.dots.specs.Promises.{PicturePromise};

use crate::geometry::picture_length;
use crate::panel::{Profile, fits_glass};
use crate::scene::Scene;
use controller::{Answer, Record, is_sound, is_whole};

// Draws what the panel shows into the first lines x 8 x columns bytes of the output, or refuses and leaves the output as
// it is.
pub fn picture(
    rec: Record,
    memory: &[u8],
    profile: Profile,
    lit: bool,
    out: &mut [u8],
) -> Result<(), Answer>
    ensures { PicturePromise rec memory.now profile lit out.old result out.new }
{
    if !is_sound(rec) {
        return Err(Answer::Unsound);
    }
    if !is_whole(memory) {
        return Err(Answer::NotWhole);
    }
    if !fits_glass(profile) {
        return Err(Answer::BadSize);
    }
    if out.len() < picture_length(rec.function, profile) {
        return Err(Answer::OutputShort);
    }
    Scene { rec, memory, lit }.draw(profile, out);
    Ok(())
}
