// From any bytes to the image of a job.
ghost use Rattle.decoding.specs.ImageRead.{ImageRead};

use crate::decode::lay_derived;
use image::image::Image;
use image::space::Space;
use job::refusal::Refusal;
use reader::read::read_lines;

// Questions 1 to 8, and where they are answered yes the image of the text's job, laid in the space that is lent, whatever it held.
pub fn read_image<'a>(text: &[u8], space: &'a mut Space) -> Result<Image<'a>, Refusal>
    ensures { ImageRead text.now result }
{
    read_lines(text, &mut space.lines)?;
    lay_derived(space);
    Ok(Image::new(space))
}
