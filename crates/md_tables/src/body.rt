ghost use Rattle.std.specs.Prelude.{◌≡◌};
ghost use Rattle.std.specs.Option.{option_map};
ghost use Rattle.md_tables.specs.Finished.{whole_body as whole_body_in, body_at as body_in};

use il_code::body_length;
use pe_image::Image;

/// The whole body at the front of the bytes: header, code and sections.
fn whole_body(bytes: &[u8]) -> Option<&[u8]>
    ensures { option_map (λ body. body.now) result ≡ whole_body_in bytes.now }
{
    let length = body_length(bytes)?;
    Some(&bytes[..length])
}

/// The whole body at an address of an image.
pub(crate) fn body_at<'a>(image: &'a Image<'_>, address: u32) -> Option<&'a [u8]>
    ensures { option_map (λ body. body.now) result ≡ body_in image.now address }
{
    whole_body(image.at(address)?)
}
