ghost use Rattle.std.specs.Prelude.{◌≡◌};
ghost use Rattle.md_rows.specs.Cells.{bytes_of};
ghost use Rattle.md_tables.specs.Finished.{streams_of};

use md_rows::Streams;
use pe_image::Image;

/// The streams of an image that its tables stand in and lead to.
pub(crate) fn streams<'a>(image: &Image<'a>) -> Streams<'a>
    ensures { bytes_of result ≡ streams_of image.now }
{
    Streams {
        tables: image.tables,
        strings: image.strings,
        guid: image.guid,
        blob: image.blob,
    }
}

/// The heap of user strings of an image.
pub(crate) fn user<'a>(image: &Image<'a>) -> &'a [u8]
    ensures { result.now ≡ image.now.user }
{
    image.user
}

/// The entry token of an image.
pub(crate) fn entry(image: &Image<'_>) -> u32
    ensures { result ≡ image.now.entry }
{
    image.entry
}
