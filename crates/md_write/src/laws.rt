ghost use Rattle.md_write.specs.Opening.{ImagesOpen};

/// An image that was written opens: each condition on a file holds, and its streams, its entry token and its section
/// are those that were written (ECMA-335 II.24.2 and II.25).
pub fn images_open()
    ensures { ImagesOpen }
{}
