ghost use Rattle.std.specs.Prelude.{◌≡◌};

use num_core::Text;

/// The text as a `str`.
pub fn str_of(name: &Text) -> &str
    ensures { result.now ≡ name.now }
{
    match std::str::from_utf8(name.bytes()) {
        Ok(text) => text,
        Err(_) => unreachable!(),
    }
}
