//! What stands twice in a world.
ghost use Rattle.std.specs.Prelude.{◌≡◌, ◌<◌, option_copied};
ghost use Rattle.ty_names.specs.Modules.{core_of};
ghost use Rattle.ty_world.specs.Repeated.{is_other};
ghost use Rattle.ty_load.specs.Valid.{has_earlier_name, name_at, repeated_name as repeated_in};

use ty_load::{Names, assembly_name};

/// Whether there is a number, and it is another one.
fn is_other(found: Option<u32>, number: u32) -> bool
    ensures { result ≡ is_other number found }
{
    match found {
        Some(found) => found != number,
        None => false,
    }
}

/// Whether an earlier module has the assembly name of a module in front of the core.
fn has_earlier(names: &Names, number: u32) -> bool
    requires { number < core_of names.now }
    ensures { result ≡ has_earlier_name names.now number (name_at names.now number) }
{
    match assembly_name(names.tables(number)) {
        Some(name) => is_other(names.handed_in(name), number),
        None => false,
    }
}

/// The first assembly name, by modules, that an earlier module has too.
pub fn repeated_name(names: &Names) -> Option<&[u8]>
    ensures { option_copied result ≡ repeated_in names.now }
{
    for number in 0..names.core() {
        if has_earlier(names, number) {
            return assembly_name(names.tables(number));
        }
    }
    None
}
