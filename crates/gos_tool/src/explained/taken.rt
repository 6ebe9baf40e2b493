// Whether a file that is to be written is one that the build names.

ghost use Rattle.std.specs.Prelude.{◌≡◌, ◌||◌};
ghost use Rattle.std.specs.List.{list_any};
ghost use Rattle.std.specs.Option.{option_copied};
ghost use Rattle.std.specs.Str.{bytes_eq};
ghost use Rattle.gos_tool.specs.explained.Taken.{has_file, is_named, is_taken};

use gos_link::{Build, Instance};

/// Whether the build names the file that is to be written, if one is.
pub fn is_taken(build: &Build, written: Option<&[u8]>) -> bool
    ensures { result ≡ is_taken build.now (option_copied written.entry) }
{
    match written {
        Some(file) => is_named(build, file),
        None => false,
    }
}

// Whether the build names the file.
fn is_named(build: &Build, file: &[u8]) -> bool
    ensures { result ≡ is_named build.now file.now }
{
    has_instance(build.instances.as_slice(), file) || has_other(build, file)
}

// Whether one of the instances has the file.
fn has_instance(instances: &[Instance], file: &[u8]) -> bool
    ensures { result ≡ list_any (has_file file.now) instances.now }
{
    instances.iter().any(|instance| has_file(instance, file))
}

// Whether the instance has the file, as its source or as its object.
fn has_file(instance: &Instance, file: &[u8]) -> bool
    ensures { result ≡ has_file file.now instance.now }
{
    instance.source.bytes() == file || instance.object.bytes() == file
}

// Whether the file is one of the build that is of no instance.
fn has_other(build: &Build, file: &[u8]) -> bool
    ensures { result ≡ (bytes_eq build.now.net file.now || (bytes_eq build.now.verilog file.now
        || (bytes_eq build.now.pulses file.now || bytes_eq build.now.trace file.now))) }
{
    build.net.bytes() == file
        || build.verilog.bytes() == file
        || build.pulses.bytes() == file
        || build.trace.bytes() == file
}
