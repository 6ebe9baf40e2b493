// What is wrong with a build file, or with the linking of its instances.

ghost use Rattle.std.specs.Prelude.{◌≡◌, ◌≢◌, ◌++◌, codes, IfOk};
ghost use Rattle.gos_types.specs.Types.{type_of};
ghost use Rattle.gos_types.specs.TypeText.{type_text};
ghost use Rattle.gos_link.specs.declared.fault.LinkFault.TheVariants as link;
ghost use Rattle.gos_command.specs.Lines.{counted, named_text, lines_text, link_text};

use crate::fault_text::{add_count, counted};
use gos_link::LinkFault;
use gos_types::{NoMemory, Ty, print_ty};
use std::alloc::Global;

/// The text of a fault of a build file or of linking, which is not want of memory.
pub fn link_text(alloc: Global, fault: &LinkFault) -> Result<Vec<u8>, NoMemory>
    ensures cause { IfOk result (λ _. fault.now ≢ link.NoMemory) }
    ensures text { IfOk result (λ text. text.items ≡ link_text fault.now) }
{
    match fault {
        LinkFault::Form { line } => counted(alloc, b"B1 line ", *line),
        LinkFault::NoInstance { line, name } => named_text(alloc, b"B2 line ", *line, name.bytes()),
        LinkFault::NoImport { line, name } => named_text(alloc, b"B3 line ", *line, name.bytes()),
        LinkFault::TypeDiffers { line, want, got } => differs_text(alloc, *line, want, got),
        LinkFault::BoundTwice { first, second } => lines_text(alloc, b"B5 lines ", *first, *second),
        LinkFault::UsedTwice { first, second } => lines_text(alloc, b"B6 lines ", *first, *second),
        LinkFault::Loop { line } => counted(alloc, b"B7 line ", *line),
        LinkFault::Unplaced { name } => with_name(alloc, b"B8 ", name.bytes()),
        LinkFault::OpenTwice {
            name,
            first,
            second,
        } => open_text(alloc, name.bytes(), first.bytes(), second.bytes()),
        LinkFault::NotGround { name } => with_name(alloc, b"B10 ", name.bytes()),
        LinkFault::TooHeavy { weight } => counted(alloc, b"B11 weight ", *weight),
        LinkFault::TooLarge { size, ports } => large_text(alloc, *size, *ports),
        LinkFault::NoMemory => Err(NoMemory),
    }
}

fn with_name(alloc: Global, word: &[u8], name: &[u8]) -> Result<Vec<u8>, NoMemory>
    ensures { IfOk result (λ text. text.items ≡ word.now ++ name.now) }
{
    let mut text = word.to_vec(alloc)?;
    text.extend_from_slice(name)?;
    Ok(text)
}

fn named_text(alloc: Global, word: &[u8], line: u64, name: &[u8]) -> Result<Vec<u8>, NoMemory>
    ensures { IfOk result (λ text. text.items ≡ named_text word.now line name.now) }
{
    let mut text = counted(alloc, word, line)?;
    text.extend_from_slice(b" ")?;
    text.extend_from_slice(name)?;
    Ok(text)
}

fn differs_text(alloc: Global, line: u64, want: &Ty, got: &Ty) -> Result<Vec<u8>, NoMemory>
    ensures { IfOk result (λ text. text.items ≡ counted (codes "B4 line ") line ++ codes " want " ++ type_text (type_of want.now)
        ++ codes " got " ++ type_text (type_of got.now)) }
{
    let wanted = print_ty(alloc, want)?;
    let found = print_ty(alloc, got)?;
    let mut text = counted(alloc, b"B4 line ", line)?;
    text.extend_from_slice(b" want ")?;
    text.extend_from_slice(wanted.as_slice())?;
    text.extend_from_slice(b" got ")?;
    text.extend_from_slice(found.as_slice())?;
    Ok(text)
}

fn lines_text(alloc: Global, word: &[u8], first: u64, second: u64) -> Result<Vec<u8>, NoMemory>
    ensures { IfOk result (λ text. text.items ≡ lines_text word.now first second) }
{
    let mut text = counted(alloc, word, first)?;
    add_count(alloc, &mut text, b" and ", second)?;
    Ok(text)
}

fn open_text(alloc: Global, name: &[u8], first: &[u8], second: &[u8]) -> Result<Vec<u8>, NoMemory>
    ensures { IfOk result (λ text. text.items ≡ codes "B9 " ++ name.now ++ codes " in " ++ first.now ++ codes " and " ++ second.now) }
{
    let mut text = b"B9 ".to_vec(alloc)?;
    text.extend_from_slice(name)?;
    text.extend_from_slice(b" in ")?;
    text.extend_from_slice(first)?;
    text.extend_from_slice(b" and ")?;
    text.extend_from_slice(second)?;
    Ok(text)
}

fn large_text(alloc: Global, size: u64, ports: u64) -> Result<Vec<u8>, NoMemory>
    ensures { IfOk result (λ text. text.items ≡ counted (codes "B12 size ") size ++ counted (codes " ports ") ports) }
{
    let mut text = counted(alloc, b"B12 size ", size)?;
    add_count(alloc, &mut text, b" ports ", ports)?;
    Ok(text)
}
