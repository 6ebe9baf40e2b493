// The files of the demo, and how they are written.

ghost use Rattle.std.specs.Prelude.{◌≡◌, ◌++◌, ◌∷◌, [], IfOk, IfErr, OnOk, IsErrOf};
ghost use Rattle.gos_outside.specs.FileName.{IsFileName};
ghost use Rattle.gos_outside.specs.OtherFiles.{OthersSame};
ghost use Rattle.gos_outside.specs.Faults.{CountsFaults};
ghost use Rattle.gos_outside.specs.Calls.{AreMade};
ghost use Rattle.gos_command.specs.Ends.{IfStopped, ending};
ghost use Rattle.gos_tool.specs.Calls.{write_calls};
ghost use Rattle.gos_tool.specs.demo.DemoFiles.{IsLevelCount, sources, demo_files};
ghost use Rattle.gos_tool.specs.demo.Demo.{with_files, IsFront, IsWriting, names_of};

use crate::demo::texts::{build_text, pulse_text};
use gos_command::{Stop, write_file};
use gos_link::FileName;
use gos_outside::Store;
use gos_types::NoMemory;
use std::alloc::Global;
use std::marker::Model;

/// A file with its name.
#[derive(Drop)]
pub struct TextFile {
    name: FileName,
    text: Vec<u8>,
}

impl Model for TextFile {
    ghost use Rattle.gos_tool.specs.demo.DemoFiles.{NamedText};

    ghost Value = { NamedText };

    ghost view = { λ file. record { name = file.name; text = file.text.items } };
}

impl TextFile {
    // A file with copies of this name and this text.
    fn new(alloc: Global, name: &[u8], text: &[u8]) -> Result<TextFile, NoMemory>
        requires { IsFileName name.now }
        ensures { IfOk result (λ file. file ≡ record { name = name.now; text = text.now }) }
    {
        let name = FileName::new(alloc, name)?;
        let text = text.to_vec(alloc)?;
        Ok(TextFile { name, text })
    }

    /// Its name.
    pub fn name(&self) -> &[u8]
        ensures name { IsFileName result.now }
        ensures same { result.now ≡ self.now.name }
    {
        self.name.bytes()
    }

    /// Its text.
    pub fn text(&self) -> &[u8]
        ensures { result.now ≡ self.now.text }
    {
        self.text.as_slice()
    }
}

/// The files of the demo of so many levels.
pub fn demo_files(alloc: Global, levels: u64) -> Result<Vec<TextFile>, NoMemory>
    requires { IsLevelCount levels }
    ensures { IfOk result (λ files. files.items ≡ demo_files levels) }
{
    let mut files = Vec::new(alloc);
    add_sources(alloc, &mut files)?;
    let pulses = pulse_text(alloc, levels)?;
    add_file(alloc, &mut files, b"demo.pls", pulses.as_slice())?;
    let build = build_text(alloc, levels)?;
    add_file(alloc, &mut files, b"demo.txt", build.as_slice())?;
    Ok(files)
}

// Adds the sources.
fn add_sources(alloc: Global, files: &mut Vec<TextFile>) -> Result<(), NoMemory>
    ensures { OnOk result (files.new.items ≡ files.old.items ++ sources) }
{
    add_file(
        alloc,
        files,
        b"demo_main.gos",
        b"import f : com -> com import c : com export f c : com\n",
    )?;
    add_file(
        alloc,
        files,
        b"demo_twice.gos",
        b"import f : com -> com export fun a : com . f a ; f a : com -> com\n",
    )?;
    add_file(
        alloc,
        files,
        b"demo_pass.gos",
        b"import f : com -> com export fun a : com . f a : com -> com\n",
    )?;
    add_file(
        alloc,
        files,
        b"demo_pair.gos",
        b"import f : com -> com export fun a : com . f (fst (a, skip)) : com -> com\n",
    )?;
    add_file(
        alloc,
        files,
        b"demo_id.gos",
        b"export fun a : com . a : com -> com\n",
    )?;
    Ok(())
}

// Adds a file.
fn add_file(
    alloc: Global,
    files: &mut Vec<TextFile>,
    name: &[u8],
    text: &[u8],
) -> Result<(), NoMemory>
    requires { IsFileName name.now }
    ensures { OnOk result (files.new.items ≡ files.old.items ++ (record { name = name.now; text = text.now } ∷ [])) }
{
    let file = TextFile::new(alloc, name, text)?;
    files.push(file)?;
    Ok(())
}

/// Writes files, one after another.
pub fn write_files<S: Store>(alloc: Global, files: &[TextFile], store: &mut S) -> Result<(), Stop>
    ensures written { OnOk result (S.contents store.new ≡ with_files files.now (S.contents store.old)) }
    ensures rejects_nothing { IfErr result (λ stop. IfStopped stop (λ fault line. ⊥)) }
    ensures calls { AreMade (ending result) (write_calls (names_of files.now)) (S.calls store.old) (S.calls store.new) }
    ensures counts { CountsFaults (IsErrOf result Stop.StoreFailed) (S.faults store.old) (S.faults store.new) }
    ensures failed_call { IsErrOf result Stop.StoreFailed →
        IsWriting files.now (S.contents store.old) (S.contents store.new) (S.last_fault store.new) }
    ensures memory_files { IsErrOf result Stop.NoMemory → IsFront files.now (S.contents store.old) (S.contents store.new) }
    ensures others { OthersSame (names_of files.now) (S.contents store.old) (S.contents store.new) }
{
    for file in files {
        write_file(alloc, store, file.name(), file.text())?;
    }
    Ok(())
}
