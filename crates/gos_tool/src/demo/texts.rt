// The texts of the demo's pulse file and build file.

ghost use Rattle.std.specs.Prelude.{◌≡◌, ◌≤◌, ◌++◌, IfOk, OnOk};
ghost use Rattle.gos_command.specs.Lines.{counted};
ghost use Rattle.gos_tool.specs.demo.DemoFiles.{IsLevelCount, pulse_file, build_file, source_of, level_line, level_lines, next_line, next_lines, instance_lines, bind_lines};

use gos_types::NoMemory;
use std::alloc::Global;

/// The text of the pulse file.
pub fn pulse_text(alloc: Global, levels: u64) -> Result<Vec<u8>, NoMemory>
    requires { IsLevelCount levels }
    ensures { IfOk result (λ text. text.items ≡ (pulse_file levels).text) }
{
    let mut text = Vec::new(alloc);
    add_count(alloc, &mut text, b"cycles ", 12_000 + 7_200 * levels)?;
    text.extend_from_slice(b"\nnext 0 main.run\nnext 0 c.done\nnext 0 c.done\n")?;
    Ok(text)
}

/// The text of the build file.
pub fn build_text(alloc: Global, levels: u64) -> Result<Vec<u8>, NoMemory>
    requires { IsLevelCount levels }
    ensures { IfOk result (λ text. text.items ≡ (build_file levels).text) }
{
    let mut text = Vec::new(alloc);
    add_instances(alloc, &mut text, levels)?;
    add_binds(alloc, &mut text, levels)?;
    text.extend_from_slice(
        b"root main\nnet demo.net\nverilog demo.v\npulses demo.pls\ntrace demo.trc\n",
    )?;
    Ok(text)
}

// Adds the lines of the instances.
fn add_instances(alloc: Global, text: &mut Vec<u8>, levels: u64) -> Result<(), NoMemory>
    requires { levels ≤ 12 }
    ensures { OnOk result (text.new.items ≡ text.old.items ++ instance_lines levels) }
{
    text.extend_from_slice(b"gosbuild 1\ninst main demo_main.gos demo_main.obj\n")?;
    add_levels(alloc, text, levels)?;
    text.extend_from_slice(b"inst leaf demo_id.gos demo_leaf.obj\n")?;
    Ok(())
}

// Adds the lines of the binds.
fn add_binds(alloc: Global, text: &mut Vec<u8>, levels: u64) -> Result<(), NoMemory>
    requires { IsLevelCount levels }
    ensures { OnOk result (text.new.items ≡ text.old.items ++ bind_lines levels) }
{
    text.extend_from_slice(b"bind main f l1\n")?;
    add_nexts(alloc, text, levels - 1)?;
    add_count(alloc, text, b"bind l", levels)?;
    text.extend_from_slice(b" f leaf\n")?;
    Ok(())
}

// Adds the lines of the first levels.
fn add_levels(alloc: Global, text: &mut Vec<u8>, levels: u64) -> Result<(), NoMemory>
    requires { levels ≤ 12 }
    ensures { OnOk result (text.new.items ≡ text.old.items ++ level_lines levels) }
{
    for before in 0..levels {
        add_level(alloc, text, before + 1)?;
    }
    Ok(())
}

// Adds the line of a level.
fn add_level(alloc: Global, text: &mut Vec<u8>, level: u64) -> Result<(), NoMemory>
    ensures { OnOk result (text.new.items ≡ text.old.items ++ level_line level) }
{
    add_count(alloc, text, b"inst l", level)?;
    text.extend_from_slice(b" ")?;
    text.extend_from_slice(source_of(level))?;
    add_count(alloc, text, b" demo_l", level)?;
    text.extend_from_slice(b".obj\n")?;
    Ok(())
}

// The source of a level.
fn source_of(level: u64) -> &'static [u8]
    ensures { result.now ≡ source_of level }
{
    if level == 1 {
        b"demo_twice.gos"
    } else if level % 2 == 0 {
        b"demo_pair.gos"
    } else {
        b"demo_pass.gos"
    }
}

// Adds the lines that give the first levels the next ones.
fn add_nexts(alloc: Global, text: &mut Vec<u8>, levels: u64) -> Result<(), NoMemory>
    requires { levels ≤ 12 }
    ensures { OnOk result (text.new.items ≡ text.old.items ++ next_lines levels) }
{
    for before in 0..levels {
        add_next(alloc, text, before + 1)?;
    }
    Ok(())
}

// Adds the line that gives a level the next one.
fn add_next(alloc: Global, text: &mut Vec<u8>, level: u64) -> Result<(), NoMemory>
    requires { level ≤ 12 }
    ensures { OnOk result (text.new.items ≡ text.old.items ++ next_line level) }
{
    add_count(alloc, text, b"bind l", level)?;
    add_count(alloc, text, b" f l", level + 1)?;
    text.extend_from_slice(b"\n")?;
    Ok(())
}

// Adds words and a number.
fn add_count(alloc: Global, text: &mut Vec<u8>, words: &[u8], count: u64) -> Result<(), NoMemory>
    ensures { OnOk result (text.new.items ≡ text.old.items ++ counted words.now count) }
{
    text.extend_from_slice(words)?;
    let digits = count.to_string(alloc)?;
    text.extend_from_slice(digits.as_bytes())?;
    Ok(())
}
