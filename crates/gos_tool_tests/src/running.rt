// A command over files in memory, and what it leaves and tells.
use gos_outside::{SureSink, SureStore};
use gos_tool::run;
use std::alloc::{AllocError, Global};

/// Files with their names.
pub type Held = Vec<(Vec<u8>, Vec<u8>)>;

/// A store's files of these names and bytes.
pub fn held(alloc: Global, files: &[(&[u8], &[u8])]) -> Result<Held, AllocError> {
    let mut held = Vec::new(alloc);
    for (name, bytes) in files {
        held.push((name.to_vec(alloc)?, bytes.to_vec(alloc)?))?;
    }
    Ok(held)
}

/// The words of a command.
pub fn words_of(alloc: Global, words: &[&str]) -> Result<Vec<String>, AllocError> {
    let mut all = Vec::new(alloc);
    for word in words {
        all.push(String::from_str(alloc, word)?)?;
    }
    Ok(all)
}

/// What a command leaves: its exit status, what it printed, and the files.
#[derive(Drop)]
pub struct Left {
    code: u8,
    out: SureSink,
    store: SureStore,
}

impl Left {
    /// Whether the command ended with this status and printed this.
    pub fn ended(&self, code: u8, printed: &[u8]) -> bool {
        self.code == code && self.out.bytes() == printed
    }

    /// Whether the command printed this.
    pub fn printed(&self, printed: &[u8]) -> bool {
        self.out.bytes() == printed
    }

    /// Whether the command ended with this status.
    pub fn has_code(&self, code: u8) -> bool {
        self.code == code
    }

    /// Whether there is a file of this name.
    pub fn has(&self, name: &[u8]) -> bool {
        self.store.get(name).is_some()
    }

    /// What the file of this name holds, where there is one.
    pub fn file(&self, name: &[u8]) -> Option<&[u8]> {
        self.store.get(name)
    }

    /// Whether the file of this name holds these bytes.
    pub fn holds(&self, name: &[u8], bytes: &[u8]) -> bool {
        match self.file(name) {
            Some(found) => found == bytes,
            None => false,
        }
    }

    /// Runs another command over the files that are left.
    pub fn goes_on(&mut self, alloc: Global, words: &[&str]) -> Result<(), AllocError> {
        let words = words_of(alloc, words)?;
        self.out = SureSink::new(alloc);
        self.code = run(alloc, words.as_slice(), &mut self.store, &mut self.out).code();
        Ok(())
    }

    /// Whether the trace has these lines without the numbers of their cycles, which are the compiler's choice.
    pub fn is_traced(&self, alloc: Global, lines: &[u8]) -> Result<bool, AllocError> {
        match self.store.get(b"out.trc") {
            Some(trace) => Ok(events(alloc, trace)?.as_slice() == lines),
            None => Ok(false),
        }
    }
}

/// Runs a command over files of these names and bytes.
pub fn ran(alloc: Global, words: &[&str], files: &[(&[u8], &[u8])]) -> Result<Left, AllocError> {
    let words = words_of(alloc, words)?;
    let mut store = SureStore::new(held(alloc, files)?);
    let mut out = SureSink::new(alloc);
    let code = run(alloc, words.as_slice(), &mut store, &mut out).code();
    Ok(Left { code, out, store })
}

/// The lines of a trace without the numbers of their cycles.
pub fn events(alloc: Global, trace: &[u8]) -> Result<Vec<u8>, AllocError> {
    let mut events = Vec::new(alloc);
    let mut in_number = true;
    for byte in trace {
        if !in_number || !(byte.is_ascii_digit() || *byte == b' ') {
            in_number = *byte == b'\n';
            events.push(*byte)?;
        }
    }
    Ok(events)
}

/// The cycles of the lines of a trace that end with this event, a line each.
pub fn cycles_of(alloc: Global, trace: &[u8], event: &[u8]) -> Result<Vec<u8>, AllocError> {
    let mut cycles = Vec::new(alloc);
    for line in trace.split(|byte| *byte == b'\n') {
        if line.ends_with(event) {
            cycles.extend_from_slice(first_number(line))?;
            cycles.push(b'\n')?;
        }
    }
    Ok(cycles)
}

// The number that a line begins with.
fn first_number(line: &[u8]) -> &[u8] {
    let digits = line.iter().take_while(|byte| byte.is_ascii_digit()).count();
    line.get(..digits).unwrap_or(line)
}
