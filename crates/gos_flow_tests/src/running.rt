// A command over files in memory, and what it leaves and tells.
use gos_flow::flow;
use gos_outside::{SureSink, SureStore};
use std::alloc::{AllocError, Global};

/// Files with their names.
pub type Held = Vec<(Vec<u8>, Vec<u8>)>;

/// A store's files of these names and bytes.
pub fn held(alloc: Global, files: &[(&[u8], &[u8])]) -> Result<Held, AllocError> {
    let mut held = Vec::new(alloc);
    for (name, bytes) in files {
        held.push((name.to_vec(alloc)?, bytes.to_vec(alloc)?))?;
    }
    Ok(held)
}

/// The words of a command.
pub fn words_of(alloc: Global, words: &[&str]) -> Result<Vec<String>, AllocError> {
    let mut all = Vec::new(alloc);
    for word in words {
        all.push(String::from_str(alloc, word)?)?;
    }
    Ok(all)
}

/// What a command leaves: its exit status, what it printed, and the files.
#[derive(Drop)]
pub struct Left {
    code: u8,
    out: SureSink,
    store: SureStore,
}

impl Left {
    /// Whether the command ended with this status and printed this.
    pub fn ended(&self, code: u8, printed: &[u8]) -> bool {
        self.code == code && self.out.bytes() == printed
    }

    /// Whether there is a file of this name.
    pub fn has(&self, name: &[u8]) -> bool {
        self.store.get(name).is_some()
    }

    /// Whether the file of this name holds these bytes.
    pub fn holds(&self, name: &[u8], bytes: &[u8]) -> bool {
        match self.store.get(name) {
            Some(found) => found == bytes,
            None => false,
        }
    }
}

/// Runs a command over files of these names and bytes.
pub fn ran(alloc: Global, words: &[&str], files: &[(&[u8], &[u8])]) -> Result<Left, AllocError> {
    let words = words_of(alloc, words)?;
    let mut store = SureStore::new(held(alloc, files)?);
    let mut out = SureSink::new(alloc);
    let code = flow(alloc, words.as_slice(), &mut store, &mut out).code();
    Ok(Left { code, out, store })
}
