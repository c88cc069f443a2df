// The files that a call can read.
use memory_io::MemStore;
use sim_io::Name;
use std::alloc::{AllocError, Global};

/// Files by their names.
#[derive(Drop)]
pub struct Held {
    files: Vec<(String, Vec<u8>)>,
}

impl Held {
    /// Holds no file.
    pub fn none(alloc: Global) -> Self {
        Held {
            files: Vec::new(alloc),
        }
    }

    /// Holds a file of this name. Of two files of one name the first is read.
    pub fn add(&mut self, alloc: Global, name: &str, bytes: Vec<u8>) -> Result<(), AllocError> {
        let name = String::from_str(alloc, name)?;
        self.files.push((name, bytes))?;
        Ok(())
    }

    /// Holds a text of so many blank lines.
    pub fn add_blank(
        &mut self,
        alloc: Global,
        name: &str,
        length: usize,
    ) -> Result<(), AllocError> {
        let text = vec![in alloc; b'\n'; length]?;
        self.add(alloc, name, text)
    }

    /// Holds a text of so many lines of these characters.
    pub fn add_lines(
        &mut self,
        alloc: Global,
        name: &str,
        count: usize,
        line: &str,
    ) -> Result<(), AllocError> {
        self.add(alloc, name, Vec::new(alloc))?;
        for _ in 0..count {
            self.extend(line)?;
        }
        Ok(())
    }

    /// Adds a line to the last file.
    pub fn extend(&mut self, line: &str) -> Result<(), AllocError> {
        if let Some((_, bytes)) = self.files.last_mut() {
            bytes.extend_from_slice(line.as_bytes())?;
            bytes.push(b'\n')?;
        }
        Ok(())
    }

    /// The bytes of the first file of this name.
    pub fn bytes(&self, name: &str) -> Option<&[u8]> {
        for (held, bytes) in self.files.iter() {
            if held.as_str() == name {
                return Some(bytes.as_slice());
            }
        }
        None
    }

    /// A copy, in which each file of this name has its first bytes alone, this many at most.
    pub fn cut(&self, alloc: Global, name: &str, length: usize) -> Result<Held, AllocError> {
        let mut files = Vec::new(alloc);
        for (held, bytes) in self.files.iter() {
            let most = if held.as_str() == name {
                length
            } else {
                bytes.len()
            };
            let front = &bytes.as_slice()[..most.min(bytes.len())];
            let held = String::from_str(alloc, held.as_str())?;
            files.push((held, Vec::from_slice(alloc, front)?))?;
        }
        Ok(Held { files })
    }

    /// A copy, in which each file has all its bytes.
    pub fn copy(&self, alloc: Global) -> Result<Held, AllocError> {
        let mut copy = Held::none(alloc);
        for (name, bytes) in self.files.iter() {
            let bytes = Vec::from_slice(alloc, bytes.as_slice())?;
            copy.add(alloc, name.as_str(), bytes)?;
        }
        Ok(copy)
    }

    /// A store of the files that are held, of which the reads with these numbers fail, from 0.
    pub fn store(&self, alloc: Global, fail: &[u64]) -> Result<MemStore, AllocError> {
        let mut files = Vec::new(alloc);
        for (name, bytes) in self.files.iter() {
            let Ok(name) = Name::new(alloc, name.as_str()) else {
                return Err(AllocError);
            };
            files.push((name, Vec::from_slice(alloc, bytes.as_slice())?))?;
        }
        Ok(MemStore::new(files, Vec::from_slice(alloc, fail)?))
    }
}
