//! Contents by their names in memory, on which both shelves in memory stand.
ghost use Rattle.std.specs.Prelude.{◌≡◌, List, ℕ, Option, OnOk, OnErr};
ghost use Rattle.std.specs.Option.{option_copied, option_map};
ghost use Rattle.std.specs.FinMap as map;
ghost use Rattle.bv_io.specs.Answers.{AnswersContent};

use crate::shelf::TakeError;
use bv_base::NoMemory;
use std::alloc::Global;
use std::collections::BTreeMap;
use std::marker::Model;

/// Contents by their names, held in memory.
#[derive(Drop)]
pub struct Files {
    alloc: Global,
    contents: BTreeMap<String, Vec<u8>>,
}

impl Model for Files {
    ghost use Rattle.bv_io.specs.Files.{Held, held_code, files_of};

    ghost Value = { Held };

    ghost coded = { held_code };

    ghost view = { λ f. files_of f.contents.entries };
}

impl Files {
    /// Holds nothing.
    pub fn new(alloc: Global) -> Files
        ensures { result ≡ map.empty }
    {
        Files {
            alloc,
            contents: BTreeMap::new(alloc),
        }
    }

    /// The content of a name, if one is held.
    pub fn get(&self, name: &str) -> Option<&[u8]>
        ensures { option_map (λ bytes. bytes.now) result ≡ map.get self.now name.now }
    {
        match self.contents.get(name) {
            Some(bytes) => Some(bytes.as_slice()),
            None => None,
        }
    }

    /// Sets the content of a name.
    pub fn insert(&mut self, name: &str, bytes: &[u8]) -> Result<(), NoMemory>
        ensures ok { OnOk result (self.new ≡ map.insert self.old name.now bytes.now) }
        ensures err { OnErr result (self.new ≡ self.old) }
    {
        let name = String::from_str(self.alloc, name)?;
        let bytes = Vec::from_slice(self.alloc, bytes)?;
        self.contents.insert(name, bytes)?;
        Ok(())
    }
}

/// A copy of a content of at most `max` bytes.
pub fn content_within(alloc: Global, content: Option<&[u8]>, max: u32) -> Result<Vec<u8>, TakeError>
    ensures { AnswersContent (option_map (λ bytes. bytes.now) content.entry) max result }
{
    let Some(bytes) = content else {
        return Err(TakeError::Missing);
    };
    if bytes.len() > max as usize {
        return Err(TakeError::TooLong);
    }
    Vec::from_slice(alloc, bytes).map_err(|_| TakeError::NoMemory)
}
