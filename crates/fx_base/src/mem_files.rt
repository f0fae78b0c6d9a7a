//! Files in memory.

ghost use Rattle.std.specs.Prelude.{◌≡◌, ◌≢◌, ℕ, ◌≤◌, List, length, Option, Some, None, IsTrue, IfErr, IfOk, OnOk, OnErr, MatchResult, IsErrOf, ◌↔◌, []};
ghost use Rattle.std.specs.Option.{option_copied};
ghost use Rattle.fx_base.specs.Faults.{Rose};
ghost use Rattle.fx_base.specs.Files.{SameFiles, SameElsewhere, RefusesReading, IsOfTheFile};
ghost use Rattle.fx_base.specs.FaultPlan.{fails_next, next_plan};
ghost use Rattle.fx_base.specs.MemFiles.{content_of};

use crate::fault_plan::FaultPlan;
use crate::{FileError, Files};
use std::alloc::{AllocError, Global};
use std::collections::BTreeMap;
use std::marker::Model;

/// Files in memory, which fail at the calls that are listed.
#[derive(Drop)]
pub struct MemFiles {
    alloc: Global,
    files: BTreeMap<String, Vec<u8>>,
    plan: FaultPlan,
}

impl Model for MemFiles {
    ghost use Rattle.std.specs.Prelude.{map, string_bytes};
    ghost use Rattle.fx_base.specs.MemFiles.{FilesState};

    ghost Value = { FilesState };

    ghost view = { λ a. record { files = map (λ file. (string_bytes file.0, file.1.items)) a.files.entries; plan = a.plan } };
}

impl MemFiles {
    /// No file, and the plan that the calls of the numbers in `failing`, from 1, fail.
    pub fn new(alloc: Global, failing: Vec<u64>) -> MemFiles
        ensures none { result.files ≡ [] }
        ensures plan { result.plan ≡ record { failing = failing.items; calls = 0; faults = 0 } }
    {
        MemFiles {
            alloc,
            files: BTreeMap::new(alloc),
            plan: FaultPlan::new(failing),
        }
    }

    /// Puts a file of these bytes under the name, in place of one that stands there. It counts as no call.
    pub fn add(&mut self, name: &str, bytes: &[u8]) -> Result<(), AllocError>
        ensures ok { OnOk result (content_of self.new.files name.now ≡ Some bytes.now) }
        ensures others { SameElsewhere name.now (content_of self.old.files) (content_of self.new.files) }
        ensures err { OnErr result (self.new.files ≡ self.old.files) }
        ensures plan { self.new.plan ≡ self.old.plan }
    {
        let name = String::from_str(self.alloc, name)?;
        let bytes = Vec::from_slice(self.alloc, bytes)?;
        self.files.insert(name, bytes)?;
        Ok(())
    }

    /// The bytes of the file of this name.
    pub fn get(&self, name: &str) -> Option<&[u8]>
        ensures { option_copied result ≡ content_of self.now.files name.now }
    {
        match self.files.get(name) {
            Some(bytes) => Some(bytes.as_slice()),
            None => None,
        }
    }
}

impl Files for MemFiles {
    ghost held = { λ files. Some (content_of files.files) };

    ghost faults = { λ files. files.plan.faults };

    fn read(&mut self, alloc: Global, name: &str, limit: u64) -> Result<Vec<u8>, FileError>
        ensures keeps { SameFiles (content_of self.old.files) (content_of self.new.files) }
        ensures within { IfOk result (λ v. length v.items ≤ limit) }
        ensures content { MatchResult result (λ v. content_of self.old.files name.now ≡ Some v.items)
            (RefusesReading limit (content_of self.old.files name.now)) }
        ensures later { self.old.plan.faults ≤ self.new.plan.faults }
        ensures failed { IsErrOf result FileError.Failed → Rose self.old.plan.faults self.new.plan.faults }
        ensures quiet { (IsErrOf result FileError.Failed → ⊥) → self.new.plan.faults ≡ self.old.plan.faults }
        // It fails exactly at the calls that are listed.
        ensures planned { IsErrOf result FileError.Failed ↔ IsTrue (fails_next self.old.plan) }
        ensures plan { self.new.plan ≡ next_plan self.old.plan }
    {
        let fails = self.plan.fails_next();
        self.plan.count(fails);
        if fails {
            return Err(FileError::Failed);
        }
        let Some(bytes) = self.get(name) else {
            return Err(FileError::Missing);
        };
        if bytes.len() as u64 > limit {
            return Err(FileError::TooLong);
        }
        Ok(Vec::from_slice(alloc, bytes)?)
    }

    fn write(&mut self, _alloc: Global, name: &str, bytes: &[u8]) -> Result<(), FileError>
        ensures written { OnOk result (content_of self.new.files name.now ≡ Some bytes.now) }
        ensures others { SameElsewhere name.now (content_of self.old.files) (content_of self.new.files) }
        ensures refusals { IfErr result (λ e. IsOfTheFile e → ⊥) }
        ensures later { self.old.plan.faults ≤ self.new.plan.faults }
        ensures failed { IsErrOf result FileError.Failed → Rose self.old.plan.faults self.new.plan.faults }
        ensures planned { IsErrOf result FileError.Failed ↔ IsTrue (fails_next self.old.plan) }
        ensures plan { self.new.plan ≡ next_plan self.old.plan }
        ensures unchanged { OnErr result (self.new.files ≡ self.old.files) }
    {
        let fails = self.plan.fails_next();
        self.plan.count(fails);
        if fails {
            return Err(FileError::Failed);
        }
        self.add(name, bytes)?;
        Ok(())
    }
}
