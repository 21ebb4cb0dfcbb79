ghost use Rattle.std.specs.Prelude.{◌≡◌, ◌↔◌, ◌<◌, ◌^◌, ℕ, Ok, Err, length, slice_get, Contains, IsTrue, IfOk};
ghost use Rattle.std.specs.Option.{option_copied};
ghost use Rattle.jam_records.specs.byte_lists.Memory.{UnlessMemory};
ghost use Rattle.setup_file.specs.Reads.{SetupReads};
ghost use Rattle.setup_file.specs.Fault.{SetupFault};
ghost use Rattle.setup_file.specs.declared.error.SetupError.TheVariants.{Line};
ghost use Rattle.setup_file.specs.declared.error.SetupRule.{SetupRule};
ghost use Rattle.setup_file.specs.declared.fields.SetupFields.{SetupFields};
ghost use Rattle.setup_file.specs.Valid.{IsSetup};

use crate::conference::Conference;
use crate::error::SetupError;
use crate::fields::SetupFields;
use crate::parse::setup_in;
use jam_records::Bytes;
use std::alloc::{AllocError, Global};
use std::marker::Model;

/// A board's setup, which keeps the rules that its fields name. Contracts see its fields.
#[derive(Debug, Drop)]
pub struct Setup {
    fields: SetupFields,
}

impl Model for Setup {
    ghost use Rattle.setup_file.specs.Valid.{IsSetup};
    ghost use Rattle.setup_file.specs.declared.fields.SetupFields.{SetupFields};

    ghost Value = { SetupFields };

    ghost view = { λ s. s.fields };

    ghost invariant = { λ s. IsSetup s.fields };
}

impl Setup {
    /// The setup of these fields, which keep the rules.
    pub fn of(fields: SetupFields) -> Setup
        requires { IsSetup fields }
        ensures { result ≡ fields }
    {
        Setup { fields }
    }

    /// Its fields, which keep the rules.
    pub fn fields(&self) -> &SetupFields
        ensures fields { result.now ≡ self.now }
        ensures valid { IsSetup self.now }
    {
        &self.fields
    }

    /// The setup of a setup file, or its first failing line with the rule that it breaks. The answer may be
    /// want of memory in place of either. The bytes are fewer than 2^31.
    pub fn parse(alloc: Global, bytes: &[u8]) -> Result<Setup, SetupError>
        requires { length bytes.now < 2 ^ 31 }

        // A setup is answered exactly where the bytes read as it, unless memory runs out.
        ensures ok { IfOk result (λ setup. SetupReads bytes.now setup) }
        ensures only_ok { (setup : SetupFields) → SetupReads bytes.now setup → UnlessMemory SetupError.OutOfMemory result (Ok setup) }

        // So is a line with its rule, exactly where it is the first that fails.
        ensures fault { (line : ℕ) (rule : SetupRule) → result ≡ Err (Line line rule) → SetupFault bytes.now line rule }
        ensures only_fault { (line : ℕ) (rule : SetupRule) → SetupFault bytes.now line rule → UnlessMemory SetupError.OutOfMemory result (Err (Line line rule)) }
    {
        setup_in(alloc, bytes)
    }

    /// The board's name. For callers of the library; the program doesn't call it.
    pub fn board(&self) -> &Bytes
        ensures { result.now ≡ self.now.board }
    {
        &self.fields.board
    }

    /// The board's city. For callers of the library; the program doesn't call it.
    pub fn city(&self) -> &Bytes
        ensures { result.now ≡ self.now.city }
    {
        &self.fields.city
    }

    /// The board's phone number. For callers of the library; the program doesn't call it.
    pub fn phone(&self) -> &Bytes
        ensures { result.now ≡ self.now.phone }
    {
        &self.fields.phone
    }

    /// The sysop's name. For callers of the library; the program doesn't call it.
    pub fn sysop(&self) -> &Bytes
        ensures { result.now ≡ self.now.sysop }
    {
        &self.fields.sysop
    }

    /// The board id.
    pub fn bbsid(&self) -> &Bytes
        ensures { result.now ≡ self.now.bbsid }
    {
        &self.fields.bbsid
    }

    /// The serial number. For callers of the library; the program doesn't call it.
    pub fn serial(&self) -> u32
        ensures { result ≡ self.now.serial }
    {
        self.fields.serial
    }

    /// Whether a zone is one of the board's. For callers of the library; the program doesn't call it.
    pub fn has_zone(&self, zone: u16) -> bool
        ensures { IsTrue result ↔ Contains self.now.zones zone }
    {
        self.fields.zones.as_slice().contains(&zone)
    }

    /// How many conferences there are, 1 to 64.
    pub fn conference_count(&self) -> u8
        ensures { result ≡ length self.now.conferences }
    {
        self.fields.conferences.len() as u8
    }

    /// The conference in a place, from 0, or None past the last.
    pub fn conference(&self, place: u8) -> Option<&Conference>
        ensures { option_copied result ≡ slice_get self.now.conferences place }
    {
        self.fields.conferences.get(usize::from(place))
    }

    /// An equal setup. The error comes where there is no memory.
    pub fn copy(&self, alloc: Global) -> Result<Setup, AllocError>
        ensures { IfOk result (λ copy. copy ≡ self.now) }
    {
        let fields = self.fields.copy(alloc)?;
        Ok(Setup { fields })
    }
}
