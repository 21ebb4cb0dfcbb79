//! Any bytes read as a value, or have a first fault. That they have no two of these is said by the laws of each format.
ghost use Rattle.std.specs.Prelude.{◌⊎◌, ℕ, List};
ghost use Rattle.fts_packet.specs.Fault.{FtsFault};
ghost use Rattle.fts_packet.specs.Packet.{FtsReads};
ghost use Rattle.fts_packet.specs.declared.fault.FtsRule.{FtsRule};
ghost use Rattle.fts_packet.specs.declared.packet.FtsMessage.{FtsMessage};
ghost use Rattle.import_sheet.specs.Fault.{SheetFault};
ghost use Rattle.import_sheet.specs.Sheet.{SheetReads};
ghost use Rattle.import_sheet.specs.declared.fault.SheetRule.{SheetRule};
ghost use Rattle.import_sheet.specs.declared.sheet.Sheet.{Sheet};
ghost use Rattle.qwk_blocks.specs.Packet.{FirstFault, PacketReads};
ghost use Rattle.qwk_blocks.specs.declared.fault.QwkFault.{QwkFault};
ghost use Rattle.qwk_blocks.specs.declared.message.QwkMessage.{QwkMessage};
ghost use Rattle.qwk_control.specs.Control.{ControlReads};
ghost use Rattle.qwk_control.specs.Fault.{ControlFault};
ghost use Rattle.qwk_control.specs.declared.control.Control.{Control};
ghost use Rattle.qwk_control.specs.declared.fault.ControlError.{ControlError};
ghost use Rattle.rep_packet.specs.Rep.{RepFault, RepReads};
ghost use Rattle.rep_packet.specs.declared.fault.RepError.{RepError};
ghost use Rattle.rep_packet.specs.declared.rep.Rep.{Rep};

/// Any bytes are a packet's messages, or have a first fault.
pub fn packet_or_fault()
    ensures { (bytes : List ℕ) → ((messages : List QwkMessage) × PacketReads bytes messages) ⊎ ((fault : QwkFault) × FirstFault bytes fault) }
{}

/// Any bytes are a reply packet, or have a fault.
pub fn rep_or_fault()
    ensures { (bytes : List ℕ) → ((rep : Rep) × RepReads bytes rep) ⊎ ((fault : RepError) × RepFault bytes fault) }
{}

/// Any bytes are a CONTROL.DAT, or have a first line that breaks its rule.
pub fn control_or_fault()
    ensures { (bytes : List ℕ) → ((control : Control) × ControlReads bytes control) ⊎ ((fault : ControlError) × ControlFault bytes fault) }
{}

/// Any bytes are a sheet, or have a first line that breaks a rule.
pub fn sheet_or_fault()
    ensures { (bytes : List ℕ) → ((sheets : List Sheet) × SheetReads bytes sheets) ⊎ ((line : ℕ) × (rule : SheetRule) × SheetFault bytes line rule) }
{}

/// Any bytes are the messages of a type 2 packet (FTS-0001), or have a first fault.
pub fn type2_or_fault()
    ensures { (bytes : List ℕ) → ((messages : List FtsMessage) × FtsReads bytes messages) ⊎ ((rule : FtsRule) × (at : ℕ) × FtsFault bytes rule at) }
{}
