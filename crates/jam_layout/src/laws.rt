//! Laws of the files of a conference, each the contract of a function that does nothing.
ghost use Rattle.std.specs.Prelude.{◌≡◌, ◌↔◌, ◌<◌, ◌^◌, ℕ, List, length, All, None, Some};
ghost use Rattle.jam_records.specs.declared.damage.Damage.{Damage};
ghost use Rattle.damage_rules.specs.Tests.{AllHold, IsFirstBroken};
ghost use Rattle.jam_layout.specs.BaseTests.{base_tests};
ghost use Rattle.jam_records.specs.byte_lists.Byte.{IsByte};
ghost use Rattle.jam_records.specs.Subfields.{subfields_text};
ghost use Rattle.jam_records.specs.declared.subfield.Subfield.{Subfield};
ghost use Rattle.jam_layout.specs.Layout.{layout, base_damage};
ghost use Rattle.jam_layout.specs.Fields.{values_at};
ghost use Rattle.jam_layout.specs.InOrder.{InOrder, FieldsFit, values_in};
ghost use Rattle.jam_layout.specs.Outlines.{outline, SameButBodies};
ghost use Rattle.jam_layout.specs.declared.conference.ConferenceContents.{ConferenceContents};
ghost use Rattle.jam_layout.specs.Valid.{IsShape, ShapeFits, BaseFilesFit, IsConference};
ghost use Rattle.jam_layout.specs.declared.files.BaseFiles.{BaseFiles};
ghost use Rattle.jam_layout.specs.declared.shape.Shape.{Shape};

/// Four files have no damage exactly where they are the layout of a conference of that shape, and that
/// conference is unique. Shapes and files are those that the types and the conditions of `read_bare`
/// allow, and each conference has a layout that these allow.
pub fn unique_conference()
    ensures undamaged { (shape : Shape) (files : BaseFiles) → IsShape shape → ShapeFits shape → BaseFilesFit files → (base_damage shape files ≡ None) ↔ ((c : ConferenceContents) × IsConference shape c × (files ≡ layout shape c)) }
    ensures unique { (shape : Shape) (a b : ConferenceContents) → IsShape shape → ShapeFits shape → IsConference shape a → IsConference shape b → layout shape a ≡ layout shape b → a ≡ b }
    ensures fit { (shape : Shape) (c : ConferenceContents) → IsConference shape c → BaseFilesFit (layout shape c) }
{}

/// Bytes are subfields of the ids 0 to 6, with HiID 0, in rising order and nothing else, exactly where the
/// reading in that order leaves nothing. What is read then is the value of each. Lengths are those that
/// datlen can state, as all are in fewer than 2^32 bytes, and SubfieldLen states no more.
pub fn rising_subfields()
    ensures fill { (bytes : List ℕ) → All IsByte bytes → ((values_at bytes).left ≡ 0) ↔ ((fields : List Subfield) × InOrder fields × FieldsFit fields × (bytes ≡ subfields_text fields)) }
    ensures values { (fields : List Subfield) → InOrder fields → FieldsFit fields → values_at (subfields_text fields) ≡ values_in fields }
    ensures fit { (fields : List Subfield) → length (subfields_text fields) < 2 ^ 32 → FieldsFit fields }
{}

/// Two conferences have one outline exactly where they are the same but for bodies, and these are as long. The
/// outline of a conference is one too. The files of both are the same but for .JDT, and that is as long.
pub fn outlines()
    ensures alike { (a b : ConferenceContents) → (outline a ≡ outline b) ↔ SameButBodies a b }
    ensures conference { (shape : Shape) (c : ConferenceContents) → IsConference shape c → IsConference shape (outline c) }
    ensures files { (shape : Shape) (c : ConferenceContents) → layout shape (outline c) ≡ record (layout shape c) { jdt = (layout shape (outline c)).jdt } }
    ensures long { (shape : Shape) (c : ConferenceContents) → length (layout shape (outline c)).jdt ≡ length (layout shape c).jdt }
{}

/// The damage of four files is the first of their rules that is broken, in the order of the files and their records, and
/// there is none where all hold.
pub fn named_damage()
    ensures first { (shape : Shape) (files : BaseFiles) (d : Damage) → (base_damage shape files ≡ Some d) ↔ IsFirstBroken (base_tests shape files) d }
    ensures none { (shape : Shape) (files : BaseFiles) → (base_damage shape files ≡ None) ↔ AllHold (base_tests shape files) }
{}
