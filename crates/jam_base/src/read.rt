ghost use Rattle.std.specs.Prelude.{◌≡◌, ◌<◌, ◌^◌, length, IfOk, Some, Err, Ok};
ghost use Rattle.jam_records.specs.byte_lists.Memory.{UnlessMemory};
ghost use Rattle.jam_records.specs.declared.damage.Damage.{Damage};
ghost use Rattle.jam_writing.specs.jam_layout.Layout.{layout, base_damage};
ghost use Rattle.jam_writing.specs.jam_layout.Outlines.{outline};
ghost use Rattle.jam_writing.specs.jam_layout.Valid.{IsShape, IsConference};
ghost use Rattle.jam_writing.specs.jam_layout.declared.conference.ConferenceContents.{ConferenceContents};
ghost use Rattle.jam_base.specs.Outlined.{IsReadOf};

use crate::base::Base;
use jam_writing::{BaseError, BaseFiles, Shape, read_bare};
use std::alloc::Global;

/// The outline of the conference whose layout the files are (JAM message base proposal, revision 1). Each file has fewer
/// than 2^31 bytes, the shape's place is at most 63, and the ids of its readers rise.
///
/// `Damaged` comes where the files are the layout of no conference of that shape, with the first rule that
/// they break. `OutOfMemory` comes where there is no memory. Where both meet, either may be answered.
pub fn read_base(alloc: Global, files: &BaseFiles, shape: &Shape) -> Result<Base, BaseError>
    requires shape { IsShape shape.now }
    requires jhr { length files.now.jhr < 2 ^ 31 }
    requires jdt { length files.now.jdt < 2 ^ 31 }
    requires jdx { length files.now.jdx < 2 ^ 31 }
    requires jlr { length files.now.jlr < 2 ^ 31 }
    ensures ok { IfOk result (IsReadOf shape.now files.now) }
    ensures only_ok { (c : ConferenceContents) → IsConference shape.now c → files.now ≡ layout shape.now c → UnlessMemory BaseError.OutOfMemory result (Ok (record { shape = shape.now; conference = outline c })) }
    ensures damaged { (d : Damage) → result ≡ Err (BaseError.Damaged d) → base_damage shape.now files.now ≡ Some d }
    ensures only_damaged { (d : Damage) → base_damage shape.now files.now ≡ Some d → UnlessMemory BaseError.OutOfMemory result (Err (BaseError.Damaged d)) }
{
    let bare = read_bare(alloc, files, shape)?;
    Ok(Base::linked(alloc, shape, bare)?)
}
