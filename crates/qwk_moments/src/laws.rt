//! Laws of moments and their fields.
ghost use Rattle.std.specs.Prelude.{◌≡◌, ◌↔◌, ℕ, ◌*◌, ◌/◌, ◌^◌, ◌<◌, ◌≤◌, List, All, Some, pos};
ghost use Rattle.std.specs.Int.{IsInRange};
ghost use Rattle.jiff_core.specs.Calendar.{IsCivilDate, days_from_civil};
ghost use Rattle.qwk_moments.specs.Calendar.{civil_date};
ghost use Rattle.qwk_moments.specs.Moments.{date_text, moment_of, stamp_text, time_text};
ghost use Rattle.qwk_moments.specs.Spelled.{MomentReads};

/// Fields read as a moment exactly where they spell its minute.
pub fn spelled_moment_reads()
    ensures { (date time : List ℕ) (seconds : ℕ) →
        (moment_of date time ≡ Some seconds) ↔ MomentReads date time seconds }
{}

/// A moment before 2070 reads back from its fields, to its minute.
pub fn written_moment_reads()
    ensures { (seconds : ℕ) → seconds < 3_155_760_000 →
        moment_of (date_text seconds) (time_text seconds) ≡ Some (seconds / 60 * 60) }
{}

/// Up to the end of the year 9999, the date that many days after 1 January 1970 is the one that has
/// this day number.
pub fn days_are_numbered()
    ensures calendar { (days : ℕ) → days ≤ 2_932_896 → let date = civil_date days in
        IsCivilDate (pos date.year) date.month date.day }
    ensures number { (days : ℕ) → days ≤ 2_932_896 → let date = civil_date days in
        days_from_civil (pos date.year) date.month date.day ≡ pos days }
{}

/// What is written are digits, `,`, `-` and `:`: bytes from 2Ch to 3Ah.
pub fn written_bytes()
    ensures date { (seconds : ℕ) → seconds < 2 ^ 32 → All (IsInRange 44 58) (date_text seconds) }
    ensures time { (seconds : ℕ) → seconds < 2 ^ 32 → All (IsInRange 44 58) (time_text seconds) }
    ensures stamp { (seconds : ℕ) → seconds < 2 ^ 32 → All (IsInRange 44 58) (stamp_text seconds) }
{}
