ghost use Rattle.std.specs.Prelude.{◌≡◌, ◌≤◌, ◌<◌, ◌+◌, ◌*◌, ◌++◌, ◌==◌, length, IfOk, OnOk};
ghost use Rattle.std.specs.List.{list_all};
ghost use Rattle.record_numbers.specs.Numbers.{u32s_text};
ghost use Rattle.open_offers.specs.Offers.{cell_size, cell_text, is_nothing as nothing_in, offer_at};

use crate::texts::{add_u32, u32s_at};
use record_numbers::{Bytes, Duplicate, List, u32_at};
use std::alloc::{AllocError, Global};

/// A packet that was handed out to a user, and that he may acknowledge. A user has up to four of them: a fifth takes the
/// place of the one with the smallest number.
#[derive(Debug, Drop)]
pub struct OpenOffer {
    /// The number of the packet, from 1 to that of the user's last one.
    pub number: u32,
    /// For each conference, by place, the greatest message number in the packet, or 0 where none is of it or the user isn't a
    /// member.
    pub highs: Highs,
}

/// One message number for each conference, by place, each 0 to 9,999.
pub type Highs = List<u32>;

/// The open offers of a user, in rising number. There are at most four.
pub type Offers = List<OpenOffer>;

impl Duplicate for OpenOffer {
    fn duplicate(&self, alloc: Global) -> Result<OpenOffer, AllocError> {
        Ok(OpenOffer {
            number: self.number,
            highs: self.highs.copy(alloc)?,
        })
    }
}

/// Adds numbers.
fn add_numbers(out: &mut Bytes, numbers: &[u32]) -> Result<(), AllocError>
    ensures { OnOk result (out.new ≡ out.old ++ u32s_text numbers.now) }
{
    for number in numbers {
        add_u32(out, *number)?;
    }
    Ok(())
}

/// Whether each number is 0.
fn are_zero(numbers: &[u32]) -> bool
    ensures { result ≡ list_all (λ n. n == 0) numbers.now }
{
    numbers.iter().all(|number| *number == 0)
}

impl OpenOffer {
    /// How many bytes an offer has in a record, where there are so many conferences.
    pub(crate) fn size(conferences: u16) -> usize
        ensures { result ≡ cell_size conferences }
    {
        4 + 4 * usize::from(conferences)
    }

    /// The offer whose number and whose highs stand at these places. Its number is 0 where none is open there.
    pub(crate) fn read(
        alloc: Global,
        bytes: &[u8],
        number: usize,
        highs: usize,
        conferences: u16,
    ) -> Result<OpenOffer, AllocError>
        requires number { number + 4 ≤ length bytes.now }
        requires highs { highs + 4 * conferences ≤ length bytes.now }
        ensures cell { IfOk result (λ cell. cell ≡ offer_at number highs conferences bytes.now) }
        ensures highs { IfOk result (λ cell. length cell.highs ≡ conferences) }
    {
        Ok(OpenOffer {
            number: u32_at(bytes, number),
            highs: u32s_at(alloc, bytes, highs, usize::from(conferences))?,
        })
    }

    /// Whether no offer is open: the number and each high is 0.
    pub(crate) fn is_nothing(&self) -> bool
        ensures { result ≡ nothing_in self.now }
    {
        self.number == 0 && are_zero(self.highs.as_slice())
    }

    /// Adds the offer.
    pub(crate) fn write(&self, out: &mut Bytes) -> Result<(), AllocError>
        ensures { OnOk result (out.new ≡ out.old ++ cell_text self.now) }
    {
        add_u32(out, self.number)?;
        add_numbers(out, self.highs.as_slice())
    }
}
