//! The three files of a base, and changes of them.
use byte_lists::Bytes;
use jam_adopt::{Foreign, ForeignError, read_foreign};
use std::alloc::{AllocError, Global};
use test_cases::{Miss, bytes_of, number_of};

/// The files.
#[derive(Drop)]
pub struct ForeignFiles {
    pub jhr: Bytes,
    pub jdt: Bytes,
    pub jdx: Bytes,
}

/// .JHR, .JDT and .JDX of two messages from Bob Ray to All about Hello, with the ids 0.1.TESTBBS and 0.2.TESTBBS.
const TWO: [&str; 3] = [
    r"JAM\0\0\xCA\x9A;\x01\0\0\0\x02\0\0\0\xFF\xFF\xFF\xFF\x01\0\{1003}JAM\0\x01\0\0\0:\0\0\0\0\0\0\0qc\x95\xF7\xFF\xFF\xFF\xFF\0\0\0\0\0\0\0\0\0\0\0\0\0\xCA\x9A;\0\0\0\0\0\xCA\x9A;\x01\0\0\0\x01\0\x80\0\0\0\0\0\0\0\0\0\x0B\0\0\0\xFF\xFF\xFF\xFF\0\0\0\0\x02\0\0\0\x07\0\0\0Bob Ray\x03\0\0\0\x03\0\0\0All\x04\0\0\0\x0B\0\0\00.1.TESTBBS\x06\0\0\0\x05\0\0\0HelloJAM\0\x01\0\0\0:\0\0\0\0\0\0\0\xB4_\x18\xCE\xFF\xFF\xFF\xFF\0\0\0\0\0\0\0\0\0\0\0\0\0\xCA\x9A;\0\0\0\0\0\xCA\x9A;\x02\0\0\0\x01\0\x80\0\0\0\0\0\x0B\0\0\0\x0B\0\0\0\xFF\xFF\xFF\xFF\0\0\0\0\x02\0\0\0\x07\0\0\0Bob Ray\x03\0\0\0\x03\0\0\0All\x04\0\0\0\x0B\0\0\00.2.TESTBBS\x06\0\0\0\x05\0\0\0Hello",
    r"First line\rFirst line\r",
    r"\x22\x8E\xE7\xC4\0\x04\0\0\x22\x8E\xE7\xC4\x86\x04\0\0",
];

/// The bytes after a change: only so many, more behind them, or others from a place on.
fn changed(alloc: Global, bytes: &[u8], place: &[u8], value: &[u8]) -> Result<Bytes, Miss> {
    let mut made = bytes.to_vec(alloc)?;
    match place {
        b"cut" => made.truncate(number_of(value)? as usize),
        b"add" => made.extend_from_slice(value)?,
        _ => {
            let at = number_of(place)? as usize;
            for (old, new) in made.iter_mut().skip(at).zip(value) {
                *old = *new;
            }
        }
    }
    Ok(Bytes::from_vec(made))
}

impl ForeignFiles {
    /// Those of two messages.
    pub fn two(alloc: Global) -> Result<ForeignFiles, Miss> {
        Ok(ForeignFiles {
            jhr: bytes_of(alloc, TWO[0].as_bytes())?,
            jdt: bytes_of(alloc, TWO[1].as_bytes())?,
            jdx: bytes_of(alloc, TWO[2].as_bytes())?,
        })
    }

    /// Changes the file of a name: `cut` keeps so many bytes, `add` adds bytes, and a place has these bytes from there on.
    pub fn change(
        &mut self,
        alloc: Global,
        name: &[u8],
        place: &[u8],
        value: &[u8],
    ) -> Result<(), Miss> {
        match name {
            b"jhr" => self.jhr = changed(alloc, self.jhr.as_slice(), place, value)?,
            b"jdt" => self.jdt = changed(alloc, self.jdt.as_slice(), place, value)?,
            b"jdx" => self.jdx = changed(alloc, self.jdx.as_slice(), place, value)?,
            _ => return Err(Miss::Words),
        }
        Ok(())
    }

    /// Those of two messages after changes, three words each.
    pub fn changed(alloc: Global, words: &[Bytes]) -> Result<ForeignFiles, Miss> {
        let mut files = ForeignFiles::two(alloc)?;
        for change in words.chunks(3) {
            let [name, place, value] = change else {
                return Err(Miss::Words);
            };
            files.change(alloc, name.as_slice(), place.as_slice(), value.as_slice())?;
        }
        Ok(files)
    }

    /// What is found in them.
    pub fn read(&self, alloc: Global) -> Result<Result<Foreign, ForeignError>, Miss> {
        let (jhr, jdt, jdx) = (
            self.jhr.as_slice(),
            self.jdt.as_slice(),
            self.jdx.as_slice(),
        );
        // No case has so many bytes, which the reader doesn't take.
        let most = 1usize << 31;
        if jhr.len() < most && jdt.len() < most && jdx.len() < most {
            return Ok(read_foreign(alloc, jhr, jdt, jdx));
        }
        Err(Miss::Unreached)
    }
}

/// Adds the bytes of a number, the low byte first.
pub fn add_number(bytes: &mut Bytes, number: u32) -> Result<(), AllocError> {
    bytes.add(&number.to_le_bytes())
}
