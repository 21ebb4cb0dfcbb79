//! Why a call on the data folder fails, and how that is told.
use std::io::{self, ErrorKind};

/// What a call of the system was on.
#[derive(Clone, Copy, Debug, PartialEq, Eq)]
pub enum Part {
    /// The file that was asked for.
    Asked,
    /// The file of that number, which is opened with the one that was asked for.
    Beside(usize),
    /// The folder, or a name in it.
    Folder,
    /// The folder that it lies in.
    Above,
    /// The lock's file.
    Lock,
}

/// What keeps a call on the data folder from being done.
#[derive(Debug, Drop)]
pub enum Trouble {
    /// Another run holds the folder.
    Held,
    /// The folder and that of the shelf are one, or one lies in the other.
    Shared,
    /// It can't be told whether they are.
    Unplaced(ErrorKind),
    /// A sync failed since the machine was started, so that what is read need not be on the disk.
    Unsynced,
    /// A sync of this part failed, and the lock's file keeps that or not.
    Sync(Part, io::Error, bool),
    /// The file has fewer bytes than before, though this run took none from it.
    Shorter,
    /// Any other call of the system on this part failed.
    Call(Part, io::Error),
}

impl From<io::Error> for Trouble {
    fn from(error: io::Error) -> Trouble {
        Trouble::Call(Part::Asked, error)
    }
}

impl Trouble {
    /// Says on standard error what failed: by the path of the part that the call was on, or what is wrong with the whole
    /// folder. Where standard error is closed too, the status alone tells.
    pub fn tell(&self, rt: &HostRuntime, folder: &str, path: &str) {
        let _ = match self {
            Trouble::Held => eprintln!(rt; "{folder}: another run holds it"),
            Trouble::Shared => eprintln!(rt; "DATA and SHELF must not lie in one another"),
            Trouble::Unplaced(kind) => {
                eprintln!(rt; "it can't be told whether DATA and SHELF lie in one another: {kind}")
            }
            Trouble::Unsynced => tell_kept(rt, folder),
            Trouble::Sync(_, error, is_kept) => {
                let _ = eprintln!(rt; "{path}: {error}");
                if *is_kept {
                    tell_kept(rt, folder)
                } else {
                    tell_unkept(rt, folder)
                }
            }
            Trouble::Shorter => eprintln!(rt; "{path}: it became shorter during the run"),
            Trouble::Call(_, error) => eprintln!(rt; "{path}: {error}"),
        };
    }

    /// The part that the call was on.
    pub fn part(&self) -> Part {
        match self {
            Trouble::Sync(part, _, _) | Trouble::Call(part, _) => *part,
            _ => Part::Asked,
        }
    }
}

/// Says what has to be done before the next run, which the lock's file keeps out until then.
fn tell_kept(rt: &HostRuntime, folder: &str) -> io::Result<()> {
    eprintln!(rt;
        "{folder}: a sync failed, and the next would prove nothing: restart the machine before the next run (or unmount the disk, mount it again and empty LOCK)"
    )
}

/// Says the same where nothing keeps the next run out.
fn tell_unkept(rt: &HostRuntime, folder: &str) -> io::Result<()> {
    eprintln!(rt;
        "{folder}: a sync failed, the next would prove nothing, and LOCK couldn't keep that: start the machine anew, or unmount the disk and mount it again, before the next run, which nothing else keeps out"
    )
}
