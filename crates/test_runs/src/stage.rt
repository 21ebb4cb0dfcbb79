//! A host and a shelf on which a transcript is played.
use crate::boards::{BOARD_B, put_setups, put_sheets};
use crate::damages::damaged_host;
use crate::data_files::{data_file, expect_data_length, expect_part, expect_rest, put_data};
use crate::days::put_day;
use crate::directions::{blocks_of, bytes_of, number_of, parted};
use crate::files::{add_copies, expect_file, expect_file_length, file_of, put};
use crate::miss::Miss;
use crate::outside::{empty_host, empty_shelf, no_faults};
use crate::packets::{put_folders, put_packets};
use crate::runs::NOW;
use crate::transcripts::{PROMPT, run_command};
use byte_lists::Bytes;
use door_outside::FileId;
use memory_outside::{ImageChoice, MemoryHost, MemoryShelf};
use std::alloc::Global;

/// What stands before each direction of a transcript.
const DIRECTION: &str = "\n* ";

/// A host and a shelf in memory, and the moment of the runs on them.
#[derive(Drop)]
pub struct Stage {
    pub host: MemoryHost,
    pub shelf: MemoryShelf,
    now: u32,
}

/// How a direction says what is in a file.
#[derive(Clone, Copy)]
enum Form {
    /// As a text, with the escapes of directions.
    Text,
    /// As lines, each of which is a block.
    Blocks,
    /// By the name of a file that has the same.
    File,
}

/// Plays a transcript on empty files.
pub fn played(alloc: Global, transcript: &str) -> Result<Stage, Miss> {
    let mut stage = Stage {
        host: empty_host(alloc),
        shelf: empty_shelf(alloc),
        now: NOW,
    };
    stage.play(alloc, transcript)?;
    Ok(stage)
}

/// Plays a transcript on empty files, where nothing more is to be looked at.
pub fn expect_transcript(alloc: Global, transcript: &str) -> Result<(), Miss> {
    played(alloc, transcript)?;
    Ok(())
}

/// Plays each of some transcripts so.
pub fn expect_transcripts(alloc: Global, transcripts: &[&str]) -> Result<(), Miss> {
    for transcript in transcripts {
        expect_transcript(alloc, transcript)?;
    }
    Ok(())
}

impl Stage {
    /// What the last run on a host has synced, with an empty shelf.
    pub fn after(alloc: Global, last: &MemoryHost) -> Result<Stage, Miss> {
        Ok(Stage {
            host: last.after_crash(alloc, ImageChoice::Synced, no_faults(alloc))?,
            shelf: empty_shelf(alloc),
            now: NOW,
        })
    }

    /// Carries out each step of a transcript on what was synced before it.
    pub fn play(&mut self, alloc: Global, transcript: &str) -> Result<(), Miss> {
        let Some(scenes) = transcript.strip_suffix('\n') else {
            return Err(Miss::no_transcript(alloc, transcript)?);
        };
        for scene in scenes.split(DIRECTION) {
            self.play_scene(alloc, scene)?;
        }
        Ok(())
    }

    /// Follows the direction that a text begins with, if any, and then runs its commands.
    fn play_scene(&mut self, alloc: Global, scene: &str) -> Result<(), Miss> {
        let Some((direction, commands)) = scene.split_once(PROMPT) else {
            return self.follow(alloc, scene);
        };
        self.follow(alloc, direction)?;
        self.run(alloc, commands)
    }

    /// Runs each command on what was synced before it. The first has no prompt.
    fn run(&mut self, alloc: Global, commands: &str) -> Result<(), Miss> {
        for command in commands.split(PROMPT) {
            self.host = run_command(alloc, &self.host, &mut self.shelf, self.now, command)?;
        }
        Ok(())
    }

    /// Follows a direction, or none. Those that name a file are followed by `Stage::treat`.
    fn follow(&mut self, alloc: Global, direction: &str) -> Result<(), Miss> {
        let (verb, words) = direction.split_once(' ').unwrap_or((direction, ""));
        match verb {
            "" => Ok(()),
            "now" => self.set_now(words),
            "board" => self.make_board(alloc),
            "damage" => self.damage(alloc, words),
            "ledger" => self.put_ledger(alloc, words),
            "data" => self.expect_data(alloc, words),
            "wrote" => self.expect_wrote(words),
            "setups" => put_setups(&mut self.shelf, alloc),
            "day" => put_day(&mut self.shelf, alloc),
            "packets" => put_packets(&mut self.shelf, alloc),
            "folders" => put_folders(&mut self.shelf, alloc),
            _ => self.treat(alloc, verb, words),
        }
    }

    /// `now MOMENT` sets the moment of the runs from here on, in Unix seconds.
    fn set_now(&mut self, moment: &str) -> Result<(), Miss> {
        self.now = moment.parse().ok().ok_or("a direction lacks a moment")?;
        Ok(())
    }

    /// `board B` makes the board B on empty files, and puts the setup files and the sheets of the examples.
    fn make_board(&mut self, alloc: Global) -> Result<(), Miss> {
        put_setups(&mut self.shelf, alloc)?;
        put_sheets(&mut self.shelf, alloc)?;
        self.host = empty_host(alloc);
        self.run(alloc, BOARD_B)
    }

    /// `damage` and a change of a data file makes that change.
    fn damage(&mut self, alloc: Global, change: &str) -> Result<(), Miss> {
        self.host = damaged_host(alloc, &self.host, change)?;
        Ok(())
    }

    /// `ledger TEXT` puts the file of the ledger.
    fn put_ledger(&mut self, alloc: Global, text: &str) -> Result<(), Miss> {
        let bytes = bytes_of(alloc, text)?;
        put_data(&mut self.host, FileId::ledger(), bytes.as_slice())
    }

    /// `data NUMBER has LENGTH` looks how long a data file is; `data NUMBER from PLACE TEXT` looks whether it has a text
    /// at a place; and `data NUMBER ends PLACE TEXT`, whether it ends with it too.
    fn expect_data(&self, alloc: Global, words: &str) -> Result<(), Miss> {
        let (number, words) = parted(words)?;
        let file = data_file(number)?;
        let (verb, words) = parted(words)?;
        if verb == "has" {
            return expect_data_length(&self.host, file, number_of(words)?);
        }
        let (place, text) = parted(words)?;
        let (place, text) = (number_of(place)?, bytes_of(alloc, text)?);
        match verb {
            "from" => expect_part(&self.host, file, place, text.as_slice()),
            "ends" => expect_rest(&self.host, file, place, text.as_slice()),
            _ => Err(Miss::no_transcript(alloc, verb)?),
        }
    }

    /// `wrote MOST` looks whether the last run gave some bytes to writes, and at most so many.
    fn expect_wrote(&self, most: &str) -> Result<(), Miss> {
        let most = u64::try_from(number_of(most)?).unwrap_or(u64::MAX);
        if 0 < self.host.wrote() && self.host.wrote() <= most {
            return Ok(());
        }
        Err(Miss::Broken("a run wrote nothing, or more than it may"))
    }

    /// Follows a direction that names a file of the shelf, and then says what is in it: a text, `Form::Text`; a block in
    /// each line below, `Form::Blocks`; or another file's name, `Form::File`.
    fn treat(&mut self, alloc: Global, verb: &str, words: &str) -> Result<(), Miss> {
        match verb {
            "put" => self.put(alloc, Form::Text, words),
            "blocks" => self.put(alloc, Form::Blocks, words),
            "add" => self.add(alloc, Form::Text, words),
            "join" => self.add(alloc, Form::File, words),
            "file" => self.expect(alloc, Form::Text, words),
            "packet" => self.expect(alloc, Form::Blocks, words),
            "same" => self.expect(alloc, Form::File, words),
            "length" => self.expect_length(alloc, words),
            _ => Err(Miss::no_transcript(alloc, verb)?),
        }
    }

    /// `put NAME TEXT` and `blocks NAME LINES` put a file, which is empty where nothing follows its name.
    fn put(&mut self, alloc: Global, form: Form, words: &str) -> Result<(), Miss> {
        let (name, words) = parted(words).unwrap_or((words, ""));
        let file = self.content(alloc, form, words)?;
        put(&mut self.shelf, alloc, name, file.as_slice())
    }

    /// `add NAME COUNT TEXT` and `join NAME COUNT OTHER` add what they name so many times to the end of a file.
    fn add(&mut self, alloc: Global, form: Form, words: &str) -> Result<(), Miss> {
        let (name, words) = parted(words)?;
        let (count, words) = parted(words)?;
        let (count, piece) = (number_of(count)?, self.content(alloc, form, words)?);
        add_copies(&mut self.shelf, alloc, name, piece.as_slice(), count)
    }

    /// `file NAME TEXT`, `packet NAME LINES` and `same NAME OTHER` look whether a file is as they say.
    fn expect(&self, alloc: Global, form: Form, words: &str) -> Result<(), Miss> {
        let (name, words) = parted(words)?;
        let wanted = self.content(alloc, form, words)?;
        expect_file(alloc, &self.shelf, name, wanted.as_slice())
    }

    /// `length NAME LENGTH` looks how long a file is.
    fn expect_length(&self, alloc: Global, words: &str) -> Result<(), Miss> {
        let (name, length) = parted(words)?;
        expect_file_length(alloc, &self.shelf, name, number_of(length)?)
    }

    /// The bytes that words of a form stand for.
    fn content(&self, alloc: Global, form: Form, words: &str) -> Result<Bytes, Miss> {
        match form {
            Form::Text => bytes_of(alloc, words),
            Form::Blocks => blocks_of(alloc, words),
            Form::File => file_of(alloc, &self.shelf, words),
        }
    }
}
