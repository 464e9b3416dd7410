//! Reads a file of cases, line by line.

use crate::each::Each;
use crate::piece::{add_piece, add_text};
use crate::statement::{add_device, add_fails, split_word, status};
use crate::wrong::{Mistake, Wrong};
use crate::{Call, Case, File, Held, Run};
use std::alloc::Global;

/// The cases of a file, in its order, or its first line that isn't in the form.
pub fn read_cases(alloc: Global, text: &str) -> Result<Vec<Case>, Mistake> {
    let mut reader = Reader::new(alloc);
    let mut line = 0usize;
    for words in text.lines() {
        line = line.saturating_add(1);
        if let Err(wrong) = reader.read(words) {
            return Err(Mistake { line, wrong });
        }
    }
    match reader.end() {
        Ok(()) => Ok(reader.cases),
        Err(wrong) => Err(Mistake { line, wrong }),
    }
}

/// Whether a line that begins with this word begins something new.
fn is_head(word: &str) -> bool {
    matches!(word, "bytes" | "setting" | "case" | "each")
}

/// Files that several cases begin with.
#[derive(Drop)]
struct Setting {
    name: String,
    files: Vec<File>,
}

/// What the next line may add to. Each list's last entry is the one.
#[derive(Clone, Copy, PartialEq, Eq)]
enum Open {
    Nothing,
    Bytes,
    Setting,
    SettingFile,
    Case,
    CaseFile,
    Held,
    Left,
}

/// What the lines so far have said.
#[derive(Drop)]
struct Reader {
    alloc: Global,
    named: Vec<File>,
    settings: Vec<Setting>,
    cases: Vec<Case>,
    open: Open,
    /// The case that is there once for each of several numbers, while its lines are read.
    each: Option<Each>,
    /// Whether the cases that begin now are followed by others of their `each`.
    followed: bool,
}

impl Reader {
    fn new(alloc: Global) -> Reader {
        Reader {
            alloc,
            named: Vec::new(alloc),
            settings: Vec::new(alloc),
            cases: Vec::new(alloc),
            open: Open::Nothing,
            each: None,
            followed: false,
        }
    }

    /// Reads the next line.
    fn read(&mut self, line: &str) -> Result<(), Wrong> {
        let line = line.trim_ascii_start();
        if line.is_empty() || line.starts_with('#') {
            return Ok(());
        }
        let (word, rest) = split_word(line);
        if is_head(word) && !self.awaits_case() {
            self.repeat()?;
        }
        if word == "each" {
            return self.begin_each(rest);
        }
        self.read_first(word, line)
    }

    /// Whether the last line was an `each`, so that its case follows.
    fn awaits_case(&self) -> bool {
        match &self.each {
            Some(each) => each.is_empty(),
            None => false,
        }
    }

    fn begin_each(&mut self, range: &str) -> Result<(), Wrong> {
        if self.awaits_case() {
            return Err(Wrong::Place);
        }
        self.end_block()?;
        let each = Each::read(self.alloc, range)?;
        self.followed = each.has_later();
        self.each = Some(each);
        Ok(())
    }

    /// Takes a line, with the first number in it where its case is there for several.
    fn read_first(&mut self, word: &str, line: &str) -> Result<(), Wrong> {
        if self.awaits_case() && word != "case" {
            return Err(Wrong::Place);
        }
        let text = match &mut self.each {
            Some(each) => each.add(line)?,
            None => return self.take(line),
        };
        self.take(text.as_str())
    }

    /// Reads the case that ends here once more for each later number that it is there for.
    fn repeat(&mut self) -> Result<(), Wrong> {
        self.followed = false;
        let Some(each) = self.each.take() else {
            return Ok(());
        };
        for number in each.later() {
            self.followed = number < each.last();
            let lines = each.with_number(number)?;
            for line in &lines {
                self.take(line.as_str())?;
            }
        }
        self.followed = false;
        Ok(())
    }

    /// Ends the file.
    fn end(&mut self) -> Result<(), Wrong> {
        if self.awaits_case() {
            return Err(Wrong::Place);
        }
        self.repeat()?;
        self.end_block()
    }

    /// Takes a line.
    fn take(&mut self, line: &str) -> Result<(), Wrong> {
        let (word, rest) = split_word(line);
        match word {
            "bytes" => self.begin_bytes(rest),
            "setting" => self.begin_setting(rest),
            "case" => self.begin_case(rest),
            "in" => self.enter(rest),
            "file" => self.begin_file(rest),
            "left" => self.begin_left(rest),
            "cabinet" => add_fails(&mut self.case()?.cabinet_fails, rest),
            "printer" => add_fails(&mut self.case()?.printer_fails, rest),
            "device" => self.add_to_device(rest),
            "run" => self.begin_run(Call::Program, rest),
            "crew" => self.begin_run(Call::Crew, rest),
            "disk" => self.begin_run(Call::Disk, rest),
            "read" => self.begin_run(Call::Reader, rest),
            "prints" => self.add_printed(rest),
            "status" => self.set_status(rest),
            _ => self.add_bytes(line),
        }
    }

    /// Ends what the lines before belong to. A case must make a call.
    fn end_block(&mut self) -> Result<(), Wrong> {
        self.open = Open::Nothing;
        match self.cases.last() {
            Some(case) if case.runs.is_empty() => Err(Wrong::Idle),
            _ => Ok(()),
        }
    }

    fn begin_bytes(&mut self, name: &str) -> Result<(), Wrong> {
        self.end_block()?;
        if has_file(&self.named, name) {
            return Err(Wrong::Twice);
        }
        add_file(self.alloc, &mut self.named, name)?;
        self.open = Open::Bytes;
        Ok(())
    }

    fn begin_setting(&mut self, name: &str) -> Result<(), Wrong> {
        self.end_block()?;
        if self
            .settings
            .iter()
            .any(|setting| setting.name.as_str() == name)
        {
            return Err(Wrong::Twice);
        }
        let name = name_of(self.alloc, name)?;
        let files = Vec::new(self.alloc);
        self.settings.push(Setting { name, files })?;
        self.open = Open::Setting;
        Ok(())
    }

    fn begin_case(&mut self, name: &str) -> Result<(), Wrong> {
        self.end_block()?;
        if self.cases.iter().any(|case| case.name.as_str() == name) {
            return Err(Wrong::Twice);
        }
        let case = Case {
            name: name_of(self.alloc, name)?,
            followed: self.followed,
            files: Vec::new(self.alloc),
            cabinet_fails: Vec::new(self.alloc),
            printer_fails: Vec::new(self.alloc),
            device_fails: Vec::new(self.alloc),
            device_flips: Vec::new(self.alloc),
            device_holds: None,
            runs: Vec::new(self.alloc),
            left: Vec::new(self.alloc),
        };
        self.cases.push(case)?;
        self.open = Open::Case;
        Ok(())
    }

    /// The case that is being read.
    fn case(&mut self) -> Result<&mut Case, Wrong> {
        match self.open {
            Open::Case | Open::CaseFile | Open::Held | Open::Left => self
                .cases
                .last_mut()
                .ok_or(Wrong::Place),
            _ => Err(Wrong::Place),
        }
    }

    /// The last call of the case that is being read.
    fn last_run(&mut self) -> Result<&mut Run, Wrong> {
        self.case()?.runs.last_mut().ok_or(Wrong::Place)
    }

    /// The files of the case or the setting that is being read.
    fn files(&mut self) -> Result<&mut Vec<File>, Wrong> {
        match self.open {
            Open::Setting | Open::SettingFile => match self.settings.last_mut() {
                Some(setting) => Ok(&mut setting.files),
                None => Err(Wrong::Place),
            },
            _ => Ok(&mut self.case()?.files),
        }
    }

    /// Adds the files of a setting.
    fn enter(&mut self, name: &str) -> Result<(), Wrong> {
        let mut copies = Vec::new(self.alloc);
        match self
            .settings
            .iter()
            .find(|setting| setting.name.as_str() == name)
        {
            Some(setting) => add_copies(self.alloc, &mut copies, &setting.files)?,
            None => return Err(Wrong::Unknown),
        }
        let files = self.files()?;
        for file in copies {
            files.push(file)?;
        }
        Ok(())
    }

    fn begin_file(&mut self, name: &str) -> Result<(), Wrong> {
        let alloc = self.alloc;
        add_file(alloc, self.files()?, name)?;
        self.open = match self.open {
            Open::Setting | Open::SettingFile => Open::SettingFile,
            _ => Open::CaseFile,
        };
        Ok(())
    }

    fn begin_left(&mut self, name: &str) -> Result<(), Wrong> {
        let alloc = self.alloc;
        add_file(alloc, &mut self.case()?.left, name)?;
        self.open = Open::Left;
        Ok(())
    }

    /// Adds what a line `device ..` says.
    fn add_to_device(&mut self, rest: &str) -> Result<(), Wrong> {
        match split_word(rest) {
            ("holds", slot) => self.begin_held(slot),
            _ => add_device(self.case()?, rest),
        }
    }

    fn begin_held(&mut self, slot: &str) -> Result<(), Wrong> {
        let bytes = Vec::new(self.alloc);
        let slot = slot.parse::<u32>().or(Err(Wrong::Number))?;
        let case = self.case()?;
        if case.device_holds.is_some() {
            return Err(Wrong::Twice);
        }
        case.device_holds = Some(Held { slot, bytes });
        self.open = Open::Held;
        Ok(())
    }

    fn begin_run(&mut self, call: Call, words: &str) -> Result<(), Wrong> {
        let alloc = self.alloc;
        let mut run = Run {
            call,
            words: Vec::new(alloc),
            printed: Vec::new(alloc),
            status: 0,
        };
        for word in words.split(' ') {
            run.words.push(String::from_str(alloc, word)?)?;
        }
        self.case()?.runs.push(run)?;
        self.open = Open::Case;
        Ok(())
    }

    /// Adds a line that the last call must print.
    fn add_printed(&mut self, text: &str) -> Result<(), Wrong> {
        let printed = &mut self.last_run()?.printed;
        add_text(printed, text)?;
        printed.push(b'\n')?;
        Ok(())
    }

    fn set_status(&mut self, text: &str) -> Result<(), Wrong> {
        let status = status(text)?;
        self.last_run()?.status = status;
        Ok(())
    }

    /// Adds the bytes of a piece to what is open.
    fn add_bytes(&mut self, piece: &str) -> Result<(), Wrong> {
        let mut bytes = Vec::new(self.alloc);
        add_piece(&mut bytes, &self.named, piece)?;
        match self.open {
            Open::Bytes => append(&mut self.named, &bytes),
            Open::SettingFile | Open::CaseFile => append(self.files()?, &bytes),
            Open::Left => append(&mut self.case()?.left, &bytes),
            Open::Held => match &mut self.case()?.device_holds {
                Some(held) => Ok(held.bytes.extend_from_slice(&bytes)?),
                None => Err(Wrong::Place),
            },
            _ => Err(Wrong::Place),
        }
    }
}

/// Adds bytes to the last file.
fn append(files: &mut Vec<File>, bytes: &[u8]) -> Result<(), Wrong> {
    match files.last_mut() {
        Some(file) => Ok(file.bytes.extend_from_slice(bytes)?),
        None => Err(Wrong::Place),
    }
}

/// A name, which has at least one byte.
fn name_of(alloc: Global, name: &str) -> Result<String, Wrong> {
    if name.is_empty() {
        return Err(Wrong::Nameless);
    }
    Ok(String::from_str(alloc, name)?)
}

/// Whether a file of this name is there.
fn has_file(files: &[File], name: &str) -> bool {
    files.iter().any(|file| file.name.as_str() == name)
}

/// Adds an empty file.
fn add_file(alloc: Global, files: &mut Vec<File>, name: &str) -> Result<(), Wrong> {
    let name = name_of(alloc, name)?;
    let bytes = Vec::new(alloc);
    Ok(files.push(File { name, bytes })?)
}

/// Adds copies of files.
fn add_copies(alloc: Global, copies: &mut Vec<File>, files: &[File]) -> Result<(), Wrong> {
    for file in files {
        let name = file.name.clone()?;
        let bytes = Vec::from_slice(alloc, &file.bytes)?;
        copies.push(File { name, bytes })?;
    }
    Ok(())
}
