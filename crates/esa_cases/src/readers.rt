//! The reader that the words of a line `read` ask for.

use esa_case_parts::Reader;
use esa_job::command_of;

/// The reader and the file's name, of `job COMMAND crew FILE`, `job COMMAND alone FILE`, `keys COMMAND whole FILE`, `keys
/// COMMAND shares FILE`, `drops FILE` or `batch M FILE`.
pub fn reader_of(words: &[String]) -> Option<(Reader, &str)> {
    let mut rest = words.iter();
    let kind = rest.next()?;
    let reader = match kind.as_str() {
        "job" => Reader::Job {
            command: command_of(rest.next()?.as_str())?,
            crew: rest.next()?.as_str() == "crew",
        },
        "keys" => Reader::Keys {
            command: command_of(rest.next()?.as_str())?,
            shares: rest.next()?.as_str() == "shares",
        },
        "drops" => Reader::Drops,
        "batch" => Reader::Batch {
            m: rest.next()?.parse::<u32>().ok()?,
        },
        _ => return None,
    };
    Some((reader, rest.next()?.as_str()))
}
