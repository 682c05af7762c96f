// The questions, each a row of one table: its group, its name, and its words, a letter each (args.rt). A row may stand anywhere.

// Those that only read, those that write into a room, and those whose answers have no bound.
#[derive(Clone, Copy)]
pub(crate) enum Group {
    Reads,
    Writes,
    Long,
}

use Group::{Long, Reads, Writes};

#[derive(Clone, Copy)]
pub(crate) struct Question {
    pub group: Group,
    pub name: &'static str,
    // a letter for each of its words
    pub words: &'static [u8],
}

const QUESTIONS: [(Group, &str, &[u8]); 69] = [
    (Reads, "response-name", b"2"),
    (Reads, "command-name", b"2"),
    (Reads, "value", b"28b"),
    (Reads, "end", b"8b"),
    (Reads, "unit", b"88b"),
    (Reads, "item", b"288b"),
    (Long, "units", b"8bm"),
    (Long, "numbers", b"288bm"),
    (Writes, "utf8", b"8br"),
    (Writes, "write-value", b"2wr"),
    (Writes, "write-string", b"hr"),
    (Writes, "write-array", b"2br"),
    (Writes, "tidy-value", b"2br"),
    (Reads, "device", b"b"),
    (Reads, "object", b"b"),
    (Reads, "storage", b"b"),
    (Reads, "property", b"lb"),
    (Writes, "tidy-device", b"br"),
    (Writes, "tidy-object", b"br"),
    (Writes, "tidy-storage", b"br"),
    (Writes, "tidy-property", b"lbr"),
    (Reads, "nth", b"l8b"),
    (Long, "list", b"lb"),
    (Reads, "step", b"b2821"),
    (Long, "newer", b"lbb"),
    (Reads, "header", b"b"),
    (Reads, "container", b"b"),
    (Writes, "write-container", b"224br"),
    (Writes, "to-network", b"dbr"),
    (Writes, "from-network", b"br"),
    (Reads, "packet", b"8b"),
    (Writes, "command", b"42nr"),
    (Writes, "command-data", b"42nbr"),
    (Writes, "panel", b"l4b2br"),
    (Writes, "call", b"w4444r"),
    (Reads, "answer", b"4b"),
    (Reads, "response", b"4b"),
    (Reads, "needed", b"4b"),
    (Reads, "handles", b"b"),
    (Reads, "storage-ids", b"b"),
    (Reads, "object-count", b"b"),
    (Reads, "storage-info", b"b"),
    (Reads, "device-info", b"b"),
    (Reads, "object-info", b"b"),
    (Long, "walk", b"nhno8b"),
    (Writes, "path", b"nhno8b8r"),
    (Long, "paths", b"nhno8br"),
    (Long, "delete", b"nhno8b8"),
    (Long, "collect", b"nhno8b"),
    (Long, "add", b"nhno8b84b"),
    (Long, "folders", b"nhno8b"),
    (Long, "folder-paths", b"nhno8br"),
    (Long, "link", b"nhno8b"),
    (Long, "linked-walk", b"nhno8bhh"),
    (Long, "linked-paths", b"nhno8bhhr"),
    (Long, "linked-delete", b"nhno8bhh8"),
    (Long, "linked-collect", b"nhno8bhh"),
    (Long, "linked-add", b"nhno8bhh84b"),
    (Long, "settings", b"eb"),
    (Long, "settings-find", b"eb42h"),
    (Writes, "settings-store", b"ebbr"),
    (Writes, "settings-write", b"422bkhr"),
    (Writes, "settings-remove", b"eb42khr"),
    (Reads, "record", b"b"),
    (Writes, "write-record", b"2br"),
    (Long, "recording", b"b"),
    (Long, "copy", b"br"),
    (Long, "mend", b"brm"),
    (Long, "listing", b"b"),
];

pub(crate) fn named(name: &str) -> Option<Question> {
    let (group, name, words) = QUESTIONS.iter().find(|row| row.1 == name).copied()?;
    Some(Question { group, name, words })
}
