//! The closures of roots, and the faults of those that have none.

ghost use Rattle.std.specs.Prelude.{None};

use crate::cases::check;
use idl_grammar::ClosedFile;
use include_closure::{ClosureError, closure};
use std::alloc::Global;
use std::process::Abort;
use xp_base::{
    Bytes, CalmSource, Fetched, List, MAX_TEXT, MemSource, Memory, Source, SourceError, dec_read,
    dec_text,
};

/// What it is of, files, names to begin with, and what the closure comes to: the names in order, or
/// its fault. Each file ends with a bar, and has its name before the first `=`. Between two names
/// stands a space.
struct Row {
    name: &'static str,
    files: &'static str,
    roots: &'static str,
    outcome: &'static str,
}

/// The names of files, each behind a space.
fn add_names(to: &mut Bytes, files: &[ClosedFile]) -> Result<(), Memory> {
    for file in files {
        to.append(b" ")?;
        to.append(file.name.as_slice())?;
    }
    Ok(())
}

/// Adds the name of a file behind a word, and the number of a line.
fn add_line(
    alloc: Global,
    to: &mut Bytes,
    word: &[u8],
    name: &Bytes,
    line: u32,
) -> Result<(), Memory> {
    let line = dec_text(alloc, line as i128)?;
    to.append(word)?;
    to.append(name.as_slice())?;
    to.append(b":")?;
    to.append(line.as_slice())
}

/// Adds a word for a fault, the name with it, and its line; 0 where it has none.
fn add_fault(alloc: Global, to: &mut Bytes, fault: &ClosureError) -> Result<(), Memory> {
    match fault {
        ClosureError::SourceFault(name) => add_line(alloc, to, b"failed ", name, 0),
        ClosureError::NoFile(name) => add_line(alloc, to, b"absent ", name, 0),
        ClosureError::TooLong(name) => add_line(alloc, to, b"long ", name, 0),
        ClosureError::Lex { name, line } => add_line(alloc, to, b"token ", name, *line),
        ClosureError::Syntax { name, line } => add_line(alloc, to, b"syntax ", name, *line),
        ClosureError::Memory => to.append(b"memory"),
    }
}

/// Adds a name to a list of them.
fn add_root(rt: &impl Abort, alloc: Global, list: &mut List<Bytes>, name: &str) {
    let name = Bytes::copy(alloc, name.as_bytes()).expect(rt, name);
    list.push(name).expect(rt, "names");
}

/// The names of a text, in which a space stands between two.
fn names_of(rt: &impl Abort, alloc: Global, names: &str) -> List<Bytes> {
    let mut list = List::new(alloc);
    for name in names.split_whitespace() {
        add_root(rt, alloc, &mut list, name);
    }
    list
}

/// Adds what a closure comes to, in words.
fn add_closure(
    alloc: Global,
    to: &mut Bytes,
    closed: &Result<List<ClosedFile>, ClosureError>,
) -> Result<(), Memory> {
    match closed {
        Ok(list) => add_names(to, list.as_slice()),
        Err(fault) => add_fault(alloc, to, fault),
    }
}

/// What the closure of the roots comes to, in words.
fn outcome<S: Source>(rt: &impl Abort, alloc: Global, files: &mut S, roots: &str) -> Bytes {
    let roots = names_of(rt, alloc, roots);
    assert!(rt; roots.len() <= 65_535);
    let closed = closure(alloc, files, &roots);
    let mut text = Bytes::new(alloc);
    add_closure(alloc, &mut text, &closed).expect(rt, "a text");
    text
}

/// Adds a file, whose name stands before the first `=`.
fn add_file(rt: &impl Abort, source: &mut CalmSource, file: &str) {
    let (name, text) = file.split_once('=').expect(rt, file);
    source
        .add(name.as_bytes(), text.as_bytes())
        .expect(rt, file);
}

/// A source of the files of a text, each of which ends with a bar.
fn source_of(rt: &impl Abort, alloc: Global, files: &str) -> CalmSource {
    let mut source = CalmSource::new(alloc);
    for file in files.split_terminator('|') {
        add_file(rt, &mut source, file);
    }
    source
}

/// Files, and what their closures come to.
const ROWS: [Row; 11] = [
    Row {
        name: "two files that include each other",
        files: "a=#include \"b\"|b=#include \"a\"|",
        roots: "a",
        outcome: " b a",
    },
    Row {
        name: "a root that is given twice",
        files: "a=|",
        roots: "a a",
        outcome: " a",
    },
    Row {
        name: "a root that another root includes, behind it",
        files: "a=#include \"b\"|b=|",
        roots: "a b",
        outcome: " b a",
    },
    Row {
        name: "a root that another root includes, before it",
        files: "a=#include \"b\"|b=|",
        roots: "b a",
        outcome: " b a",
    },
    Row {
        name: "in order of mention, and depth first",
        files: "a=#include \"b\"\n#include \"c\"\n#include \"d\"|b=#include \"d\"|c=|d=|",
        roots: "a",
        outcome: " d b c a",
    },
    Row {
        name: "no roots",
        files: "",
        roots: "",
        outcome: "",
    },
    Row {
        name: "an absent root",
        files: "",
        roots: "a",
        outcome: "absent a:0",
    },
    Row {
        name: "an absent include",
        files: "a=#include \"c\"|",
        roots: "a",
        outcome: "absent c:0",
    },
    Row {
        name: "a fault in an included file before an absent later include",
        files: "a=#include \"b\"\n#include \"c\"|b=\ninterface {|",
        roots: "a",
        outcome: "syntax b:2",
    },
    Row {
        name: "a place with no token before an absent later include",
        files: "a=#include \"b\"\n#include \"c\"|b=?|",
        roots: "a",
        outcome: "token b:1",
    },
    Row {
        name: "a file's own fault before those of its includes",
        files: "a=#include \"c\"\ninterface|",
        roots: "a",
        outcome: "syntax a:2",
    },
];

/// A closure comes to its outcome.
fn check_row(rt: &impl Abort, alloc: Global, row: &Row) {
    let mut files = source_of(rt, alloc, row.files);
    let found = outcome(rt, alloc, &mut files, row.roots);
    check(
        rt,
        row.name.as_bytes(),
        found.as_slice(),
        row.outcome.as_bytes(),
    );
}

/// Each closure comes to its outcome.
fn check_rows(rt: &impl Abort, alloc: Global, rows: &[Row]) {
    for row in rows {
        check_row(rt, alloc, row);
    }
}

#[test]
fn closures_come_to_these(rt: HostRuntime) {
    check_rows(&rt, rt.alloc(), &ROWS);
}

/// A source of a file that includes another, the second fetch of which fails.
fn failing_source(rt: &impl Abort, alloc: Global) -> MemSource {
    let mut fails = List::new(alloc);
    fails.push(2).expect(rt, "a number");
    let mut files = MemSource::new(alloc, fails);
    files.add(b"a", b"#include \"b\"").expect(rt, "a");
    files.add(b"b", b"").expect(rt, "b");
    files
}

#[test]
fn a_source_fails_at_its_second_fetch(rt: HostRuntime) {
    let mut files = failing_source(&rt, rt.alloc());
    let found = outcome(&rt, rt.alloc(), &mut files, "a");
    check(&rt, b"a fetch that fails", found.as_slice(), b"failed b:0");
}

/// So many lines of 1024 spaces.
fn spaces(rt: &impl Abort, alloc: Global, count: usize) -> Bytes {
    let line = [b' '; 1024];
    let mut text = Bytes::new(alloc);
    for _ in 0..count {
        text.append(&line).expect(rt, "spaces");
    }
    text
}

/// The names of files, of which the first sixteen are as long as a file may be.
const SEVENTEEN: &str = "a b c d e f g h i j k l m n o p q";

/// Adds as much text to each of these files but the last, which has one byte.
fn add_full(rt: &impl Abort, files: &mut CalmSource, text: &[u8]) {
    assert!(rt; text.len() == MAX_TEXT);
    for name in SEVENTEEN.split_whitespace() {
        files.add(name.as_bytes(), text).expect(rt, name);
    }
    files.add(b"q", b" ").expect(rt, "one byte");
}

#[test]
fn sixteen_mebibytes_are_the_most_together(rt: HostRuntime) {
    let full = spaces(&rt, rt.alloc(), 1024);
    let mut files = CalmSource::new(rt.alloc());
    add_full(&rt, &mut files, full.as_slice());
    let found = outcome(&rt, rt.alloc(), &mut files, SEVENTEEN);
    check(&rt, b"one byte too many", found.as_slice(), b"long q:0");
}

/// A source of a file of a mebibyte and a byte.
fn too_long(rt: &impl Abort, alloc: Global) -> CalmSource {
    let mut text = spaces(rt, alloc, 1024);
    text.append(b" ").expect(rt, "one more");
    let mut files = CalmSource::new(alloc);
    files.add(b"a", text.as_slice()).expect(rt, "a file");
    files
}

#[test]
fn a_file_has_at_most_a_mebibyte(rt: HostRuntime) {
    let mut files = too_long(&rt, rt.alloc());
    let found = outcome(&rt, rt.alloc(), &mut files, "a");
    check(&rt, b"a mebibyte and a byte", found.as_slice(), b"long a:0");
}

/// A source of many files, none of which is kept: a chain, in which each file includes the next; or
/// a file that includes all the others.
#[derive(Drop)]
struct Many {
    chain: bool,
}

/// The most files of such a source.
const MANY: u32 = 20_000;

/// Adds a line that includes the file of this number.
fn add_include(alloc: Global, text: &mut Bytes, number: u32) -> Result<(), Memory> {
    let name = dec_text(alloc, number as i128)?;
    text.append(b"#include \"")?;
    text.append(name.as_slice())?;
    text.append(b"\"\n")
}

/// Adds the text of the last of `MANY` files, which includes all the others.
fn add_includes(alloc: Global, text: &mut Bytes) -> Result<(), Memory> {
    for number in 0..MANY {
        add_include(alloc, text, number)?;
    }
    Ok(())
}

/// Adds the text of a file of this number: in a chain it includes the one before, and else only the
/// last includes any.
fn add_text(alloc: Global, text: &mut Bytes, number: u32, chain: bool) -> Result<(), Memory> {
    if !chain && number == MANY {
        add_includes(alloc, text)
    } else if chain && number > 0 {
        add_include(alloc, text, number - 1)
    } else {
        Ok(())
    }
}

/// The number that a name is; 0 for any other.
fn number_of(name: &[u8]) -> u32 {
    match dec_read(name) {
        Some(number) if 0 <= number && number <= MANY as i128 => number as u32,
        _ => 0,
    }
}

impl Source for Many {
    ghost files = { λ _. None };

    ghost faults = { λ _. 0 };

    fn fetch(&mut self, alloc: Global, name: &[u8], _limit: usize) -> Result<Fetched, SourceError> {
        let mut text = Bytes::new(alloc);
        add_text(alloc, &mut text, number_of(name), self.chain)?;
        Ok(Fetched::Found(text))
    }
}

/// Adds a number behind a space.
fn add_number(alloc: Global, text: &mut Bytes, number: u32) -> Result<(), Memory> {
    let name = dec_text(alloc, number as i128)?;
    text.append(b" ")?;
    text.append(name.as_slice())
}

/// The names of all of these files, each behind a space.
fn all_names(rt: &impl Abort, alloc: Global) -> Bytes {
    let mut text = Bytes::new(alloc);
    for number in 0..MANY + 1 {
        add_number(alloc, &mut text, number).expect(rt, "a name");
    }
    text
}

#[test]
fn many_includes(rt: HostRuntime) {
    let wanted = all_names(&rt, rt.alloc());
    for chain in &[true, false] {
        let mut files = Many { chain: *chain };
        let found = outcome(&rt, rt.alloc(), &mut files, "20000");
        let is_told = found.as_slice() == wanted.as_slice();
        assert!(rt; is_told, "in a chain: {chain}");
    }
}
