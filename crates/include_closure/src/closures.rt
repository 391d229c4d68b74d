//! The visits of a closure, with the stack of open files in memory of its own.

ghost use Rattle.std.specs.Prelude.{◌≡◌, ◌≤◌, ◌<◌, ◌+◌, ◌^◌, [], ◌∷◌, IfErr, IfOk, OnOk, Some, length};
ghost use Rattle.xp_base.specs.Files.{Files};
ghost use Rattle.include_closure.specs.Closure.{ClosureCause, HasOneClosure, IsClosure, IsFirstFault, IsGiven, StopsWith, Visits, Whole};
ghost use Rattle.idl_grammar.specs.ClosedFiles.{AreLawfulFiles, items_of};
ghost use Rattle.include_closure.specs.Steps.{on_top};

use crate::begun::Begun;
use crate::closure_error::ClosureError;
use crate::files::{follow, open};
use crate::visited::{Frame, MAX_TOGETHER, Visited};
use idl_grammar::ClosedFile;
use std::alloc::Global;
use std::collections::VecDeque;
use xp_base::{Bytes, List, Memory, Source};

/// Puts the file that was opened on top of the open ones, where one was.
fn push_opened(open_files: &mut VecDeque<Frame>, opened: Option<Frame>) -> Result<(), Memory>
    ensures { OnOk result (open_files.new.items ≡ on_top opened open_files.old.items) }
{
    match opened {
        Some(frame) => Ok(open_files.push_front(frame)?),
        None => Ok(()),
    }
}

/// Puts a file back on the open ones.
fn put_back(open_files: &mut VecDeque<Frame>, frame: Frame) -> Result<(), Memory>
    ensures { OnOk result (open_files.new.items ≡ frame ∷ open_files.old.items) }
{
    open_files.push_front(frame)?;
    Ok(())
}

/// Visits one name: opens its file, and follows what that includes until all of it is closed.
fn visit<S: Source>(
    alloc: Global,
    files: &mut S,
    visited: &mut Visited,
    name: &[u8],
) -> Result<(), ClosureError>
    requires { visited.old.size ≤ MAX_TOGETHER }
    ensures same_files { S.files files.new ≡ S.files files.old }
    ensures cause { ClosureCause (S.faults files.old) (S.faults files.new) result }
    ensures never_falls { S.faults files.old ≤ S.faults files.new }
    ensures ok { (told : Files) → S.files files.old ≡ Some told
        → OnOk result (Visits told (name.now ∷ []) visited.old (Whole visited.new)) }
    ensures err { (told : Files) → S.files files.old ≡ Some told
        → IfErr result (StopsWith told (name.now ∷ []) visited.old) }
    ensures room { OnOk result (visited.new.size ≤ MAX_TOGETHER) }
    ensures few_files { OnOk result (length visited.new.closed + visited.old.size
        ≤ length visited.old.closed + 1 + visited.new.size) }
    ensures few_items { OnOk result (items_of visited.new.closed + visited.old.size
        ≤ items_of visited.old.closed + visited.new.size) }
    ensures lawful { AreLawfulFiles visited.old.closed
        → OnOk result (AreLawfulFiles visited.new.closed) }
{
    let mut open_files = VecDeque::new(alloc);
    let opened = open(alloc, files, visited, name)?;
    push_opened(&mut open_files, opened)?;
    'turns: while let Some(mut frame) = open_files.pop_front() {
        let Some(item) = frame.file.items.get(frame.next) else {
            let Frame { name, file, .. } = frame;
            visited.closed.push(ClosedFile { name, file })?;
            continue;
        };
        let opened = follow(alloc, files, visited, item)?;
        frame.next += 1;
        put_back(&mut open_files, frame)?;
        push_opened(&mut open_files, opened)?;
    }
    Ok(())
}

/// The include closure of `roots`, of which there are at most 65,535.
///
/// Names are visited in order, depth first: a file is fetched, its tokens and its tree are read,
/// the files that it includes are visited in order of mention, and then it is added. So an
/// included file comes before its includer, and each name once; a file that is begun is not begun
/// again. The first fault that is met is the answer. A file may have 1,048,576 bytes, and all
/// together 16,777,216.
pub fn closure<S: Source>(
    alloc: Global,
    files: &mut S,
    roots: &List<Bytes>,
) -> Result<List<ClosedFile>, ClosureError>
    requires { length roots.now ≤ 65535 }

    // Where the source tells its files: the closure, or its first fault, of which each roots have
    // one.
    ensures ok { (told : Files) → S.files files.old ≡ Some told
        → IfOk result (IsClosure told roots.now) }
    ensures err { (told : Files) → S.files files.old ≡ Some told
        → IfErr result (IsFirstFault told roots.now) }
    ensures one { (told : Files) → HasOneClosure told roots.now }
    ensures given { (told : Files) → S.files files.old ≡ Some told
        → IsGiven told roots.now result }

    // `SourceFault` comes only where the source's count rose; else the count is as before.
    ensures cause { ClosureCause (S.faults files.old) (S.faults files.new) result }
    ensures never_falls { S.faults files.old ≤ S.faults files.new }

    // The source's files are as before, on every answer.
    ensures same_files { S.files files.new ≡ S.files files.old }

    // Whether or not files are told.
    ensures few_files { IfOk result (λ list. length list < 2 ^ 32) }
    ensures few_items { IfOk result (λ list. items_of list < 2 ^ 32) }
    ensures lawful { IfOk result AreLawfulFiles }
{
    let mut visited = Visited {
        begun: Begun::new(alloc),
        size: 0,
        closed: List::new(alloc),
    };
    'roots: for root in roots.as_slice() {
        visit(alloc, files, &mut visited, root.as_slice())?;
    }
    Ok(visited.closed)
}
