//! Scripts of calls, read: each line of a text is one command over blocks, objects, variables and
//! calls.
#![tactic(auto)]

mod commands;
mod conventions;
mod error;
mod forms;
mod read;
mod script;
mod spellings;
mod texts;

pub use conventions::{convention, convention_word};
pub use error::ScriptError;
pub use read::{one_reading, read_front, read_script};
pub use script::{
    Act, ArgWord, EnterItem, Fill, Front, Line, MemberRef, MemberWord, ReplyItem, Script, Target,
    Term, ValueWord,
};
