//! What the words of a line stand for, with numbers in the place of names.

ghost use Rattle.std.specs.Prelude.{◌≡◌, IfOk};
ghost use Rattle.script_meaning.specs.State.{State};
ghost use Rattle.script_meaning.specs.Words as words;
ghost use Rattle.script_stage.specs.Standing.{Stands};

use crate::stages::Stage;
use call_scripts::{ArgWord, ReplyItem, Term};
use invoke_by_index::Arg;
use std::alloc::Global;
use xp_base::{Bytes, List, Memory};

impl<'a> Stage<'a> {
    /// The argument that a word of a call stands for; None where no block or variable has the name
    /// of its value.
    fn arg_of(&self, word: &ArgWord) -> Option<Arg>
        ensures { (state : State) → Stands self.now state → result ≡ words.arg_of state word.now }
    {
        match word {
            ArgWord::Value(value) => Some(Arg::Value(self.number_of_value(value)?)),
            ArgWord::Cell(_) => Some(Arg::Cell),
            ArgWord::ValueCell(value, _) => Some(Arg::ValueCell(self.number_of_value(value)?)),
            ArgWord::Absent => Some(Arg::Absent),
        }
    }

    /// The arguments of a call; None where no block or variable has a name among them. The one
    /// error is want of memory.
    pub fn args_of(&self, alloc: Global, args: &[ArgWord]) -> Result<Option<List<Arg>>, Memory>
        ensures { (state : State) → Stands self.now state
            → IfOk result (λ found. found ≡ words.args_of state args.now) }
    {
        let mut found = List::new(alloc);
        for word in args {
            let Some(arg) = self.arg_of(word) else {
                return Ok(None);
            };
            found.push(arg)?;
        }
        Ok(Some(found))
    }

    /// A term with the address in the place of the name of a block; None where no block has it.
    fn term_of(&self, term: &Term) -> Option<Term>
        ensures { (state : State) → Stands self.now state → result ≡ words.term_of state term.now }
    {
        match term {
            Term::Number(number) => Some(Term::Number(*number)),
            Term::Address(name) => Some(Term::Number(self.address_of(name.as_slice())?)),
            Term::Arg(position) => Some(Term::Arg(*position)),
            Term::InCell(position) => Some(Term::InCell(*position)),
        }
    }

    /// A sum for the cell of a position, with addresses in the place of names.
    fn sum_of(&self, at: u16, first: &Term, second: &Option<Term>) -> Option<ReplyItem>
        ensures { (state : State) → Stands self.now state
            → result ≡ words.sum_of state at first.now second.now }
    {
        let first = self.term_of(first)?;
        let second = match second {
            None => None,
            Some(term) => Some(self.term_of(term)?),
        };
        Some(ReplyItem::Set { at, first, second })
    }

    /// An item of a reply with addresses in the place of names; None where no block has a name in
    /// it. The one error is want of memory.
    fn item_of(&self, alloc: Global, item: &ReplyItem) -> Result<Option<ReplyItem>, Memory>
        ensures { (state : State) → Stands self.now state
            → IfOk result (λ found. found ≡ words.item_of state item.now) }
    {
        match item {
            ReplyItem::Result(number) => Ok(Some(ReplyItem::Result(*number))),
            ReplyItem::Set { at, first, second } => Ok(self.sum_of(*at, first, second)),
            ReplyItem::Fill { at, offset, bytes } => Ok(Some(ReplyItem::Fill {
                at: *at,
                offset: *offset,
                bytes: Bytes::copy(alloc, bytes.as_slice())?,
            })),
        }
    }

    /// The rule that the items of a reply make, with addresses in the place of names; None where
    /// no block has a name among them. The one error is want of memory.
    pub fn rule_of(
        &self,
        alloc: Global,
        items: &[ReplyItem],
    ) -> Result<Option<List<ReplyItem>>, Memory>
        ensures { (state : State) → Stands self.now state
            → IfOk result (λ rule. rule ≡ words.rule_of state items.now) }
    {
        let mut rule = List::new(alloc);
        for item in items {
            let Some(item) = self.item_of(alloc, item)? else {
                return Ok(None);
            };
            rule.push(item)?;
        }
        Ok(Some(rule))
    }
}
