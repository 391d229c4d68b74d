//! A member, looked for in a typelib.

ghost use Rattle.std.specs.Prelude.{◌≡◌};
ghost use Rattle.script_meaning.specs.Members as members;
ghost use Rattle.script_members.specs.Remembered.{Answers};

use crate::found::Found;
use call_model::{MemberKind, Status};
use call_scripts::{MemberRef, MemberWord};
use descriptor_reader::Typelib;
use transcript_text::Refusal;

/// Which of the slots of a name is meant.
fn kind_of(word: MemberWord) -> MemberKind
    ensures { result ≡ members.kind_of word }
{
    match word {
        MemberWord::Plain => MemberKind::Plain,
        MemberWord::Get => MemberKind::Get,
        MemberWord::Set => MemberKind::Set,
    }
}

/// The member that a line names. It is refused where no resolved interface has the name, none of
/// its methods is meant, or that one may not be called.
pub(crate) fn find_member<'a>(
    typelib: &Typelib<'a>,
    member: &MemberRef,
) -> Result<Found<'a>, Refusal>
    ensures { Answers typelib.now member.now result }
{
    let Some(iface) = typelib.find(member.iface.as_slice()) else {
        return Err(Refusal::NoInterface);
    };
    // A typelib stands for a valid library, so an interface has no more slots than the vtable.
    let _ = typelib.iface_count();
    match typelib.find_method(iface, kind_of(member.kind), member.name.as_slice()) {
        None => Err(Refusal::NoMethod),
        Some(method) => match method.status() {
            Status::Callable => Ok(Found { iface, method }),
            Status::Hidden => Err(Refusal::Hidden),
            Status::NotXpcom => Err(Refusal::NotXpcom),
            Status::Opaque => Err(Refusal::Opaque),
        },
    }
}
