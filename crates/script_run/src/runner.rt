//! What the lines of a script are run with.

ghost use Rattle.std.specs.Prelude.{◌≡◌, IfOk};
ghost use Rattle.script_meaning.specs.State.{empty};
ghost use Rattle.script_stage.specs.Standing.{Stands};

use call_model::Conv;
use descriptor_reader::Typelib;
use script_members::Members;
use script_stage::Stage;
use std::alloc::Global;
use xp_base::Memory;

/// A typelib, the members of it that lines named, and the stage.
#[derive(Drop)]
pub(crate) struct Runner<'a> {
    pub alloc: Global,
    pub typelib: &'a Typelib<'a>,
    pub members: Members<'a>,
    pub stage: Stage<'a>,
}

impl<'a> Runner<'a> {
    /// Before the first line of a script, over a typelib and under a convention. The one error is
    /// want of memory.
    pub(crate) fn new(
        alloc: Global,
        typelib: &'a Typelib<'a>,
        conv: Conv,
    ) -> Result<Runner<'a>, Memory>
        ensures typelib { IfOk result (λ runner. runner.typelib.now ≡ typelib.now) }
        ensures members { IfOk result (λ runner. runner.members.library ≡ typelib.now) }
        ensures conv { IfOk result (λ runner. runner.stage.machine.conv ≡ conv) }
        ensures stands { IfOk result (λ runner. Stands runner.stage empty) }
    {
        Ok(Runner {
            alloc,
            typelib,
            members: Members::new(alloc, typelib),
            stage: Stage::new(alloc, conv)?,
        })
    }
}
