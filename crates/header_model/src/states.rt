use crate::decls::Decl;
use xp_base::List;

/// Where a header stands behind some of its lines: the classes that have ended, and the one that
/// has begun.
#[derive(Debug, Drop)]
pub enum State {
    /// Behind a forward line or a class, or at the start.
    Between(List<Decl>),
    /// Behind the first line of a class.
    Begun(List<Decl>, Decl),
    /// Among the slots of a class.
    Inside(List<Decl>, Decl),
}
