//! Laws of what is known of objects. These functions do nothing: what they ensure is the law.

ghost use Rattle.script_objects.specs.Laws.{DataAddsNoObject, ObjectsAreFew, ObjectsStand, RepliesKeepObjects, RulesGoBack, WritesKeepObjects};

/// Bytes that are written into data leave what is known of the objects.
pub fn writes_keep_objects()
    ensures { WritesKeepObjects }
{}

/// A reply leaves what is known of the objects.
pub fn replies_keep_objects()
    ensures { RepliesKeepObjects }
{}

/// A new data block adds no object.
pub fn data_adds_no_object()
    ensures { DataAddsNoObject }
{}

/// The heap has no room for more objects than have numbers.
pub fn objects_are_few()
    ensures { ObjectsAreFew }
{}

/// On a machine that holds blocks the object of a number begins where the block of this number
/// does.
pub fn objects_stand()
    ensures { ObjectsStand }
{}

/// A rule that was taken out and is put back leaves the rules as they were.
pub fn rules_go_back()
    ensures { RulesGoBack }
{}
