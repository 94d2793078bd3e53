//! Laws of nesting: what looking back and reading forward find is what depths and matches say.

ghost use Rattle.std.specs.Prelude.{List};
ghost use Rattle.part_events.specs.Event.{Event};
ghost use Rattle.part_events.specs.NestingLaws.{InnermostOpenIsByDepth, ContentIsByMatch};
ghost use Rattle.part_events.specs.NestingLaws.{OutermostInOrder, ChildrenAreAtDepthOne};
ghost use Rattle.part_events.specs.NestingLaws.{WholeIsLongest};

/// Looking back finds the last start whose depth is one less than that of the place, and no other.
pub fn innermost_open_is_by_depth()
    ensures { InnermostOpenIsByDepth }
{}

/// Reading forward finds the match of a start: the least end at which the depth is one more than at
/// the start.
pub fn content_is_by_match()
    ensures { ContentIsByMatch }
{}

/// Outermost elements come in order, each ending at its match.
pub fn outermost_is_in_order()
    ensures { OutermostInOrder }
{}

/// The children of an element are those of its elements whose depth in it is 1.
pub fn children_are_at_depth_one()
    ensures { ChildrenAreAtDepthOne }
{}

/// The longest whole front of a part is whole, and the event behind it is an end that breaks the
/// nesting, or a flaw.
pub fn whole_is_longest()
    ensures { (events : List Event) → WholeIsLongest events }
{}
